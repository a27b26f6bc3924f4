// What comes of a message of the server.
ghost use Rattle.std.specs.Prelude.{◌≡◌, ◌==◌, true, false, nat_le, IfOk, IsOk};
ghost use Rattle.std.specs.List.{list_all};
ghost use Rattle.step_table.specs.Messages.{trace_fits, told_fits};
ghost use Rattle.step_table.specs.ClientState.{stays, on_file};
ghost use Rattle.step_table.specs.ClientTakes.{updated, acked, take_own, on_told};
ghost use Rattle.held_files.specs.Files.{recalled};
ghost use Rattle.client_state.specs.Acts.{row_of};
ghost use Rattle.client_takes.specs.Takes.{takes_own, takes_told};

use crate::fits::to_client_fits;
use crate::grants::{Grant, take_grant};
use crate::replies::take_reply;
use client_state::{Acted, ClientState};
use plain_types::{SnapUpdate, ToClient};
use snap_ids::{Ino, NoMemory};

// The server wants a file back.
fn take_recall(client: &mut ClientState, ino: Ino) -> Acted
    ensures { row_of client.new result ≡ stays (on_file client.old ino recalled) }
{
    client.recalled(ino);
    client.stay()
}

// The realms of files that the client holds for Write have changed.
fn take_notice(client: &mut ClientState, update: &SnapUpdate) -> Result<Acted, NoMemory>
    requires { list_all trace_fits update.now ≡ true }
    ensures { IfOk result (λ acted. row_of client.new acted ≡ stays (updated client.old update.now)) }
{
    client.update(update)?;
    Ok(client.stay())
}

// The flush of this number is written down.
fn take_ack(client: &mut ClientState, number: u64) -> Result<Acted, NoMemory>
    ensures { IfOk result (λ acted. row_of client.new acted ≡ stays (acked client.old (λ n. n == number))) }
{
    client.acknowledge(number)?;
    Ok(client.stay())
}

// The connection stands: flushes up to a number are written down, and the realms are those of the update.
fn take_welcome(client: &mut ClientState, last: u64, update: &SnapUpdate) -> Result<Acted, NoMemory>
    requires { list_all trace_fits update.now ≡ true }
    ensures { IfOk result (λ acted. row_of client.new acted
        ≡ stays (updated (acked (record client.old { frozen = false }) (λ n. nat_le n last)) update.now)) }
{
    client.thaw();
    client.acknowledge_up_to(last)?;
    take_notice(client, update)
}

// A message of the client's connection, or one that has no number.
fn take_own(client: &mut ClientState, told: ToClient) -> Result<Acted, NoMemory>
    requires { told_fits told ≡ true }
    ensures row { IfOk result (λ acted. row_of client.new acted ≡ take_own client.old told) }
    ensures dropped { takes_own client.old told ≡ false → IsOk result }
{
    match told {
        ToClient::Restarted { .. } => client.connect(),
        ToClient::Reply {
            tid,
            stamp,
            answer,
            ..
        } => take_reply(client, tid, stamp, answer),
        ToClient::Grant {
            tid,
            stamp,
            ino,
            mode,
            size,
            file,
            ..
        } => {
            let grant = Grant {
                stamp,
                ino,
                mode,
                size,
                file,
            };
            take_grant(client, tid, &grant)
        }
        ToClient::Recall { ino, .. } => Ok(take_recall(client, ino)),
        ToClient::Notice { update, .. } => take_notice(client, &update),
        ToClient::FlushAck { number, .. } => take_ack(client, number),
        ToClient::Welcome {
            flushed,
            update,
            ..
        } => take_welcome(client, flushed, &update),
    }
}

/// A client takes a message of the server: what it sends, which changes take effect, and which lines get their replies are
/// those of the protocol's table, and so is its new state. A message of another connection is dropped, and so is one with a
/// number that can't be, and one for which the client doesn't wait; that takes no memory. After `NoMemory` the client may
/// only be dropped.
pub fn take_told(client: &mut ClientState, told: ToClient) -> Result<Acted, NoMemory>
    ensures row { IfOk result (λ acted. row_of client.new acted ≡ on_told client.old told) }
    ensures dropped { takes_told client.old told ≡ false → IsOk result }
{
    client.hear(&told);
    if !client.may_take(&told) {
        return Ok(client.stay());
    }
    if !to_client_fits(&told) {
        return Ok(client.stay());
    }
    take_own(client, told)
}
