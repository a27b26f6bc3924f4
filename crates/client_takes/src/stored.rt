// What comes of a message of the store.
ghost use Rattle.std.specs.Prelude.{◌≡◌, true, false, IfOk, IsOk};
ghost use Rattle.step_table.specs.ClientState.{Idle, stays, on_file};
ghost use Rattle.step_table.specs.ClientTakes.{is_key, key_of, store_answer, take_read, take_stored, on_stored};
ghost use Rattle.held_files.specs.Files.{stored};
ghost use Rattle.client_state.specs.Acts.{row_of, under_of};
ghost use Rattle.client_takes.specs.Takes.{is_answered, takes_said, takes_stored};

use crate::fits::from_store_fits;
use client_state::{Acted, ClientState, UnderWay};
use plain_types::{Answer, FromStore};
use snap_ids::{Ino, NoMemory};

// The key of what the store was asked.
fn key_of(said: &FromStore) -> Option<u32>
    ensures { result ≡ key_of said.now }
{
    match said {
        FromStore::Got { key, .. } => Some(*key),
        FromStore::NotThere { key } => Some(*key),
        FromStore::CloneListIs { key, .. } => Some(*key),
        FromStore::Stored { .. } => None,
    }
}

// Whether a message of the store has this key.
fn has_key(said: &FromStore, number: u32) -> bool
    ensures { result ≡ is_key number (key_of said.now) }
{
    match key_of(said) {
        Some(key) => key == number,
        None => false,
    }
}

// Whether the store answers the line under way.
fn is_answered(under: &UnderWay, said: &FromStore) -> bool
    ensures { result ≡ is_answered said.now (under_of under.now) }
{
    match under {
        UnderWay::AtStore { number, .. } => has_key(said, *number),
        _ => false,
    }
}

// What a line is answered by what the store says.
fn store_answer(
    client: &ClientState,
    ino: Ino,
    head: bool,
    said: FromStore,
) -> Result<Answer, NoMemory>
    ensures { IfOk result (λ answer. answer ≡ store_answer client.now ino head said) }
{
    match said {
        FromStore::Got { bytes, .. } => Ok(Answer::FileBytes(client.bytes_with(ino, head, bytes)?)),
        FromStore::CloneListIs { list, .. } => Ok(Answer::ClonesAre(list)),
        FromStore::NotThere { .. } => Ok(Answer::Gone),
        FromStore::Stored { .. } => Ok(Answer::Gone),
    }
}

// The line that asked the store gets its reply, when nothing is under way any more.
fn answered(client: &mut ClientState, under: &UnderWay, said: FromStore) -> Result<Acted, NoMemory>
    requires idle { client.old.under ≡ Idle }
    requires taken { is_answered said (under_of under.now) ≡ true }
    ensures { IfOk result (λ acted. row_of client.new acted ≡ take_read client.old said (under_of under.now)) }
{
    match under {
        UnderWay::AtStore {
            number,
            entry,
            ino,
            head,
        } => {
            let answer = store_answer(client, *ino, *head, said)?;
            client.reply(*number, false, *entry, answer)
        }
        UnderWay::Idle => Ok(client.stay()),
        UnderWay::Open { .. } => Ok(client.stay()),
    }
}

// The store's answer is taken where it is to the line under way, and else dropped.
fn take_read(client: &mut ClientState, said: FromStore) -> Result<Acted, NoMemory>
    ensures row { IfOk result (λ acted. row_of client.new acted ≡ take_read client.old said client.old.under) }
    ensures dropped { is_answered said client.old.under ≡ false → IsOk result }
{
    if !is_answered(client.under(), &said) {
        return Ok(client.stay());
    }
    let under = client.idle();
    answered(client, &under, said)
}

// The oldest piece of a file that was sent is stored.
fn take_done(client: &mut ClientState, ino: Ino) -> Acted
    ensures { row_of client.new result ≡ stays (on_file client.old ino stored) }
{
    client.stored(ino);
    client.stay()
}

// What the store says is taken.
fn take_said(client: &mut ClientState, said: FromStore) -> Result<Acted, NoMemory>
    ensures row { IfOk result (λ acted. row_of client.new acted ≡ take_stored client.old said) }
    ensures dropped { takes_said client.old said ≡ false → IsOk result }
{
    match said {
        FromStore::Stored { ino } => Ok(take_done(client, ino)),
        said => take_read(client, said),
    }
}

/// A client takes a message of the store: which line gets its reply is as in the protocol's table, and so is its new state.
/// An answer to another line than the one under way is dropped, and so is one with a number that can't be; that takes no
/// memory. After `NoMemory` the client may only be dropped.
pub fn take_stored(client: &mut ClientState, said: FromStore) -> Result<Acted, NoMemory>
    ensures row { IfOk result (λ acted. row_of client.new acted ≡ on_stored client.old said) }
    ensures dropped { takes_stored client.old said ≡ false → IsOk result }
{
    if !from_store_fits(&said) {
        return Ok(client.stay());
    }
    take_said(client, said)
}
