// What comes of a grant.
ghost use Rattle.std.specs.Prelude.{◌≡◌, true, false, IfOk, IsOk};
ghost use Rattle.step_table.specs.Messages.{trace_fits};
ghost use Rattle.step_table.specs.ClientState.{Idle};
ghost use Rattle.step_table.specs.ClientTakes.{take_grant};
ghost use Rattle.client_state.specs.Acts.{row_of, under_of, under_fits};
ghost use Rattle.client_takes.specs.Takes.{takes_grant};

use crate::asked::asks_for;
use client_state::{Acted, ClientState, UnderWay};
use plain_types::{FileTrace, Stamp};
use snap_ids::{Ino, Mode, NoMemory};

/// A capability that the server grants: the file's size in bytes, and the realms that contain it.
#[derive(Drop)]
pub(crate) struct Grant {
    pub(crate) stamp: Stamp,
    pub(crate) ino: Ino,
    pub(crate) mode: Mode,
    pub(crate) size: u32,
    pub(crate) file: FileTrace,
}

// Whether a grant is what the open request asked for, and the file isn't held for Write.
fn takes_grant(client: &ClientState, under: &UnderWay, tid: u64, grant: &Grant) -> bool
    ensures { result ≡ takes_grant client.now.files tid grant.now.ino grant.now.mode (under_of under.now) }
{
    match under {
        UnderWay::Open {
            tid: open_tid,
            request,
            ..
        } => {
            *open_tid == tid
                && asks_for(request, grant.ino, grant.mode)
                && !client.writes(grant.ino)
        }
        _ => false,
    }
}

// The file is held as it is granted, and the line that asked for it goes on, when nothing is under way any more.
fn granted(
    client: &mut ClientState,
    under: UnderWay,
    tid: u64,
    grant: &Grant,
) -> Result<Acted, NoMemory>
    requires idle { client.old.under ≡ Idle }
    requires taken { takes_grant client.old.files tid grant.now.ino grant.now.mode (under_of under) ≡ true }
    requires under { under_fits (under_of under) ≡ true }
    requires fits { trace_fits grant.now.file ≡ true }
    ensures { IfOk result (λ acted. row_of client.new acted
        ≡ take_grant client.old tid grant.now.stamp grant.now.ino grant.now.mode grant.now.size grant.now.file (under_of under)) }
{
    match under {
        UnderWay::Open { number, line, .. } => {
            client.grant(
                grant.ino,
                grant.mode,
                grant.size,
                grant.stamp.snap,
                &grant.file,
            )?;
            client.go_on(number, grant.ino, line)
        }
        UnderWay::Idle => Ok(client.stay()),
        UnderWay::AtStore { .. } => Ok(client.stay()),
    }
}

/// A grant is taken where it is what the open request asked for, and else dropped.
pub(crate) fn take_grant(
    client: &mut ClientState,
    tid: u64,
    grant: &Grant,
) -> Result<Acted, NoMemory>
    requires { trace_fits grant.now.file ≡ true }
    ensures row { IfOk result (λ acted. row_of client.new acted ≡ take_grant client.old tid
        grant.now.stamp grant.now.ino grant.now.mode grant.now.size grant.now.file client.old.under) }
    ensures dropped { takes_grant client.old.files tid grant.now.ino grant.now.mode client.old.under ≡ false → IsOk result }
{
    if !takes_grant(client, client.under(), tid, grant) {
        return Ok(client.stay());
    }
    let under = client.idle();
    granted(client, under, tid, grant)
}
