// The barrier at which all clients wait.
ghost use Rattle.std.specs.Prelude.{◌≡◌, ◌≤◌, flat_map, IfOk, OnOk};
ghost use Rattle.step_table.specs.Acts.{acts};
ghost use Rattle.step_table.specs.Background as background;
ghost use Rattle.step_table.specs.Background.{first_barrier, open_to};
ghost use Rattle.std.specs.Prelude.{Some};
ghost use Rattle.step_table.specs.ServerState.{Server, up_to};
ghost use Rattle.mds_state.specs.Acted.{Stands};
ghost use Rattle.mds_turns.specs.Turned.{passing, IsAt, Turned};

use crate::own::write_own;
use mds_state::MdsState;
use plain_types::{Answer, What};
use snap_ids::NoMemory;

// A client's barrier is answered.
fn open_for(state: &mut MdsState, client: u8) -> Result<(), NoMemory>
    requires state { IsAt state.old }
    requires from_one { 1 ≤ client }
    requires upto { client ≤ state.old.clients }
    ensures clients { OnOk result (state.new.clients ≡ state.old.clients) }
    ensures table { OnOk result ((s : Server) → Stands state.old s → Stands state.new (acts s (open_to client))) }
{
    match state.take_held(client) {
        None => Ok(()),
        Some(asked) => {
            state.answer(&asked, Answer::Done)?;
            Ok(())
        }
    }
}

// Each client's is.
fn open_all(state: &mut MdsState) -> Result<(), NoMemory>
    requires state { IsAt state.old }
    ensures clients { OnOk result (state.new.clients ≡ state.old.clients) }
    ensures table { OnOk result ((s : Server) → Stands state.old s
        → Stands state.new (acts s (flat_map open_to (up_to s.clients)))) }
{
    let clients = state.clients();
    let mut done = 0;
    while done < clients {
        done += 1;
        open_for(state, done)?;
    }
    Ok(())
}

// The barrier of this number was passed by all, and each client is answered.
fn pass(state: &mut MdsState, number: u64) -> Result<(), NoMemory>
    requires state { IsAt state.old }
    ensures clients { OnOk result (state.new.clients ≡ state.old.clients) }
    ensures table { OnOk result ((s : Server) → Stands state.old s → Stands state.new (acts s (passing s number))) }
{
    write_own(state, What::Barrier { number })?;
    open_all(state)?;
    Ok(())
}

// The first held request waits at this barrier, which is passed where all wait at it and nothing is unfinished.
fn pass_where_all_wait(state: &mut MdsState, number: u64) -> Result<Option<bool>, NoMemory>
    requires state { IsAt state.old }
    ensures clients { OnOk result (state.new.clients ≡ state.old.clients) }
    ensures acts { IfOk result (λ done. (s : Server) → Stands state.old s
        → Turned state.new s (background.turn_barrier s (Some number)) done) }
{
    if !state.all_wait_at(number) {
        return Ok(None);
    }
    if !state.is_finished() {
        return Ok(None);
    }
    pass(state, number)?;
    Ok(Some(false))
}

// The last rule.
pub(crate) fn turn_barrier(state: &mut MdsState) -> Result<Option<bool>, NoMemory>
    requires state { IsAt state.old }
    ensures clients { OnOk result (state.new.clients ≡ state.old.clients) }
    ensures acts { IfOk result (λ done. (s : Server) → Stands state.old s
        → Turned state.new s (background.turn_barrier s (first_barrier s.held)) done) }
{
    match state.first_barrier() {
        None => Ok(None),
        Some(number) => {
            let done = pass_where_all_wait(state, number)?;
            Ok(done)
        }
    }
}
