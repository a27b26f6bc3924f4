// The background turn.
ghost use Rattle.std.specs.Prelude.{◌≡◌, ◌<◌, ℕ, filter, is_some, None, Option, Some, IfOk, OnOk};
ghost use Rattle.snap_ids.specs.declared.id.SnapId.{SnapId as Id};
ghost use Rattle.plain_journal.specs.Table as journal;
ghost use Rattle.plain_journal.specs.Table.{outstanding};
ghost use Rattle.step_table.specs.Background as background;
ghost use Rattle.step_table.specs.Background.{first_barrier, first_file, least, unsent_purges};
ghost use Rattle.step_table.specs.ServerRows.{on_tend};
ghost use Rattle.step_table.specs.ServerState.{Asked as Taken, Server};
ghost use Rattle.mds_state.specs.Stands.{IsState, StandsFor};
ghost use Rattle.mds_rows.specs.Given.{GivesAny};
ghost use Rattle.mds_rows.specs.May.{CanTurn};
ghost use Rattle.mds_rows.specs.Ready.{MayTend};

use crate::sending::go_on;
use mds_state::MdsState;
use mds_turns::turn;
use plain_types::Sending;
use snap_ids::NoMemory;
use std::alloc::Global;

// Whether all wait at a barrier, and nothing is unfinished.
fn opens_at(state: &MdsState, number: u64) -> bool
    requires { IsState state.now }
    ensures { (s : Server) (taken : Option Taken) → StandsFor state.now taken s
        → result ≡ is_some (background.turn_barrier s (Some number)) }
{
    state.all_wait_at(number) && state.is_finished()
}

// Whether there is a barrier to be opened.
fn has_barrier(state: &MdsState) -> bool
    requires { IsState state.now }
    ensures { (s : Server) (taken : Option Taken) → StandsFor state.now taken s
        → result ≡ is_some (background.turn_barrier s (first_barrier s.held)) }
{
    match state.first_barrier() {
        Some(number) => opens_at(state, number),
        None => false,
    }
}

// Whether a dead file is due, or there is a barrier to be opened.
fn has_dead(state: &MdsState) -> bool
    requires { IsState state.now }
    ensures { (s : Server) (taken : Option Taken) → StandsFor state.now taken s
        → result ≡ is_some (background.turn_dead s (first_file (filter (background.is_due s) (journal.dead s.entries)))) }
{
    match state.due_file() {
        Some(_) => true,
        None => has_barrier(state),
    }
}

// Whether a removed snapshot is to be purged, or one of these is so.
fn has_purge(state: &MdsState) -> bool
    requires { IsState state.now }
    ensures { (s : Server) (taken : Option Taken) → StandsFor state.now taken s
        → result ≡ is_some (background.turn_purge s (least (unsent_purges s))) }
{
    match state.least_purge() {
        Some(_) => true,
        None => has_dead(state),
    }
}

// Whether an operation is deferred, or one of these is so.
fn has_deferred(state: &MdsState) -> bool
    requires { IsState state.now }
    ensures { (s : Server) (taken : Option Taken) → StandsFor state.now taken s
        → result ≡ is_some (background.turn_deferred s s.deferred) }
{
    if state.none_deferred() {
        has_purge(state)
    } else {
        true
    }
}

// Whether the request of the outstanding operation is known.
fn has_operation(state: &MdsState) -> bool
    ensures { (s : Server) (taken : Option Taken) (id : Id) → StandsFor state.now taken s
        → result ≡ is_some (background.turn_operation s id s.operation) }
{
    state.operation_request().is_some()
}

// Whether there is something to do while an operation is outstanding, whose entry has this number.
fn has_outstanding(state: &MdsState, number: u64) -> bool
    requires { IsState state.now }
    ensures { (s : Server) (taken : Option Taken) (id : Id) → StandsFor state.now taken s
        → result ≡ is_some (background.turn_at s (Some (id, number))) }
{
    if number <= state.durable() {
        has_operation(state)
    } else {
        has_purge(state)
    }
}

// Whether there is something to do.
fn has_turn(state: &MdsState) -> bool
    requires { IsState state.now }
    ensures { (s : Server) (taken : Option Taken) → StandsFor state.now taken s
        → result ≡ is_some (background.turn_at s (outstanding s.entries)) }
{
    match state.outstanding() {
        Some((_, number)) => has_outstanding(state, number),
        None => has_deferred(state),
    }
}

/// Whether there is something for the server to do in the background. It takes no memory.
pub fn can_tend(state: &MdsState) -> bool
    requires { IsState state.now }
    ensures { (s : Server) (taken : Option Taken) → StandsFor state.now taken s → result ≡ is_some (on_tend s) }
{
    state.all_connected() && has_turn(state)
}

/// The server does what lies in the background, and gives what it sends. None where there is nothing to do; then nothing
/// changed. It fails only with `NoMemory`.
pub fn tend(alloc: Global, state: &mut MdsState) -> Result<Option<Sending>, NoMemory>
    requires can { CanTurn state.old }
    requires room { state.old.clients < 255 }
    ensures clients { OnOk result (state.new.clients ≡ state.old.clients) }
    ensures row { IfOk result (λ sent. (s : Server) → StandsFor state.old None s → MayTend s
        → GivesAny state.new s sent (on_tend s)) }
{
    let many = state.many_held();
    let turned = turn(alloc, state)?;
    match turned {
        None => Ok(None),
        Some(opened) => {
            let sent = go_on(state, many, opened)?;
            Ok(Some(sent))
        }
    }
}
