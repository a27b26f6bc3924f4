// The background turn: the first of its rules that applies.
ghost use Rattle.std.specs.Prelude.{◌≡◌, ◌<◌, ℕ, nat_le, is_some, Option, Some, IfOk, OnOk};
ghost use Rattle.mds_state.specs.Stands.{StandsFor};
ghost use Rattle.plain_journal.specs.Table.{outstanding};
ghost use Rattle.step_table.specs.Background as background;
ghost use Rattle.step_table.specs.ServerState.{Asked as Taken, Server};
ghost use Rattle.mds_state.specs.Acted.{Stands};
ghost use Rattle.mds_state.specs.Fits.{AllPast, WaitingFit};
ghost use Rattle.mds_turns.specs.Turned.{AsksForIt, MayTurn, MayTurnTo, Turned};

use crate::collect::turn_purge;
use crate::finish::finish;
use mds_requests::treat;
use mds_state::MdsState;
use snap_ids::{NoMemory, SnapId};
use std::alloc::Global;

// Whether the request of the outstanding operation is known; a restart forgets it.
fn has_request(state: &MdsState) -> bool
    ensures { (s : Server) (taken : Option Taken) → StandsFor state.now taken s → result ≡ is_some s.operation }
{
    match state.operation_request() {
        None => false,
        Some(_) => true,
    }
}

// Whether the entry of this number is durable.
fn is_durable(state: &MdsState, number: u64) -> bool
    ensures { (s : Server) (taken : Option Taken) → StandsFor state.now taken s → result ≡ nat_le number s.durable }
{
    let durable = state.durable();
    number <= durable
}

// The first rule: the outstanding operation is finished.
fn turn_operation(state: &mut MdsState, id: SnapId) -> Result<Option<bool>, NoMemory>
    requires may { MayTurnTo state.old id }
    ensures clients { OnOk result (state.new.clients ≡ state.old.clients) }
    ensures acts { IfOk result (λ done. (s : Server) (number : ℕ) → Stands state.old s → WaitingFit s → AsksForIt s
        → outstanding s.entries ≡ Some (id, number)
        → Turned state.new s (background.turn_operation s id s.operation) done) }
{
    if !has_request(state) {
        return Ok(None);
    }
    match state.take_operation() {
        None => Ok(None),
        Some(asked) => {
            finish(state, asked, id)?;
            Ok(Some(false))
        }
    }
}

// The second rule, and then those behind it: the first deferred operation is treated, as if no other were deferred.
fn turn_deferred(alloc: Global, state: &mut MdsState) -> Result<Option<bool>, NoMemory>
    requires may { MayTurn state.old }
    requires room { state.old.clients < 255 }
    ensures clients { OnOk result (state.new.clients ≡ state.old.clients) }
    ensures acts { IfOk result (λ done. (s : Server) → Stands state.old s → WaitingFit s → AllPast s.entries
        → Turned state.new s (background.turn_deferred s s.deferred) done) }
{
    if state.none_deferred() {
        let done = turn_purge(alloc, state)?;
        return Ok(done);
    }
    match state.take_deferred() {
        None => Ok(None),
        Some(asked) => {
            let opened = treat(state, asked, true)?;
            Ok(Some(opened))
        }
    }
}

// An operation is outstanding: it is finished if its entry is durable.
fn turn_outstanding(
    alloc: Global,
    state: &mut MdsState,
    id: SnapId,
    number: u64,
) -> Result<Option<bool>, NoMemory>
    requires may { MayTurnTo state.old id }
    requires room { state.old.clients < 255 }
    ensures clients { OnOk result (state.new.clients ≡ state.old.clients) }
    ensures acts { IfOk result (λ done. (s : Server) → Stands state.old s → WaitingFit s → AsksForIt s
        → outstanding s.entries ≡ Some (id, number)
        → Turned state.new s (background.turn_at s (Some (id, number))) done) }
{
    if is_durable(state, number) {
        let done = turn_operation(state, id)?;
        return Ok(done);
    }
    let left = turn_purge(alloc, state)?;
    Ok(left)
}

// Every client is connected.
fn turn_at(alloc: Global, state: &mut MdsState) -> Result<Option<bool>, NoMemory>
    requires may { MayTurn state.old }
    requires room { state.old.clients < 255 }
    ensures clients { OnOk result (state.new.clients ≡ state.old.clients) }
    ensures acts { IfOk result (λ done. (s : Server) → Stands state.old s → WaitingFit s → AsksForIt s → AllPast s.entries
        → Turned state.new s (background.turn_at s (outstanding s.entries)) done) }
{
    match state.outstanding() {
        None => {
            let done = turn_deferred(alloc, state)?;
            Ok(done)
        }
        Some(operation) => {
            let done = turn_outstanding(alloc, state, operation.0, operation.1)?;
            Ok(done)
        }
    }
}

/// What the server does in the background, while each client is connected. None where there is nothing to do, and else
/// whether something opened: an outstanding operation whose entry is durable is finished or given up; where none is
/// outstanding, the first deferred one is treated as if no other were deferred; the least removed snapshot is purged; the
/// least dead file is asked back from its holders, or deleted; a barrier at which all wait is passed. It fails only with
/// `NoMemory`.
pub fn turn(alloc: Global, state: &mut MdsState) -> Result<Option<bool>, NoMemory>
    requires may { MayTurn state.old }
    requires room { state.old.clients < 255 }
    ensures clients { OnOk result (state.new.clients ≡ state.old.clients) }
    ensures acts { IfOk result (λ done. (s : Server) → Stands state.old s → WaitingFit s → AsksForIt s → AllPast s.entries
        → Turned state.new s (background.turn s) done) }
{
    if !state.all_connected() {
        return Ok(None);
    }
    let done = turn_at(alloc, state)?;
    Ok(done)
}
