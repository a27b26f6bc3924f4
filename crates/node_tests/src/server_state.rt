// A server's state from its beginning: requests that wait and are answered, and files that are held.
ghost use Rattle.std.specs.Prelude.{◌≤◌};

use mds_state::{Asked, Given, MdsState};
use plain_types::{Answer, Request};
use snap_ids::{Ino, Mode, NoMemory, SnapId};
use std::test::Fail;

const FILE: Ino = Ino(1099511627776);

// A client is answered: so many messages are sent.
fn answered(state: &mut MdsState) -> Result<usize, NoMemory>
    requires { 1 ≤ state.old.clients }
{
    let asked = Asked::new(1, 3, Request::Barrier { number: 1 });
    state.answer(&asked, Answer::Done)?;
    Ok(state.hand_out()?.len())
}

// A client's request is held, and taken.
fn held(state: &mut MdsState) -> Result<bool, NoMemory> {
    state.wait(Asked::new(1, 3, Request::Barrier { number: 1 }))?;
    Ok(state.take_held(2).is_none() && state.take_held(1).is_some())
}

// A client asks for a file to write it: it gets it.
fn writes(state: &mut MdsState) -> Result<bool, NoMemory>
    requires { 1 ≤ state.old.clients }
{
    match state.ask_for(1, FILE, Mode::Write)? {
        Given::Held => Ok(state.writes(1, FILE)),
        _ => Ok(false),
    }
}

// Both clients wait at a barrier, one after the other.
fn both_wait(state: &mut MdsState) -> Result<bool, NoMemory> {
    state.wait(Asked::new(1, 3, Request::Barrier { number: 1 }))?;
    let alone = !state.all_wait_at(1);
    state.wait(Asked::new(2, 5, Request::Barrier { number: 1 }))?;
    let barrier = state.first_barrier() == Some(1);
    Ok(alone && barrier && state.all_wait_at(1) && !state.all_wait_at(2))
}

// Nothing is to be dropped, and nobody waits for an operation.
fn nothing_left(state: &MdsState) -> bool {
    let dropped = state.least_purge().is_none() && state.due_file().is_none();
    let unknown = !state.is_dead(FILE) && !state.is_to_purge(SnapId(2));
    dropped && unknown && state.operation_request().is_none() && state.buffered_entries().is_empty()
}

#[test]
fn what_is_told_is_sent(rt: HostRuntime) -> Result<(), Fail> {
    let mut state = MdsState::new(rt.alloc(), 2)?;
    assert_eq!(rt; answered(&mut state)?, 1);
    Ok(())
}

#[test]
fn what_is_held_is_taken(rt: HostRuntime) -> Result<(), Fail> {
    let mut state = MdsState::new(rt.alloc(), 2)?;
    assert!(rt; held(&mut state)?);
    Ok(())
}

#[test]
fn what_is_asked_for_is_held(rt: HostRuntime) -> Result<(), Fail> {
    let mut state = MdsState::new(rt.alloc(), 2)?;
    assert!(rt; writes(&mut state)?);
    Ok(())
}

#[test]
fn clients_wait_at_a_barrier(rt: HostRuntime) -> Result<(), Fail> {
    let mut state = MdsState::new(rt.alloc(), 2)?;
    assert!(rt; both_wait(&mut state)?);
    Ok(())
}

#[test]
fn at_first_nothing_is_left(rt: HostRuntime) -> Result<(), Fail> {
    let state = MdsState::new(rt.alloc(), 2)?;
    assert!(rt; nothing_left(&state));
    Ok(())
}
