// What a server makes of readers that let go and of clients that connect, from its beginning.
ghost use Rattle.std.specs.Prelude.{◌≡◌, ◌≤◌, true, OnOk};
ghost use Rattle.std.specs.List.{list_all};
ghost use Rattle.step_table.specs.Messages.{flush_fits};
ghost use Rattle.mds_state.specs.Stands.{IsState};

use mds_flushes::{come_back, may_connect, may_flush, on_drop};
use mds_state::MdsState;
use plain_types::{Claim, Claims, FlushMsg, Flushes};
use snap_ids::{Ino, Mode, NoMemory, SnapId};
use std::alloc::Global;
use std::test::Fail;

const FILE: Ino = Ino(1099511627776);

// A client that reads a file lets it go, once.
fn reader_lets_go(state: &mut MdsState) -> Result<bool, NoMemory>
    requires { 1 ≤ state.old.clients }
    ensures { OnOk result (state.new.clients ≡ state.old.clients) }
{
    state.ask_for(1, FILE, Mode::Read)?;
    let first = on_drop(state, 1, FILE);
    Ok(first && !on_drop(state, 1, FILE))
}

// One that writes it holds on.
fn writer_holds_on(state: &mut MdsState) -> Result<bool, NoMemory>
    requires { 1 ≤ state.old.clients }
{
    state.ask_for(1, FILE, Mode::Write)?;
    Ok(!on_drop(state, 1, FILE) && state.writes(1, FILE))
}

// Both, one after the other.
fn readers_and_writers(state: &mut MdsState) -> Result<bool, NoMemory>
    requires { 1 ≤ state.old.clients }
{
    let reader = reader_lets_go(state)?;
    let writer = writer_holds_on(state)?;
    Ok(reader && writer)
}

// A client connects anew: the connection has its number, and one message is sent.
fn connects(
    state: &mut MdsState,
    claims: &Claims,
    flushes: &Flushes,
    conn: u64,
) -> Result<bool, NoMemory>
    requires one { 1 ≤ state.old.clients }
    requires state { IsState state.old }
    requires fit { list_all flush_fits flushes.now ≡ true }
{
    if !may_connect(state, 1, conn, claims, flushes, &None) {
        return Ok(false);
    }
    come_back(state, 1, conn, claims, flushes)?;
    Ok(state.connection(1) == conn && state.hand_out()?.len() == 1)
}

// A flush and a claim of a file that wasn't made aren't taken.
fn refuses_unknown(state: &MdsState, claims: &Claims, flushes: &Flushes) -> bool
    requires { 1 ≤ state.now.clients }
{
    let flush = FlushMsg {
        number: 1,
        ino: FILE,
        follows: SnapId(1),
        upto: SnapId(2),
        size: 0,
        release: false,
    };
    !may_flush(state, &flush) && !may_connect(state, 1, 2, claims, flushes, &None)
}

// Connects with nothing that it holds.
fn connects_anew(state: &mut MdsState, alloc: Global) -> Result<bool, NoMemory>
    requires one { 1 ≤ state.old.clients }
    requires state { IsState state.old }
{
    let claims = Claims::new(alloc);
    let flushes = Flushes::new(alloc);
    connects(state, &claims, &flushes, 2)
}

// A claim of the file.
fn claimed(alloc: Global) -> Result<Claims, NoMemory> {
    let mut claims = Claims::new(alloc);
    claims.push(Claim {
        ino: FILE,
        mode: Mode::Write,
        settled: SnapId(1),
    })?;
    Ok(claims)
}

// The claim isn't taken.
fn refuses(state: &MdsState, alloc: Global) -> Result<bool, NoMemory>
    requires { 1 ≤ state.now.clients }
{
    let claims = claimed(alloc)?;
    let flushes = Flushes::new(alloc);
    Ok(refuses_unknown(state, &claims, &flushes))
}

#[test]
fn a_reader_lets_go_and_a_writer_holds_on(rt: HostRuntime) -> Result<(), Fail> {
    let mut state = MdsState::new(rt.alloc(), 2)?;
    assert!(rt; readers_and_writers(&mut state)?);
    Ok(())
}

#[test]
fn a_newer_connection_is_taken(rt: HostRuntime) -> Result<(), Fail> {
    let mut state = MdsState::new(rt.alloc(), 2)?;
    assert!(rt; connects_anew(&mut state, rt.alloc())?);
    Ok(())
}

#[test]
fn a_claim_of_an_unknown_file_is_not_taken(rt: HostRuntime) -> Result<(), Fail> {
    let state = MdsState::new(rt.alloc(), 2)?;
    assert!(rt; refuses(&state, rt.alloc())?);
    Ok(())
}
