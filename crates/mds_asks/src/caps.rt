// A request for a file: it is held, or those who hold it are asked to give it back.
ghost use Rattle.std.specs.Prelude.{◌≡◌, ◌≤◌, false, true, Some, Option, IfOk, OnOk};
ghost use Rattle.snap_ids.specs.declared.values.Mode.TheVariants.{Read};
ghost use Rattle.plain_types.specs.declared.answer.Answer.TheVariants.{FoundLive};
ghost use Rattle.plain_types.specs.declared.request.Request.TheVariants as request;
ghost use Rattle.plain_journal.specs.Entries.{state_after};
ghost use Rattle.plain_journal.specs.Legal.{is_made_file};
ghost use Rattle.step_table.specs.Acts.{acts, AnswerIt, GrantIt};
ghost use Rattle.step_table.specs.Capabilities as capabilities;
ghost use Rattle.step_table.specs.Capabilities.{recalls};
ghost use Rattle.step_table.specs.Flushes.{knows_file};
ghost use Rattle.step_table.specs.ServerState.{Asked as Taken, Server};
ghost use Rattle.mds_state.specs.Fits.{MayTreat};
ghost use Rattle.mds_state.specs.Stands.{IsState, StandsFor};
ghost use Rattle.mds_asks.specs.Others.{AreOthers, IsAsked, after_asked};
ghost use Rattle.mds_asks.specs.Treated.{IsTreated};

use crate::treated::Treated;
use mds_state::{Asked, Given, MdsState};
use plain_types::{Answer, Clients};
use snap_ids::{Ino, Mode, NoMemory};

// Each of some clients is asked to give a file back, unless it was asked before.
fn recall_all(state: &mut MdsState, ino: Ino, others: &Clients) -> Result<(), NoMemory>
    requires { AreOthers state.old.clients others.now }
    ensures clients { OnOk result (state.new.clients ≡ state.old.clients) }
    ensures table { OnOk result ((s : Server) (taken : Option Taken) → StandsFor state.old taken s
        → StandsFor state.new taken (acts s (recalls s ino others.now))) }
{
    let mut left = others.as_slice();
    while let Some((client, rest)) = left.split_first() {
        state.recall(*client, ino)?;
        left = rest;
    }
    Ok(())
}

// A client asks for a file. It holds that from now on, and this says whether its Read was raised to Write; or others have it,
// and each of them is asked to give it back.
fn ask_for(state: &mut MdsState, client: u8, ino: Ino, mode: Mode) -> Result<Option<bool>, NoMemory>
    requires from_one { 1 ≤ client }
    requires upto { client ≤ state.old.clients }
    requires state { IsState state.old }
    ensures clients { OnOk result (state.new.clients ≡ state.old.clients) }
    ensures answer { IfOk result (λ given. (s : Server) (taken : Option Taken) → StandsFor state.old taken s
        → IsAsked given s client ino mode) }
    ensures table { IfOk result (λ given. (s : Server) (taken : Option Taken) → StandsFor state.old taken s
        → is_made_file (state_after s.entries) ino ≡ true
        → StandsFor state.new taken (after_asked given s client ino mode)) }
{
    let given = state.ask_for(client, ino, mode)?;
    match given {
        Given::Held => Ok(Some(false)),
        Given::Raised => Ok(Some(true)),
        Given::Against(others) => {
            recall_all(state, ino, &others)?;
            Ok(None)
        }
    }
}

// The client of the request in hand does.
fn ask(state: &mut MdsState, asked: &Asked, ino: Ino, mode: Mode) -> Result<Option<bool>, NoMemory>
    requires { MayTreat state.old asked.now }
    ensures clients { OnOk result (state.new.clients ≡ state.old.clients) }
    ensures answer { IfOk result (λ given. (s : Server) (taken : Option Taken) → StandsFor state.old taken s
        → IsAsked given s asked.now.client ino mode) }
    ensures table { IfOk result (λ given. (s : Server) (taken : Option Taken) → StandsFor state.old taken s
        → is_made_file (state_after s.entries) ino ≡ true
        → StandsFor state.new taken (after_asked given s asked.now.client ino mode)) }
{
    let client = asked.client();
    let given = ask_for(state, client, ino, mode)?;
    Ok(given)
}

// The request in hand is for a file: it is granted that, unless others have it.
pub(crate) fn ask_cap(
    state: &mut MdsState,
    asked: &Asked,
    ino: Ino,
    mode: Mode,
) -> Result<Treated, NoMemory>
    requires may { MayTreat state.old asked.now }
    requires asks { asked.now.request ≡ request.Cap ino mode }
    ensures clients { OnOk result (state.new.clients ≡ state.old.clients) }
    ensures acts { IfOk result (λ treated. (s : Server) → StandsFor state.old (Some asked.now) s → knows_file s ino ≡ true
        → IsTreated state.new asked.now s (capabilities.ask_cap s asked.now.client ino mode (GrantIt ino mode)) treated) }
{
    let given = ask(state, asked, ino, mode)?;
    match given {
        None => Ok(Treated::Waits),
        Some(opened) => {
            state.grant(asked, ino, mode)?;
            Ok(Treated::Done(opened))
        }
    }
}

// A live file as it is found.
fn found_live(ino: Ino, perm: u16, size: u32, write_held: bool) -> Answer
    ensures { result ≡ FoundLive ino perm size write_held }
{
    Answer::FoundLive {
        ino,
        perm,
        size,
        write_held,
    }
}

// The request in hand found a live file, which its client doesn't write: it asks for Read, and is answered.
fn ask_read(
    state: &mut MdsState,
    asked: &Asked,
    ino: Ino,
    perm: u16,
    size: u32,
) -> Result<Treated, NoMemory>
    requires { MayTreat state.old asked.now }
    ensures clients { OnOk result (state.new.clients ≡ state.old.clients) }
    ensures acts { IfOk result (λ treated. (s : Server) → StandsFor state.old (Some asked.now) s
        → is_made_file (state_after s.entries) ino ≡ true
        → IsTreated state.new asked.now s (capabilities.ask_cap s asked.now.client ino Read (AnswerIt (FoundLive ino perm size false))) treated) }
{
    let given = ask(state, asked, ino, Mode::Read)?;
    match given {
        None => Ok(Treated::Waits),
        Some(opened) => {
            state.answer(asked, found_live(ino, perm, size, false))?;
            Ok(Treated::Done(opened))
        }
    }
}

// The request in hand found a live file: who writes that is answered, and another asks for Read first.
pub(crate) fn ask_found(
    state: &mut MdsState,
    asked: &Asked,
    ino: Ino,
    perm: u16,
    size: u32,
) -> Result<Treated, NoMemory>
    requires { MayTreat state.old asked.now }
    ensures clients { OnOk result (state.new.clients ≡ state.old.clients) }
    ensures acts { IfOk result (λ treated. (s : Server) → StandsFor state.old (Some asked.now) s
        → is_made_file (state_after s.entries) ino ≡ true
        → FoundLive ino perm size false ≡ capabilities.found_live s ino false
        → IsTreated state.new asked.now s (capabilities.ask_found s asked.now.client ino) treated) }
{
    if state.writes(asked.client(), ino) {
        state.answer(asked, found_live(ino, perm, size, true))?;
        return Ok(Treated::Done(false));
    }
    let treated = ask_read(state, asked, ino, perm, size)?;
    Ok(treated)
}
