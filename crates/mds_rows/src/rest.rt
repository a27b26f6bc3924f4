// Reports of the store, commits and restarts.
ghost use Rattle.std.specs.Prelude.{◌≡◌, [], length, map, take, None, Option, IfOk, OnOk};
ghost use Rattle.plain_journal.specs.Table.{outstanding};
ghost use Rattle.step_table.specs.Acts as table;
ghost use Rattle.step_table.specs.Acts.{acts, TellRestart};
ghost use Rattle.step_table.specs.ServerRows.{committed, on_report, restarted, restarts, roll_back_from, row_of};
ghost use Rattle.step_table.specs.ServerState.{Asked as Taken, Server, up_to};
ghost use Rattle.mds_state.specs.Stands.{AllFollow, IsState, StandsFor};
ghost use Rattle.mds_rows.specs.Given.{Gives, GivesAll};

use crate::sending::send;
use mds_state::MdsState;
use plain_types::{Effects, Entry, EntryList, Sending, ToServer, What};
use snap_ids::NoMemory;
use std::alloc::Global;

/// The server takes a report of the store, and gives what it sends: what the store has dropped is written down, once. It
/// fails only with `NoMemory`.
pub fn report(state: &mut MdsState, message: &ToServer) -> Result<Sending, NoMemory>
    requires state { IsState state.old }
    ensures clients { OnOk result (state.new.clients ≡ state.old.clients) }
    ensures row { IfOk result (λ sent. (s : Server) → StandsFor state.old None s
        → Gives state.new sent (on_report s message.now)) }
{
    mds_flushes::on_report(state, message)?;
    let sent = send(state)?;
    Ok(sent)
}

/// All entries are durable. Gives the changes that take effect with that, and what was to wait for it. It fails only with
/// `NoMemory`.
pub fn commit(state: &mut MdsState) -> Result<(Effects, Sending), NoMemory>
    ensures clients { OnOk result (state.new.clients ≡ state.old.clients) }
    ensures row { IfOk result (λ made. (s : Server) → StandsFor state.old None s
        → GivesAll state.new made.0 made.1 (committed s)) }
{
    let effects = state.commit()?;
    let sent = send(state)?;
    Ok((effects, sent))
}

// Each client is told that the server has begun anew.
fn tell_all(state: &mut MdsState) -> Result<(), NoMemory>
    ensures clients { OnOk result (state.new.clients ≡ state.old.clients) }
    ensures table { OnOk result ((s : Server) (taken : Option Taken) → StandsFor state.old taken s
        → StandsFor state.new taken (acts s (map TellRestart (up_to s.clients)))) }
{
    let clients = state.clients();
    let mut done = 0;
    while done < clients {
        done += 1;
        state.tell_restart(done)?;
    }
    Ok(())
}

// An entry that the server makes by itself.
fn own_entry(what: What) -> Entry
    ensures { result ≡ table.own_entry what }
{
    Entry {
        client: 0,
        number: 0,
        what,
    }
}

// An operation on the table of snapshots that is outstanding is given up.
fn roll_back(state: &mut MdsState) -> Result<(), NoMemory>
    requires { IsState state.old }
    ensures clients { OnOk result (state.new.clients ≡ state.old.clients) }
    ensures table { OnOk result ((s : Server) (taken : Option Taken) → StandsFor state.old taken s
        → StandsFor state.new taken (acts s (roll_back_from (outstanding s.entries)))) }
{
    match state.outstanding() {
        None => Ok(()),
        Some((id, _)) => {
            let entry = own_entry(What::Rollback { id });
            state.buffer(entry)?;
            Ok(())
        }
    }
}

// The server begins anew: each client is told, and an operation that is outstanding is given up.
fn begin_anew(state: &mut MdsState) -> Result<Sending, NoMemory>
    requires { IsState state.old }
    ensures clients { OnOk result (state.new.clients ≡ state.old.clients) }
    ensures row { IfOk result (λ sent. (s : Server) → StandsFor state.old None s
        → Gives state.new sent (row_of s (restarts s))) }
{
    tell_all(state)?;
    roll_back(state)?;
    let sent = send(state)?;
    Ok(sent)
}

/// The server begins anew with the entries that survived, all of which are durable: no client is connected, and each is
/// told; an operation that is outstanding is given up. Gives what it sends. It fails only with `NoMemory`.
pub fn restart(
    alloc: Global,
    clients: u8,
    entries: EntryList,
) -> Result<(MdsState, Sending), NoMemory>
    requires follow { AllFollow clients [] entries }
    ensures clients { IfOk result (λ made. made.0.clients ≡ clients) }
    ensures row { IfOk result (λ made. (s : Server) → s.clients ≡ clients → take (length entries) s.entries ≡ entries
        → Gives made.0 made.1 (restarted s (length entries))) }
{
    let mut state = MdsState::restarted(alloc, clients, entries)?;
    let sent = begin_anew(&mut state)?;
    Ok((state, sent))
}
