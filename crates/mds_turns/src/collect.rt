// Removed snapshots and dead files, which the store is told to drop.
ghost use Rattle.std.specs.Prelude.{◌≡◌, ◌<◌, filter, map, Option, Some, IfOk, OnOk};
ghost use Rattle.held_files.specs.Files.{is_empty};
ghost use Rattle.mds_state.specs.Stands.{StandsFor};
ghost use Rattle.cap_state.specs.Table.{Holding};
ghost use Rattle.plain_journal.specs.Table.{dead};
ghost use Rattle.step_table.specs.Acts.{acts};
ghost use Rattle.step_table.specs.Background as background;
ghost use Rattle.step_table.specs.Background.{first_file, holders_of, is_due, least, unsent_purges};
ghost use Rattle.step_table.specs.ServerState.{Asked as Taken, Server};
ghost use Rattle.mds_state.specs.Acted.{Stands};
ghost use Rattle.step_table.specs.Capabilities.{recalls};
ghost use Rattle.mds_asks.specs.Others.{AreOthers};
ghost use Rattle.mds_turns.specs.Turned.{collecting, purging, IsAt, IsDead, Turned};

use crate::barrier::turn_barrier;
use crate::own::write_own;
use mds_state::MdsState;
use plain_types::{Claim, Clients, What};
use snap_ids::{Ino, NoMemory, SnapId};
use std::alloc::Global;

// Whose holdings these are.
fn clients_of(alloc: Global, holders: &[(u8, Claim)]) -> Result<Clients, NoMemory>
    ensures { IfOk result (λ clients. clients ≡ map (λ (h : Holding). h.0) holders.now) }
{
    let clients: Vec<u8> = holders.iter().map(|holder| holder.0).collect(alloc)?;
    Ok(Clients::from_vec(clients))
}

// Whether there are none.
fn are_none(holders: &[(u8, Claim)]) -> bool
    ensures { result ≡ is_empty holders.now }
{
    holders.is_empty()
}

// Whether nobody holds a file.
fn is_free(state: &MdsState, ino: Ino) -> bool
    ensures { (s : Server) (taken : Option Taken) → StandsFor state.now taken s → result ≡ is_empty (holders_of s ino) }
{
    are_none(state.holders_of(ino))
}

// What the server keeps for a removed snapshot alone is dropped, and the store is told to do so.
fn purge(state: &mut MdsState, id: SnapId) -> Result<(), NoMemory>
    requires state { IsAt state.old }
    requires room { state.old.clients < 255 }
    ensures clients { OnOk result (state.new.clients ≡ state.old.clients) }
    ensures table { OnOk result ((s : Server) → Stands state.old s → Stands state.new (acts s (purging id))) }
{
    write_own(state, What::Trim { id })?;
    state.send_purge(id)?;
    Ok(())
}

// Each of some clients is asked to give a file back, unless it was asked before.
fn recall_all(state: &mut MdsState, ino: Ino, others: &Clients) -> Result<(), NoMemory>
    requires { AreOthers state.old.clients others.now }
    ensures clients { OnOk result (state.new.clients ≡ state.old.clients) }
    ensures table { OnOk result ((s : Server) (taken : Option Taken) → StandsFor state.old taken s
        → StandsFor state.new taken (acts s (recalls s ino others.now))) }
{
    let mut left = others.as_slice();
    while let Some((client, rest)) = left.split_first() {
        state.recall(*client, ino)?;
        left = rest;
    }
    Ok(())
}

// Each holder of a dead file is asked to give it back, or the store is told to delete it where there is none.
fn collect(alloc: Global, state: &mut MdsState, ino: Ino) -> Result<(), NoMemory>
    requires state { IsDead state.old ino }
    requires room { state.old.clients < 255 }
    ensures clients { OnOk result (state.new.clients ≡ state.old.clients) }
    ensures table { OnOk result ((s : Server) → Stands state.old s → first_file (filter (is_due s) (dead s.entries)) ≡ Some ino
        → Stands state.new (acts s (collecting s ino))) }
{
    if is_free(state, ino) {
        state.send_delete(ino)?;
        return Ok(());
    }
    let holders = clients_of(alloc, state.holders_of(ino))?;
    recall_all(state, ino, &holders)?;
    Ok(())
}

// The fourth rule, and then the last.
fn turn_dead(alloc: Global, state: &mut MdsState) -> Result<Option<bool>, NoMemory>
    requires state { IsAt state.old }
    requires room { state.old.clients < 255 }
    ensures clients { OnOk result (state.new.clients ≡ state.old.clients) }
    ensures acts { IfOk result (λ done. (s : Server) → Stands state.old s
        → Turned state.new s (background.turn_dead s (first_file (filter (is_due s) (dead s.entries)))) done) }
{
    match state.due_file() {
        None => {
            let done = turn_barrier(state)?;
            Ok(done)
        }
        Some(ino) => {
            collect(alloc, state, ino)?;
            Ok(Some(false))
        }
    }
}

// The third rule, and then those behind it.
pub(crate) fn turn_purge(alloc: Global, state: &mut MdsState) -> Result<Option<bool>, NoMemory>
    requires state { IsAt state.old }
    requires room { state.old.clients < 255 }
    ensures clients { OnOk result (state.new.clients ≡ state.old.clients) }
    ensures acts { IfOk result (λ done. (s : Server) → Stands state.old s
        → Turned state.new s (background.turn_purge s (least (unsent_purges s))) done) }
{
    match state.least_purge() {
        None => {
            let done = turn_dead(alloc, state)?;
            Ok(done)
        }
        Some(id) => {
            purge(state, id)?;
            Ok(Some(false))
        }
    }
}
