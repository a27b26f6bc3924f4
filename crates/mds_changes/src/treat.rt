// What a request for a change comes to.
ghost use Rattle.std.specs.Prelude.{◌≡◌, true, None, Some, IfOk, OnOk};
ghost use Rattle.plain_types.specs.declared.change.Change.{Change as Made};
ghost use Rattle.step_table.specs.Acts.{acts};
ghost use Rattle.step_table.specs.Requests as requests;
ghost use Rattle.step_table.specs.Requests.{decided, treat_new};
ghost use Rattle.step_table.specs.ServerState.{Server};
ghost use Rattle.mds_state.specs.Acted.{Acted};
ghost use Rattle.mds_state.specs.Fits.{IsFit, MayTreat};
ghost use Rattle.mds_state.specs.Stands.{StandsFor};
ghost use Rattle.mds_changes.specs.Changes.{is_change};
ghost use Rattle.mds_changes.specs.Decided.{comes_to, IsDecided, IsMade, MayDecide, MayMake};

use crate::effect::make_effect;
use crate::operation::{prepare, prepared_by};
use mds_state::{Asked, MdsState};
use meta_state::Decision;
use plain_types::{Entry, Request};
use snap_ids::NoMemory;

/// Whether a request asks for a change.
pub fn is_change(request: &Request) -> bool
    ensures { result ≡ is_change request.now }
{
    match request {
        Request::Cat { .. }
        | Request::Stat { .. }
        | Request::List { .. }
        | Request::Realm { .. }
        | Request::Clones { .. }
        | Request::Cap { .. }
        | Request::Barrier { .. } => false,
        _ => true,
    }
}

// The change that this entry says succeeds: one of the tree is made, and one of the table of snapshots is prepared or
// deferred.
fn make(state: &mut MdsState, asked: Asked, alone: bool, entry: Entry) -> Result<(), NoMemory>
    requires may { MayMake state.old asked entry }
    ensures clients { OnOk result (state.new.clients ≡ state.old.clients) }
    ensures table { OnOk result ((s : Server) (made : Made) → StandsFor state.old (Some asked) s → IsFit s asked
        → IsMade s asked made entry → StandsFor state.new None (acts s (requests.make alone s made))) }
{
    match prepared_by(&entry.what) {
        Some(what) => {
            prepare(state, asked, alone, what)?;
            Ok(())
        }
        None => {
            make_effect(state, &asked, entry)?;
            Ok(())
        }
    }
}

// The request in hand comes to this: it is answered by a refusal, or its change succeeds.
fn follow(
    state: &mut MdsState,
    asked: Asked,
    alone: bool,
    decision: Decision,
) -> Result<(), NoMemory>
    requires may { MayDecide state.old asked decision }
    ensures clients { OnOk result (state.new.clients ≡ state.old.clients) }
    ensures table { OnOk result ((s : Server) → StandsFor state.old (Some asked) s → IsFit s asked
        → IsDecided s asked decision → StandsFor state.new None (acts s (decided alone s (comes_to s asked)))) }
{
    match decision {
        Decision::Say(answer) => {
            state.answer(&asked, answer)?;
            Ok(())
        }
        Decision::Put(entry) => {
            make(state, asked, alone, entry)?;
            Ok(())
        }
    }
}

/// The request for a change in hand is treated, where it had no effect yet; `alone`: as if no other operation were deferred.
/// A change of the tree is made and answered. A snapshot that is to be made or removed is prepared: while another such
/// operation is outstanding, or deferred and counts, it is deferred behind the others. What can't be done is refused. It
/// fails only with `NoMemory`, which also answers a snapshot for which no id is left, and opens nothing.
pub fn treat_change(state: &mut MdsState, asked: Asked, alone: bool) -> Result<bool, NoMemory>
    requires may { MayTreat state.old asked }
    requires change { is_change asked.request ≡ true }
    ensures clients { OnOk result (state.new.clients ≡ state.old.clients) }
    ensures acts { IfOk result (λ opened. (s : Server) → StandsFor state.old (Some asked) s → IsFit s asked
        → Acted state.new s (treat_new alone s asked asked.request) opened) }
{
    let id = state.next_id();
    let decision = state.decide(asked.client(), asked.tid(), asked.request(), id)?;
    follow(state, asked, alone, decision)?;
    Ok(false)
}
