// The operation on the table of snapshots that was prepared, and whose entry is durable.
ghost use Rattle.std.specs.Prelude.{◌≡◌, ◌≤◌, [], ◌∷◌, None, Some, OnOk};
ghost use Rattle.plain_types.specs.declared.change.Change.{Change as Made};
ghost use Rattle.plain_journal.specs.Legal.{is_given};
ghost use Rattle.step_table.specs.Acts.{acts, AnswerIt, DeferFirst};
ghost use Rattle.step_table.specs.Background as background;
ghost use Rattle.step_table.specs.Background.{finish_with, roll_back};
ghost use Rattle.step_table.specs.ServerState.{Server};
ghost use Rattle.mds_state.specs.Fits.{IsFit};
ghost use Rattle.mds_state.specs.Stands.{IsState, StandsFor};
ghost use Rattle.mds_turns.specs.Finishing.{comes_with, removes_another, Completes, Ends, IsPrepared, MayComplete, MayEnd, MayFinish};

use crate::own::write_own;
use mds_changes::make_effect;
use mds_state::{Asked, MdsState};
use meta_state::Decision;
use plain_types::{Answer, Entry, What};
use snap_ids::{NoMemory, SnapId};

// Ids of snapshots stay below 2^62.
const IDS: u64 = 4611686018427387904;

// Whether an id can be given.
fn is_given(id: SnapId) -> bool
    ensures { result ≡ is_given id }
{
    id.0 < IDS
}

// Whether an entry removes another snapshot than this.
fn removes_another(what: &What, id: SnapId) -> bool
    ensures { result ≡ removes_another what.now id }
{
    match what {
        What::Rmsnap { id: now } => now.0 != id.0,
        _ => false,
    }
}

// What was prepared is given up, and its request is deferred before the others.
fn give_up(state: &mut MdsState, asked: Asked, id: SnapId) -> Result<(), NoMemory>
    requires state { IsState state.old }
    ensures clients { OnOk result (state.new.clients ≡ state.old.clients) }
    ensures table { OnOk result ((s : Server) → StandsFor state.old (Some asked) s
        → StandsFor state.new None (acts s (roll_back id ∷ DeferFirst ∷ []))) }
{
    write_own(state, What::Rollback { id })?;
    state.defer_first(asked)?;
    Ok(())
}

// What was prepared is given up, and its request is answered.
fn refuse(state: &mut MdsState, asked: &Asked, id: SnapId, answer: Answer) -> Result<(), NoMemory>
    requires state { IsState state.old }
    requires from_one { 1 ≤ asked.now.client }
    requires upto { asked.now.client ≤ state.old.clients }
    ensures clients { OnOk result (state.new.clients ≡ state.old.clients) }
    ensures table { OnOk result ((s : Server) → StandsFor state.old (Some asked.now) s
        → StandsFor state.new None (acts s (roll_back id ∷ AnswerIt answer ∷ []))) }
{
    write_own(state, What::Rollback { id })?;
    state.answer(asked, answer)?;
    Ok(())
}

// The change succeeds which this entry says: it is made, or given up where it now removes another snapshot.
fn complete(state: &mut MdsState, asked: Asked, id: SnapId, entry: Entry) -> Result<(), NoMemory>
    requires may { MayComplete state.old asked id entry }
    ensures clients { OnOk result (state.new.clients ≡ state.old.clients) }
    ensures table { OnOk result ((s : Server) (made : Made) → StandsFor state.old (Some asked) s → IsFit s asked
        → Completes s asked id made entry → StandsFor state.new None (acts s (finish_with id made))) }
{
    if removes_another(&entry.what, id) {
        give_up(state, asked, id)?;
        return Ok(());
    }
    make_effect(state, &asked, entry)?;
    Ok(())
}

// The request of the operation comes to this now: it is refused, or its change succeeds.
fn follow(
    state: &mut MdsState,
    asked: Asked,
    id: SnapId,
    decision: Decision,
) -> Result<(), NoMemory>
    requires may { MayEnd state.old asked id decision }
    ensures clients { OnOk result (state.new.clients ≡ state.old.clients) }
    ensures table { OnOk result ((s : Server) → StandsFor state.old (Some asked) s → IsFit s asked
        → Ends s asked id decision → StandsFor state.new None (acts s (background.finish id (comes_with s asked id)))) }
{
    match decision {
        Decision::Say(answer) => {
            refuse(state, &asked, id, answer)?;
            Ok(())
        }
        Decision::Put(entry) => {
            complete(state, asked, id, entry)?;
            Ok(())
        }
    }
}

// The operation's request in hand is decided anew. Its change is made under the id that was prepared; where it is refused
// now, or removes another snapshot, what was prepared is given up.
pub(crate) fn finish(state: &mut MdsState, asked: Asked, id: SnapId) -> Result<(), NoMemory>
    requires may { MayFinish state.old asked id }
    ensures clients { OnOk result (state.new.clients ≡ state.old.clients) }
    ensures table { OnOk result ((s : Server) → StandsFor state.old (Some asked) s → IsFit s asked
        → IsPrepared s asked id → StandsFor state.new None (acts s (background.finish id (comes_with s asked id)))) }
{
    if !is_given(id) {
        return Err(NoMemory);
    }
    let decision = state.decide(asked.client(), asked.tid(), asked.request(), id)?;
    follow(state, asked, id, decision)?;
    Ok(())
}
