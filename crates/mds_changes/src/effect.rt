// Changes of the tree, which have their effect at once.
ghost use Rattle.std.specs.Prelude.{◌≡◌, ◌≤◌, [], ◌∷◌, None, Some, OnOk};
ghost use Rattle.plain_types.specs.declared.change.Change.{Change as Made};
ghost use Rattle.plain_tree.specs.Line.{answer_to as answer_of};
ghost use Rattle.plain_journal.specs.Entries.{change_in};
ghost use Rattle.step_table.specs.Acts.{acts, entry_for, AnswerIt, MakeEffect};
ghost use Rattle.step_table.specs.ServerState.{Server};
ghost use Rattle.mds_state.specs.Stands.{MayBuffer, MayFollow, StandsFor};
ghost use Rattle.mds_changes.specs.Decided.{answer_in};

use mds_state::{Asked, MdsState};
use plain_types::{Answer, Entry, What};
use snap_ids::NoMemory;

// The answer to the change that an entry says.
fn answer_to(what: &What) -> Answer
    ensures { result ≡ answer_in (change_in what.now) }
{
    match what {
        What::Mksnap { id, .. } => Answer::Snap(*id),
        What::OpenFile { ino, .. } => Answer::Opened(*ino),
        What::Mkdir { .. }
        | What::Create { .. }
        | What::Link { .. }
        | What::Unlink { .. }
        | What::Rmdir { .. }
        | What::Rename { .. }
        | What::Chmod { .. }
        | What::CloseFile { .. }
        | What::Rmsnap { .. }
        | What::PrepareCreate { .. }
        | What::PrepareDestroy { .. }
        | What::Rollback { .. }
        | What::Settle { .. }
        | What::Release { .. }
        | What::Trim { .. }
        | What::Purgedone { .. }
        | What::Deadfile { .. }
        | What::Barrier { .. } => Answer::Done,
    }
}

/// The request in hand has its effect, which this entry says, and is answered. It fails only with `NoMemory`.
pub fn make_effect(state: &mut MdsState, asked: &Asked, entry: Entry) -> Result<(), NoMemory>
    requires may { MayBuffer state.old entry }
    requires from_one { 1 ≤ asked.now.client }
    requires upto { asked.now.client ≤ state.old.clients }
    ensures clients { OnOk result (state.new.clients ≡ state.old.clients) }
    ensures table { OnOk result ((s : Server) (made : Made) → StandsFor state.old (Some asked.now) s
        → MayFollow s.clients s.entries entry → change_in entry.what ≡ Some made
        → entry ≡ entry_for asked.now entry.what
        → StandsFor state.new None (acts s (MakeEffect made ∷ AnswerIt (answer_of made) ∷ []))) }
{
    let said = answer_to(&entry.what);
    state.effect(entry)?;
    state.answer(asked, said)?;
    Ok(())
}
