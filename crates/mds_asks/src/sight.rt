// What a path leads to, as the answer to `cat` tells it.
ghost use Rattle.std.specs.Prelude.{◌≡◌, List, ℕ, [], ◌∷◌, false, true, Some, IfOk, OnOk};
ghost use Rattle.plain_types.specs.declared.request.Query.TheVariants as query;
ghost use Rattle.plain_journal.specs.Answers.{answer_to, found};
ghost use Rattle.plain_journal.specs.Coverage.{is_purged};
ghost use Rattle.plain_journal.specs.Legal.{is_journal};
ghost use Rattle.step_table.specs.Acts.{AnswerIt};
ghost use Rattle.step_table.specs.Capabilities as capabilities;
ghost use Rattle.step_table.specs.Requests as requests;
ghost use Rattle.step_table.specs.ServerState.{Server};
ghost use Rattle.mds_state.specs.Fits.{MayTreat};
ghost use Rattle.mds_state.specs.Stands.{StandsFor};
ghost use Rattle.mds_asks.specs.Sights.{IsSight};
ghost use Rattle.mds_asks.specs.Treated.{IsTreated};

use crate::caps::ask_found;
use crate::treated::Treated;
use mds_state::{Asked, MdsState};
use plain_types::Answer;
use snap_ids::{Ino, NoMemory, SnapId};

// What a path leads to.
#[derive(Clone, Copy)]
pub(crate) enum Sight {
    // A live file, its mode and its size.
    Live(Ino, u16, u32),
    // A file in a snapshot.
    Past(Ino, SnapId),
    // Anything else, or nothing.
    Other,
}

// What the path of a `cat` with this answer leads to.
pub(crate) fn sight_of(answer: &Answer) -> Sight
    ensures { (s : Server) (path : List (List ℕ)) → is_journal s.entries ≡ true
        → answer.now ≡ answer_to s.entries (query.Cat path) → IsSight s path result }
{
    match answer {
        Answer::FoundLive {
            ino,
            perm,
            size,
            ..
        } => Sight::Live(*ino, *perm, *size),
        Answer::FoundSnap { ino, snap, .. } => Sight::Past(*ino, *snap),
        _ => Sight::Other,
    }
}

// An answer about a file in a snapshot, or which client owes its flush.
fn settled_answer(answer: Answer, owes: Option<u8>) -> Answer
    ensures { result ≡ requests.settled_answer answer owes }
{
    match owes {
        None => answer,
        Some(client) => Answer::Pending(client),
    }
}

// The request in hand found a file in a snapshot: it is answered so, unless a client owes the file's flush.
fn tell_settled(
    state: &mut MdsState,
    asked: &Asked,
    ino: Ino,
    id: SnapId,
    answer: Answer,
) -> Result<Treated, NoMemory>
    requires { MayTreat state.old asked.now }
    ensures clients { OnOk result (state.new.clients ≡ state.old.clients) }
    ensures acts { IfOk result (λ treated. (s : Server) → StandsFor state.old (Some asked.now) s → is_purged s.entries id ≡ false
        → IsTreated state.new asked.now s (AnswerIt (requests.settled_answer answer (capabilities.owing s ino id)) ∷ []) treated) }
{
    let owes = state.owing(ino, id)?;
    let settled = settled_answer(answer, owes);
    state.answer(asked, settled)?;
    Ok(Treated::Done(false))
}

// The request in hand is answered.
pub(crate) fn tell(state: &mut MdsState, asked: &Asked, answer: Answer) -> Result<Treated, NoMemory>
    requires { MayTreat state.old asked.now }
    ensures clients { OnOk result (state.new.clients ≡ state.old.clients) }
    ensures acts { IfOk result (λ treated. (s : Server) → StandsFor state.old (Some asked.now) s
        → IsTreated state.new asked.now s (AnswerIt answer ∷ []) treated) }
{
    state.answer(asked, answer)?;
    Ok(Treated::Done(false))
}

// A `cat` or a `stat` in hand led here, and has this answer where no capability is wanted.
pub(crate) fn look_at(
    state: &mut MdsState,
    asked: &Asked,
    sight: Sight,
    answer: Answer,
) -> Result<Treated, NoMemory>
    requires { MayTreat state.old asked.now }
    ensures clients { OnOk result (state.new.clients ≡ state.old.clients) }
    ensures acts { IfOk result (λ treated. (s : Server) (path : List (List ℕ)) → StandsFor state.old (Some asked.now) s
        → IsSight s path sight → IsTreated state.new asked.now s (requests.look_at s asked.now answer (found s.entries path)) treated) }
{
    match sight {
        Sight::Live(ino, perm, size) => ask_found(state, asked, ino, perm, size),
        Sight::Past(ino, id) => tell_settled(state, asked, ino, id, answer),
        Sight::Other => tell(state, asked, answer),
    }
}
