// How a request in hand is treated.
ghost use Rattle.std.specs.Prelude.{◌≡◌, ◌≤◌, [], ◌∷◌, None, Some, IfOk, OnOk};
ghost use Rattle.step_table.specs.Acts.{AnswerIt, Wait};
ghost use Rattle.step_table.specs.Requests as requests;
ghost use Rattle.step_table.specs.ServerState.{Server};
ghost use Rattle.mds_state.specs.Acted.{Acted};
ghost use Rattle.mds_state.specs.Fits.{AllPast, IsFit, MayTreat};
ghost use Rattle.mds_state.specs.Stands.{StandsFor};

use mds_asks::{is_query, queries_count_no_others, treat_query};
use mds_changes::treat_change;
use mds_state::{Asked, MdsState};
use plain_types::Answer;
use snap_ids::NoMemory;

// A request that had no effect yet is treated.
fn treat_new(state: &mut MdsState, asked: Asked, alone: bool) -> Result<bool, NoMemory>
    requires may { MayTreat state.old asked }
    ensures clients { OnOk result (state.new.clients ≡ state.old.clients) }
    ensures acts { IfOk result (λ opened. (s : Server) → StandsFor state.old (Some asked) s → IsFit s asked → AllPast s.entries
        → Acted state.new s (requests.treat_new alone s asked asked.request) opened) }
{
    queries_count_no_others();
    if is_query(asked.request()) {
        treat_query(state, asked)
    } else {
        treat_change(state, asked, alone)
    }
}

// That of the outstanding operation is not treated twice.
fn treat_once(state: &mut MdsState, asked: Asked, alone: bool) -> Result<bool, NoMemory>
    requires may { MayTreat state.old asked }
    ensures clients { OnOk result (state.new.clients ≡ state.old.clients) }
    ensures acts { IfOk result (λ opened. (s : Server) → StandsFor state.old (Some asked) s → IsFit s asked → AllPast s.entries
        → Acted state.new s (requests.treat_known alone s asked None) opened) }
{
    if state.is_operation(&asked) {
        Ok(false)
    } else {
        treat_new(state, asked, alone)
    }
}

// The request in hand is answered as it was before.
fn answer_again(state: &mut MdsState, asked: Asked, answer: Answer) -> Result<bool, NoMemory>
    requires may { MayTreat state.old asked }
    ensures clients { OnOk result (state.new.clients ≡ state.old.clients) }
    ensures acts { IfOk result (λ opened. (s : Server) → StandsFor state.old (Some asked) s
        → Acted state.new s (AnswerIt answer ∷ []) opened) }
{
    state.answer(&asked, answer)?;
    Ok(false)
}

// A request whose effect is known is answered again.
fn treat_known(state: &mut MdsState, asked: Asked, alone: bool) -> Result<bool, NoMemory>
    requires may { MayTreat state.old asked }
    ensures clients { OnOk result (state.new.clients ≡ state.old.clients) }
    ensures acts { IfOk result (λ opened. (s : Server) → StandsFor state.old (Some asked) s → IsFit s asked → AllPast s.entries
        → Acted state.new s (requests.treat_known alone s asked (requests.kept_answer s asked)) opened) }
{
    match state.kept_answer(&asked) {
        Some(answer) => answer_again(state, asked, answer),
        None => treat_once(state, asked, alone),
    }
}

// The request in hand is held.
fn hold(state: &mut MdsState, asked: Asked) -> Result<bool, NoMemory>
    ensures clients { OnOk result (state.new.clients ≡ state.old.clients) }
    ensures acts { IfOk result (λ opened. (s : Server) → StandsFor state.old (Some asked) s
        → Acted state.new s (Wait ∷ []) opened) }
{
    state.wait(asked)?;
    Ok(false)
}

/// The request in hand is treated; `alone`: as if no operation were deferred. While a client isn't connected since the
/// restart it is held. A request whose effect is known is answered again, and that of the outstanding operation does
/// nothing. It answers whether something opened, and fails only with `NoMemory`.
pub fn treat(state: &mut MdsState, asked: Asked, alone: bool) -> Result<bool, NoMemory>
    requires may { MayTreat state.old asked }
    ensures clients { OnOk result (state.new.clients ≡ state.old.clients) }
    ensures acts { IfOk result (λ opened. (s : Server) → StandsFor state.old (Some asked) s → IsFit s asked → AllPast s.entries
        → Acted state.new s (requests.treat alone s asked) opened) }
{
    if state.all_connected() {
        treat_known(state, asked, alone)
    } else {
        hold(state, asked)
    }
}
