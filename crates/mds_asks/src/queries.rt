// Requests that ask for no change.
ghost use Rattle.std.specs.Prelude.{◌≡◌, [], ◌∷◌, false, true, Bool, Some, Option, IfOk, OnOk};
ghost use Rattle.plain_types.specs.declared.request.Request.{Request as Wish};
ghost use Rattle.plain_types.specs.declared.request.Query.TheVariants as query;
ghost use Rattle.plain_journal.specs.Answers.{answer_to, found};
ghost use Rattle.meta_state.specs.Queries.{IsPast};
ghost use Rattle.step_table.specs.Acts.{AnswerIt};
ghost use Rattle.step_table.specs.Requests as requests;
ghost use Rattle.step_table.specs.ServerState.{Asked as Taken, Server};
ghost use Rattle.mds_state.specs.Acted.{Acted};
ghost use Rattle.mds_state.specs.Fits.{AllPast, IsFit, MayTreat};
ghost use Rattle.mds_state.specs.Stands.{IsState, StandsFor};
ghost use Rattle.mds_asks.specs.Queries.{is_query};
ghost use Rattle.mds_asks.specs.Sights.{IsSight};
ghost use Rattle.mds_asks.specs.Treated.{IsTreated};

use crate::caps::ask_cap;
use crate::sight::{Sight, look_at, sight_of, tell};
use crate::treated::Treated;
use mds_state::{Asked, MdsState};
use plain_types::{Answer, Query, Request};
use snap_ids::{NoMemory, Path};

/// Whether a request asks for no change.
pub fn is_query(request: &Request) -> bool
    ensures { result ≡ is_query request.now }
{
    match request {
        Request::Cap { .. }
        | Request::Cat { .. }
        | Request::Stat { .. }
        | Request::List { .. }
        | Request::Realm { .. }
        | Request::Clones { .. }
        | Request::Barrier { .. } => true,
        _ => false,
    }
}

/// Such a request is treated the same whether or not deferred operations count.
pub fn queries_count_no_others()
    ensures { (alone : Bool) (s : Server) (a : Taken) (asked : Wish) → is_query asked ≡ true
        → requests.treat_new alone s a asked ≡ requests.treat_new false s a asked }
{}

// The answer to a query.
fn answer_to(state: &MdsState, query: Query) -> Result<Answer, NoMemory>
    requires { IsState state.now }
    ensures { IfOk result (λ answer. (s : Server) (taken : Option Taken) → StandsFor state.now taken s
        → IsPast s.entries query → answer ≡ answer_to s.entries query) }
{
    let answer = state.answer_to(&query)?;
    Ok(answer)
}

// A path once more.
fn copied(path: &Path) -> Result<Path, NoMemory>
    ensures { IfOk result (λ copy. copy ≡ path.now) }
{
    Ok(path.clone()?)
}

// What a path leads to.
fn sight(state: &MdsState, path: &Path) -> Result<Sight, NoMemory>
    requires { IsState state.now }
    ensures { IfOk result (λ sight. (s : Server) (taken : Option Taken) → StandsFor state.now taken s → AllPast s.entries
        → IsSight s path.now sight) }
{
    let path = copied(path)?;
    let there = answer_to(state, Query::Cat { path })?;
    Ok(sight_of(&there))
}

// A `cat` or a `stat` in hand, where this is the query.
fn look(state: &mut MdsState, asked: &Asked, path: &Path, query: Query) -> Result<Treated, NoMemory>
    requires { MayTreat state.old asked.now }
    ensures clients { OnOk result (state.new.clients ≡ state.old.clients) }
    ensures acts { IfOk result (λ treated. (s : Server) → StandsFor state.old (Some asked.now) s → AllPast s.entries → IsPast s.entries query
        → IsTreated state.new asked.now s (requests.look_at s asked.now (answer_to s.entries query) (found s.entries path.now)) treated) }
{
    let sight = sight(state, path)?;
    let answer = answer_to(state, query)?;
    let treated = look_at(state, asked, sight, answer)?;
    Ok(treated)
}

// A query in hand that is answered from the journal alone.
fn tell_plain(state: &mut MdsState, asked: &Asked, query: Query) -> Result<Treated, NoMemory>
    requires { MayTreat state.old asked.now }
    ensures clients { OnOk result (state.new.clients ≡ state.old.clients) }
    ensures acts { IfOk result (λ treated. (s : Server) → StandsFor state.old (Some asked.now) s → IsPast s.entries query
        → IsTreated state.new asked.now s (AnswerIt (answer_to s.entries query) ∷ []) treated) }
{
    let answer = answer_to(state, query)?;
    let treated = tell(state, asked, answer)?;
    Ok(treated)
}

// A barrier in hand: one that was passed is answered, and another is held until all clients are at it.
fn at_barrier(state: &mut MdsState, asked: &Asked, number: u64) -> Result<Treated, NoMemory>
    requires { MayTreat state.old asked.now }
    ensures clients { OnOk result (state.new.clients ≡ state.old.clients) }
    ensures acts { IfOk result (λ treated. (s : Server) → StandsFor state.old (Some asked.now) s
        → IsTreated state.new asked.now s (requests.at_barrier s number) treated) }
{
    if number <= state.barrier() {
        state.answer(asked, Answer::Done)?;
        return Ok(Treated::Done(false));
    }
    Ok(Treated::Waits)
}

// How a query in hand is treated, but that it isn't held yet.
fn treat(state: &mut MdsState, asked: &Asked) -> Result<Treated, NoMemory>
    requires may { MayTreat state.old asked.now }
    requires asks { is_query asked.now.request ≡ true }
    ensures clients { OnOk result (state.new.clients ≡ state.old.clients) }
    ensures acts { IfOk result (λ treated. (s : Server) → StandsFor state.old (Some asked.now) s → IsFit s asked.now
        → AllPast s.entries → IsTreated state.new asked.now s (requests.treat_new false s asked.now asked.now.request) treated) }
{
    match asked.request() {
        Request::Cap { ino, mode } => ask_cap(state, asked, *ino, *mode),
        Request::Cat { path } => {
            let query = Query::Cat {
                path: copied(path)?,
            };
            look(state, asked, path, query)
        }
        Request::Stat { path } => {
            let query = Query::Stat {
                path: copied(path)?,
            };
            look(state, asked, path, query)
        }
        Request::List { path } => {
            let query = Query::List {
                path: copied(path)?,
            };
            tell_plain(state, asked, query)
        }
        Request::Realm { path } => {
            let query = Query::Realm {
                path: copied(path)?,
            };
            tell_plain(state, asked, query)
        }
        Request::Clones { path, index } => {
            let query = Query::Clones {
                path: copied(path)?,
                index: *index,
            };
            tell_plain(state, asked, query)
        }
        Request::Barrier { number } => at_barrier(state, asked, *number),
        _ => Ok(Treated::Done(false)),
    }
}

/// How the server treats a request in hand that asks for no change. It is answered or granted a file, or it is held: while
/// others have its file, who are asked to give it back, and at a barrier that isn't passed. Says whether held requests are to
/// be decided anew: a Read was raised to Write. It fails only with `NoMemory`.
pub fn treat_query(state: &mut MdsState, asked: Asked) -> Result<bool, NoMemory>
    requires may { MayTreat state.old asked }
    requires asks { is_query asked.request ≡ true }
    ensures clients { OnOk result (state.new.clients ≡ state.old.clients) }
    ensures acts { IfOk result (λ opened. (s : Server) → StandsFor state.old (Some asked) s → IsFit s asked → AllPast s.entries
        → Acted state.new s (requests.treat_new false s asked asked.request) opened) }
{
    let treated = treat(state, &asked)?;
    match treated {
        Treated::Done(opened) => Ok(opened),
        Treated::Waits => {
            state.wait(asked)?;
            Ok(false)
        }
    }
}
