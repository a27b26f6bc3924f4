// Passes over the held requests.
ghost use Rattle.std.specs.Prelude.{◌≡◌, ◌+◌, List, IfOk, OnOk};
ghost use Rattle.step_table.specs.Acts.{Act, acts};
ghost use Rattle.step_table.specs.Requests as requests;
ghost use Rattle.step_table.specs.ServerState.{Server};
ghost use Rattle.mds_state.specs.Acted.{Acted, Stands};
ghost use Rattle.mds_requests.specs.Passes.{Pass, passed, passes};
ghost use Rattle.mds_requests.specs.Ready.{IsReady, MayGoOn};
ghost use Rattle.mds_requests.specs.Rounds.{MayPass, StandsAt};

use crate::anew::decide_anew;
use mds_state::MdsState;
use snap_ids::NoMemory;

// Where something opened, the held requests are decided anew.
fn pass(state: &mut MdsState, opened: bool) -> Result<bool, NoMemory>
    requires may { MayPass 1 state.old opened }
    ensures clients { OnOk result (state.new.clients ≡ state.old.clients) }
    ensures acts { IfOk result (λ again. (r : Pass) → StandsAt state.old opened r → IsReady r.state (passed r).state
        → StandsAt state.new again (passed r)) }
{
    if opened {
        decide_anew(state)
    } else {
        Ok(false)
    }
}

// So many times.
pub(crate) fn pass_often(state: &mut MdsState, many: usize, opened: bool) -> Result<bool, NoMemory>
    requires may { MayPass many state.old opened }
    ensures clients { OnOk result (state.new.clients ≡ state.old.clients) }
    ensures acts { IfOk result (λ again. (r : Pass) → StandsAt state.old opened r → IsReady r.state (passes many r).state
        → StandsAt state.new again (passes many r)) }
{
    let mut left = many;
    let mut again = opened;
    while left > 0 {
        again = pass(state, again)?;
        left -= 1;
    }
    Ok(again)
}

// Once more than so many times.
pub(crate) fn pass_more(state: &mut MdsState, many: usize, opened: bool) -> Result<bool, NoMemory>
    requires may { MayPass (1 + many) state.old opened }
    ensures clients { OnOk result (state.new.clients ≡ state.old.clients) }
    ensures acts { IfOk result (λ again. (r : Pass) → StandsAt state.old opened r → IsReady r.state (passes (1 + many) r).state
        → StandsAt state.new again (passes (1 + many) r)) }
{
    let again = pass(state, opened)?;
    pass_often(state, many, again)
}

/// After some acts, of which one opened something or none did, the held requests are decided anew until a pass opens
/// nothing. `many` is the number of requests that were held before the acts: there are at most two passes more. It fails
/// only with `NoMemory`.
pub fn then_held(state: &mut MdsState, many: usize, opened: bool) -> Result<(), NoMemory>
    requires may { MayGoOn state.old many opened }
    ensures clients { OnOk result (state.new.clients ≡ state.old.clients) }
    ensures acts { OnOk result ((s : Server) (done : List Act) → Acted state.old s done opened
        → IsReady (acts s done) (acts s (requests.then_held (2 + many) s done))
        → Stands state.new (acts s (requests.then_held (2 + many) s done))) }
{
    let again = pass(state, opened)?;
    pass_more(state, many, again)?;
    Ok(())
}
