// The end of each row.
ghost use Rattle.std.specs.Prelude.{◌≡◌, ◌+◌, List, Option, IfOk, OnOk};
ghost use Rattle.step_table.specs.Acts.{Act, acts, hand_out};
ghost use Rattle.step_table.specs.Requests as requests;
ghost use Rattle.step_table.specs.ServerState.{Asked as Taken, Server};
ghost use Rattle.mds_state.specs.Acted.{Acted};
ghost use Rattle.mds_state.specs.Stands.{StandsFor};
ghost use Rattle.mds_requests.specs.Ready.{IsReady, MayGoOn};
ghost use Rattle.mds_rows.specs.Given.{Gives};

use mds_requests::then_held;
use mds_state::MdsState;
use plain_types::Sending;
use snap_ids::NoMemory;

// What needn't wait is sent, and nothing is in hand.
pub(crate) fn send(state: &mut MdsState) -> Result<Sending, NoMemory>
    ensures clients { OnOk result (state.new.clients ≡ state.old.clients) }
    ensures row { IfOk result (λ sent. (s : Server) (taken : Option Taken) → StandsFor state.old taken s
        → Gives state.new sent (hand_out s)) }
{
    let sent = state.hand_out()?;
    Ok(sent)
}

// After the acts of a rule: the held requests are decided anew where something opened, and then what needn't wait is sent.
pub(crate) fn go_on(state: &mut MdsState, many: usize, opened: bool) -> Result<Sending, NoMemory>
    requires may { MayGoOn state.old many opened }
    ensures clients { OnOk result (state.new.clients ≡ state.old.clients) }
    ensures row { IfOk result (λ sent. (s : Server) (done : List Act) → Acted state.old s done opened
        → IsReady (acts s done) (acts s (requests.then_held (2 + many) s done))
        → Gives state.new sent (hand_out (acts s (requests.then_held (2 + many) s done)))) }
{
    then_held(state, many, opened)?;
    let sent = send(state)?;
    Ok(sent)
}
