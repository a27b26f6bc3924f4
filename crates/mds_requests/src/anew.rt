// Held requests that are decided anew.
ghost use Rattle.std.specs.Prelude.{◌≡◌, ◌||◌, ◌∷◌, List, Some, IfOk, OnOk, false};
ghost use Rattle.step_table.specs.Acts.{acts, act, TakeHeld};
ghost use Rattle.step_table.specs.Requests as requests;
ghost use Rattle.step_table.specs.ServerState.{Asked as Taken, Server};
ghost use Rattle.mds_state.specs.Acted.{Acted, Stands};
ghost use Rattle.mds_state.specs.Fits.{AllPast, IsSound, WaitingFit};
ghost use Rattle.mds_requests.specs.Ready.{IsReady, MayDecide};
ghost use Rattle.mds_requests.specs.Turns.{redo};

use crate::treating::treat;
use mds_state::MdsState;
use snap_ids::NoMemory;

// The held request of a client, which is the first one, is treated.
fn treat_held(state: &mut MdsState, client: u8) -> Result<bool, NoMemory>
    requires sound { IsSound state.old }
    ensures clients { OnOk result (state.new.clients ≡ state.old.clients) }
    ensures acts { IfOk result (λ opened. (s : Server) (a : Taken) (more : List Taken) → Stands state.old s → WaitingFit s
        → AllPast s.entries → s.held ≡ a ∷ more → a.client ≡ client → Acted state.new s (redo s a) opened) }
{
    match state.take_held(client) {
        Some(asked) => treat(state, asked, false),
        None => Ok(false),
    }
}

// Whether one of two holds.
fn either(a: bool, b: bool) -> bool
    ensures { result ≡ (a || b) }
{
    a || b
}

/// The requests that are held are decided anew, each once, in order of arrival. It answers whether something opened, and
/// fails only with `NoMemory`.
pub fn decide_anew(state: &mut MdsState) -> Result<bool, NoMemory>
    requires may { MayDecide state.old }
    ensures clients { OnOk result (state.new.clients ≡ state.old.clients) }
    ensures acts { IfOk result (λ opened. (s : Server) → Stands state.old s → IsReady s (acts s (requests.decide_anew s))
        → Acted state.new s (requests.decide_anew s) opened) }
{
    let clients = state.held_clients()?;
    let mut opened = false;
    for client in &clients {
        let more = treat_held(state, *client)?;
        opened = either(opened, more);
    }
    Ok(opened)
}
