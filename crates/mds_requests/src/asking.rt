// Requests that are taken.
ghost use Rattle.std.specs.Prelude.{◌≡◌, IfOk, OnOk};
ghost use Rattle.step_table.specs.Flushes.{take_in, take_in_brought, treat_brought};
ghost use Rattle.step_table.specs.ServerState.{Server};
ghost use Rattle.mds_state.specs.Acted.{Acted, Stands};
ghost use Rattle.mds_state.specs.Fits.{AllPast, IsFit};
ghost use Rattle.mds_requests.specs.Asking.{FitsBrought, MayBring, MayTakeIn};
ghost use Rattle.mds_requests.specs.Passes.{after_ask, after_connect, brought_in, taken_acts};
ghost use Rattle.mds_requests.specs.Ready.{IsNew, IsNewBrought, IsReady, MayAsk, MayConnect};

use crate::anew::decide_anew;
use crate::rounds::{pass_more, then_held};
use crate::treating::treat;
use mds_state::{Asked, MdsState};
use snap_ids::NoMemory;

// A request comes into the hand and is treated, unless it is that of the outstanding operation.
fn take_in(state: &mut MdsState, asked: Asked) -> Result<bool, NoMemory>
    requires may { MayTakeIn state.old asked }
    ensures clients { OnOk result (state.new.clients ≡ state.old.clients) }
    ensures acts { IfOk result (λ opened. (s : Server) → Stands state.old s → IsFit s asked → AllPast s.entries
        → Acted state.new (take_in s asked) (taken_acts s asked) opened) }
{
    if state.is_operation(&asked) {
        Ok(false)
    } else {
        treat(state, asked, false)
    }
}

// What a connection brings along is taken.
fn bring_in(state: &mut MdsState, asked: Option<Asked>) -> Result<(), NoMemory>
    requires may { MayBring state.old asked }
    ensures clients { OnOk result (state.new.clients ≡ state.old.clients) }
    ensures table { OnOk result ((s : Server) → Stands state.old s → FitsBrought s asked → AllPast s.entries
        → Stands state.new (brought_in s asked)) }
{
    match asked {
        Some(asked) => {
            take_in(state, asked)?;
            Ok(())
        }
        None => Ok(()),
    }
}

/// A request is taken and treated, and then the held ones are decided anew, where something opened. That of the outstanding
/// operation changes nothing. It fails only with `NoMemory`.
pub fn ask(state: &mut MdsState, asked: Asked) -> Result<(), NoMemory>
    requires may { MayAsk state.old asked }
    ensures clients { OnOk result (state.new.clients ≡ state.old.clients) }
    ensures table { OnOk result ((s : Server) → Stands state.old s → IsNew s asked → IsReady s (after_ask s asked)
        → Stands state.new (after_ask s asked)) }
{
    let many = state.many_held();
    let opened = take_in(state, asked)?;
    then_held(state, many, opened)?;
    Ok(())
}

/// The request that a connection brings along is taken and treated, and then the held ones are decided anew. It fails only
/// with `NoMemory`.
pub fn connect_with(state: &mut MdsState, asked: Option<Asked>) -> Result<(), NoMemory>
    requires may { MayConnect state.old asked }
    ensures clients { OnOk result (state.new.clients ≡ state.old.clients) }
    ensures table { OnOk result ((s : Server) → Stands state.old s → IsNewBrought s asked → IsReady s (after_connect s asked)
        → Stands state.new (after_connect s asked)) }
{
    bring_in(state, asked)?;
    let many = state.many_held();
    let opened = decide_anew(state)?;
    pass_more(state, many, opened)?;
    Ok(())
}
