// The client is a node.
ghost use Rattle.std.specs.Prelude.{◌≡◌, IfOk, OnOk, OnErr, Option, None, Err, true, false};
ghost use Rattle.node_core.specs.declared.node.NodeError.TheVariants as error;
ghost use Rattle.plain_types.specs.declared.history.Step.{Step as Made};
ghost use Rattle.plain_types.specs.declared.message.Message.{Message as Given};
ghost use Rattle.node_core.specs.Steps.{taken_fits};
ghost use Rattle.step_table.specs.ClientLines.{on_op, on_flush};
ghost use Rattle.client_core.specs.Rows.{IsClient, IsClientRow, can_make, can_step, has_row, number_of};
ghost use Rattle.client_core.specs.Owns.{step_of, taken_of, row_of};
ghost use Rattle.client_core.specs.Laws.{takes, own, restarts, fitting, sends};

use crate::client::Client;
use crate::own::{Own, own_step};
use client_lines::{may_flush, may_op};
use client_state::ClientState;
use node_core::{Buffered, NodeCore, NodeError};
use plain_types::{Done, Message, Step};
use snap_ids::NoMemory;

// Whether a client can make a step, where a message is at hand for one that takes.
fn can_make(state: &ClientState, step: &Step) -> bool
    ensures { result ≡ can_make state.now step.now }
{
    match step {
        Step::Op(n) => *n == state.number() && may_op(state),
        Step::Flush(n) => *n == state.number() && may_flush(state),
        Step::ClientFromServer(n) => *n == state.number(),
        Step::ClientFromStore(n) => *n == state.number(),
        Step::ServerTakes(_) => false,
        Step::Commit => false,
        Step::Restart(_) => false,
        Step::Tend => false,
        Step::StoreTakes(_) => false,
    }
}

impl Client {
    // Its number, where it can make this step.
    fn ready(&self, step: &Step) -> Result<u8, NodeError>
        ensures number { IfOk result (λ number. number ≡ number_of self.now) }
        ensures can { OnOk result (can_step self.now step.now ≡ true) }
        ensures there { OnOk result (self.now ≡ None → ⊥) }
        ensures ended { result ≡ Err error.NoMemory → self.now ≡ None }
        ensures cannot { result ≡ Err error.NotEnabled → (can_step self.now step.now ≡ false) × (self.now ≡ None → ⊥) }
        ensures no_fault { result ≡ Err error.DiskFault → ⊥ }
    {
        match &self.state {
            Some(state) => {
                if can_make(state, step) {
                    Ok(state.number())
                } else {
                    Err(NodeError::NotEnabled)
                }
            }
            None => Err(NodeError::NoMemory),
        }
    }

    // Makes a step of its own, which may be made.
    fn make(&mut self, own: Own) -> Result<Done, NoMemory>
        requires may { has_row (row_of own) self.old ≡ true }
        ensures row { IfOk result (λ done. (step : Made) (taken : Option Given) → step ≡ step_of (number_of self.old) own
            → taken ≡ taken_of own → IsClientRow self.old step taken done self.new) }
        ensures step { IfOk result (λ done. done.step ≡ step_of (number_of self.old) own) }
        ensures ends { OnErr result (self.new ≡ None) }
    {
        match own {
            Own::Op => self.op(),
            Own::Flush => self.flush(),
            Own::Told(message) => self.take_server(message),
            Own::Stored(message) => self.take_store(message),
        }
    }
}

impl NodeCore for Client {
    ghost row = { IsClientRow };

    ghost stands = { IsClient };

    ghost can = { can_step };

    ghost fits = { λ client step taken. taken_fits 0 step taken };

    ghost held = { λ client. record { ever = 0; now = 0 } };

    ghost faults = { λ client. 0 };

    ghost met = { λ client. 0 };

    ghost ended = { λ client. client ≡ None };

    ghost takes = { takes };

    ghost own = { own };

    ghost restarts = { restarts };

    ghost fitting = { fitting };

    ghost sends = { sends };

    fn enabled(&self, step: &Step) -> bool {
        match &self.state {
            Some(state) => can_make(state, step),
            None => false,
        }
    }

    fn act(&mut self, step: &Step, taken: Option<Message>) -> Result<Done, NodeError> {
        let number = match self.ready(step) {
            Ok(number) => number,
            Err(error) => {
                drop(taken);
                return Err(error);
            }
        };
        match own_step(number, step, taken) {
            Some(own) => match self.make(own) {
                Ok(done) => Ok(done),
                Err(_) => Err(NodeError::NoMemory),
            },
            None => Err(NodeError::NotEnabled),
        }
    }

    fn buffered(&self) -> Buffered {
        Buffered { ever: 0, now: 0 }
    }
}
