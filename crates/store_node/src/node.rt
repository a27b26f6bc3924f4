// The store is a node.
ghost use Rattle.std.specs.Prelude.{◌≡◌, ◌&&◌, None, Some, IfSome, is_some};
ghost use Rattle.node_core.specs.Steps.{taken_fits};
ghost use Rattle.plain_types.specs.declared.history.Step.TheVariants.{StoreTakes};
ghost use Rattle.plain_types.specs.declared.message.Message.TheVariants as given;
ghost use Rattle.store_node.specs.Rows.{IsStoreRow, IsStore, is_store_step};
ghost use Rattle.store_node.specs.Laws.{takes, own, restarts, fitting, sends};

use crate::fits::is_order;
use crate::store::Store;
use node_core::{Buffered, NodeCore, NodeError};
use plain_types::{Done, Message, Step, ToStore};

// A message to the store, and the node that it came from.
#[derive(Drop)]
struct Taken {
    node: u8,
    order: ToStore,
}

// A message that a node sends to the store, where it is one: the server its orders, a client the others.
fn taken_from(node: u8, message: Option<Message>) -> Option<Taken>
    ensures some { IfSome result (λ taken. (taken.node ≡ node) × (message ≡ Some (given.ToStore taken.order))) }
    ensures fits { is_some result ≡ taken_fits 0 (StoreTakes node) message }
{
    match message {
        Some(Message::ToStore(order)) => {
            if (node == 0) == is_order(&order) {
                Some(Taken { node, order })
            } else {
                None
            }
        }
        Some(Message::ToServer(_)) => None,
        Some(Message::ToClient(_)) => None,
        Some(Message::FromStore(_)) => None,
        None => None,
    }
}

// What a step of the store takes; None where the step isn't the store's, or what is handed to it doesn't fit.
fn taken_in(step: &Step, message: Option<Message>) -> Option<Taken>
    ensures some { IfSome result (λ taken. (step.now ≡ StoreTakes taken.node) × (message ≡ Some (given.ToStore taken.order))) }
    ensures fits { is_some result ≡ is_store_step step.now && taken_fits 0 step.now message }
{
    match step {
        Step::StoreTakes(node) => taken_from(*node, message),
        Step::Op(_) => None,
        Step::Flush(_) => None,
        Step::ClientFromServer(_) => None,
        Step::ClientFromStore(_) => None,
        Step::ServerTakes(_) => None,
        Step::Commit => None,
        Step::Restart(_) => None,
        Step::Tend => None,
    }
}

impl NodeCore for Store {
    ghost row = { IsStoreRow };

    ghost stands = { IsStore };

    ghost can = { λ store step. is_store_step step };

    ghost fits = { λ store step taken. taken_fits 0 step taken };

    ghost held = { λ store. record { ever = 0; now = 0 } };

    ghost faults = { λ store. 0 };

    ghost met = { λ store. 0 };

    ghost ended = { λ store. store ≡ None };

    ghost takes = { takes };

    ghost own = { own };

    ghost restarts = { restarts };

    ghost fitting = { fitting };

    ghost sends = { sends };

    fn enabled(&self, step: &Step) -> bool {
        matches!(step, Step::StoreTakes(_))
    }

    fn act(&mut self, step: &Step, taken: Option<Message>) -> Result<Done, NodeError> {
        if self.objects.is_none() {
            return Err(NodeError::NoMemory);
        }
        match taken_in(step, taken) {
            Some(taken) => match self.take(taken.node, taken.order) {
                Ok(done) => Ok(done),
                Err(_) => Err(NodeError::NoMemory),
            },
            None => Err(NodeError::NotEnabled),
        }
    }

    fn buffered(&self) -> Buffered {
        Buffered { ever: 0, now: 0 }
    }
}
