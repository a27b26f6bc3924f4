// What an act makes beside the new state.
ghost use Rattle.std.specs.Prelude.{◌≡◌, [], ◌∷◌, IfOk};
ghost use Rattle.step_table.specs.ClientState.{to_server};
ghost use Rattle.client_state.specs.Made.{only_sends, only_replies, order_to};

use plain_types::{Effects, Message, Replied, Replies, Sending, Sent, ToServer, ToStore};
use snap_ids::NoMemory;
use std::alloc::Global;

/// What an act makes beside the client's new state: what is sent, which changes take effect, and which lines get their
/// replies.
#[derive(Debug, Drop)]
pub struct Acted {
    pub sent: Sending,
    pub effects: Effects,
    pub replies: Replies,
}

impl Acted {
    /// Nothing happened. It takes no memory.
    pub fn nothing(alloc: Global) -> Acted
        ensures { result ≡ record { sent = []; effects = []; replies = [] } }
    {
        Acted {
            sent: Sending::new(alloc),
            effects: Effects::new(alloc),
            replies: Replies::new(alloc),
        }
    }

    // One message is sent.
    fn sending(alloc: Global, message: Sent) -> Result<Acted, NoMemory>
        ensures { IfOk result (λ acted. acted ≡ only_sends message) }
    {
        let mut acted = Acted::nothing(alloc);
        acted.sent.push(message)?;
        Ok(acted)
    }

    /// The server is told something.
    pub fn telling(alloc: Global, said: ToServer) -> Result<Acted, NoMemory>
        ensures { IfOk result (λ acted. acted ≡ only_sends (to_server said)) }
    {
        Acted::sending(
            alloc,
            Sent {
                to: 0,
                message: Message::ToServer(said),
            },
        )
    }

    /// The store, which has this number, is sent something.
    pub fn ordering(alloc: Global, store: u8, order: ToStore) -> Result<Acted, NoMemory>
        ensures { IfOk result (λ acted. acted ≡ only_sends (order_to store order)) }
    {
        Acted::sending(
            alloc,
            Sent {
                to: store,
                message: Message::ToStore(order),
            },
        )
    }

    /// A line gets its reply.
    pub fn replying(alloc: Global, reply: Replied) -> Result<Acted, NoMemory>
        ensures { IfOk result (λ acted. acted ≡ only_replies reply) }
    {
        let mut acted = Acted::nothing(alloc);
        acted.replies.push(reply)?;
        Ok(acted)
    }

    // A message is sent before what is sent already.
    pub(crate) fn led_by(self, alloc: Global, first: Sent) -> Result<Acted, NoMemory>
        ensures { IfOk result (λ acted. acted ≡ record self { sent = first ∷ self.sent }) }
    {
        let mut sent = Vec::new(alloc);
        sent.push(first)?;
        let mut rest = self.sent.into_vec();
        sent.append(&mut rest)?;
        Ok(Acted {
            sent: Sending::from_vec(sent),
            effects: self.effects,
            replies: self.replies,
        })
    }
}
