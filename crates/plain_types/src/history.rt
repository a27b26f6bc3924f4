// What happened in a run, event by event.
ghost use Rattle.std.specs.Prelude.{◌≡◌};

use crate::answer::Answer;
use crate::change::Effects;
use crate::message::Message;
use snap_ids::ListOf;
use std::alloc::AllocError;

/// What one event does. Node 0 is the server, nodes 1 to N are the clients, and node N + 1 is the object store.
#[derive(Clone, Copy, Debug, PartialEq, Eq, Hash)]
pub enum Step {
    /// The client goes on with its lines.
    Op(u8),
    /// The client sends what is due.
    Flush(u8),
    /// The client takes a message from the server.
    ClientFromServer(u8),
    /// The client takes a message from the store.
    ClientFromStore(u8),
    /// The server takes a message from this node.
    ServerTakes(u8),
    /// The buffered entries become durable.
    Commit,
    /// The server begins anew; so many of the buffered entries survive.
    Restart(u32),
    /// The server does what lies in the background.
    Tend,
    /// The store takes a message from this node.
    StoreTakes(u8),
}

/// A message that was sent to a node.
#[derive(Debug, PartialEq, Eq, Drop)]
pub struct Sent {
    pub to: u8,
    pub message: Message,
}

// Written out, so that a clone is the same value, in one fact.
impl Clone for Sent {
    ghost is_clone = { λ value clone. clone ≡ value };

    fn clone(&self) -> Result<Self, AllocError> {
        Ok(Sent {
            to: self.to,
            message: self.message.clone()?,
        })
    }
}

/// Messages that were sent, in their order.
pub type Sending = ListOf<Sent>;

/// The reply to a line.
#[derive(Debug, PartialEq, Eq, Drop)]
pub struct Replied {
    /// Whose line it is.
    pub client: u8,
    /// The line's number among the client's, from 1.
    pub line: u32,
    /// Whether the line made a change.
    pub changed: bool,
    /// How many entries the journal had when the server answered; 0 where the server was not asked.
    pub entry: u64,
    /// What was answered.
    pub answer: Answer,
}

// Written out, so that a clone is the same value, in one fact.
impl Clone for Replied {
    ghost is_clone = { λ value clone. clone ≡ value };

    fn clone(&self) -> Result<Self, AllocError> {
        Ok(Replied {
            client: self.client,
            line: self.line,
            changed: self.changed,
            entry: self.entry,
            answer: self.answer.clone()?,
        })
    }
}

/// Replies, in the order in which they were given.
pub type Replies = ListOf<Replied>;

/// What a step came to.
#[derive(Debug, PartialEq, Eq, Drop)]
pub struct Done {
    /// The step that was made, which may be another one than was asked.
    pub step: Step,
    pub sent: Sending,
    pub effects: Effects,
    pub replies: Replies,
}

/// One event of one node.
#[derive(Debug, PartialEq, Eq, Drop)]
pub struct Event {
    pub node: u8,
    pub step: Step,
    /// The message that the step took.
    pub taken: Option<Message>,
    /// The messages that it sent.
    pub sent: Sending,
    /// The changes that took effect with it.
    pub effects: Effects,
    /// The replies that it gave.
    pub replies: Replies,
}

/// What happened in a run: its events in their order.
pub type History = ListOf<Event>;

/// An event in the log of its node.
#[derive(Debug, PartialEq, Eq, Drop)]
pub struct LogItem {
    /// One more than the greatest clock that the node has used or received.
    pub clock: u64,
    pub event: Event,
}
