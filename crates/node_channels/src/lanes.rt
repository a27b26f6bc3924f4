// The channels by their kind, without a count of their messages.
ghost use Rattle.std.specs.Prelude.{◌≡◌, ◌+◌, ◌<◌, ◌∷◌, ◌++◌, ℕ, [], length, drop, get_or, set, replicate, true, IfOk, OnOk, OnErr};
ghost use Rattle.std.specs.Option.{option_copied};
ghost use Rattle.node_channels.specs.Channels.{IsWhole, queue, first, with_last, without_first, no_messages};
ghost use Rattle.node_core.specs.Steps.{are_peers, taking_step};

use crate::queue::Queue;
use plain_types::{Message, Step};
use snap_ids::NoMemory;
use std::alloc::Global;
use std::marker::Model;

/// The channels by their kind, each at the place of the node at its other end.
#[derive(Drop)]
pub(crate) struct Lanes {
    clients: u8,
    // To the server, by who sends.
    up: Vec<Queue>,
    // From the server, by client.
    down: Vec<Queue>,
    // To the store, by who sends.
    asked: Vec<Queue>,
    // From the store, by client.
    stored: Vec<Queue>,
}

impl Model for Lanes {
    ghost use Rattle.node_channels.specs.Channels.{Waiting};

    ghost Value = { Waiting };

    ghost view = { λ lanes. record {
      clients = lanes.clients;
      up = lanes.up.items;
      down = lanes.down.items;
      asked = lanes.asked.items;
      stored = lanes.stored.items;
    } };
}

// Empty channels for so many clients, the server and the store.
fn empty(alloc: Global, clients: u8) -> Result<Vec<Queue>, NoMemory>
    ensures { IfOk result (λ queues. queues.items ≡ replicate (clients + 2) []) }
{
    let nodes = usize::from(clients) + 2;
    let mut queues = Vec::with_capacity(alloc, nodes)?;
    while queues.len() < nodes {
        queues.push(Queue::new(alloc))?;
    }
    Ok(queues)
}

// Puts a message last into one of some channels.
fn put_last(queues: &mut Vec<Queue>, at: u8, message: Message) -> Result<(), NoMemory>
    requires { at < length queues.old.items }
    ensures last { OnOk result (queues.new.items ≡ set queues.old.items at (get_or queues.old.items at [] ++ message ∷ [])) }
    ensures as_before { OnErr result (queues.new.items ≡ queues.old.items) }
{
    queues[usize::from(at)].put_last(message)
}

// Takes the oldest message of one of some channels.
fn take_first(queues: &mut Vec<Queue>, at: u8) -> Option<Message>
    ensures first { result ≡ first (get_or queues.old.items at []) }
    ensures rest { queues.new.items ≡ set queues.old.items at (drop 1 (get_or queues.old.items at [])) }
{
    let at = usize::from(at);
    if queues.len() <= at {
        return None;
    }
    queues[at].take_first()
}

// The oldest message of one of some channels.
fn first(queues: &Vec<Queue>, at: u8) -> Option<&Message>
    ensures { option_copied result ≡ first (get_or queues.now.items at []) }
{
    let at = usize::from(at);
    if queues.len() <= at {
        return None;
    }
    queues[at].first()
}

impl Lanes {
    /// An empty channel for each node.
    pub(crate) fn new(alloc: Global, clients: u8) -> Result<Lanes, NoMemory>
        ensures { IfOk result (λ lanes. lanes ≡ no_messages clients) }
    {
        Ok(Lanes {
            clients,
            up: empty(alloc, clients)?,
            down: empty(alloc, clients)?,
            asked: empty(alloc, clients)?,
            stored: empty(alloc, clients)?,
        })
    }

    /// Puts a message from one node to another behind those that wait there.
    pub(crate) fn put_last(&mut self, from: u8, to: u8, message: Message) -> Result<(), NoMemory>
        requires whole { IsWhole self.old }
        requires peers { are_peers self.old.clients from to ≡ true }
        ensures last { OnOk result (self.new ≡ with_last self.old (taking_step self.old.clients from to) message) }
        ensures as_before { OnErr result (self.new ≡ self.old) }
    {
        if to == 0 {
            put_last(&mut self.up, from, message)
        } else if usize::from(to) == usize::from(self.clients) + 1 {
            put_last(&mut self.asked, from, message)
        } else if from == 0 {
            put_last(&mut self.down, to, message)
        } else {
            put_last(&mut self.stored, to, message)
        }
    }

    /// Takes the oldest message that waits for a step.
    pub(crate) fn take_first(&mut self, step: &Step) -> Option<Message>
        ensures first { result ≡ first (queue self.old step.now) }
        ensures rest { self.new ≡ without_first self.old step.now }
    {
        match step {
            Step::ServerTakes(node) => take_first(&mut self.up, *node),
            Step::ClientFromServer(node) => take_first(&mut self.down, *node),
            Step::StoreTakes(node) => take_first(&mut self.asked, *node),
            Step::ClientFromStore(node) => take_first(&mut self.stored, *node),
            Step::Op(_) => None,
            Step::Flush(_) => None,
            Step::Commit => None,
            Step::Restart(_) => None,
            Step::Tend => None,
        }
    }

    /// The oldest message that waits for a step.
    pub(crate) fn first(&self, step: &Step) -> Option<&Message>
        ensures { option_copied result ≡ first (queue self.now step.now) }
    {
        match step {
            Step::ServerTakes(node) => first(&self.up, *node),
            Step::ClientFromServer(node) => first(&self.down, *node),
            Step::StoreTakes(node) => first(&self.asked, *node),
            Step::ClientFromStore(node) => first(&self.stored, *node),
            Step::Op(_) => None,
            Step::Flush(_) => None,
            Step::Commit => None,
            Step::Restart(_) => None,
            Step::Tend => None,
        }
    }
}
