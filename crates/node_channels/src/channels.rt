// The channels, with a count of their messages.
ghost use Rattle.std.specs.Prelude.{◌≡◌, ◌↔◌, ◌==◌, ℕ, [], true, take, is_some, IsTrue, IfOk, IfSome, OnOk, OnErr};
ghost use Rattle.std.specs.List.{list_all};
ghost use Rattle.std.specs.Option.{option_copied};
ghost use Rattle.plain_types.specs.declared.history.Step.{Step};
ghost use Rattle.node_core.specs.Steps.{is_step_of, taken_from, takes_from_peer, message_fits, is_sent_well};
ghost use Rattle.node_channels.specs.Channels.{queue, first, with_one, with_sent, without_first, no_messages, count};

use crate::lanes::Lanes;
use plain_types::{Message, Sending, Sent, Step};
use snap_ids::NoMemory;
use std::alloc::Global;
use std::marker::Model;

/// The channels between all nodes: one for each ordered pair of nodes that talk, in which messages wait in the order in
/// which they were sent. Contracts see what waits.
#[derive(Drop)]
pub struct Channels {
    lanes: Lanes,
    // How many messages wait.
    waiting: usize,
}

impl Model for Channels {
    ghost use Rattle.std.specs.Prelude.{◌≡◌};
    ghost use Rattle.node_channels.specs.Channels.{Waiting, IsSound, count};

    ghost Value = { Waiting };

    ghost view = { λ channels. channels.lanes };

    ghost invariant = { λ channels. IsSound channels.lanes × (channels.waiting ≡ count channels.lanes) };
}

impl Channels {
    /// The channels of so many clients, a server and a store, all of them empty.
    pub fn new(alloc: Global, clients: u8) -> Result<Channels, NoMemory>
        ensures { IfOk result (λ channels. channels ≡ no_messages clients) }
    {
        Ok(Channels {
            lanes: Lanes::new(alloc, clients)?,
            waiting: 0,
        })
    }

    /// Puts what a node sends last into the channel to whom it is sent. At want of memory, or for more messages than a
    /// `usize` can count, all is as before, and the message is lost.
    pub fn send(&mut self, from: u8, sent: Sent) -> Result<(), NoMemory>
        requires { is_sent_well self.old.clients from sent ≡ true }
        ensures last { OnOk result (self.new ≡ with_one self.old from sent) }
        ensures clients { self.new.clients ≡ self.old.clients }
        ensures as_before { OnErr result (self.new ≡ self.old) }
    {
        let Some(waiting) = self.waiting.checked_add(1) else {
            return Err(NoMemory);
        };
        self.lanes.put_last(from, sent.to, sent.message)?;
        self.waiting = waiting;
        Ok(())
    }

    /// Puts all that a node sends into its channels, one message after the other. At want of memory the first of them
    /// are sent, and the others are lost.
    pub fn send_all(&mut self, from: u8, sent: Sending) -> Result<(), NoMemory>
        requires { list_all (is_sent_well self.old.clients from) sent ≡ true }
        ensures all { OnOk result (self.new ≡ with_sent self.old from sent) }
        ensures clients { self.new.clients ≡ self.old.clients }
        ensures some { OnErr result ((n : ℕ) × (self.new ≡ with_sent self.old from (take n sent))) }
    {
        for message in sent.into_vec() {
            self.send(from, message)?;
        }
        Ok(())
    }

    /// Whether a message waits for this step: for a step that takes none, it is `false`. It only waits for a step that
    /// takes from a node that talks with the one that makes it.
    pub fn holds(&self, step: &Step) -> bool
        ensures holds { result ≡ is_some (first (queue self.now step.now)) }
        ensures from_peer { IsTrue result → (node : ℕ) → is_step_of self.now.clients node step.now ≡ true
            → takes_from_peer self.now.clients node (taken_from self.now.clients step.now) ≡ true }
    {
        self.lanes.first(step).is_some()
    }

    /// The oldest message that waits for this step, which goes on waiting. So a step can be tried with a copy, and the
    /// message is taken once the step is made. It fits the step.
    pub fn first(&self, step: &Step) -> Option<&Message>
        ensures first { option_copied result ≡ first (queue self.now step.now) }
        ensures fits { IfSome result (λ message. message_fits self.now.clients step.now message.now ≡ true) }
    {
        self.lanes.first(step)
    }

    /// Takes the oldest message that waits for this step, and it waits no more. There is none exactly where none waits.
    /// It fits the step.
    pub fn take(&mut self, step: &Step) -> Option<Message>
        ensures first { result ≡ first (queue self.old step.now) }
        ensures rest { self.new ≡ without_first self.old step.now }
        ensures clients { self.new.clients ≡ self.old.clients }
        ensures fits { IfSome result (λ message. message_fits self.old.clients step.now message ≡ true) }
    {
        let message = self.lanes.take_first(step)?;
        self.waiting -= 1;
        Some(message)
    }

    /// How many messages wait.
    pub fn len(&self) -> usize
        ensures { result ≡ count self.now }
    {
        self.waiting
    }

    /// Whether no message waits, for whatever step.
    pub fn is_empty(&self) -> bool
        ensures count { result ≡ (count self.now == 0) }
        ensures none { IsTrue result ↔ ((step : Step) → queue self.now step ≡ []) }
    {
        self.waiting == 0
    }
}
