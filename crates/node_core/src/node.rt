// A node, whatever it is.
ghost use Rattle.std.specs.Prelude.{◌≡◌, ◌⊎◌, ◌↔◌, ◌+◌, ◌<◌, ◌≤◌, ◌&&◌, ◌^◌, ℕ, Bool, Option, true, false, IfOk, IfErr, OnOk, OnErr, nat_le, Ok, Err};
ghost use Rattle.std.specs.List.{list_all};
ghost use Rattle.plain_types.specs.declared.history.Done.{Done};
ghost use Rattle.plain_types.specs.declared.history.Step.{Step};
ghost use Rattle.plain_types.specs.declared.history.Step.TheVariants.{Restart};
ghost use Rattle.plain_types.specs.declared.message.Message.{Message};
ghost use Rattle.node_core.specs.declared.node.Buffered.{Buffered};
ghost use Rattle.node_core.specs.declared.node.NodeError.TheVariants.{NoMemory, NotEnabled, DiskFault};
ghost use Rattle.node_core.specs.Steps.{is_step_of, taken_from, takes_from_peer, takes_from_peer_if_any, taken_fits, is_sent_well, IsRecorded};

use plain_types::{Done, Message, Step};
use thiserror::Error;

/// How many entries of the journal a server buffered. Both numbers are 0 at a client and at the store.
#[derive(Clone, Copy, Debug, PartialEq, Eq)]
pub struct Buffered {
    /// Since the start, those that were lost at a restart counted.
    pub ever: u64,
    /// Those that aren't durable now.
    pub now: u32,
}

/// Why a node made no step.
#[derive(Clone, Copy, Debug, PartialEq, Eq, Error)]
pub enum NodeError {
    /// There was no memory for it. The node is ended.
    #[error("no memory")]
    NoMemory,
    /// The step isn't enabled, or what was handed to it doesn't fit. Nothing changed.
    #[error("step not enabled")]
    NotEnabled,
    /// The disk failed, and failed again.
    #[error("disk failed")]
    DiskFault,
}

/// A node. Contracts see what it does at a step, where it stands, how often its disk failed, and how many of its steps met
/// a failing disk and were made all the same.
pub trait NodeCore {
    /// What the node does at a step with what it takes, and what it becomes.
    ghost row: { Self → Step → Option Message → Done → Self → Type 0 };

    /// The node stands at this number among so many clients.
    ghost stands: { Self → ℕ → ℕ → Type 0 };

    /// The step is enabled, where a taking step has a message at hand.
    ghost can: { Self → Step → Bool };

    /// What is handed to a step fits it.
    ghost fits: { Self → Step → Option Message → Bool };

    /// How many entries it buffered.
    ghost held: { Self → Buffered };

    /// How often its disk failed: 0 where it has none.
    ghost faults: { Self → ℕ };

    /// How many of its steps met a failing disk and were made, 0 at first.
    ghost met: { Self → ℕ };

    /// It has met want of memory, and does nothing more.
    ghost ended: { Self → Type 0 };

    /// Whether a step may be made; a taking step where a message is at hand.
    fn enabled(&self, step: &Step) -> bool
        ensures { result ≡ can self.now step.now };

    /// Makes a step. `NotEnabled` exactly where it isn't enabled or `taken` doesn't fit, whatever the memory, and nothing changed then.
    /// `DiskFault` only where in this call the disk's failures rose by two more than the steps that met one, or by one
    /// more where 31 steps have met one. After `NoMemory` the node is ended, and answers nothing else.
    fn act(&mut self, step: &Step, taken: Option<Message>) -> Result<Done, NodeError>
        ensures row { IfOk result (λ done. row self.old done.step taken done self.new) }
        ensures recorded { IfOk result (λ done. IsRecorded step.now done.step (met self.old) (met self.new)) }
        ensures was_enabled { OnOk result (can self.old step.now && fits self.old step.now taken ≡ true) }
        ensures stands { OnOk result ((node clients : ℕ) → stands self.old node clients → stands self.new node clients) }
        ensures met_rises { met self.old ≤ met self.new × met self.new ≤ met self.old + 1 }
        ensures met_a_fault { met self.old < met self.new → faults self.old < faults self.new }
        ensures met_in_ok { OnErr result (met self.new ≡ met self.old) }
        ensures not_enabled { result ≡ Err NotEnabled → (can self.old step.now && fits self.old step.now taken ≡ false) × (self.new ≡ self.old) }
        ensures refused { can self.old step.now && fits self.old step.now taken ≡ false → (result ≡ Err NotEnabled) ⊎ ended self.old }
        ensures fault { result ≡ Err DiskFault → (faults self.old + met self.new + 2 ≤ faults self.new + met self.old)
            ⊎ ((faults self.old + met self.new + 1 ≤ faults self.new + met self.old) × (met self.new ≡ 31)) }
        ensures ends { result ≡ Err NoMemory → ended self.new }
        ensures is_ended { ended self.old → result ≡ Err NoMemory };

    /// How many entries were buffered.
    fn buffered(&self) -> Buffered
        ensures { result ≡ held self.now };

    /// Where it stands, each step in which it takes from a peer is enabled.
    ghost takes: { (core : Self) → (node clients : ℕ) → stands core node clients → (step : Step) → is_step_of clients node step ≡ true
        → takes_from_peer clients node (taken_from clients step) ≡ true → can core step ≡ true };

    /// No step of another node is.
    ghost own: { (core : Self) → (node clients : ℕ) → stands core node clients → (step : Step) → can core step ≡ true
        → is_step_of clients node step ≡ true };

    /// A server may restart with as many entries as it buffered, or fewer.
    ghost restarts: { (core : Self) → (clients : ℕ) → stands core 0 clients → (k : ℕ) → k < 2 ^ 32
        → can core (Restart k) ≡ nat_le k (held core).now };

    /// What fits a step of its own is what each pair of nodes has to say.
    ghost fitting: { (core : Self) → (node clients : ℕ) → stands core node clients → (step : Step) → is_step_of clients node step ≡ true
        → (taken : Option Message) → fits core step taken ≡ taken_fits clients step taken };

    /// What it sends goes to peers, and fits them.
    ghost sends: { (old new : Self) → (node clients : ℕ) → stands old node clients → (step : Step) → (taken : Option Message)
        → (done : Done) → row old step taken done new → is_step_of clients node step ≡ true
        → takes_from_peer_if_any clients node (taken_from clients step) ≡ true
        → list_all (is_sent_well clients node) done.sent ≡ true };
}
