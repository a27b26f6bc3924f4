// One channel.
ghost use Rattle.std.specs.Prelude.{◌≡◌, ◌∷◌, ◌++◌, [], drop, OnOk, OnErr};
ghost use Rattle.std.specs.Option.{option_copied};
ghost use Rattle.node_channels.specs.Channels.{first};

use plain_types::Message;
use snap_ids::NoMemory;
use std::alloc::Global;
use std::collections::VecDeque;
use std::marker::Model;

/// What waits in one channel, the oldest message first. Contracts see the list of messages.
#[derive(Drop)]
pub(crate) struct Queue {
    messages: VecDeque<Message>,
}

impl Model for Queue {
    ghost use Rattle.std.specs.Prelude.{List};
    ghost use Rattle.plain_types.specs.declared.message.Message.{Message};

    ghost Value = { List Message };

    ghost view = { λ queue. queue.messages.items };
}

impl Queue {
    /// An empty channel, which takes no memory.
    pub(crate) fn new(alloc: Global) -> Queue
        ensures { result ≡ [] }
    {
        Queue {
            messages: VecDeque::new(alloc),
        }
    }

    /// Puts a message last.
    pub(crate) fn put_last(&mut self, message: Message) -> Result<(), NoMemory>
        ensures last { OnOk result (self.new ≡ self.old ++ message ∷ []) }
        ensures as_before { OnErr result (self.new ≡ self.old) }
    {
        self.messages.push_back(message)?;
        Ok(())
    }

    /// Takes the oldest message, if there is one.
    pub(crate) fn take_first(&mut self) -> Option<Message>
        ensures first { result ≡ first self.old }
        ensures rest { self.new ≡ drop 1 self.old }
    {
        self.messages.pop_front()
    }

    /// The oldest message, if there is one.
    pub(crate) fn first(&self) -> Option<&Message>
        ensures { option_copied result ≡ first self.now }
    {
        self.messages.front()
    }
}
