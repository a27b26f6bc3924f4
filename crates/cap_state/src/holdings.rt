// All that is held.
ghost use Rattle.std.specs.Prelude.{◌≡◌, ◌↔◌, [], length, IsTrue};

use plain_types::Claim;
use std::alloc::Global;
use std::marker::Model;

/// All that is held: each client with what it holds, by inode and then client. Contracts see the list.
#[derive(Debug, Drop)]
pub struct Holdings {
    pub(crate) items: Vec<(u8, Claim)>,
}

impl Model for Holdings {
    ghost use Rattle.std.specs.Prelude.{List};
    ghost use Rattle.cap_state.specs.Table.{Holding};

    ghost Value = { List Holding };

    ghost view = { λ held. held.items.items };
}

impl Holdings {
    // Nothing is held.
    pub(crate) fn new(alloc: Global) -> Holdings
        ensures { result ≡ [] }
    {
        Holdings {
            items: Vec::new(alloc),
        }
    }

    /// The holdings, in their order.
    pub fn as_slice(&self) -> &[(u8, Claim)]
        ensures { result.now ≡ self.now }
    {
        &self.items
    }

    /// How many holdings there are.
    pub fn len(&self) -> usize
        ensures { result ≡ length self.now }
    {
        self.items.len()
    }

    /// Whether nothing is held.
    pub fn is_empty(&self) -> bool
        ensures { IsTrue result ↔ (length self.now ≡ 0) }
    {
        self.items.is_empty()
    }
}
