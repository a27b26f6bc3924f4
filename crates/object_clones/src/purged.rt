// The snapshots that were purged.
ghost use Rattle.std.specs.Prelude.{◌≡◌, ◌||◌, ◌==◌, [], OnOk, OnErr};
ghost use Rattle.snap_ids.specs.declared.id.SnapId.{SnapId};
ghost use Rattle.object_clones.specs.Purged.{has};

use snap_ids::{NoMemory, SnapId};
use std::alloc::Global;
use std::collections::BTreeSet;

/// The ids of the snapshots that were purged.
#[derive(Drop)]
pub(crate) struct Purged {
    ids: BTreeSet<u64>,
}

impl Purged {
    /// None.
    pub(crate) fn new(alloc: Global) -> Purged
        ensures { result.ids.keys ≡ [] }
    {
        Purged {
            ids: BTreeSet::new(alloc),
        }
    }

    /// Whether a snapshot was purged.
    pub(crate) fn has(&self, s: SnapId) -> bool
        ensures { result ≡ has self.now s }
    {
        self.ids.contains(&s.0)
    }

    /// Notes that a snapshot is purged.
    pub(crate) fn add(&mut self, s: SnapId) -> Result<(), NoMemory>
        ensures ok { OnOk result ((q : SnapId) → has self.new q ≡ ((q.0 == s.0) || has self.old q)) }
        ensures err { OnErr result (self.new.ids.keys ≡ self.old.ids.keys) }
    {
        self.ids.insert(s.0)?;
        Ok(())
    }
}
