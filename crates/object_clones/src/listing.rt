// Which objects have clones for which snapshots.
ghost use Rattle.std.specs.Prelude.{◌≡◌, ◌≢◌, ℕ, true, false, OnOk};
ghost use Rattle.snap_ids.specs.declared.id.SnapId.{SnapId};
ghost use Rattle.snap_ids.specs.Context.{is_listed};
ghost use Rattle.object_clones.specs.Listing.{noted, has_place, Grows};

use snap_ids::{NoMemory, SnapId};
use std::alloc::Global;
use std::collections::{BTreeMap, BTreeSet};

/// For each snapshot's id the objects, by inode and index, that have a clone which lists it. An object is noted before
/// its clone is made, so at want of memory one can be noted for an id that no clone of it lists.
#[derive(Drop)]
pub(crate) struct Listing {
    objects: BTreeMap<u64, BTreeSet<(u64, u32)>>,
}

impl Listing {
    /// No object.
    pub(crate) fn new(alloc: Global) -> Listing
        ensures { (s : SnapId) (ino index : ℕ) → noted result s ino index ≡ false }
    {
        Listing {
            objects: BTreeMap::new(alloc),
        }
    }

    // Notes an object for an id.
    fn note(&mut self, alloc: Global, s: SnapId, ino: u64, index: u32) -> Result<(), NoMemory>
        ensures grows { Grows self.old self.new }
        ensures noted { OnOk result (noted self.new s ino index ≡ true) }
    {
        if let Some(objects) = self.objects.get_mut(&s.0) {
            objects.insert((ino, index))?;
            return Ok(());
        }
        let mut objects = BTreeSet::new(alloc);
        objects.insert((ino, index))?;
        self.objects.insert(s.0, objects)?;
        Ok(())
    }

    /// Notes an object for each of some ids.
    pub(crate) fn note_all(
        &mut self,
        alloc: Global,
        ids: &[SnapId],
        ino: u64,
        index: u32,
    ) -> Result<(), NoMemory>
        ensures grows { Grows self.old self.new }
        ensures noted { OnOk result ((s : SnapId) → is_listed s ids.now ≡ true → noted self.new s ino index ≡ true) }
    {
        for id in ids {
            self.note(alloc, *id, ino, index)?;
        }
        Ok(())
    }

    /// Takes out which objects are noted for an id.
    pub(crate) fn take(&mut self, s: SnapId) -> Option<BTreeSet<(u64, u32)>>
        ensures taken { (ino index : ℕ) → has_place result ino index ≡ noted self.old s ino index }
        ensures gone { (ino index : ℕ) → noted self.new s ino index ≡ false }
        ensures others { (q : SnapId) (ino index : ℕ) → q.0 ≢ s.0
            → noted self.new q ino index ≡ noted self.old q ino index }
    {
        self.objects.remove(&s.0)
    }
}
