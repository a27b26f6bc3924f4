// The objects of one file.
ghost use Rattle.std.specs.Prelude.{◌≡◌, ◌≢◌, ◌+◌, ◌-◌, ◌*◌, ◌<◌, ◌≤◌, ◌^◌, ◌⊎◌, ◌++◌, ◌==◌, ℕ, false, None, length, vec_len, slice_index, IsSome, if◌then◌else◌, IfOk, OnOk, OnErr};
ghost use Rattle.std.specs.Ordering.{nat_cmp};
ghost use Rattle.std.specs.BTreeMap.{get};
ghost use Rattle.std.specs.Option.{option_map, option_copied};
ghost use Rattle.object_log.specs.Bytes.{so_many};
ghost use Rattle.object_clones.specs.Bytes.{or_empty};
ghost use Rattle.object_clones.specs.Purged.{has};
ghost use Rattle.snap_ids.specs.declared.id.SnapId.{SnapId};
ghost use Rattle.object_clones.specs.Listing.{noted, Grows};
ghost use Rattle.object_clones.specs.Objects.{IsSmall, IsLeft, blank, change_of, changed, edited, head_after, next, purged, bytes_shown};
ghost use Rattle.object_clones.specs.Files.{object_in, HasRoomAt, HasRooms, CoversFile, change_at, bytes_read};

use crate::extents::Extents;
use crate::listing::Listing;
use crate::object::{Change, Edit, Object};
use crate::purged::Purged;
use snap_ids::{NoMemory, SnapContext, SnapId};
use std::alloc::{AllocError, Global};
use std::collections::BTreeMap;

/// The objects of a file by their indexes.
#[derive(Drop)]
pub(crate) struct File {
    objects: BTreeMap<u32, Object>,
}

// Where an object begins in its file.
fn low_of(index: u32, size: u32) -> usize
    requires { size ≤ 65536 }
    ensures low { result ≡ index * size }
    ensures near { result + size < 2 ^ 62 }
{
    index as usize * size as usize
}

impl File {
    /// A file without objects.
    pub(crate) fn new(alloc: Global) -> File
        ensures { (index : ℕ) → object_in result index ≡ blank }
    {
        File {
            objects: BTreeMap::new(alloc),
        }
    }

    // One more than the greatest index that an object has.
    fn end(&self) -> u64
        ensures small { result ≤ 2 ^ 32 }
        ensures past { (index : ℕ) → result ≤ index → get nat_cmp self.now.objects index ≡ None }
    {
        match self.objects.last_key_value() {
            Some((index, _)) => u64::from(*index) + 1,
            None => 0,
        }
    }

    // Puts an object there, or makes room in the one that is there.
    fn make_room(&mut self, alloc: Global, index: u32) -> Result<(), NoMemory>
        ensures same { (k : ℕ) → object_in self.new k ≡ object_in self.old k }
        ensures keeps { (k : ℕ) → HasRoomAt self.old k → HasRoomAt self.new k }
        ensures room { OnOk result (HasRoomAt self.new index) }
    {
        if let Some(object) = self.objects.get_mut(&index) {
            return object.make_room();
        }
        self.objects.insert(index, Object::new(alloc))?;
        Ok(())
    }

    // What an edit will do to an object, for which room is made where it does something.
    fn prepare(
        &mut self,
        alloc: Global,
        size: u32,
        index: u32,
        edit: Edit<'_>,
        context: &SnapContext,
        purged: &Purged,
    ) -> Result<Option<Change>, NoMemory>
        requires size { size ≤ 65536 }
        requires small { IsSmall edit }
        ensures same { (k : ℕ) → object_in self.new k ≡ object_in self.old k }
        ensures keeps { (k : ℕ) → HasRoomAt self.old k → HasRoomAt self.new k }
        ensures change { IfOk result (λ change. option_map next change
            ≡ change_of (has purged.now) (index * size) size edit.entry context.now (object_in self.old index)) }
        ensures room { IfOk result (λ change. IsSome change → HasRoomAt self.new index) }
    {
        let low = low_of(index, size);
        let change = match self.objects.get(&index) {
            Some(object) => object.change(alloc, low, size as usize, edit, context, purged)?,
            None => Object::new(alloc).change(alloc, low, size as usize, edit, context, purged)?,
        };
        if change.is_some() {
            self.make_room(alloc, index)?;
        }
        Ok(change)
    }

    // What an edit will do to the objects from one index up to another.
    fn prepare_all(
        &mut self,
        alloc: Global,
        size: u32,
        indexes: (u64, u64),
        edit: Edit<'_>,
        context: &SnapContext,
        purged: &Purged,
    ) -> Result<Vec<Option<Change>>, NoMemory>
        requires size { size ≤ 65536 }
        requires small { IsSmall edit }
        requires order { indexes.0 ≤ indexes.1 }
        requires bound { indexes.1 ≤ 2 ^ 32 }
        ensures same { (k : ℕ) → object_in self.new k ≡ object_in self.old k }
        ensures count { IfOk result (λ changes. length changes.items ≡ indexes.1 - indexes.0) }
        ensures changes { IfOk result (λ changes. (k : ℕ) → indexes.0 ≤ k → k < indexes.1
            → change_at indexes.0 changes.items k
            ≡ change_of (has purged.now) (k * size) size edit.entry context.now (object_in self.old k)) }
        ensures rooms { IfOk result (λ changes. HasRooms self.new indexes.0 changes.items) }
    {
        let (first, end) = indexes;
        let mut changes = Vec::new(alloc);
        for index in first..end {
            let change = self.prepare(alloc, size, index as u32, edit, context, purged)?;
            changes.push(change)?;
        }
        Ok(changes)
    }

    // Does to an object what an edit does to it, for which there is room.
    fn settle(&mut self, index: u32, seq: SnapId, change: Option<Change>)
        requires { IsSome change → HasRoomAt self.old index }
        ensures here { object_in self.new index ≡ changed seq.0 (option_map next change) (object_in self.old index) }
        ensures others { (k : ℕ) → k ≢ index → get nat_cmp self.new.objects k ≡ get nat_cmp self.old.objects k }
    {
        if let Some(change) = change
            && let Some(object) = self.objects.get_mut(&index)
        {
            object.carry_out(seq, change);
        }
    }

    // The same to the objects from an index on.
    fn settle_all(&mut self, first: u64, seq: SnapId, mut changes: Vec<Option<Change>>)
        requires bound { first + vec_len changes ≤ 2 ^ 32 }
        requires rooms { HasRooms self.old first changes.items }
        ensures { (k : ℕ) → object_in self.new k
            ≡ changed seq.0 (change_at first changes.items k) (object_in self.old k) }
    {
        while let Some(change) = changes.pop() {
            let index = first + changes.len() as u64;
            self.settle(index as u32, seq, change);
        }
    }

    // The indexes from and up to which an edit can touch an object.
    fn reach(&self, size: u32, edit: Edit<'_>) -> (u64, u64)
        requires size { 0 < size }
        requires small { IsSmall edit }
        ensures order { result.0 ≤ result.1 }
        ensures bound { result.1 ≤ 2 ^ 32 }
        ensures outside { (k : ℕ) → (k < result.0) ⊎ (result.1 ≤ k)
            → head_after (k * size) size edit.entry (object_in self.now k).head ≡ None }
    {
        match edit {
            Edit::Write { offset, bytes } => {
                let end = offset + bytes.len() as u32;
                (u64::from(offset / size), u64::from(end / size) + 1)
            }
            Edit::Cut { .. } => (0, self.end()),
            Edit::Delete => (0, self.end()),
        }
    }

    // Notes an object for the ids that the clone will list which a change leaves of it.
    fn note(
        &self,
        alloc: Global,
        ino: u64,
        index: u32,
        change: &Option<Change>,
        listing: &mut Listing,
    ) -> Result<(), NoMemory>
        ensures grows { Grows listing.old listing.new }
        ensures noted { OnOk result ((seq : ℕ) (s : SnapId) → noted listing.new s ino index ≡ false
            → IsLeft s (object_in self.now index) → IsLeft s (changed seq (option_map next change.now) (object_in self.now index))) }
    {
        if let Some(change) = change
            && let Some(object) = self.objects.get(&index)
        {
            listing.note_all(alloc, object.clone_ids(change), ino, index)?;
        }
        Ok(())
    }

    // The same of the objects from an index on.
    fn note_all(
        &self,
        alloc: Global,
        ino: u64,
        first: u64,
        changes: &[Option<Change>],
        listing: &mut Listing,
    ) -> Result<(), NoMemory>
        requires bound { first + length changes.now ≤ 2 ^ 32 }
        ensures grows { Grows listing.old listing.new }
        ensures noted { OnOk result ((seq : ℕ) (s : SnapId) (k : ℕ) → noted listing.new s ino k ≡ false
            → IsLeft s (object_in self.now k) → IsLeft s (changed seq (change_at first changes.now k) (object_in self.now k))) }
    {
        for at in 0..changes.len() {
            let index = first + at as u64;
            self.note(alloc, ino, index as u32, &changes[at], listing)?;
        }
        Ok(())
    }

    /// Carries an edit out under a context, and notes the objects that are cloned.
    pub(crate) fn edit(
        &mut self,
        alloc: Global,
        size: u32,
        ino: u64,
        edit: Edit<'_>,
        context: &SnapContext,
        purged: &Purged,
        listing: &mut Listing,
    ) -> Result<(), NoMemory>
        requires size { 0 < size }
        requires limit { size ≤ 65536 }
        requires small { IsSmall edit }
        ensures ok { OnOk result ((k : ℕ) → object_in self.new k
            ≡ edited (has purged.now) (k * size) size edit.entry context.now (object_in self.old k)) }
        ensures err { OnErr result ((k : ℕ) → object_in self.new k ≡ object_in self.old k) }
        ensures grows { Grows listing.old listing.new }
        ensures covers { CoversFile listing.old ino self.old → CoversFile listing.new ino self.new }
    {
        let indexes = self.reach(size, edit);
        let changes = self.prepare_all(alloc, size, indexes, edit, context, purged)?;
        self.note_all(alloc, ino, indexes.0, &changes, listing)?;
        self.settle_all(indexes.0, context.seq(), changes);
        Ok(())
    }

    /// The object of an index.
    pub(crate) fn object(&self, index: u32) -> Option<&Object>
        ensures { option_copied result ≡ get nat_cmp self.now.objects index }
    {
        self.objects.get(&index)
    }

    /// Takes a purged snapshot out of the lists of one object.
    pub(crate) fn purge(&mut self, index: u32, s: SnapId)
        ensures { (k : ℕ) → object_in self.new k
            ≡ (if k == index then purged s (object_in self.old k) else object_in self.old k) }
    {
        if let Some(object) = self.objects.get_mut(&index) {
            object.purge(s);
        }
    }

    // The bytes of an object's head, or at a snapshot.
    fn bytes(&self, index: u32, s: Option<SnapId>) -> Option<&Extents>
        ensures { option_copied result ≡ bytes_shown s (object_in self.now index) }
    {
        let object = self.objects.get(&index)?;
        match s {
            Some(s) => object.bytes_at(s),
            None => object.head(),
        }
    }

    // Puts the first bytes of an object behind others.
    fn append(
        &self,
        out: &mut Vec<u8>,
        index: u32,
        count: usize,
        s: Option<SnapId>,
    ) -> Result<(), AllocError>
        requires { vec_len out.old + count < 2 ^ 62 }
        ensures { OnOk result (out.new.items ≡ out.old.items
            ++ so_many count (slice_index (or_empty (bytes_shown s (object_in self.now index))))) }
    {
        match self.bytes(index, s) {
            Some(bytes) => bytes.append_to(out, count),
            None => {
                out.resize(out.len() + count, 0)?;
                Ok(())
            }
        }
    }

    /// The first bytes of the head, or at a snapshot.
    pub(crate) fn read(
        &self,
        alloc: Global,
        object: u32,
        size: u32,
        s: Option<SnapId>,
    ) -> Result<Vec<u8>, AllocError>
        requires { 0 < object }
        ensures { IfOk result (λ bytes. bytes.items ≡ bytes_read object (object_in self.now) size s) }
    {
        let mut out = Vec::with_capacity(alloc, size as usize)?;
        for index in 0..size.div_ceil(object) {
            let count = object.min(size - index * object) as usize;
            self.append(&mut out, index, count, s)?;
        }
        Ok(out)
    }
}
