// The objects of all files.
ghost use Rattle.std.specs.Prelude.{◌≡◌, ◌<◌, ◌≤◌, ◌*◌, ◌==◌, ◌&&◌, [], ℕ, false, IsSome, replicate, if◌then◌else◌, IfOk, OnOk, OnErr};
ghost use Rattle.std.specs.Option.{option_copied};
ghost use Rattle.std.specs.Ordering.{nat_cmp};
ghost use Rattle.std.specs.BTreeMap.{get};
ghost use Rattle.std.specs.BTreeSet.{contains};
ghost use Rattle.object_clones.specs.Purged.{has};
ghost use Rattle.object_clones.specs.Listing.{place_cmp};
ghost use Rattle.object_clones.specs.Objects.{IsSmall, IsLeft, edited, list_of, purged};
ghost use Rattle.object_clones.specs.Files.{bytes_read, plain_or_blank};
ghost use Rattle.object_clones.specs.Store.{object_among, Covers};

use crate::file::File;
use crate::listing::Listing;
use crate::object::{Edit, Object};
use crate::purged::Purged;
use snap_ids::{CloneList, Ino, ListOf, NoMemory, SnapContext, SnapId};
use std::alloc::{AllocError, Global};
use std::collections::{BTreeMap, BTreeSet};

/// The files by their inodes, and which of their objects have clones for which snapshots.
#[derive(Drop)]
pub(crate) struct Files {
    files: BTreeMap<u64, File>,
    listing: Listing,
}

// So many zeros.
fn zeros(alloc: Global, size: u32) -> Result<Vec<u8>, AllocError>
    ensures { IfOk result (λ zeros. zeros.items ≡ replicate size 0) }
{
    let mut zeros = Vec::new(alloc);
    zeros.resize(size as usize, 0)?;
    Ok(zeros)
}

impl Files {
    /// No file.
    pub(crate) fn new(alloc: Global) -> Files
        ensures empty { result.files.entries ≡ [] }
        ensures covers { Covers result }
    {
        Files {
            files: BTreeMap::new(alloc),
            listing: Listing::new(alloc),
        }
    }

    // Makes a file without objects, where there is none.
    fn make_file(&mut self, alloc: Global, ino: Ino) -> Result<(), NoMemory>
        ensures same { (f k : ℕ) → object_among self.new f k ≡ object_among self.old f k }
        ensures made { OnOk result (IsSome (get nat_cmp self.new.files ino.0)) }
        ensures listing { self.new.listing ≡ self.old.listing }
    {
        if !self.files.contains_key(&ino.0) {
            self.files.insert(ino.0, File::new(alloc))?;
        }
        Ok(())
    }

    // Carries an edit out on the objects of a file that is there.
    fn edit_file(
        &mut self,
        alloc: Global,
        size: u32,
        ino: Ino,
        edit: Edit<'_>,
        context: &SnapContext,
        purged: &Purged,
    ) -> Result<(), NoMemory>
        requires size { 0 < size }
        requires limit { size ≤ 65536 }
        requires small { IsSmall edit }
        requires made { IsSome (get nat_cmp self.old.files ino.0) }
        ensures ok { OnOk result ((f k : ℕ) → object_among self.new f k
            ≡ (if f == ino.0 then edited (has purged.now) (k * size) size edit.entry context.now (object_among self.old f k)
            else object_among self.old f k)) }
        ensures err { OnErr result ((f k : ℕ) → object_among self.new f k ≡ object_among self.old f k) }
        ensures covers { Covers self.old → Covers self.new }
    {
        match self.files.get_mut(&ino.0) {
            Some(file) => file.edit(alloc, size, ino.0, edit, context, purged, &mut self.listing),
            None => Ok(()),
        }
    }

    /// Carries an edit of a file out under a context.
    pub(crate) fn edit(
        &mut self,
        alloc: Global,
        size: u32,
        ino: Ino,
        edit: Edit<'_>,
        context: &SnapContext,
        purged: &Purged,
    ) -> Result<(), NoMemory>
        requires size { 0 < size }
        requires limit { size ≤ 65536 }
        requires small { IsSmall edit }
        ensures ok { OnOk result ((f k : ℕ) → object_among self.new f k
            ≡ (if f == ino.0 then edited (has purged.now) (k * size) size edit.entry context.now (object_among self.old f k)
            else object_among self.old f k)) }
        ensures err { OnErr result ((f k : ℕ) → object_among self.new f k ≡ object_among self.old f k) }
        ensures covers { Covers self.old → Covers self.new }
    {
        self.make_file(alloc, ino)?;
        self.edit_file(alloc, size, ino, edit, context, purged)
    }

    // Takes a purged snapshot out of the lists of one object.
    fn purge_object(&mut self, ino: u64, index: u32, s: SnapId)
        ensures objects { (f k : ℕ) → object_among self.new f k
            ≡ (if f == ino && k == index then purged s (object_among self.old f k) else object_among self.old f k) }
        ensures listing { self.new.listing ≡ self.old.listing }
    {
        if let Some(file) = self.files.get_mut(&ino) {
            file.purge(index, s);
        }
    }

    // The same of some objects, where a purge leaves the others.
    fn purge_objects(&mut self, mut places: BTreeSet<(u64, u32)>, s: SnapId)
        requires { (f k : ℕ) → contains place_cmp places (f, k) ≡ false → IsLeft s (object_among self.old f k) }
        ensures objects { (f k : ℕ) → object_among self.new f k ≡ purged s (object_among self.old f k) }
        ensures listing { self.new.listing ≡ self.old.listing }
    {
        while let Some(place) = places.pop_first() {
            self.purge_object(place.0, place.1, s);
        }
    }

    /// Takes a purged snapshot out of all lists, and visits only the objects that are noted for it.
    pub(crate) fn purge(&mut self, s: SnapId)
        requires { Covers self.old }
        ensures objects { (f k : ℕ) → object_among self.new f k ≡ purged s (object_among self.old f k) }
        ensures covers { Covers self.new }
    {
        if let Some(places) = self.listing.take(s) {
            self.purge_objects(places, s);
        }
    }

    /// The first bytes of a file's head, or at a snapshot.
    pub(crate) fn read(
        &self,
        alloc: Global,
        object: u32,
        ino: Ino,
        size: u32,
        s: Option<SnapId>,
    ) -> Result<Vec<u8>, AllocError>
        requires { 0 < object }
        ensures { IfOk result (λ bytes. bytes.items ≡ bytes_read object (object_among self.now ino.0) size s) }
    {
        match self.files.get(&ino.0) {
            Some(file) => file.read(alloc, object, size, s),
            None => zeros(alloc, size),
        }
    }

    // The object of an inode and an index.
    fn object(&self, ino: Ino, index: u32) -> Option<&Object>
        ensures { plain_or_blank (option_copied result) ≡ object_among self.now ino.0 index }
    {
        match self.files.get(&ino.0) {
            Some(file) => file.object(index),
            None => None,
        }
    }

    /// The clones of an object and its head's length.
    pub(crate) fn listed(&self, alloc: Global, ino: Ino, index: u32) -> Result<CloneList, NoMemory>
        ensures { IfOk result (λ list. list ≡ list_of (object_among self.now ino.0 index)) }
    {
        match self.object(ino, index) {
            Some(object) => object.listed(alloc),
            None => Ok(CloneList {
                clones: ListOf::new(alloc),
                head: None,
            }),
        }
    }
}
