// The object store.
ghost use Rattle.std.specs.Prelude.{◌≡◌, ◌↔◌, ◌+◌, ◌<◌, ◌≤◌, ◌^◌, ◌++◌, ◌∷◌, [], ℕ, List, None, Some, true, length, IsTrue, IfOk, OnOk, OnErr, IsErrOf};
ghost use Rattle.plain_types.specs.declared.message.ToStore.{ToStore};
ghost use Rattle.plain_types.specs.declared.message.ToStore.TheVariants as message;
ghost use Rattle.object_log.specs.Bytes.{bytes_head, bytes_at, was_purged};
ghost use Rattle.object_log.specs.Objects.{clones_of};
ghost use Rattle.object_log.specs.Reads.{know_snapshot};
ghost use Rattle.object_log.specs.Serves.{bytes_served};

use crate::error::StoreError;
use crate::files::Files;
use crate::object::Edit;
use crate::purged::Purged;
use snap_ids::{Bytes, CloneList, Ino, ListOf, NoMemory, SnapContext, SnapId};
use std::alloc::Global;
use std::marker::Model;

/// The files' bytes, in objects of one size, with the clones that they keep for snapshots. Contracts see each object, and
/// which snapshots were purged.
///
/// A store stands for the list of messages that it took: a new one for none, and after each change for one more. What it
/// answers is what the list says. Ceph developer guide, CephFS Snapshots, has the clones in outline.
#[derive(Drop)]
pub struct ObjectStore {
    alloc: Global,
    size: u32,
    files: Files,
    purged: Purged,
}

impl Model for ObjectStore {
    ghost use Rattle.std.specs.Prelude.{◌<◌, ◌≤◌};
    ghost use Rattle.object_clones.specs.Store.{Shown, Covers, plain_files};

    ghost Value = { Shown };

    ghost view = { λ s. record { size = s.size; files = plain_files s.files; purged = s.purged.ids.keys } };

    ghost invariant = { λ s. (0 < s.size) × (s.size ≤ 65536) × Covers s.files };
}

impl ObjectStore {
    ghost use Rattle.snap_ids.specs.Context.{is_context};
    ghost use Rattle.object_clones.specs.Objects.{IsSmall, list_of};
    ghost use Rattle.object_clones.specs.Files.{bytes_read};
    ghost use Rattle.object_clones.specs.Store.{Shown, object_at, SameStore, EditsFile, PurgesSnapshot};
    ghost use Rattle.object_clones.specs.Stands.{StandsFor};

    /// An empty store with objects of this size in bytes. It takes no memory.
    pub fn new(alloc: Global, object: u32) -> ObjectStore
        requires least { 16 ≤ object }
        requires most { object ≤ 65536 }
        ensures { StandsFor result object [] }
    {
        ObjectStore {
            alloc,
            size: object,
            files: Files::new(alloc),
            purged: Purged::new(alloc),
        }
    }

    // Carries an edit of a file out under a context.
    fn edit(&mut self, ino: Ino, edit: Edit<'_>, context: &SnapContext) -> Result<(), NoMemory>
        requires { IsSmall edit }
        ensures ok { OnOk result (EditsFile self.old self.new ino edit.entry context.now) }
        ensures err { OnErr result (SameStore self.old self.new) }
        ensures well_formed { IsTrue (is_context context.now) }
    {
        // Its contract says that the ids fall.
        let _seq = context.seq();
        self.files
            .edit(self.alloc, self.size, ino, edit, context, &self.purged)
    }

    /// Writes bytes at an offset of a file. At want of memory the store is as before.
    pub fn write(
        &mut self,
        ino: Ino,
        offset: u32,
        bytes: &Bytes,
        context: &SnapContext,
    ) -> Result<(), NoMemory>
        requires { offset + length bytes.now ≤ 65536 }
        ensures ok { OnOk result ((size : ℕ) (taken : List ToStore) → StandsFor self.old size taken
            → StandsFor self.new size (taken ++ message.WriteAt ino offset bytes.now context.now ∷ [])) }
        ensures as_before { OnErr result (SameStore self.old self.new) }
        ensures stands { OnErr result ((size : ℕ) (taken : List ToStore) → StandsFor self.old size taken → StandsFor self.new size taken) }
    {
        let bytes = bytes.as_slice();
        self.edit(ino, Edit::Write { offset, bytes }, context)
    }

    /// Cuts a file to a length. At want of memory the store is as before.
    pub fn truncate(&mut self, ino: Ino, length: u32, context: &SnapContext) -> Result<(), NoMemory>
        requires { length ≤ 65536 }
        ensures ok { OnOk result ((size : ℕ) (taken : List ToStore) → StandsFor self.old size taken
            → StandsFor self.new size (taken ++ message.Cut ino length context.now ∷ [])) }
        ensures as_before { OnErr result (SameStore self.old self.new) }
        ensures stands { OnErr result ((size : ℕ) (taken : List ToStore) → StandsFor self.old size taken → StandsFor self.new size taken) }
    {
        self.edit(ino, Edit::Cut { length }, context)
    }

    /// Deletes a file, whose clones stay. At want of memory the store is as before.
    pub fn delete(&mut self, ino: Ino, context: &SnapContext) -> Result<(), NoMemory>
        ensures ok { OnOk result ((size : ℕ) (taken : List ToStore) → StandsFor self.old size taken
            → StandsFor self.new size (taken ++ message.Delete ino context.now ∷ [])) }
        ensures as_before { OnErr result (SameStore self.old self.new) }
        ensures stands { OnErr result ((size : ℕ) (taken : List ToStore) → StandsFor self.old size taken → StandsFor self.new size taken) }
    {
        self.edit(ino, Edit::Delete, context)
    }

    // The first bytes of a file, of its head or at a snapshot.
    fn read(&self, ino: Ino, size: u32, s: Option<SnapId>) -> Result<Bytes, NoMemory>
        ensures { IfOk result (λ bytes. bytes ≡ bytes_read self.now.size (object_at self.now ino.0) size s) }
    {
        let bytes = self.files.read(self.alloc, self.size, ino, size, s)?;
        Ok(ListOf::from_vec(bytes))
    }

    /// The first bytes of a file, so many as `size` says, with zeros where nothing was written.
    pub fn read_head(&self, ino: Ino, size: u32) -> Result<Bytes, NoMemory>
        requires { size ≤ 65536 }
        ensures { IfOk result (λ bytes. (object : ℕ) (taken : List ToStore) → StandsFor self.now object taken
            → bytes ≡ bytes_head taken ino size) }
    {
        self.read(ino, size, None)
    }

    /// The first bytes of a file at a snapshot: of each object the head where the snapshot is above the object's sequence
    /// id, else what the clone for it kept, else zeros. They are those of the messages made before the snapshot where each
    /// later message for the file lists it. A purged snapshot is Gone, whatever the memory.
    pub fn read_at(&self, ino: Ino, size: u32, s: SnapId) -> Result<Bytes, StoreError>
        requires { size ≤ 65536 }
        ensures served { IfOk result (λ bytes. (object : ℕ) (taken : List ToStore) → StandsFor self.now object taken
            → bytes ≡ bytes_served object taken ino size s) }
        ensures bytes { IfOk result (λ bytes. (object : ℕ) (taken : List ToStore) → StandsFor self.now object taken
            → know_snapshot s ino taken ≡ true → bytes ≡ bytes_at taken ino size s) }
        ensures gone { (object : ℕ) (taken : List ToStore) → StandsFor self.now object taken
            → (IsErrOf result StoreError.Gone ↔ (was_purged s taken ≡ true)) }
    {
        if self.purged.has(s) {
            return Err(StoreError::Gone);
        }
        match self.read(ino, size, Some(s)) {
            Ok(bytes) => Ok(bytes),
            Err(_) => Err(StoreError::NoMemory),
        }
    }

    /// Drops a removed snapshot: no clone serves it any more. At want of memory the store is as before.
    pub fn purge(&mut self, s: SnapId) -> Result<(), NoMemory>
        ensures ok { OnOk result ((size : ℕ) (taken : List ToStore) → StandsFor self.old size taken
            → StandsFor self.new size (taken ++ message.Purge s ∷ [])) }
        ensures as_before { OnErr result (SameStore self.old self.new) }
        ensures stands { OnErr result ((size : ℕ) (taken : List ToStore) → StandsFor self.old size taken → StandsFor self.new size taken) }
    {
        self.purge_all(s)
    }

    // The same, as the objects show it.
    fn purge_all(&mut self, s: SnapId) -> Result<(), NoMemory>
        ensures ok { OnOk result (PurgesSnapshot self.old self.new s) }
        ensures err { OnErr result (SameStore self.old self.new) }
    {
        self.purged.add(s)?;
        self.files.purge(s);
        Ok(())
    }

    /// The clones of a file's object, and the length of its head.
    pub fn clones(&self, ino: Ino, index: u32) -> Result<CloneList, NoMemory>
        ensures { IfOk result (λ list. (size : ℕ) (taken : List ToStore) → StandsFor self.now size taken
            → list ≡ clones_of size taken ino index) }
    {
        self.listed(ino, index)
    }

    // The same, as the object shows it.
    fn listed(&self, ino: Ino, index: u32) -> Result<CloneList, NoMemory>
        ensures { IfOk result (λ list. list ≡ list_of (object_at self.now ino.0 index)) }
    {
        self.files.listed(self.alloc, ino, index)
    }
}
