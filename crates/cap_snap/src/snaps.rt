// What a client holds.
ghost use Rattle.std.specs.Prelude.{◌≡◌, ◌↔◌, ◌<◌, ◌+◌, ◌++◌, true, false, not, [], length, Option, Some, None, IfOk, IsNone, OnOk, OnErr, IsErrOf, IsTrue};
ghost use Rattle.std.specs.Bool.{OnFalse};
ghost use Rattle.std.specs.List.{slice_get};
ghost use Rattle.std.specs.Option.{option_copied, option_map};
ghost use Rattle.snap_ids.specs.declared.id.Ino.{Ino as Inode};
ghost use Rattle.held_files.specs.declared.piece.Piece.TheVariants.{Put, Cut};
ghost use Rattle.file_buffer.specs.declared.error.BufError.TheVariants.{TooLarge};
ghost use Rattle.held_files.specs.Files.{file_of, with_file, without, hold, with_piece, with_mark, recalled, stored, settled_to, item_sent, claims, buffer_of, is_held, is_writer, is_idle, has_unacked};
ghost use Rattle.held_files.specs.Due.{first_due, sent};
ghost use Rattle.cap_snap.specs.Places.{due_at, claims_at};
ghost use Rattle.cap_snap.specs.Woven.{leading_in};

use crate::held::Held;
use crate::places::{move_up, note};
use file_buffer::{BufError, FileBuf, Piece};
use held_files::Due;
use indexmap::IndexMap;
use plain_types::{Claim, Claims};
use snap_ids::{Bytes, Ino, Mode, NoMemory, SnapContext, SnapId};
use std::alloc::Global;
use std::marker::Model;

/// What a client holds: files in the order in which they were held, with the pieces and marks that each keeps back.
/// Contracts see the list of them. Ceph developer guide, CephFS Snapshots: a client flushes a file's cap snaps in their
/// order.
#[derive(Drop)]
pub struct CapSnaps {
    alloc: Global,
    files: IndexMap<Ino, Held>,
    // The places of the files for which something may be due, rising. There is room for all.
    waiting: Vec<usize>,
}

impl Model for CapSnaps {
    ghost use Rattle.std.specs.Vec.{vec_capacity};
    ghost use Rattle.held_files.specs.Files.{HeldFiles};

    ghost Value = { HeldFiles };

    ghost use Rattle.cap_snap.specs.Places.{IsKept};

    ghost view = { λ s. s.files.entries };

    ghost invariant = { λ s. IsKept s.files.entries s.waiting.items (vec_capacity s.waiting) };
}

impl CapSnaps {
    /// No file is held. It takes no memory.
    pub fn new(alloc: Global) -> CapSnaps
        ensures { result ≡ [] }
    {
        CapSnaps {
            alloc,
            files: IndexMap::new(alloc),
            waiting: Vec::new(alloc),
        }
    }

    // A file is held newly, and goes last.
    fn hold_newly(
        &mut self,
        ino: Ino,
        mode: Mode,
        size: u32,
        settled: SnapId,
    ) -> Result<(), NoMemory>
        requires { file_of ino self.old ≡ None }
        ensures held { OnOk result (self.new ≡ hold ino mode size settled self.old) }
        ensures as_before { OnErr result (self.new ≡ self.old) }
    {
        let more = self.files.len() + 1 - self.waiting.len();
        self.waiting.reserve(more)?;
        self.files
            .insert(ino, Held::new(self.alloc, mode, size, settled))?;
        Ok(())
    }

    /// A file is held in this mode, with this size in bytes, and owes no mark up to the id `settled`. A file that was
    /// held for reading keeps its place and its recall, except that a raise to Write clears the recall, and this takes no
    /// memory. At want of memory all is as before.
    pub fn hold(&mut self, ino: Ino, mode: Mode, size: u32, settled: SnapId) -> Result<(), NoMemory>
        requires { is_writer ino self.old ≡ false }
        ensures held { OnOk result (self.new ≡ hold ino mode size settled self.old) }
        ensures as_before { OnErr result (self.new ≡ self.old) }
        ensures only_newly { OnErr result (is_held ino self.old ≡ false) }
    {
        let Some(at) = self.files.get_index_of(&ino) else {
            return self.hold_newly(ino, mode, size, settled);
        };
        let alloc = self.alloc;
        let waits = self.files[at].hold_again(alloc, mode, size, settled);
        note(&mut self.waiting, at, waits);
        Ok(())
    }

    /// What is kept back of a file's bytes. There is None exactly where it isn't held.
    pub fn file(&self, ino: Ino) -> Option<&FileBuf>
        ensures buffer { option_copied result ≡ option_map buffer_of (file_of ino self.now) }
        ensures none { IsNone result ↔ (is_held ino self.now ≡ false) }
    {
        let file = self.files.get(&ino)?;
        Some(file.buffer())
    }

    /// Whether a file is held for writing.
    pub fn is_writer(&self, ino: Ino) -> bool
        ensures { result ≡ is_writer ino self.now }
    {
        match self.files.get(&ino) {
            Some(file) => file.is_writer(),
            None => false,
        }
    }

    /// The piece of a file that waits to be sent first, where no mark stands before it.
    pub fn first_piece(&self, ino: Ino) -> Option<&Piece>
        ensures { option_copied result ≡ leading_in (file_of ino self.now) }
    {
        match self.files.get(&ino) {
            Some(file) => file.first_piece(),
            None => None,
        }
    }

    /// Keeps a write to a file back: bytes from an offset on, with the context that the file has. It is refused exactly
    /// where it ends behind byte 65,536. After a refusal all is as before.
    pub fn write(
        &mut self,
        ino: Ino,
        offset: u32,
        bytes: Bytes,
        context: SnapContext,
    ) -> Result<(), BufError>
        requires { is_writer ino self.old ≡ true }
        ensures added { OnOk result (self.new ≡ with_file ino (with_piece (Put offset bytes context)) self.old) }
        ensures too_large { IsErrOf result TooLarge ↔ (65536 < offset + length bytes) }
        ensures as_before { OnErr result (self.new ≡ self.old) }
    {
        let Some(at) = self.files.get_index_of(&ino) else {
            return Ok(());
        };
        self.files[at].write(offset, bytes, context)?;
        note(&mut self.waiting, at, true);
        Ok(())
    }

    /// Keeps a new length of a file back, with the context that the file has. It is refused exactly where it is above
    /// 65,536. After a refusal all is as before.
    pub fn truncate(&mut self, ino: Ino, length: u32, context: SnapContext) -> Result<(), BufError>
        requires { is_writer ino self.old ≡ true }
        ensures added { OnOk result (self.new ≡ with_file ino (with_piece (Cut length context)) self.old) }
        ensures too_large { IsErrOf result TooLarge ↔ (65536 < length) }
        ensures as_before { OnErr result (self.new ≡ self.old) }
    {
        let Some(at) = self.files.get_index_of(&ino) else {
            return Ok(());
        };
        self.files[at].truncate(length, context)?;
        note(&mut self.waiting, at, true);
        Ok(())
    }

    /// The server wants a file back. Nothing changes where it isn't held.
    pub fn recall(&mut self, ino: Ino)
        ensures { self.new ≡ with_file ino recalled self.old }
    {
        if let Some(at) = self.files.get_index_of(&ino) {
            self.files[at].recall();
            note(&mut self.waiting, at, true);
        }
    }

    /// The store has acknowledged the oldest piece of a file that was sent. It is false exactly where there is none, and
    /// then nothing changes.
    pub fn stored(&mut self, ino: Ino) -> bool
        ensures was_there { result ≡ has_unacked (file_of ino self.old) }
        ensures stored { self.new ≡ with_file ino stored self.old }
        ensures as_before { OnFalse result (self.new ≡ self.old) }
    {
        let Some(at) = self.files.get_index_of(&ino) else {
            return false;
        };
        self.files[at].stored()
    }

    // Puts the claim of a place's file last.
    fn push_claim(&self, at: usize, list: &mut Vec<Claim>) -> Result<(), NoMemory>
        ensures { OnOk result (list.new.items ≡ list.old.items ++ claims_at (slice_get self.now at)) }
    {
        if let Some((ino, file)) = self.files.get_index(at) {
            list.push(file.claim(*ino))?;
        }
        Ok(())
    }

    /// What the client says that it holds, in the order in which it was held.
    pub fn claims(&self) -> Result<Claims, NoMemory>
        ensures { IfOk result (λ list. list ≡ claims self.now) }
    {
        let mut list = Vec::new(self.alloc);
        for at in 0..self.files.len() {
            self.push_claim(at, &mut list)?;
        }
        Ok(Claims::from_vec(list))
    }

    // A file isn't held any more.
    fn remove(&mut self, ino: Ino)
        ensures { self.new ≡ without ino self.old }
    {
        if let Some(at) = self.files.get_index_of(&ino) {
            self.files.shift_remove(&ino);
            move_up(&mut self.waiting, at);
        }
    }

    /// A file of which nothing is kept back isn't held any more.
    pub fn let_go(&mut self, ino: Ino)
        requires { is_idle (file_of ino self.old) ≡ true }
        ensures { self.new ≡ without ino self.old }
    {
        self.remove(ino);
    }

    /// A file's context grew from one sequence id to another: the server is to be told, after all that waits already,
    /// and with this size. At want of memory all is as before.
    pub fn queue(
        &mut self,
        ino: Ino,
        follows: SnapId,
        upto: SnapId,
        size: u32,
    ) -> Result<(), NoMemory>
        requires held { is_writer ino self.old ≡ true }
        requires grows { follows.0 < upto.0 }
        ensures marked { OnOk result (self.new
            ≡ with_file ino (with_mark (record { follows = follows; upto = upto; size = size })) self.old) }
        ensures as_before { OnErr result (self.new ≡ self.old) }
    {
        let Some(at) = self.files.get_index_of(&ino) else {
            return Ok(());
        };
        self.files[at].queue(follows, upto, size)?;
        note(&mut self.waiting, at, true);
        Ok(())
    }

    // What is due for the file of a place.
    fn due_at(&self, at: usize, reading: Option<Ino>) -> Option<Due>
        ensures { result ≡ due_at reading (slice_get self.now at) }
    {
        let (ino, file) = self.files.get_index(at)?;
        file.due(*ino, reading)
    }

    /// What is to be sent next: the due item of the first file that has one. `reading` is the file with an open read at
    /// the store. The piece itself is `next_piece` of the file.
    pub fn next_flush(&self, reading: Option<Ino>) -> Option<Due>
        ensures { result ≡ first_due reading self.now }
    {
        for at in &self.waiting {
            let due = self.due_at(*at, reading);
            if due.is_some() {
                return due;
            }
        }
        None
    }

    // The first of what waits for a file counts as sent.
    fn item_sent(&mut self, ino: Ino)
        ensures { self.new ≡ with_file ino item_sent self.old }
    {
        if let Some(at) = self.files.get_index_of(&ino) {
            let waits = self.files[at].item_sent();
            note(&mut self.waiting, at, waits);
        }
    }

    /// What `next_flush` answers counts as sent. After its release or drop a file isn't held.
    pub fn sent(&mut self, due: &Due)
        requires { (reading : Option Inode) × (first_due reading self.old ≡ Some due.now) }
        ensures { self.new ≡ sent due.now self.old }
    {
        match *due {
            Due::Piece(ino) => self.item_sent(ino),
            Due::Mark { ino, .. } => self.item_sent(ino),
            Due::Release { ino, .. } => self.remove(ino),
            Due::DropRead(ino) => self.remove(ino),
        }
    }

    /// The server has acknowledged a mark of a file up to an id: nothing up to it is owed. Nothing changes where the
    /// file isn't held.
    pub fn acked(&mut self, ino: Ino, upto: SnapId)
        ensures { self.new ≡ with_file ino (settled_to upto) self.old }
    {
        if let Some(at) = self.files.get_index_of(&ino) {
            self.files[at].settle(upto);
        }
    }
}
