// One held file.
ghost use Rattle.std.specs.Prelude.{◌≡◌, ◌↔◌, ◌<◌, ◌≤◌, ◌+◌, true, not, min, length, IsTrue, OnOk, OnErr, IsErrOf};
ghost use Rattle.std.specs.Bool.{OnFalse};
ghost use Rattle.std.specs.Option.{option_copied};
ghost use Rattle.snap_ids.specs.declared.values.Mode.TheVariants.{Read};
ghost use Rattle.held_files.specs.declared.piece.Piece.TheVariants.{Put, Cut};
ghost use Rattle.file_buffer.specs.declared.error.BufError.TheVariants.{TooLarge};
ghost use Rattle.held_files.specs.Files.{held_newly, held_again, with_piece, with_mark, recalled, stored, settled_to, item_sent, buffer_of, is_write, is_empty, claim_of};
ghost use Rattle.held_files.specs.Due.{due, given_back};
ghost use Rattle.cap_snap.specs.Woven.{first_of, is_first_mark, leading_piece, waits, sooner};
ghost use Rattle.cap_snap.specs.declared.held.First.TheVariants as first;

use file_buffer::{BufError, FileBuf, Piece};
use held_files::Due;
use plain_types::Claim;
use snap_ids::{Bytes, Ino, Mode, NoMemory, SnapContext, SnapId};
use std::alloc::Global;
use std::collections::VecDeque;
use std::marker::Model;

// A mark that isn't sent, and how many unsent pieces stand between the mark before it and itself.
#[derive(Clone, Copy, Debug, PartialEq, Eq)]
pub(crate) struct Queued {
    after: usize,
    follows: SnapId,
    upto: SnapId,
    size: u32,
}

// What waits first.
#[derive(Clone, Copy, Debug, PartialEq, Eq)]
pub(crate) enum First {
    Nothing,
    Piece,
    Mark {
        follows: SnapId,
        upto: SnapId,
        size: u32,
    },
}

/// A held file. Contracts see it as `held_files` has it.
#[derive(Drop)]
pub(crate) struct Held {
    mode: Mode,
    settled: SnapId,
    recalled: bool,
    buf: FileBuf,
    marks: VecDeque<Queued>,
    // How many unsent pieces stand before the last mark.
    marked: usize,
}

impl Model for Held {
    ghost use Rattle.std.specs.Prelude.{◌≡◌, ◌≤◌, length, IsTrue};
    ghost use Rattle.held_files.specs.Files.{HeldFile};

    ghost Value = { HeldFile };

    ghost use Rattle.cap_snap.specs.Woven.{woven, total, is_kept};

    ghost view = { λ h. record {
      mode = h.mode;
      size = h.buf.size;
      settled = h.settled;
      recalled = h.recalled;
      unacked = h.buf.unacked;
      unsent = woven h.marks.items h.buf.unsent;
    } };

    ghost invariant = { λ h. (total h.marks.items ≡ h.marked) × (h.marked ≤ length h.buf.unsent)
        × IsTrue (is_kept h.mode h.buf h.marks.items) };
}

// One piece fewer stands before the oldest mark. It answers by how many fewer stand before the last.
fn sooner(marks: &mut VecDeque<Queued>) -> usize
    ensures marks { marks.new.items ≡ sooner marks.old.items }
    ensures fewer { result ≡ min 1 (length marks.old.items) }
{
    if marks.is_empty() {
        return 0;
    }
    marks[0].after = marks[0].after.saturating_sub(1);
    1
}

impl Held {
    /// A file that is held newly. It takes no memory.
    pub(crate) fn new(alloc: Global, mode: Mode, size: u32, settled: SnapId) -> Held
        ensures { result ≡ held_newly mode size settled }
    {
        Held {
            mode,
            settled,
            recalled: false,
            buf: FileBuf::new(alloc, size),
            marks: VecDeque::new(alloc),
            marked: 0,
        }
    }

    // A file that is held for reading is held again.
    fn renew(&mut self, alloc: Global, mode: Mode, size: u32, settled: SnapId)
        requires { self.old.mode ≡ Read }
        ensures { self.new ≡ held_again mode size settled self.old }
    {
        self.buf = FileBuf::new(alloc, size);
        self.mode = mode;
        self.settled = settled;
        if mode == Mode::Write {
            self.recalled = false;
        }
    }

    /// A file that is held for reading is held again. It takes no memory, and answers whether something waits then.
    pub(crate) fn hold_again(
        &mut self,
        alloc: Global,
        mode: Mode,
        size: u32,
        settled: SnapId,
    ) -> bool
        requires { self.old.mode ≡ Read }
        ensures held { self.new ≡ held_again mode size settled self.old }
        ensures waits { result ≡ waits self.new }
    {
        self.renew(alloc, mode, size, settled);
        self.waits()
    }

    /// Keeps a write back.
    pub(crate) fn write(
        &mut self,
        offset: u32,
        bytes: Bytes,
        context: SnapContext,
    ) -> Result<(), BufError>
        requires { IsTrue (is_write self.old.mode) }
        ensures added { OnOk result (self.new ≡ with_piece (Put offset bytes context) self.old) }
        ensures too_large { IsErrOf result TooLarge ↔ (65536 < offset + length bytes) }
        ensures as_before { OnErr result (self.new ≡ self.old) }
    {
        self.buf.write(offset, bytes, context)
    }

    /// Keeps a new length back.
    pub(crate) fn truncate(&mut self, length: u32, context: SnapContext) -> Result<(), BufError>
        requires { IsTrue (is_write self.old.mode) }
        ensures added { OnOk result (self.new ≡ with_piece (Cut length context) self.old) }
        ensures too_large { IsErrOf result TooLarge ↔ (65536 < length) }
        ensures as_before { OnErr result (self.new ≡ self.old) }
    {
        self.buf.truncate(length, context)
    }

    /// Puts a mark last.
    pub(crate) fn queue(&mut self, follows: SnapId, upto: SnapId, size: u32) -> Result<(), NoMemory>
        requires { IsTrue (is_write self.old.mode) }
        ensures marked { OnOk result (self.new
            ≡ with_mark (record { follows = follows; upto = upto; size = size }) self.old) }
        ensures as_before { OnErr result (self.new ≡ self.old) }
    {
        let unsent = self.buf.unsent_count();
        let after = unsent - self.marked;
        self.marks.push_back(Queued {
            after,
            follows,
            upto,
            size,
        })?;
        self.marked = unsent;
        Ok(())
    }

    /// The server wants the file back.
    pub(crate) fn recall(&mut self)
        ensures { self.new ≡ recalled self.old }
    {
        self.recalled = true;
    }

    /// The store has acknowledged the oldest piece that was sent, if there is one.
    pub(crate) fn stored(&mut self) -> bool
        ensures was_there { result ≡ not (is_empty self.old.unacked) }
        ensures stored { self.new ≡ stored self.old }
        ensures as_before { OnFalse result (self.new ≡ self.old) }
    {
        if self.buf.unacked_count() == 0 {
            return false;
        }
        self.buf.acked();
        true
    }

    /// The server has acknowledged a mark up to an id.
    pub(crate) fn settle(&mut self, upto: SnapId)
        ensures { self.new ≡ settled_to upto self.old }
    {
        self.settled = self.settled.max(upto);
    }

    /// What is kept back of the file's bytes.
    pub(crate) fn buffer(&self) -> &FileBuf
        ensures { result.now ≡ buffer_of self.now }
    {
        &self.buf
    }

    /// What the client says that it holds.
    pub(crate) fn claim(&self, ino: Ino) -> Claim
        ensures { result ≡ claim_of (ino, self.now) }
    {
        Claim {
            ino,
            mode: self.mode,
            settled: self.settled,
        }
    }

    // What waits first.
    fn first(&self) -> First
        ensures { result ≡ first_of self.now.unsent }
    {
        match self.marks.front() {
            Some(mark) if mark.after == 0 => First::Mark {
                follows: mark.follows,
                upto: mark.upto,
                size: mark.size,
            },
            Some(_) => First::Piece,
            None if self.buf.unsent_count() == 0 => First::Nothing,
            None => First::Piece,
        }
    }

    /// Whether it is held for writing.
    pub(crate) fn is_writer(&self) -> bool
        ensures { result ≡ is_write self.now.mode }
    {
        self.mode == Mode::Write
    }

    /// The piece that waits first, where no mark stands before it.
    pub(crate) fn first_piece(&self) -> Option<&Piece>
        ensures { option_copied result ≡ leading_piece self.now.unsent }
    {
        match self.first() {
            First::Piece => self.buf.next_piece(),
            First::Mark { .. } => None,
            First::Nothing => None,
        }
    }

    // Whether something waits, or the server wants the file back.
    fn waits(&self) -> bool
        ensures { result ≡ waits self.now }
    {
        self.recalled || self.first() != First::Nothing
    }

    /// What is due, where `reading` is the file with an open read at the store.
    pub(crate) fn due(&self, ino: Ino, reading: Option<Ino>) -> Option<Due>
        ensures { result ≡ due reading (ino, self.now) }
    {
        let waits_for_store = self.buf.unacked_count() > 0;
        match self.first() {
            First::Piece => Some(Due::Piece(ino)),
            _ if waits_for_store => None,
            First::Mark {
                follows,
                upto,
                size,
            } => Some(Due::Mark {
                ino,
                follows,
                upto,
                size,
            }),
            First::Nothing if !self.recalled || reading == Some(ino) => None,
            First::Nothing => Some(self.given_back(ino)),
        }
    }

    // The file is given back, by a writer with its size.
    fn given_back(&self, ino: Ino) -> Due
        ensures { result ≡ given_back ino self.now.size self.now.mode }
    {
        match self.mode {
            Mode::Write => Due::Release {
                ino,
                size: self.buf.size(),
            },
            Mode::Read => Due::DropRead(ino),
        }
    }

    // The oldest unsent piece, which stands first, counts as sent.
    fn piece_sent(&mut self)
        requires { first_of self.old.unsent ≡ first.Piece }
        ensures { self.new ≡ item_sent self.old }
    {
        self.marked -= sooner(&mut self.marks);
        self.buf.sent();
    }

    // The oldest mark, which stands first, is kept no more.
    fn mark_sent(&mut self)
        requires { is_first_mark (first_of self.old.unsent) ≡ true }
        ensures { self.new ≡ item_sent self.old }
    {
        self.marks.pop_front();
    }

    // The first of what waits counts as sent.
    fn send_first(&mut self)
        ensures { self.new ≡ item_sent self.old }
    {
        match self.first() {
            First::Nothing => {}
            First::Piece => self.piece_sent(),
            First::Mark { .. } => self.mark_sent(),
        }
    }

    /// The first of what waits counts as sent. It answers whether something waits then.
    pub(crate) fn item_sent(&mut self) -> bool
        ensures sent { self.new ≡ item_sent self.old }
        ensures waits { result ≡ waits self.new }
    {
        self.send_first();
        self.waits()
    }
}
