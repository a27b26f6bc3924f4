// The pieces of one file.
ghost use Rattle.std.specs.Prelude.{◌≡◌, ◌↔◌, ◌<◌, ◌≤◌, ◌+◌, length, IfOk, OnOk, OnErr, IsErrOf, IsNone};
ghost use Rattle.std.specs.List.{slice_get};
ghost use Rattle.std.specs.Option.{option_copied};
ghost use Rattle.file_buffer.specs.declared.error.BufError.TheVariants.{TooLarge};
ghost use Rattle.held_files.specs.declared.piece.Piece.TheVariants.{Put, Cut};
ghost use Rattle.held_files.specs.Buffer.{nothing_kept, size_after, with_piece, sent, acked, read_over};

use crate::error::BufError;
use crate::over::{from_stored, put_over};
use held_files::Piece;
use snap_ids::{Bytes, NoMemory, SnapContext};
use std::alloc::Global;
use std::collections::VecDeque;
use std::marker::Model;

// The largest size of a file.
const LARGEST: u32 = 65536;

/// What a client keeps back of one file's bytes. Contracts see the size, the pieces that were sent and that the store
/// hasn't acknowledged, and those that aren't sent, all oldest first.
#[derive(Drop)]
pub struct FileBuf {
    alloc: Global,
    size: u32,
    // Those that aren't acknowledged, of which the first are sent.
    pieces: VecDeque<Piece>,
    sent: usize,
}

impl Model for FileBuf {
    ghost use Rattle.std.specs.Prelude.{◌≤◌, length, take, drop};
    ghost use Rattle.held_files.specs.Buffer.{Buffer};

    ghost Value = { Buffer };

    ghost view = { λ b. record {
      size = b.size;
      unacked = take b.sent b.pieces.items;
      unsent = drop b.sent b.pieces.items;
    } };

    ghost invariant = { λ b. b.sent ≤ length b.pieces.items };
}

impl FileBuf {
    /// A file of this size, of which nothing is kept back. It takes no memory.
    pub fn new(alloc: Global, size: u32) -> FileBuf
        ensures { result ≡ nothing_kept size }
    {
        FileBuf {
            alloc,
            size,
            pieces: VecDeque::new(alloc),
            sent: 0,
        }
    }

    // Adds a piece, after which the file has this size.
    fn add(&mut self, piece: Piece, size: u32) -> Result<(), NoMemory>
        requires { size ≡ size_after self.old.size piece }
        ensures added { OnOk result (self.new ≡ with_piece piece self.old) }
        ensures as_before { OnErr result (self.new ≡ self.old) }
    {
        self.pieces.push_back(piece)?;
        self.size = size;
        Ok(())
    }

    /// Keeps a write back: bytes from an offset on, with the context that the file has. It is refused exactly where it
    /// ends behind byte 65,536. After a refusal all is as before.
    pub fn write(&mut self, offset: u32, bytes: Bytes, context: SnapContext) -> Result<(), BufError>
        ensures added { OnOk result (self.new ≡ with_piece (Put offset bytes context) self.old) }
        ensures too_large { IsErrOf result TooLarge ↔ (65536 < offset + length bytes) }
        ensures as_before { OnErr result (self.new ≡ self.old) }
    {
        if offset > LARGEST || bytes.len() > (LARGEST - offset) as usize {
            return Err(BufError::TooLarge);
        }
        let size = self.size.max(offset + bytes.len() as u32);
        match self.add(
            Piece::Put {
                offset,
                bytes,
                context,
            },
            size,
        ) {
            Ok(()) => Ok(()),
            Err(_) => Err(BufError::NoMemory),
        }
    }

    /// Keeps a new length back, with the context that the file has: what is behind it is cut off, and what is missing
    /// up to it is zero. It is refused exactly where it is above 65,536. After a refusal all is as before.
    pub fn truncate(&mut self, length: u32, context: SnapContext) -> Result<(), BufError>
        ensures added { OnOk result (self.new ≡ with_piece (Cut length context) self.old) }
        ensures too_large { IsErrOf result TooLarge ↔ (65536 < length) }
        ensures as_before { OnErr result (self.new ≡ self.old) }
    {
        if length > LARGEST {
            return Err(BufError::TooLarge);
        }
        match self.add(Piece::Cut { length, context }, length) {
            Ok(()) => Ok(()),
            Err(_) => Err(BufError::NoMemory),
        }
    }

    /// How many bytes the file has.
    pub fn size(&self) -> u32
        ensures { result ≡ self.now.size }
    {
        self.size
    }

    /// The file's bytes: the stored ones under all pieces that the store hasn't acknowledged, sent or not, up to the
    /// size, and zeros where neither has a byte.
    pub fn read_over(&self, stored: &Bytes) -> Result<Bytes, NoMemory>
        ensures { IfOk result (λ bytes. bytes ≡ read_over self.now stored.now) }
    {
        let mut bytes = from_stored(self.alloc, self.size as usize, stored.as_slice())?;
        for i in 0..self.pieces.len() {
            put_over(&mut bytes, &self.pieces[i]);
        }
        Ok(Bytes::from_vec(bytes))
    }

    /// The oldest piece that isn't sent. There is none exactly where all are sent.
    pub fn next_piece(&self) -> Option<&Piece>
        ensures oldest { option_copied result ≡ slice_get self.now.unsent 0 }
        ensures none { IsNone result ↔ (length self.now.unsent ≡ 0) }
    {
        self.pieces.get(self.sent)
    }

    /// The oldest piece that isn't sent counts as sent. It takes no memory and moves no list.
    pub fn sent(&mut self)
        requires { 0 < length self.old.unsent }
        ensures { self.new ≡ sent self.old }
    {
        self.sent += 1;
    }

    /// The store has acknowledged the oldest piece that was sent, which is kept no more. It takes no memory and moves
    /// no list.
    pub fn acked(&mut self)
        requires { 0 < length self.old.unacked }
        ensures { self.new ≡ acked self.old }
    {
        self.pieces.pop_front();
        self.sent -= 1;
    }

    /// How many pieces were sent and aren't acknowledged.
    pub fn unacked_count(&self) -> usize
        ensures { result ≡ length self.now.unacked }
    {
        self.sent
    }

    /// How many pieces aren't sent.
    pub fn unsent_count(&self) -> usize
        ensures { result ≡ length self.now.unsent }
    {
        self.pieces.len() - self.sent
    }
}
