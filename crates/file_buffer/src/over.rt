// Pieces over stored bytes.
ghost use Rattle.std.specs.Prelude.{◌≡◌, ◌<◌, ℕ, length, slice_index, slice_index_or, IfOk};
ghost use Rattle.object_log.specs.Bytes.{laid, cut_off};
ghost use Rattle.held_files.specs.Buffer.{byte_under};

use held_files::Piece;
use std::alloc::{AllocError, Global};

// So many bytes: the stored ones, and zeros where there are no more.
pub(crate) fn from_stored(alloc: Global, size: usize, stored: &[u8]) -> Result<Vec<u8>, AllocError>
    ensures length { IfOk result (λ v. length v.items ≡ size) }
    ensures bytes { IfOk result (λ v. (place : ℕ) → place < size
        → slice_index_or v.items place 0 ≡ slice_index_or stored.now place 0) }
{
    let count = stored.len().min(size);
    let mut bytes = Vec::from_slice(alloc, &stored[..count])?;
    bytes.resize(size, 0)?;
    Ok(bytes)
}

// Lays bytes over others from an offset on, as far as there are others.
fn lay(over: &mut [u8], offset: usize, bytes: &[u8])
    ensures { (place : ℕ) → place < length over.old
        → slice_index over.new place ≡ laid place offset bytes.now (slice_index over.old place) }
{
    if offset < over.len() {
        let count = bytes.len().min(over.len() - offset);
        over[offset..offset + count].copy_from_slice(&bytes[..count]);
    }
}

// Makes all bytes from an offset on zero.
fn cut(over: &mut [u8], offset: usize)
    ensures { (place : ℕ) → place < length over.old
        → slice_index over.new place ≡ cut_off place offset (slice_index over.old place) }
{
    if offset < over.len() {
        over[offset..].fill(0);
    }
}

// Puts a piece over bytes.
pub(crate) fn put_over(over: &mut [u8], piece: &Piece)
    ensures { (place : ℕ) → place < length over.old
        → slice_index over.new place ≡ byte_under place (slice_index over.old place) piece.now }
{
    match piece {
        Piece::Put { offset, bytes, .. } => lay(over, *offset as usize, bytes.as_slice()),
        Piece::Cut { length, .. } => cut(over, *length as usize),
    }
}
