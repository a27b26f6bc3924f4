// The bytes of an object: those that were written, as extents, and zeros between them.
ghost use Rattle.std.specs.Prelude.{◌≡◌, ◌+◌, ◌-◌, ◌<◌, ◌≤◌, ◌^◌, ◌++◌, [], ℕ, nat_lt, max, length, slice_index, take, IfOk, OnOk, vec_len, if◌then◌else◌};
ghost use Rattle.object_log.specs.Bytes.{so_many, laid, cut_off};
ghost use Rattle.object_clones.specs.Bytes.{written};
ghost use Rattle.object_clones.specs.Extents.{byte_over, byte_in, Rise};

use std::alloc::{AllocError, Global};
use std::marker::Model;

/// Bytes that were written, from an offset on.
#[derive(Drop)]
pub(crate) struct Extent {
    offset: u32,
    bytes: Vec<u8>,
}

/// Bytes of a given length. Extents rise, don't overlap and aren't empty; what none of them has is zero. Contracts see
/// the list of all bytes.
#[derive(Drop)]
pub(crate) struct Extents {
    extents: Vec<Extent>,
    length: u32,
}

impl Model for Extents {
    ghost use Rattle.std.specs.Prelude.{ℕ, List};
    ghost use Rattle.object_clones.specs.Extents.{bytes_of, Rise};

    ghost Value = { List ℕ };

    ghost view = { λ e. bytes_of e.length e.extents.items };

    ghost invariant = { λ e. Rise 0 e.length e.extents.items };
}

impl Extent {
    // Where the extent ends.
    fn end(&self) -> usize
        ensures { result ≡ self.now.offset + length self.now.bytes.items }
    {
        self.offset as usize + self.bytes.len()
    }

    // Lays bytes behind an extent that ends where they begin.
    fn extend(&mut self, bytes: &[u8]) -> Result<(), AllocError>
        ensures offset { self.new.offset ≡ self.old.offset }
        ensures bytes { OnOk result (self.new.bytes.items ≡ self.old.bytes.items ++ bytes.now) }
    {
        self.bytes.extend_from_slice(bytes)
    }
}

// Puts bytes behind extents, as a part of the last one where they adjoin.
fn add(
    alloc: Global,
    extents: &mut Vec<Extent>,
    offset: u32,
    bytes: &[u8],
) -> Result<(), AllocError>
    ensures laid { OnOk result ((place : ℕ) → byte_in place extents.new.items
        ≡ laid place offset bytes.now (byte_in place extents.old.items)) }
    ensures rise { OnOk result ((from upto : ℕ) → Rise from upto extents.old.items → upto ≤ offset
        → Rise from (offset + length bytes.now) extents.new.items) }
{
    if bytes.is_empty() {
        return Ok(());
    }
    if let Some(mut last) = extents.pop() {
        if last.end() == offset as usize {
            last.extend(bytes)?;
            extents.push(last)?;
            return Ok(());
        }
        extents.push(last)?;
    }
    let bytes = Vec::from_slice(alloc, bytes)?;
    extents.push(Extent { offset, bytes })?;
    Ok(())
}

// What extents have before an offset.
fn before(alloc: Global, extents: &[Extent], limit: u32) -> Result<Vec<Extent>, AllocError>
    ensures bytes { IfOk result (λ kept. (place : ℕ) → byte_in place kept.items
        ≡ cut_off place limit (byte_in place extents.now)) }
    ensures rise { IfOk result (λ kept. (upto : ℕ) → Rise 0 upto extents.now → Rise 0 limit kept.items) }
{
    let mut kept = Vec::new(alloc);
    for extent in extents {
        if extent.offset < limit {
            let room = (limit - extent.offset) as usize;
            let count = extent.bytes.len().min(room);
            add(alloc, &mut kept, extent.offset, &extent.bytes[..count])?;
        }
    }
    Ok(kept)
}

// Puts what others have from an offset on behind extents.
fn add_from(
    alloc: Global,
    extents: &mut Vec<Extent>,
    others: &[Extent],
    from: u32,
) -> Result<(), AllocError>
    ensures bytes { OnOk result ((place : ℕ) → byte_in place extents.new.items
        ≡ (if nat_lt place from then byte_in place extents.old.items
        else byte_over place (byte_in place extents.old.items) others.now)) }
    ensures rise { OnOk result ((upto : ℕ) → Rise 0 from extents.old.items → Rise 0 upto others.now
        → Rise 0 (max from upto) extents.new.items) }
{
    for other in others {
        let skipped = from.saturating_sub(other.offset) as usize;
        if skipped < other.bytes.len() {
            add(
                alloc,
                extents,
                other.offset.max(from),
                &other.bytes[skipped..],
            )?;
        }
    }
    Ok(())
}

// Lays bytes over others from an offset on, as far as there are others.
fn lay(over: &mut [u8], offset: usize, bytes: &[u8])
    ensures { (place : ℕ) → place < length over.old
        → slice_index over.new place ≡ laid place offset bytes.now (slice_index over.old place) }
{
    if offset < over.len() {
        let count = bytes.len().min(over.len() - offset);
        over[offset..offset + count].copy_from_slice(&bytes[..count]);
    }
}

impl Extents {
    /// No bytes.
    pub(crate) fn new(alloc: Global) -> Extents
        ensures { result ≡ [] }
    {
        Extents {
            extents: Vec::new(alloc),
            length: 0,
        }
    }

    /// How many bytes there are, zeros included.
    pub(crate) fn len(&self) -> u32
        ensures { result ≡ length self.now }
    {
        self.length
    }

    /// The bytes with others laid over them from an offset on.
    pub(crate) fn written(
        &self,
        alloc: Global,
        offset: u32,
        bytes: &[u8],
    ) -> Result<Extents, AllocError>
        requires { offset + length bytes.now < 2 ^ 32 }
        ensures { IfOk result (λ e. e ≡ written self.now offset bytes.now) }
    {
        let end = offset + bytes.len() as u32;
        let mut extents = before(alloc, &self.extents, offset)?;
        add(alloc, &mut extents, offset, bytes)?;
        add_from(alloc, &mut extents, &self.extents, end)?;
        let length = self.length.max(end);
        Ok(Extents { extents, length })
    }

    /// The first bytes.
    pub(crate) fn cut(&self, alloc: Global, size: u32) -> Result<Extents, AllocError>
        requires { size ≤ length self.now }
        ensures { IfOk result (λ e. e ≡ take size self.now) }
    {
        let extents = before(alloc, &self.extents, size)?;
        Ok(Extents {
            extents,
            length: size,
        })
    }

    /// Puts so many bytes behind others, zeros where there are no more.
    pub(crate) fn append_to(&self, out: &mut Vec<u8>, count: usize) -> Result<(), AllocError>
        requires { vec_len out.old + count < 2 ^ 62 }
        ensures { OnOk result (out.new.items ≡ out.old.items ++ so_many count (slice_index self.now)) }
    {
        let start = out.len();
        out.resize(start + count, 0)?;
        for extent in &self.extents {
            lay(out, start + extent.offset as usize, &extent.bytes);
        }
        Ok(())
    }
}
