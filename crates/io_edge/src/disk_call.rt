// The calls of a disk in memory that change its file, and what they do.
ghost use Rattle.std.specs.Prelude.{◌≡◌, ◌≤◌, ◌+◌, ◌-◌, ◌++◌, [], IfOk, OnOk, OnErr, length, take, drop, reverse, replicate};
ghost use Rattle.io_edge.specs.Disk.{written};
ghost use Rattle.io_edge.specs.Past.{after, file_after};

use snap_ids::NoMemory;
use std::alloc::Global;
use std::marker::Model;

// Bytes that were written. Contracts see the list of them.
#[derive(Debug, Drop)]
pub struct WrittenBytes {
    bytes: Vec<u8>,
}

impl Model for WrittenBytes {
    ghost use Rattle.std.specs.Prelude.{ℕ, List};

    ghost Value = { List ℕ };

    ghost view = { λ written. written.bytes.items };
}

impl WrittenBytes {
    pub fn new(alloc: Global, bytes: &[u8]) -> Result<Self, NoMemory>
        ensures { IfOk result (λ kept. kept ≡ bytes.now) }
    {
        let bytes = bytes.to_vec(alloc)?;
        Ok(WrittenBytes { bytes })
    }
}

/// A call of a disk in memory that was done.
#[derive(Debug, Drop)]
pub enum DiskCall {
    Write { place: u64, bytes: WrittenBytes },
    Cut { length: u64 },
    Sync,
}

// Fills a file up with zeros to a length.
fn grow(file: &mut Vec<u8>, end: usize) -> Result<(), NoMemory>
    ensures ok { OnOk result (file.new.items ≡ file.old.items ++ replicate (end - length file.old.items) 0) }
    ensures err { OnErr result (file.new.items ≡ file.old.items) }
{
    if file.len() < end {
        file.resize(end, 0)?;
    }
    Ok(())
}

// Writes bytes over others.
fn overwrite(file: &mut [u8], place: usize, bytes: &[u8])
    requires { place + length bytes.now ≤ length file.old }
    ensures { file.new ≡ take place file.old ++ bytes.now ++ drop (place + length bytes.now) file.old }
{
    let end = place + bytes.len();
    file[place..end].copy_from_slice(bytes);
}

// Writes bytes over a file, and behind its end.
pub fn put(file: &mut Vec<u8>, place: usize, bytes: &[u8]) -> Result<(), NoMemory>
    ensures ok { OnOk result (file.new.items ≡ written place bytes.now file.old.items) }
    ensures err { OnErr result (file.new.items ≡ file.old.items) }
{
    if bytes.is_empty() {
        return Ok(());
    }
    let Some(end) = place.checked_add(bytes.len()) else {
        return Err(NoMemory);
    };
    grow(file, end)?;
    overwrite(file, place, bytes);
    Ok(())
}

// Does a call again.
fn redo(file: &mut Vec<u8>, call: &DiskCall) -> Result<(), NoMemory>
    ensures { OnOk result (file.new.items ≡ after call.now file.old.items) }
{
    match call {
        DiskCall::Write { place, bytes } => put(file, *place as usize, &bytes.bytes),
        DiskCall::Cut { length } => {
            file.truncate(*length as usize);
            Ok(())
        }
        DiskCall::Sync => Ok(()),
    }
}

// The file after these calls, the first one first.
pub fn replayed(alloc: Global, base: &[u8], calls: &[DiskCall]) -> Result<Vec<u8>, NoMemory>
    ensures { IfOk result (λ file. file.items ≡ file_after base.now (reverse calls.now)) }
{
    let mut file = base.to_vec(alloc)?;
    for call in calls {
        redo(&mut file, call)?;
    }
    Ok(file)
}
