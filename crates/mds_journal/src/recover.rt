// What a disk holds, read as a journal.
ghost use Rattle.std.specs.Prelude.{◌≡◌, ◌<◌, ◌+◌, ◌-◌, ◌++◌, ℕ, List, length, min, nat_lt, take, drop, IfOk, OnOk, IsErrOf};
ghost use Rattle.plain_types.specs.declared.entry.Entry.{Entry};
ghost use Rattle.journal_format.specs.Image.{IsJournal, IsImage};
ghost use Rattle.io_edge.specs.Disk.{Only, LeavesOnly, Counted};
ghost use Rattle.mds_journal.specs.declared.fault.JournalFault.TheVariants as why;
ghost use Rattle.mds_journal.specs.Stops.{KeepsEntries, Looks, Counts};
ghost use Rattle.mds_journal.specs.Faults.{Blamed};

use crate::calls::shorten;
use crate::fault::{JournalFault, fault_of};
use crate::scan::scan;
use io_edge::{Disk, DiskError};
use plain_types::EntryList;
use std::alloc::Global;

// Reads some bytes more, and says whether there were any.
fn read_more<D: Disk>(disk: &mut D, bytes: &mut Vec<u8>) -> Result<bool, DiskError>
    ensures looks { Looks D.file D.may_leave D.left_since disk.old disk.new }
    ensures more { IfOk result (λ more. more ≡ nat_lt 0 (min 512 (length (D.file disk.old) - length bytes.old.items))) }
    ensures bytes { OnOk result (bytes.new.items ≡ bytes.old.items
        ++ take (min 512 (length (D.file disk.old) - length bytes.old.items)) (drop (length bytes.old.items) (D.file disk.old))) }
    ensures counted { Counted (D.faults disk.old) (D.faults disk.new) result }
{
    let mut room = [0; 512];
    let count = disk.read_at(bytes.len() as u64, &mut room)?;
    bytes.extend_from_slice(&room[..count])?;
    Ok(count > 0)
}

// All that reads give.
fn read_all<D: Disk>(alloc: Global, disk: &mut D) -> Result<Vec<u8>, DiskError>
    ensures looks { Looks D.file D.may_leave D.left_since disk.old disk.new }
    ensures bytes { IfOk result (λ bytes. bytes.items ≡ D.file disk.old) }
    ensures counted { Counted (D.faults disk.old) (D.faults disk.new) result }
{
    let mut bytes = Vec::new(alloc);
    while read_more(disk, &mut bytes)? {}
    Ok(bytes)
}

// Puts onto the disk what reads give, and reads it.
fn load<D: Disk>(alloc: Global, disk: &mut D) -> Result<Vec<u8>, DiskError>
    ensures looks { Looks D.file D.may_leave D.left_since disk.old disk.new }
    ensures bytes { IfOk result (λ bytes. bytes.items ≡ D.file disk.old) }
    ensures durable { OnOk result (Only (D.file disk.old) (D.may_leave disk.new)) }
    ensures counted { Counted (D.faults disk.old) (D.faults disk.new) result }
{
    disk.sync()?;
    read_all(alloc, disk)
}

// Finds the entries of a journal and the place of its closed gate, and cuts what stands behind it.
pub fn recover<D: Disk>(alloc: Global, disk: &mut D) -> Result<(EntryList, u64), JournalFault>
    ensures any_moment { LeavesOnly D.left_since disk.old disk.new
        (λ c. (d : List ℕ) × D.may_leave disk.old d × KeepsEntries d c) }
    ensures moments { Counts D.may_leave D.left_since disk.old disk.new }
    ensures kept { KeepsEntries (D.file disk.old) (D.file disk.new) }
    ensures found { IfOk result (λ found. IsJournal (D.file disk.old) found.0) }
    ensures image { IfOk result (λ found. IsImage (D.file disk.new) found.0) }
    ensures place { IfOk result (λ found. found.1 + 1 ≡ length (D.file disk.new)) }
    ensures durable { OnOk result (Only (D.file disk.new) (D.may_leave disk.new)) }
    ensures not_journal { IsErrOf result why.NotJournal → (entries : List Entry) →
        IsJournal (D.file disk.old) entries → ⊥ }
    ensures uncut { IsErrOf result why.NotJournal → Looks D.file D.may_leave D.left_since disk.old disk.new }
    ensures blamed { Blamed (D.faults disk.old) (D.faults disk.new) result }
{
    let bytes = match load(alloc, disk) {
        Ok(bytes) => bytes,
        Err(error) => return Err(fault_of(error)),
    };
    let (entries, gate) = match scan(alloc, &bytes) {
        Ok(found) => found,
        Err(fault) => return Err(fault),
    };
    match shorten(disk, gate + 1) {
        Ok(()) => Ok((entries, gate)),
        Err(error) => Err(fault_of(error)),
    }
}
