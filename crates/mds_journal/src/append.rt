// A batch, put behind a journal.
ghost use Rattle.std.specs.Prelude.{◌≡◌, ◌<◌, ◌+◌, ◌^◌, ◌++◌, ◌∷◌, [], List, ℕ, length, IfOk, OnOk, IsErrOf};
ghost use Rattle.plain_types.specs.declared.entry.Entry.{Entry};
ghost use Rattle.journal_format.specs.Bytes.{word};
ghost use Rattle.journal_format.specs.Image.{IsImage};
ghost use Rattle.io_edge.specs.Disk.{Only, LeavesOnly};
ghost use Rattle.mds_journal.specs.Stops.{IsWithOrWithout, Encodes, Counts};
ghost use Rattle.mds_journal.specs.declared.fault.JournalFault.TheVariants as why;
ghost use Rattle.mds_journal.specs.Faults.{Blamed};

use crate::calls::extend;
use crate::fault::{JournalFault, fault_of};
use io_edge::Disk;
use snap_ids::NoMemory;
use std::alloc::Global;

// The bytes that go behind the gate: the batch's length, the batch, and a closed gate.
fn staged(alloc: Global, bytes: &[u8]) -> Result<Vec<u8>, NoMemory>
    ensures fits { OnOk result (length bytes.now < 2 ^ 32) }
    ensures bytes { IfOk result (λ all. all.items ≡ word (length bytes.now) ++ (bytes.now ++ 0 ∷ [])) }
{
    if bytes.len() > u32::MAX as usize {
        return Err(NoMemory);
    }
    let length = bytes.len() as u32;
    let mut all = Vec::new(alloc);
    all.extend_from_slice(&length.to_be_bytes())?;
    all.extend_from_slice(bytes)?;
    all.push(0)?;
    Ok(all)
}

// Appends a batch behind the gate at this place, and says where the next gate stands.
pub fn append<D: Disk>(
    alloc: Global,
    disk: &mut D,
    gate: u64,
    bytes: &[u8],
) -> Result<u64, JournalFault>
    requires durable { Only (D.file disk.old) (D.may_leave disk.old) }
    requires place { gate + 1 ≡ length (D.file disk.old) }
    ensures any_moment { (entries batch : List Entry) → IsImage (D.file disk.old) entries →
        Encodes bytes.now batch → LeavesOnly D.left_since disk.old disk.new (IsWithOrWithout entries batch) }
    ensures image { OnOk result ((entries batch : List Entry) → IsImage (D.file disk.old) entries →
        Encodes bytes.now batch → IsImage (D.file disk.new) (entries ++ batch)) }
    ensures durable { OnOk result (Only (D.file disk.new) (D.may_leave disk.new)) }
    ensures place { IfOk result (λ next. next + 1 ≡ length (D.file disk.new)) }
    ensures moments { Counts D.may_leave D.left_since disk.old disk.new }
    ensures journal { IsErrOf result why.NotJournal → ⊥ }
    ensures blamed { Blamed (D.faults disk.old) (D.faults disk.new) result }
{
    let Ok(all) = staged(alloc, bytes) else {
        return Err(JournalFault::NoMemory);
    };
    if gate >= 1 << 62 {
        return Err(JournalFault::NoMemory);
    }
    match extend(disk, gate, &all) {
        Ok(()) => Ok(gate + all.len() as u64),
        Err(error) => Err(fault_of(error)),
    }
}
