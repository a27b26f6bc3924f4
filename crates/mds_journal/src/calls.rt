// A write or a cut that is on the disk before anything else is done.
ghost use Rattle.std.specs.Prelude.{◌≡◌, ◌<◌, ◌+◌, ◌^◌, ◌++◌, List, [], ◌∷◌, ℕ, length, take, OnOk};
ghost use Rattle.plain_types.specs.declared.entry.Entry.{Entry};
ghost use Rattle.journal_format.specs.Image.{IsImage, journal_of};
ghost use Rattle.mds_journal.specs.Stops.{IsWithOrWithout, Stages, Counts};
ghost use Rattle.io_edge.specs.Disk.{written, Torn, Shortened, Only, LeavesOnly, Counted};

use io_edge::{Disk, DiskError};

// Writes bytes, and puts them onto the disk.
pub fn put<D: Disk>(disk: &mut D, place: u64, bytes: &[u8]) -> Result<(), DiskError>
    ensures file { OnOk result (D.file disk.new ≡ written place bytes.now (D.file disk.old)) }
    ensures durable { OnOk result (Only (D.file disk.new) (D.may_leave disk.new)) }
    ensures any_moment { LeavesOnly D.left_since disk.old disk.new
        (λ c. (d : List ℕ) × D.may_leave disk.old d × Torn place (length bytes.now) d c) }
    ensures moments { Counts D.may_leave D.left_since disk.old disk.new }
    ensures counted { Counted (D.faults disk.old) (D.faults disk.new) result }
{
    disk.write_at(place, bytes)?;
    disk.sync()
}

// Cuts the file, and puts this onto the disk.
pub fn shorten<D: Disk>(disk: &mut D, most: u64) -> Result<(), DiskError>
    ensures file { OnOk result (D.file disk.new ≡ take most (D.file disk.old)) }
    ensures durable { OnOk result (Only (D.file disk.new) (D.may_leave disk.new)) }
    ensures any_moment { LeavesOnly D.left_since disk.old disk.new
        (λ c. (d : List ℕ) × D.may_leave disk.old d × Shortened most d c) }
    ensures moments { Counts D.may_leave D.left_since disk.old disk.new }
    ensures counted { Counted (D.faults disk.old) (D.faults disk.new) result }
{
    disk.cut(most)?;
    disk.sync()
}

// Puts a batch behind the gate, and then opens the gate.
pub fn extend<D: Disk>(disk: &mut D, gate: u64, bytes: &[u8]) -> Result<(), DiskError>
    requires durable { Only (D.file disk.old) (D.may_leave disk.old) }
    requires place { gate < 2 ^ 62 }
    ensures any_moment { (entries batch : List Entry) → IsImage (D.file disk.old) entries →
        Stages (D.file disk.old) gate bytes.now batch →
        LeavesOnly D.left_since disk.old disk.new (IsWithOrWithout entries batch) }
    ensures durable { OnOk result (Only (D.file disk.new) (D.may_leave disk.new)) }
    ensures image { OnOk result ((entries batch : List Entry) → IsImage (D.file disk.old) entries →
        Stages (D.file disk.old) gate bytes.now batch → IsImage (D.file disk.new) (entries ++ batch)) }
    ensures file { OnOk result (D.file disk.new ≡ written gate (1 ∷ []) (written (gate + 1) bytes.now (D.file disk.old))) }
    ensures moments { Counts D.may_leave D.left_since disk.old disk.new }
    ensures counted { Counted (D.faults disk.old) (D.faults disk.new) result }
{
    put(disk, gate + 1, bytes)?;
    put(disk, gate, &[1])
}

// A journal without entries, on the disk.
pub fn clear<D: Disk>(disk: &mut D) -> Result<(), DiskError>
    ensures image { OnOk result (D.file disk.new ≡ journal_of [] 0) }
    ensures durable { OnOk result (Only (D.file disk.new) (D.may_leave disk.new)) }
    ensures moments { Counts D.may_leave D.left_since disk.old disk.new }
    ensures counted { Counted (D.faults disk.old) (D.faults disk.new) result }
{
    disk.cut(0)?;
    put(disk, 0, b"SNAPJRN1\0")
}
