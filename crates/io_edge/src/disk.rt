// What a journal is kept on.
ghost use Rattle.std.specs.Prelude.{◌≡◌, ◌↔◌, ◌-◌, min, ℕ, List, length, take, drop, IfOk, OnOk, OnErr};
ghost use Rattle.io_edge.specs.declared.disk.DiskError.TheVariants as why;
ghost use Rattle.io_edge.specs.Disk.{written, Torn, Shortened, Follows, Only, Passes, Counted};

use snap_ids::NoMemory;
use std::alloc::AllocError;
use thiserror::Error;

/// Why a call of a disk was refused. What the call was to do may then be done, undone or done in part.
#[derive(Clone, Copy, Debug, PartialEq, Eq, Error)]
pub enum DiskError {
    #[error("the disk failed")]
    Failed,
    #[error("out of memory")]
    NoMemory,
}

impl From<AllocError> for DiskError {
    ghost from_gives = { λ _ e. e ≡ why.NoMemory };

    fn from(_: AllocError) -> Self {
        DiskError::NoMemory
    }
}

impl From<NoMemory> for DiskError {
    ghost from_gives = { λ _ e. e ≡ why.NoMemory };

    fn from(_: NoMemory) -> Self {
        DiskError::NoMemory
    }
}

/// One file on a disk that may fail, and that a crash may stop at any moment.
///
/// A write or a cut is safe only after the next sync: until then a crash may leave any bytes in each range that was
/// written, and behind the old end. Bytes elsewhere stay.
pub trait Disk {
    /// The bytes that reads give.
    ghost file: { Self → List ℕ };

    /// What a crash at this moment may leave.
    ghost may_leave: { Self → List ℕ → Type 0 };

    /// What a crash may have left at some moment since an earlier one, which stands first, up to this one.
    ghost left_since: { Self → Self → List ℕ → Type 0 };

    /// How often the disk has failed. The count never falls, and has no last value.
    ghost faults: { Self → ℕ };

    /// Reads bytes from a place on into room, as far as the file reaches, and says how many.
    fn read_at(&mut self, place: u64, room: &mut [u8]) -> Result<usize, DiskError>
        ensures count { IfOk result (λ n. n ≡ min (length room.old) (length (file self.old) - place)) }
        ensures bytes { IfOk result (λ n. take n room.new ≡ take n (drop place (file self.old))) }
        ensures same { file self.new ≡ file self.old }
        ensures crash { (c : List ℕ) → may_leave self.new c ↔ may_leave self.old c }
        ensures time { Passes may_leave left_since self.old self.new }
        ensures counted { Counted (faults self.old) (faults self.new) result };

    /// Writes all of the bytes at a place. Zeros fill a gap behind the old end of the file.
    fn write_at(&mut self, place: u64, bytes: &[u8]) -> Result<(), DiskError>
        ensures ok { OnOk result (file self.new ≡ written place bytes.now (file self.old)) }
        ensures err { OnErr result (Torn place (length bytes.now) (file self.old) (file self.new)) }
        ensures crash { Follows (Torn place (length bytes.now)) (may_leave self.old) (may_leave self.new) }
        ensures time { Passes may_leave left_since self.old self.new }
        ensures counted { Counted (faults self.old) (faults self.new) result };

    /// Cuts the file to a length. A shorter file stays as it is.
    fn cut(&mut self, length: u64) -> Result<(), DiskError>
        ensures ok { OnOk result (file self.new ≡ take length (file self.old)) }
        ensures err { OnErr result (Shortened length (file self.old) (file self.new)) }
        ensures crash { Follows (Shortened length) (may_leave self.old) (may_leave self.new) }
        ensures time { Passes may_leave left_since self.old self.new }
        ensures counted { Counted (faults self.old) (faults self.new) result };

    /// Puts all that was written onto the disk: after it a crash leaves what reads give, until the next write or cut.
    fn sync(&mut self) -> Result<(), DiskError>
        ensures durable { OnOk result (Only (file self.old) (may_leave self.new)) }
        ensures same { file self.new ≡ file self.old }
        ensures crash { (c : List ℕ) → may_leave self.new c → may_leave self.old c }
        ensures time { Passes may_leave left_since self.old self.new }
        ensures counted { Counted (faults self.old) (faults self.new) result };

    /// What reads give is one of the things that a crash now may leave.
    ghost leaves_file: { (disk : Self) → may_leave disk (file disk) };

    /// Since this moment there is this moment alone.
    ghost since_now: { (disk : Self) (c : List ℕ) → left_since disk disk c ↔ may_leave disk c };
}
