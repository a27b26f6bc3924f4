// The disk of a run: in memory, and it never fails.
ghost use Rattle.std.specs.Prelude.{◌≡◌, ◌↔◌, ◌-◌, ℕ, List, [], min, length, take, drop, IfOk, OnOk, OnErr};
ghost use Rattle.io_edge.specs.declared.disk.DiskError.{DiskError};
ghost use Rattle.io_edge.specs.declared.disk_call.DiskCall.{DiskCall};
ghost use Rattle.io_edge.specs.Disk.{written, Torn, Shortened, Follows, Only, Passes, Counted};
ghost use Rattle.io_edge.specs.Past.{more, file_of, MayLeave, LeftSince, Steady};

use crate::disk::{Disk, DiskError};
use crate::recorded::Recorded;
use std::alloc::Global;
use std::marker::Model;

/// A disk in memory that never fails. Contracts see the calls that were done.
#[derive(Debug, Drop)]
pub struct SteadyDisk {
    past: Recorded,
}

impl Model for SteadyDisk {
    ghost use Rattle.io_edge.specs.Past.{Past};

    ghost Value = { Past };

    ghost view = { λ disk. disk.past };
}

impl SteadyDisk {
    /// An empty disk. It takes no memory.
    pub fn new(alloc: Global) -> SteadyDisk
        ensures { result ≡ record { base = []; done = [] } }
    {
        SteadyDisk {
            past: Recorded::new(alloc),
        }
    }
}

impl Disk for SteadyDisk {
    ghost use Rattle.io_edge.specs.DiskLaws.{may_leave_file, only_now, counts_now};

    ghost file = { file_of };

    ghost may_leave = { MayLeave };

    ghost left_since = { LeftSince };

    ghost faults = { λ _. 0 };

    ghost leaves_file = { may_leave_file };

    ghost since_now = { λ past c. (only_now past c, counts_now past c) };

    /// Reads bytes from a place on, as far as the file reaches; the rest of room stays.
    fn read_at(&mut self, place: u64, room: &mut [u8]) -> Result<usize, DiskError>
        ensures count { IfOk result (λ n. n ≡ min (length room.old) (length (file_of self.old) - place)) }
        ensures bytes { IfOk result (λ n. take n room.new ≡ take n (drop place (file_of self.old))) }
        ensures same { file_of self.new ≡ file_of self.old }
        ensures crash { (c : List ℕ) → MayLeave self.new c ↔ MayLeave self.old c }
        ensures time { Passes MayLeave LeftSince self.old self.new }
        ensures counted { Counted 0 0 result }
        ensures steady { Steady self.old self.old self.new result }
        ensures rest { IfOk result (λ n. drop n room.new ≡ drop n room.old) }
    {
        Ok(self.past.read(place, room))
    }

    /// Writes bytes at a place, or nothing where there is no memory for them.
    fn write_at(&mut self, place: u64, bytes: &[u8]) -> Result<(), DiskError>
        ensures ok { OnOk result (file_of self.new ≡ written place bytes.now (file_of self.old)) }
        ensures err { OnErr result (Torn place (length bytes.now) (file_of self.old) (file_of self.new)) }
        ensures crash { Follows (Torn place (length bytes.now)) (MayLeave self.old) (MayLeave self.new) }
        ensures time { Passes MayLeave LeftSince self.old self.new }
        ensures counted { Counted 0 0 result }
        ensures steady { Steady self.old (more (DiskCall.Write place bytes.now) self.old) self.new result }
    {
        self.past.write(place, bytes)?;
        Ok(())
    }

    /// Cuts the file to a length.
    fn cut(&mut self, length: u64) -> Result<(), DiskError>
        ensures ok { OnOk result (file_of self.new ≡ take length (file_of self.old)) }
        ensures err { OnErr result (Shortened length (file_of self.old) (file_of self.new)) }
        ensures crash { Follows (Shortened length) (MayLeave self.old) (MayLeave self.new) }
        ensures time { Passes MayLeave LeftSince self.old self.new }
        ensures counted { Counted 0 0 result }
        ensures steady { Steady self.old (more (DiskCall.Cut length) self.old) self.new result }
    {
        self.past.cut(length)?;
        Ok(())
    }

    /// Puts the file onto the disk.
    fn sync(&mut self) -> Result<(), DiskError>
        ensures durable { OnOk result (Only (file_of self.old) (MayLeave self.new)) }
        ensures same { file_of self.new ≡ file_of self.old }
        ensures crash { (c : List ℕ) → MayLeave self.new c → MayLeave self.old c }
        ensures time { Passes MayLeave LeftSince self.old self.new }
        ensures counted { Counted 0 0 result }
        ensures steady { Steady self.old (more DiskCall.Sync self.old) self.new result }
    {
        self.past.sync()?;
        Ok(())
    }
}
