// A disk in memory, whose failures are planned.
ghost use Rattle.std.specs.Prelude.{◌≡◌, ◌↔◌, ◌-◌, ℕ, List, [], min, length, take, drop, IfOk, OnOk, OnErr};
ghost use Rattle.io_edge.specs.declared.disk.DiskError.{DiskError};
ghost use Rattle.io_edge.specs.declared.disk_call.DiskCall.{DiskCall};
ghost use Rattle.io_edge.specs.Disk.{written, Torn, Shortened, Follows, Only, Passes, Counted};
ghost use Rattle.io_edge.specs.Past.{file_of, stopped_file, MayLeave};
ghost use Rattle.io_edge.specs.Drive.{drive_after_read, drive_after, Planned, DriveMayLeave, DriveLeftSince};

use crate::calls::FailingCalls;
use crate::disk::{Disk, DiskError};
use crate::recorded::Recorded;
use snap_ids::NoMemory;
use std::alloc::Global;
use std::marker::Model;

/// A disk in memory. Contracts see the calls that were done, those that are to fail, and the counts.
#[derive(Debug, Drop)]
pub struct MemDisk {
    alloc: Global,
    past: Recorded,
    calls: FailingCalls,
}

impl Model for MemDisk {
    ghost use Rattle.std.specs.Prelude.{◌<◌, ◌≤◌, ◌^◌};
    ghost use Rattle.io_edge.specs.Drive.{Drive};

    ghost Value = { Drive };

    ghost view = { λ disk. record {
      past = disk.past;
      failing = disk.calls.failing.items;
      calls = disk.calls.calls;
      faults = disk.calls.faults;
    } };

    ghost invariant = { λ disk. (disk.calls.calls < 2 ^ 62) × (disk.calls.faults ≤ disk.calls.calls) };
}

impl MemDisk {
    /// An empty disk. The calls that `failing` lists, counted from 1, are to fail.
    pub fn new(alloc: Global, failing: &[u64]) -> Result<MemDisk, NoMemory>
        ensures { IfOk result (λ disk. disk ≡ record {
          past = record { base = []; done = [] };
          failing = failing.now;
          calls = 0;
          faults = 0;
        }) }
    {
        let calls = FailingCalls::new(alloc, failing)?;
        Ok(MemDisk {
            alloc,
            past: Recorded::new(alloc),
            calls,
        })
    }

    /// A disk without failing calls that holds one of the things that a crash now may leave: the file at the last
    /// sync that succeeded, with the first `kept` writes and cuts since.
    pub fn stopped(&self, kept: u64) -> Result<MemDisk, NoMemory>
        ensures image { IfOk result (λ disk. disk ≡ record {
          past = record { base = stopped_file kept self.now.past; done = [] };
          failing = [];
          calls = 0;
          faults = 0;
        }) }
        ensures one_of { IfOk result (λ disk. MayLeave self.now.past (file_of disk.past)) }
    {
        let past = self.past.stopped(kept)?;
        let calls = FailingCalls::new(self.alloc, &[])?;
        Ok(MemDisk {
            alloc: self.alloc,
            past,
            calls,
        })
    }
}

impl Disk for MemDisk {
    ghost use Rattle.io_edge.specs.DiskLaws.{may_leave_file, only_now, counts_now};

    ghost file = { λ disk. file_of disk.past };

    ghost may_leave = { DriveMayLeave };

    ghost left_since = { DriveLeftSince };

    ghost faults = { λ disk. disk.faults };

    ghost leaves_file = { λ disk. may_leave_file disk.past };

    ghost since_now = { λ disk c. (only_now disk.past c, counts_now disk.past c) };

    /// Reads bytes from a place on, as far as the file reaches; the rest of room stays.
    fn read_at(&mut self, place: u64, room: &mut [u8]) -> Result<usize, DiskError>
        ensures count { IfOk result (λ n. n ≡ min (length room.old) (length (file_of self.old.past) - place)) }
        ensures bytes { IfOk result (λ n. take n room.new ≡ take n (drop place (file_of self.old.past))) }
        ensures same { file_of self.new.past ≡ file_of self.old.past }
        ensures crash { (c : List ℕ) → DriveMayLeave self.new c ↔ DriveMayLeave self.old c }
        ensures time { Passes DriveMayLeave DriveLeftSince self.old self.new }
        ensures counted { Counted self.old.faults self.new.faults result }
        ensures planned { Planned self.old (drive_after_read self.old) self.new result }
        ensures rest { IfOk result (λ n. drop n room.new ≡ drop n room.old) }
    {
        self.calls.admit()?;
        let n = self.past.read(place, room);
        self.calls.calls += 1;
        Ok(n)
    }

    /// Writes bytes at a place. A call that is to fail writes nothing.
    fn write_at(&mut self, place: u64, bytes: &[u8]) -> Result<(), DiskError>
        ensures ok { OnOk result (file_of self.new.past ≡ written place bytes.now (file_of self.old.past)) }
        ensures err { OnErr result
            (Torn place (length bytes.now) (file_of self.old.past) (file_of self.new.past)) }
        ensures crash { Follows (Torn place (length bytes.now)) (DriveMayLeave self.old) (DriveMayLeave self.new) }
        ensures time { Passes DriveMayLeave DriveLeftSince self.old self.new }
        ensures counted { Counted self.old.faults self.new.faults result }
        ensures planned { Planned self.old (drive_after (DiskCall.Write place bytes.now) self.old) self.new result }
    {
        self.calls.admit()?;
        self.past.write(place, bytes)?;
        self.calls.calls += 1;
        Ok(())
    }

    /// Cuts the file to a length. A call that is to fail cuts nothing.
    fn cut(&mut self, length: u64) -> Result<(), DiskError>
        ensures ok { OnOk result (file_of self.new.past ≡ take length (file_of self.old.past)) }
        ensures err { OnErr result (Shortened length (file_of self.old.past) (file_of self.new.past)) }
        ensures crash { Follows (Shortened length) (DriveMayLeave self.old) (DriveMayLeave self.new) }
        ensures time { Passes DriveMayLeave DriveLeftSince self.old self.new }
        ensures counted { Counted self.old.faults self.new.faults result }
        ensures planned { Planned self.old (drive_after (DiskCall.Cut length) self.old) self.new result }
    {
        self.calls.admit()?;
        self.past.cut(length)?;
        self.calls.calls += 1;
        Ok(())
    }

    /// Puts the file onto the disk. A call that is to fail leaves the writes and cuts open.
    fn sync(&mut self) -> Result<(), DiskError>
        ensures durable { OnOk result (Only (file_of self.old.past) (DriveMayLeave self.new)) }
        ensures same { file_of self.new.past ≡ file_of self.old.past }
        ensures crash { (c : List ℕ) → DriveMayLeave self.new c → DriveMayLeave self.old c }
        ensures time { Passes DriveMayLeave DriveLeftSince self.old self.new }
        ensures counted { Counted self.old.faults self.new.faults result }
        ensures planned { Planned self.old (drive_after DiskCall.Sync self.old) self.new result }
    {
        self.calls.admit()?;
        self.past.sync()?;
        self.calls.calls += 1;
        Ok(())
    }
}
