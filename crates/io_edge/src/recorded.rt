// A file in memory, and the record of the calls that changed it.
ghost use Rattle.std.specs.Prelude.{◌≡◌, ◌-◌, ◌++◌, [], IfOk, OnOk, OnErr, length, take, drop, min};
ghost use Rattle.io_edge.specs.declared.disk_call.DiskCall.{DiskCall};
ghost use Rattle.io_edge.specs.Past.{Past, more, file_of, stopped_file};

use crate::disk_call::{DiskCall, WrittenBytes, put, replayed};
use snap_ids::NoMemory;
use std::alloc::Global;
use std::marker::Model;

// The file at first, the calls that were done since, how many of them up to the last sync, and the file now.
#[derive(Debug, Drop)]
pub struct Recorded {
    alloc: Global,
    base: Vec<u8>,
    done: Vec<DiskCall>,
    synced: usize,
    file: Vec<u8>,
}

impl Model for Recorded {
    ghost use Rattle.io_edge.specs.Past.{Past};

    ghost Value = { Past };

    ghost use Rattle.io_edge.specs.Recorded.{past_of, IsRecord};

    ghost view = { past_of };

    ghost invariant = { IsRecord };
}

impl Recorded {
    /// An empty file. It takes no memory.
    pub fn new(alloc: Global) -> Self
        ensures { result ≡ record { base = []; done = [] } }
    {
        Recorded {
            alloc,
            base: Vec::new(alloc),
            done: Vec::new(alloc),
            synced: 0,
            file: Vec::new(alloc),
        }
    }

    /// Copies the bytes from a place on into room, as far as the file reaches, and says how many.
    pub fn read(&self, place: u64, room: &mut [u8]) -> usize
        ensures count { result ≡ min (length room.old) (length (file_of self.now) - place) }
        ensures room { room.new ≡ take result (drop place (file_of self.now)) ++ drop result room.old }
    {
        let place = (place as usize).min(self.file.len());
        let n = room.len().min(self.file.len() - place);
        room[..n].copy_from_slice(&self.file[place..place + n]);
        n
    }

    /// Writes bytes at a place.
    pub fn write(&mut self, place: u64, bytes: &[u8]) -> Result<(), NoMemory>
        ensures ok { OnOk result (self.new ≡ more (DiskCall.Write place bytes.now) self.old) }
        ensures err { OnErr result (self.new ≡ self.old) }
    {
        let kept = WrittenBytes::new(self.alloc, bytes)?;
        self.done.reserve(1)?;
        put(&mut self.file, place as usize, bytes)?;
        self.done
            .push(DiskCall::Write { place, bytes: kept })
            .unwrap();
        Ok(())
    }

    /// Cuts the file to a length.
    pub fn cut(&mut self, length: u64) -> Result<(), NoMemory>
        ensures ok { OnOk result (self.new ≡ more (DiskCall.Cut length) self.old) }
        ensures err { OnErr result (self.new ≡ self.old) }
    {
        self.done.push(DiskCall::Cut { length })?;
        self.file.truncate(length as usize);
        Ok(())
    }

    /// Puts the file onto the disk.
    pub fn sync(&mut self) -> Result<(), NoMemory>
        ensures ok { OnOk result (self.new ≡ more DiskCall.Sync self.old) }
        ensures err { OnErr result (self.new ≡ self.old) }
    {
        self.done.push(DiskCall::Sync)?;
        self.synced = self.done.len();
        Ok(())
    }

    /// A file that begins with what was there at the last sync, with the first `kept` writes and cuts since.
    pub fn stopped(&self, kept: u64) -> Result<Recorded, NoMemory>
        ensures { IfOk result (λ image. image ≡
            record { base = stopped_file kept self.now; done = [] }) }
    {
        let until = self
            .synced
            .saturating_add(kept as usize)
            .min(self.done.len());
        let file = replayed(self.alloc, &self.base, &self.done[..until])?;
        let base = file.to_vec(self.alloc)?;
        Ok(Recorded {
            alloc: self.alloc,
            base,
            done: Vec::new(self.alloc),
            synced: 0,
            file,
        })
    }
}
