// The calls of a form in memory, of which some are to fail.
ghost use Rattle.std.specs.Prelude.{◌≡◌, ◌↔◌, ◌<◌, ◌≤◌, ◌+◌, ◌^◌, IsTrue, IfOk, OnOk, IsErrOf};
ghost use Rattle.io_edge.specs.Calls.{next_count, is_next_listed};
ghost use Rattle.io_edge.specs.Drive.{is_to_fail};

use crate::disk::DiskError;
use crate::traits::Failed;
use snap_ids::NoMemory;
use std::alloc::Global;

// The number of a disk's last call: numbers stay below 2^62.
const LAST_DISK_CALL: u64 = (1 << 62) - 1;

// Which calls are to fail, counted from 1, how many were made, and how many failed. The counts stop at
// the last u64.
#[derive(Debug, Drop)]
pub struct FailingCalls {
    pub failing: Vec<u64>,
    pub calls: u64,
    pub faults: u64,
}

impl FailingCalls {
    pub fn new(alloc: Global, failing: &[u64]) -> Result<FailingCalls, NoMemory>
        ensures failing { IfOk result (λ made. made.failing.items ≡ failing.now) }
        ensures calls { IfOk result (λ made. made.calls ≡ 0) }
        ensures faults { IfOk result (λ made. made.faults ≡ 0) }
    {
        let failing = failing.to_vec(alloc)?;
        Ok(FailingCalls {
            failing,
            calls: 0,
            faults: 0,
        })
    }

    // Counts a call, and says whether it is to fail.
    pub fn begin(&mut self) -> bool
        ensures listed { result ≡ is_next_listed self.old.failing.items self.old.calls }
        ensures counted { self.new ≡ record self.old { calls = next_count self.old.calls } }
    {
        self.calls = self.calls.saturating_add(1);
        self.failing.contains(&self.calls)
    }

    // Counts a failure.
    pub fn fail(&mut self) -> Failed
        ensures { self.new ≡ record self.old { faults = next_count self.old.faults } }
    {
        self.faults = self.faults.saturating_add(1);
        Failed
    }

    // Refuses the next call of a disk where it is listed to fail, and where it can't be counted.
    pub fn admit(&mut self) -> Result<(), DiskError>
        requires bounded { self.old.calls < 2 ^ 62 }
        requires fewer { self.old.faults ≤ self.old.calls }
        ensures refused { IsErrOf result DiskError.Failed
            ↔ IsTrue (is_to_fail self.old.failing.items self.old.calls) }
        ensures ok { OnOk result (self.new ≡ self.old) }
        ensures room { OnOk result (self.old.calls + 1 < 2 ^ 62) }
        ensures failed { IsErrOf result DiskError.Failed → self.new
            ≡ record self.old { calls = self.old.calls + 1; faults = self.old.faults + 1 } }
        ensures no_memory { IsErrOf result DiskError.NoMemory → self.new ≡ self.old }
        ensures still_bounded { self.new.calls < 2 ^ 62 }
        ensures still_fewer { self.new.faults ≤ self.new.calls }
    {
        if self.calls >= LAST_DISK_CALL {
            return Err(DiskError::NoMemory);
        }
        let next = self.calls + 1;
        if self.failing.contains(&next) {
            self.calls = next;
            self.faults += 1;
            return Err(DiskError::Failed);
        }
        Ok(())
    }
}
