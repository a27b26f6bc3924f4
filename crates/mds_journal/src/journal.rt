// A journal on a disk.
ghost use Rattle.std.specs.Prelude.{◌≡◌, ◌++◌, [], List, ℕ, Bool, true, IfOk, IfErr, OnOk, IsErrOf};
ghost use Rattle.plain_types.specs.declared.entry.Entry.{Entry};
ghost use Rattle.journal_format.specs.Image.{IsJournal, IsImage};
ghost use Rattle.io_edge.specs.Disk.{Only, LeavesOnly};
ghost use Rattle.mds_journal.specs.declared.fault.JournalFault.TheVariants as why;
ghost use Rattle.mds_journal.specs.Stops.{IsWithOrWithout, KeepsEntries, Encodes, Looks, Counts};
ghost use Rattle.mds_journal.specs.Faults.{Blames, Blamed};

use crate::append::append;
use crate::calls::clear;
use crate::fault::{JournalError, JournalFault, fault_of};
use crate::recover::recover;
use io_edge::Disk;
use plain_types::{Entry, EntryList};
use std::alloc::Global;
use std::marker::Model;

/// A journal on a disk. Its file is a header, batches of entries, each behind an open gate, and one closed gate.
///
/// Contracts see the disk, the entries that the last `create`, `open` or `reopen` found, and whether the journal is
/// ready: no `append_batch` or `reopen` was refused since.
#[derive(Drop)]
pub struct Journal<D: Disk> {
    alloc: Global,
    disk: D,
    found: EntryList,
    // The place of the closed gate.
    gate: u64,
    ready: bool,
}

impl<D: Disk> Model for Journal<D> {
    ghost use Rattle.mds_journal.specs.Log.{Log, IsSound};

    ghost Value = { Log D };

    ghost view = { λ journal. record { disk = journal.disk; found = journal.found; ready = journal.ready } };

    ghost invariant = { λ journal. IsSound (D.file journal.disk) (D.may_leave journal.disk) journal.gate journal.ready };
}

impl<D: Disk> Journal<D> {
    /// A journal without entries on this disk, whatever was there before. An error hands the disk back.
    pub fn create(alloc: Global, mut disk: D) -> Result<Journal<D>, JournalError<D>>
        ensures found { IfOk result (λ journal. journal.found ≡ []) }
        ensures ready { IfOk result (λ journal. journal.ready ≡ true) }
        ensures image { IfOk result (λ journal. IsImage (D.file journal.disk) []) }
        ensures durable { IfOk result (λ journal. Only (D.file journal.disk) (D.may_leave journal.disk)) }
        ensures moments { IfOk result (λ journal. Counts D.may_leave D.left_since disk journal.disk) }
        ensures moments_err { IfErr result (λ error. Counts D.may_leave D.left_since disk error.disk) }
        ensures quiet { IfOk result (λ journal. D.faults journal.disk ≡ D.faults disk) }
        ensures blamed { IfErr result (λ error. Blames (D.faults disk) (D.faults error.disk) error.cause) }
        ensures journal { IfErr result (λ error. error.cause ≡ why.NotJournal → ⊥) }
    {
        match clear(&mut disk) {
            Ok(()) => Ok(Journal {
                alloc,
                disk,
                found: EntryList::new(alloc),
                gate: 8,
                ready: true,
            }),
            Err(error) => Err(JournalError {
                cause: fault_of(error),
                disk,
            }),
        }
    }

    /// The journal that this disk holds. The error `NotJournal` comes exactly where what reads give is no journal up to
    /// its first closed gate, and then nothing was cut. An error hands the disk back.
    pub fn open(alloc: Global, mut disk: D) -> Result<Journal<D>, JournalError<D>>
        ensures found { IfOk result (λ journal. IsJournal (D.file disk) journal.found) }
        ensures ready { IfOk result (λ journal. journal.ready ≡ true) }
        ensures image { IfOk result (λ journal. IsImage (D.file journal.disk) journal.found) }
        ensures durable { IfOk result (λ journal. Only (D.file journal.disk) (D.may_leave journal.disk)) }
        ensures any_moment { IfOk result (λ journal. LeavesOnly D.left_since disk journal.disk
            (λ c. (d : List ℕ) × D.may_leave disk d × KeepsEntries d c)) }
        ensures any_moment_err { IfErr result (λ error. LeavesOnly D.left_since disk error.disk
            (λ c. (d : List ℕ) × D.may_leave disk d × KeepsEntries d c)) }
        ensures moments { IfOk result (λ journal. Counts D.may_leave D.left_since disk journal.disk) }
        ensures moments_err { IfErr result (λ error. Counts D.may_leave D.left_since disk error.disk) }
        ensures not_journal { IfErr result (λ error. error.cause ≡ why.NotJournal → (entries : List Entry) →
            IsJournal (D.file disk) entries → ⊥) }
        ensures uncut { IfErr result (λ error. error.cause ≡ why.NotJournal →
            Looks D.file D.may_leave D.left_since disk error.disk) }
        ensures kept { IfErr result (λ error. KeepsEntries (D.file disk) (D.file error.disk)) }
        ensures quiet { IfOk result (λ journal. D.faults journal.disk ≡ D.faults disk) }
        ensures blamed { IfErr result (λ error. Blames (D.faults disk) (D.faults error.disk) error.cause) }
    {
        match recover(alloc, &mut disk) {
            Ok((found, gate)) => Ok(Journal {
                alloc,
                disk,
                found,
                gate,
                ready: true,
            }),
            Err(cause) => Err(JournalError { cause, disk }),
        }
    }

    /// Finds the entries on the disk anew, and cuts what stands behind them. After an error only `reopen` and
    /// `into_disk` may be called.
    pub fn reopen(&mut self) -> Result<(), JournalFault>
        ensures found { OnOk result (IsJournal (D.file self.old.disk) self.new.found) }
        ensures ready { OnOk result (self.new.ready ≡ true) }
        ensures image { OnOk result (IsImage (D.file self.new.disk) self.new.found) }
        ensures durable { OnOk result (Only (D.file self.new.disk) (D.may_leave self.new.disk)) }
        ensures any_moment { LeavesOnly D.left_since self.old.disk self.new.disk
            (λ c. (d : List ℕ) × D.may_leave self.old.disk d × KeepsEntries d c) }
        ensures kept { KeepsEntries (D.file self.old.disk) (D.file self.new.disk) }
        ensures moments { Counts D.may_leave D.left_since self.old.disk self.new.disk }
        ensures journal { IsErrOf result why.NotJournal → ⊥ }
        ensures blamed { Blamed (D.faults self.old.disk) (D.faults self.new.disk) result }
    {
        self.ready = false;
        let (found, gate) = recover(self.alloc, &mut self.disk)?;
        self.found = found;
        self.gate = gate;
        self.ready = true;
        Ok(())
    }

    /// Puts a batch of entries behind those of the journal, and onto the disk. The bytes are those that `encode` gives
    /// for at least one entry. After an error only `reopen` and `into_disk` may be called; the batch may then be there
    /// or not.
    pub fn append_batch(&mut self, bytes: &[u8]) -> Result<(), JournalFault>
        requires ready { self.old.ready ≡ true }
        requires batch { (batch : List Entry) × Encodes bytes.now batch }
        ensures any_moment { (entries batch : List Entry) → IsImage (D.file self.old.disk) entries →
            Encodes bytes.now batch → LeavesOnly D.left_since self.old.disk self.new.disk (IsWithOrWithout entries batch) }
        ensures left { (entries batch : List Entry) → IsImage (D.file self.old.disk) entries →
            Encodes bytes.now batch → IsWithOrWithout entries batch (D.file self.new.disk) }
        ensures image { OnOk result ((entries batch : List Entry) → IsImage (D.file self.old.disk) entries →
            Encodes bytes.now batch → IsImage (D.file self.new.disk) (entries ++ batch)) }
        ensures durable { OnOk result (Only (D.file self.new.disk) (D.may_leave self.new.disk)) }
        ensures ready { OnOk result (self.new.ready ≡ true) }
        ensures found { self.new.found ≡ self.old.found }
        ensures moments { Counts D.may_leave D.left_since self.old.disk self.new.disk }
        ensures journal { IsErrOf result why.NotJournal → ⊥ }
        ensures blamed { Blamed (D.faults self.old.disk) (D.faults self.new.disk) result }
    {
        self.ready = false;
        let gate = append(self.alloc, &mut self.disk, self.gate, bytes)?;
        self.gate = gate;
        self.ready = true;
        Ok(())
    }

    /// The entries that the last `create`, `open` or `reopen` found.
    pub fn entries(&self) -> &[Entry]
        ensures { result.now ≡ self.now.found }
    {
        self.found.as_slice()
    }

    /// The disk, with all that is on it.
    pub fn into_disk(self) -> D
        ensures { result ≡ self.disk }
    {
        self.disk
    }
}
