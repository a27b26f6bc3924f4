// A journal whose disk is stopped at each of its calls, and what is found of it then.
ghost use Rattle.std.specs.Prelude.{List, IfOk};
ghost use Rattle.plain_types.specs.declared.entry.Entry.{Entry};
ghost use Rattle.mds_journal.specs.Stops.{Encodes};

use crate::{Journal, JournalFault, encode};
use io_edge::{Disk, MemDisk, SteadyDisk};
use plain_types::{Entry, What};
use snap_ids::{FIRST_INO, Name, NoMemory, ROOT};
use std::alloc::Global;
use std::test::Fail;

// An entry that says that the clients came to a barrier.
fn barrier(number: u64) -> Entry {
    Entry {
        client: 1,
        number: 7,
        what: What::Barrier { number },
    }
}

// The bytes of a batch of one entry.
fn batch_of(alloc: Global, entry: &Entry) -> Result<Vec<u8>, NoMemory>
    ensures { IfOk result (λ bytes. (batch : List Entry) × Encodes bytes.items batch) }
{
    let mut bytes = Vec::new(alloc);
    encode(alloc, entry, &mut bytes)?;
    Ok(bytes)
}

// Makes a journal, appends two batches and opens it anew, up to what the disk refuses first. Says how many of these four
// were done.
fn run_until_refused(alloc: Global, failing: u64) -> Result<(u8, MemDisk), Fail> {
    let disk = MemDisk::new(alloc, &[failing])?;
    let mut journal = match Journal::create(alloc, disk) {
        Ok(journal) => journal,
        Err(error) => return Ok((0, error.disk)),
    };
    let first = batch_of(alloc, &barrier(1))?;
    let Ok(()) = journal.append_batch(&first) else {
        return Ok((1, journal.into_disk()));
    };
    let second = batch_of(alloc, &barrier(2))?;
    let Ok(()) = journal.append_batch(&second) else {
        return Ok((2, journal.into_disk()));
    };
    let Ok(()) = journal.reopen() else {
        return Ok((3, journal.into_disk()));
    };
    Ok((4, journal.into_disk()))
}

// Whether this disk holds a journal of just these entries.
fn holds<D: Disk + Drop>(alloc: Global, disk: D, entries: &[Entry]) -> bool {
    match Journal::open(alloc, disk) {
        Ok(journal) => journal.entries() == entries,
        Err(_) => false,
    }
}

// Why this disk is refused, where it is.
fn refusal(alloc: Global, disk: MemDisk) -> Option<JournalFault> {
    match Journal::open(alloc, disk) {
        Ok(_) => None,
        Err(error) => Some(error.cause),
    }
}

#[test]
fn a_stop_keeps_what_was_appended(rt: HostRuntime) -> Result<(), Fail> {
    let alloc = rt.alloc();
    let appended = [barrier(1), barrier(2)];
    let (none, one, both) = (&appended[..0], &appended[..1], &appended[..]);
    // The call that the disk refuses, how many of the four are done, and what is found where none, one and two of the
    // writes and cuts since the last sync are on the disk.
    let cases = [
        // the first batch: a write behind the gate, a sync, a write over the gate, a sync
        (4, 1, [none, none, none]),
        (5, 1, [none, none, none]),
        (6, 1, [none, none, none]),
        (7, 1, [none, one, one]),
        // the second
        (8, 2, [one, one, one]),
        (9, 2, [one, one, one]),
        (10, 2, [one, one, one]),
        (11, 2, [one, both, both]),
        // opened anew: a sync, two reads, a cut, a sync
        (12, 3, [both, both, both]),
        (13, 3, [both, both, both]),
        (14, 3, [both, both, both]),
        (15, 3, [both, both, both]),
        (16, 3, [both, both, both]),
        (17, 4, [both, both, both]),
    ];
    for (failing, done, found) in cases {
        let (made, disk) = run_until_refused(alloc, failing)?;
        assert_eq!(rt; made, done, "call {failing}");
        for (kept, entries) in [0, 1, 2].into_iter().zip(found) {
            let stopped = disk.stopped(kept)?;
            assert!(rt;
                holds(alloc, stopped, entries),
                "call {failing}, {kept} kept"
            );
        }
    }
    Ok(())
}

#[test]
fn a_journal_is_made_anew_after_a_stop(rt: HostRuntime) -> Result<(), Fail> {
    let alloc = rt.alloc();
    let no_journal = Some(JournalFault::NotJournal);
    // The call that the disk refuses (a cut, a write, a sync), and why the disk is refused where none, one and two of the
    // two changes are on it.
    let cases = [
        (1, [no_journal, no_journal, no_journal]),
        (2, [no_journal, no_journal, no_journal]),
        (3, [no_journal, no_journal, None]),
    ];
    for (failing, refusals) in cases {
        let (made, disk) = run_until_refused(alloc, failing)?;
        assert_eq!(rt; made, 0, "call {failing}");
        for (kept, expected) in [0, 1, 2].into_iter().zip(refusals) {
            let stopped = disk.stopped(kept)?;
            assert_eq!(rt;
                refusal(alloc, stopped),
                expected,
                "call {failing}, {kept} kept"
            );
            let stopped = disk.stopped(kept)?;
            let Ok(journal) = Journal::create(alloc, stopped) else {
                return Err(Fail::new("a journal is made anew"));
            };
            let disk = journal.into_disk().stopped(0)?;
            assert!(rt; holds(alloc, disk, &[]), "call {failing}, {kept} kept");
        }
    }
    Ok(())
}

#[test]
fn a_refused_batch_is_appended_again(rt: HostRuntime) -> Result<(), Fail> {
    let alloc = rt.alloc();
    let appended = [barrier(1), barrier(1)];
    let (none, one, both) = (&appended[..0], &appended[..1], &appended[..]);
    let batch = batch_of(alloc, &barrier(1))?;
    // The call that the disk refuses in the batch, what is found then, and with the batch once more.
    for (failing, found, after) in [(4, none, one), (6, none, one), (7, one, both)] {
        let disk = MemDisk::new(alloc, &[failing])?;
        let Ok(mut journal) = Journal::create(alloc, disk) else {
            return Err(Fail::new("the journal is made"));
        };
        assert_eq!(rt; journal.append_batch(&batch), Err(JournalFault::DiskFault));
        let Ok(()) = journal.reopen() else {
            return Err(Fail::new("the journal is opened anew"));
        };
        assert!(rt; journal.entries() == found, "call {failing}");
        assert_eq!(rt; journal.append_batch(&batch), Ok(()));
        let disk = journal.into_disk().stopped(0)?;
        assert!(rt; holds(alloc, disk, after), "call {failing}");
    }
    Ok(())
}

// The journal of one entry: client 1's first request made the directory `a` in the root.
const WORKED: [u8; 42] = [
    83, 78, 65, 80, 74, 82, 78, 49, 1, 0, 0, 0, 28, 1, 1, 0, 0, 0, 0, 0, 0, 0, 1, 0, 0, 0, 0, 0, 0,
    0, 1, 1, 97, 0, 0, 1, 0, 0, 0, 0, 0, 0,
];

#[test]
fn a_journal_has_these_bytes(rt: HostRuntime) -> Result<(), Fail> {
    let alloc = rt.alloc();
    let made = [Entry {
        client: 1,
        number: 1,
        what: What::Mkdir {
            dir: ROOT,
            name: Name::new(alloc, b"a")?,
            ino: FIRST_INO,
        },
    }];
    let batch = batch_of(alloc, &made[0])?;
    let Ok(mut journal) = Journal::create(alloc, SteadyDisk::new(alloc)) else {
        return Err(Fail::new("the journal is made"));
    };
    assert_eq!(rt; journal.append_batch(&batch), Ok(()));
    assert!(rt; journal.entries().is_empty());
    let mut disk = journal.into_disk();
    let mut room = [0; 64];
    let count = disk.read_at(0, &mut room)?;
    assert_eq!(rt; &room[..count], WORKED.as_slice());
    assert!(rt; holds(alloc, disk, &made));
    Ok(())
}

#[test]
fn a_file_is_a_journal_up_to_its_closed_gate(rt: HostRuntime) -> Result<(), Fail> {
    let alloc = rt.alloc();
    // A file, how many entries are found, and what reads give then.
    let cases = [
        (b"".as_slice(), None, b"".as_slice()),
        (b"SNAPJRN1", None, b"SNAPJRN1"),
        (b"SNAPJRN2\0", None, b"SNAPJRN2\0"),
        (b"SNAPJRN1\0", Some(0), b"SNAPJRN1\0"),
        (b"SNAPJRN1\x02\x01", Some(0), b"SNAPJRN1\x02"),
        (b"SNAPJRN1\x01\0\0\0\0\0", None, b"SNAPJRN1\x01\0\0\0\0\0"),
        (&WORKED[..41], None, &WORKED[..41]),
        (&WORKED, Some(1), &WORKED),
    ];
    for (file, found, left) in cases {
        let mut disk = MemDisk::new(alloc, &[])?;
        disk.write_at(0, file)?;
        let (count, mut disk) = match Journal::open(alloc, disk) {
            Ok(journal) => (Some(journal.entries().len()), journal.into_disk()),
            Err(error) => (None, error.disk),
        };
        assert_eq!(rt; count, found);
        let mut room = [0; 64];
        let count = disk.read_at(0, &mut room)?;
        assert_eq!(rt; &room[..count], left);
    }
    Ok(())
}
