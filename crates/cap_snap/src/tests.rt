// Files that are held, changed, recalled and given back.
use crate::{BufError, CapSnaps, Due};
use plain_types::Claim;
use snap_ids::{Bytes, Ids, Ino, Mode, SnapContext, SnapId};
use std::alloc::Global;
use std::test::Fail;

const ONE: Ino = Ino(7);

const OTHER: Ino = Ino(4);

const THIRD: Ino = Ino(5);

// Bytes of a list.
fn bytes(alloc: Global, of: &[u8]) -> Result<Bytes, Fail> {
    Ok(Bytes::from_vec(Vec::from_slice(alloc, of)?))
}

// A context without a snapshot.
fn context(alloc: Global) -> Result<SnapContext, Fail> {
    Ok(SnapContext::new(SnapId(1), Ids::new(alloc))?)
}

// Sends what is due, and answers it.
fn send(held: &mut CapSnaps) -> Option<Due> {
    let due = held.next_flush(None)?;
    held.sent(&due);
    Some(due)
}

#[test]
fn a_mark_waits_for_older_pieces(rt: HostRuntime) -> Result<(), Fail> {
    let alloc = rt.alloc();
    let mut held = CapSnaps::new(alloc);
    held.hold(ONE, Mode::Write, 0, SnapId(1))?;
    held.write(ONE, 0, bytes(alloc, b"ab")?, context(alloc)?)?;
    held.queue(ONE, SnapId(1), SnapId(2), 2)?;
    assert_eq!(rt; send(&mut held), Some(Due::Piece(ONE)));
    assert_eq!(rt; send(&mut held), None);
    assert!(rt; held.stored(ONE));
    let mark = Due::Mark {
        ino: ONE,
        follows: SnapId(1),
        upto: SnapId(2),
        size: 2,
    };
    assert_eq!(rt; send(&mut held), Some(mark));
    assert_eq!(rt; send(&mut held), None);
    assert!(rt; !held.stored(ONE));
    Ok(())
}

#[test]
fn files_are_given_back(rt: HostRuntime) -> Result<(), Fail> {
    let alloc = rt.alloc();
    let mut held = CapSnaps::new(alloc);
    held.hold(ONE, Mode::Write, 3, SnapId(1))?;
    held.recall(OTHER);
    held.recall(ONE);
    assert_eq!(rt; held.next_flush(Some(ONE)), None);
    assert_eq!(rt; send(&mut held), Some(Due::Release { ino: ONE, size: 3 }));
    assert!(rt; held.file(ONE).is_none());
    Ok(())
}

#[test]
fn a_raise_clears_a_recall(rt: HostRuntime) -> Result<(), Fail> {
    let alloc = rt.alloc();
    let mut held = CapSnaps::new(alloc);
    held.hold(ONE, Mode::Read, 3, SnapId(1))?;
    held.recall(ONE);
    assert_eq!(rt; held.next_flush(None), Some(Due::DropRead(ONE)));
    held.hold(ONE, Mode::Write, 4, SnapId(2))?;
    assert_eq!(rt; held.next_flush(None), None);
    let size = match held.file(ONE) {
        Some(file) => file.size(),
        None => 0,
    };
    assert_eq!(rt; size, 4);
    Ok(())
}

#[test]
fn later_files_move_up(rt: HostRuntime) -> Result<(), Fail> {
    let alloc = rt.alloc();
    let mut held = CapSnaps::new(alloc);
    held.hold(ONE, Mode::Read, 0, SnapId(1))?;
    held.hold(OTHER, Mode::Read, 0, SnapId(1))?;
    held.hold(THIRD, Mode::Read, 0, SnapId(1))?;
    held.recall(THIRD);
    held.recall(OTHER);
    held.let_go(ONE);
    assert_eq!(rt; send(&mut held), Some(Due::DropRead(OTHER)));
    assert_eq!(rt; send(&mut held), Some(Due::DropRead(THIRD)));
    assert_eq!(rt; send(&mut held), None);
    Ok(())
}

#[test]
fn claims_are_in_order(rt: HostRuntime) -> Result<(), Fail> {
    let alloc = rt.alloc();
    let mut held = CapSnaps::new(alloc);
    held.hold(ONE, Mode::Read, 0, SnapId(1))?;
    held.hold(OTHER, Mode::Write, 0, SnapId(2))?;
    held.acked(OTHER, SnapId(5));
    held.acked(OTHER, SnapId(3));
    let claims = held.claims()?;
    let first = Claim {
        ino: ONE,
        mode: Mode::Read,
        settled: SnapId(1),
    };
    let second = Claim {
        ino: OTHER,
        mode: Mode::Write,
        settled: SnapId(5),
    };
    assert_eq!(rt; claims.as_slice(), [first, second].as_slice());
    let long = held.truncate(OTHER, 65537, context(alloc)?);
    assert_eq!(rt; long, Err(BufError::TooLarge));
    Ok(())
}
