// What files are at each id, by hand.
ghost use Rattle.std.specs.Prelude.{◌<◌};

use crate::{Attr, InodeTable};
use snap_ids::{Ids, Ino, Kind, NOSNAP, SnapId};
use std::alloc::{AllocError, Global};
use std::test::Fail;

const FILE: Ino = Ino(1099511627776);

fn file(mode: u16, size: u32) -> Attr {
    Attr {
        kind: Kind::File,
        mode,
        size,
    }
}

fn ids(alloc: Global, list: &[u64]) -> Result<Ids, AllocError> {
    let mut ids = Vec::new(alloc);
    for id in list {
        ids.push(SnapId(*id))?;
    }
    Ok(Ids::from_vec(ids))
}

fn create(table: &mut InodeTable, ino: Ino, birth: SnapId, attr: Attr) -> Result<(), Fail>
    requires { birth.0 < NOSNAP.0 }
{
    match table.head(ino) {
        Some(_) => Err(Fail::from("it is there")),
        None => Ok(table.create(ino, birth, attr)?),
    }
}

fn change(table: &mut InodeTable, follows: SnapId, attr: Attr) -> Result<(), Fail>
    requires { follows.0 < NOSNAP.0 }
{
    match table.head(FILE) {
        Some(_) => Ok(table.change(FILE, follows, attr)?),
        None => Err(Fail::from("it isn't there")),
    }
}

fn settle(table: &mut InodeTable, follows: SnapId, upto: SnapId, size: u32) -> Result<(), Fail>
    requires { follows.0 < NOSNAP.0 }
{
    match table.head(FILE) {
        Some(_) => Ok(table.settle(FILE, follows, upto, size)?),
        None => Err(Fail::from("it isn't there")),
    }
}

// What the file is at the ids from 1 on, and now.
fn says(table: &InodeTable, want: &[Option<Attr>]) -> bool {
    let mut id = 1u64;
    for attr in want {
        if table.at(FILE, SnapId(id)) != *attr {
            return false;
        }
        id = id.saturating_add(1);
    }
    table.at(FILE, NOSNAP) == table.head(FILE) && table.at(FILE, SnapId(u64::MAX)).is_none()
}

#[test]
fn a_file_with_a_history(rt: HostRuntime) -> Result<(), Fail> {
    let alloc = rt.alloc();
    let mut table = InodeTable::new(alloc);
    assert!(rt; says(&table, &[None, None, None]));
    create(&mut table, FILE, SnapId(2), file(0o644, 0))?;
    let new = Some(file(0o644, 0));
    assert!(rt; says(&table, &[None, new, new, new]));
    change(&mut table, SnapId(3), file(0o600, 0))?;
    let private = Some(file(0o600, 0));
    assert!(rt; says(&table, &[None, new, new, private, private]));
    settle(&mut table, SnapId(1), SnapId(3), 5)?;
    let five = Some(file(0o644, 5));
    assert!(rt; says(&table, &[None, five, five, private, private]));
    settle(&mut table, SnapId(3), NOSNAP, 9)?;
    let nine = Some(file(0o600, 9));
    assert!(rt; says(&table, &[None, five, five, nine, nine]));
    assert_eq!(rt; table.trim(&ids(alloc, &[7, 3])?), 0);
    assert!(rt; says(&table, &[None, five, five, nine, nine]));
    assert_eq!(rt; table.trim(&ids(alloc, &[4, 1])?), 1);
    assert!(rt; says(&table, &[None, None, None, nine, nine]));
    assert_eq!(rt; table.head(FILE), nine);
    assert!(rt; table.head(Ino(2)).is_none());
    Ok(())
}

#[test]
fn sizes_split_versions(rt: HostRuntime) -> Result<(), Fail> {
    let alloc = rt.alloc();
    let mut table = InodeTable::new(alloc);
    create(&mut table, FILE, SnapId(2), file(0o644, 0))?;
    // The head in three pieces.
    settle(&mut table, SnapId(3), SnapId(5), 4)?;
    let new = Some(file(0o644, 0));
    let four = Some(file(0o644, 4));
    assert!(rt; says(&table, &[None, new, new, four, four, new, new]));
    // An earlier version in three pieces, and the head in two.
    change(&mut table, SnapId(8), file(0o600, 1))?;
    settle(&mut table, SnapId(6), SnapId(7), 6)?;
    let six = Some(file(0o644, 6));
    let private = Some(file(0o600, 1));
    let want = [None, new, new, four, four, new, six, new, private, private];
    assert!(rt; says(&table, &want));
    settle(&mut table, SnapId(9), NOSNAP, 2)?;
    let grown = Some(file(0o600, 2));
    let want = [
        None, new, new, four, four, new, six, new, private, grown, grown,
    ];
    assert!(rt; says(&table, &want));
    // No id is above 4 and up to 4.
    settle(&mut table, SnapId(4), SnapId(4), 8)?;
    assert!(rt; says(&table, &want));
    // Above all that the head begins with: nothing earlier stays as it was.
    settle(&mut table, SnapId(0), NOSNAP, 3)?;
    let all = Some(file(0o644, 3));
    let last = Some(file(0o600, 3));
    assert!(rt;
        says(
            &table,
            &[None, all, all, all, all, all, all, all, last, last, last]
        )
    );
    Ok(())
}

#[test]
fn a_change_of_what_never_was_the_head(rt: HostRuntime) -> Result<(), Fail> {
    let mut table = InodeTable::new(rt.alloc());
    create(&mut table, FILE, SnapId(2), file(0o644, 0))?;
    change(&mut table, SnapId(4), file(0o600, 0))?;
    // The ids up to 4 are no longer the head's.
    change(&mut table, SnapId(2), file(0o400, 0))?;
    let new = Some(file(0o644, 0));
    let read = Some(file(0o400, 0));
    assert!(rt; says(&table, &[None, new, new, new, read, read]));
    Ok(())
}

// A file that changed after each of the ids from 2 to 128, with as many bytes as there were changes.
fn often_changed(alloc: Global) -> Result<InodeTable, Fail> {
    let mut table = InodeTable::new(alloc);
    create(&mut table, FILE, SnapId(2), file(0o644, 0))?;
    for size in 1..128u32 {
        change(&mut table, SnapId(u64::from(size) + 1), file(0o644, size))?;
    }
    Ok(table)
}

#[test]
fn each_of_many_versions_is_found(rt: HostRuntime) -> Result<(), Fail> {
    let alloc = rt.alloc();
    let mut table = often_changed(alloc)?;
    create(&mut table, Ino(7), SnapId(5), file(0o644, 1))?;
    assert!(rt; table.at(FILE, SnapId(1)).is_none());
    for size in 0..128u32 {
        let id = SnapId(u64::from(size) + 2);
        assert_eq!(rt; table.at(FILE, id), Some(file(0o644, size)));
    }
    assert_eq!(rt; table.head(FILE), Some(file(0o644, 127)));
    assert_eq!(rt; table.trim(&ids(alloc, &[200, 100, 50, 1])?), 125);
    for (id, size) in [(50, 48), (100, 98), (129, 127), (200, 127)] {
        assert_eq!(rt; table.at(FILE, SnapId(id)), Some(file(0o644, size)));
    }
    assert!(rt; table.at(FILE, SnapId(51)).is_none());
    assert_eq!(rt; table.at(Ino(7), SnapId(5)), Some(file(0o644, 1)));
    assert_eq!(rt; table.trim(&Ids::new(alloc)), 2);
    assert_eq!(rt; table.trim(&Ids::new(alloc)), 0);
    Ok(())
}
