// Who is told of what.
use crate::{has_all, notices};
use cap_state::{Asked, Caps};
use plain_types::{FileTrace, Inos, SnapUpdate};
use snap_ids::{Ids, Ino, Mode, ROOT, RealmInfo, SnapId, Trace};
use snap_realm::RealmTree;
use std::alloc::{AllocError, Global};
use std::test::Fail;

// A tree with files 10 to 14 in the root.
fn tree(alloc: Global) -> Result<RealmTree, Fail> {
    let mut realms = RealmTree::new(alloc)?;
    for number in 10_u64..15 {
        let file = Ino(number);
        if realms.has(file) || !realms.has(ROOT) || realms.is_in_global(ROOT) {
            return Err(Fail::from("it can't be born there"));
        }
        realms.born(file, ROOT)?;
    }
    Ok(realms)
}

// What is told of a file in the root, while there are no snapshots.
fn trace(alloc: Global, number: u64) -> Result<FileTrace, AllocError> {
    let mut realms = Vec::new(alloc);
    let root = RealmInfo {
        ino: ROOT,
        seq: SnapId(1),
        since: SnapId(0),
        own: Ids::new(alloc),
        past: Ids::new(alloc),
    };
    realms.push(root)?;
    Ok(FileTrace {
        ino: Ino(number),
        birth: SnapId(2),
        trace: Trace::from_vec(realms),
    })
}

// The traces of some files in the root.
fn update(alloc: Global, numbers: &[u64]) -> Result<SnapUpdate, AllocError> {
    let mut files = Vec::new(alloc);
    for number in numbers {
        files.push(trace(alloc, *number)?)?;
    }
    Ok(SnapUpdate::from_vec(files))
}

#[test]
fn writers_are_told_of_what_changed(rt: HostRuntime) -> Result<(), Fail> {
    let alloc = rt.alloc();
    let realms = tree(alloc)?;
    let mut caps = Caps::new(alloc);
    for (client, number, mode) in [
        (2, 10, Mode::Write),
        (255, 11, Mode::Write),
        (1, 12, Mode::Write),
        (2, 13, Mode::Read),
        (2, 14, Mode::Write),
    ] {
        let asked = caps.ask(client, Ino(number), mode, SnapId(1))?;
        assert_eq!(rt; asked, Asked::Grant);
    }
    let mut changed = Inos::new(alloc);
    for number in [14, 13, 11, 99, 10] {
        changed.push(Ino(number))?;
    }
    assert!(rt; has_all(&realms, &caps, &changed));
    let list = notices(alloc, &realms, &caps, &changed)?;
    let wanted = [(2, update(alloc, &[10, 14])?), (255, update(alloc, &[11])?)];
    assert!(rt; list.as_slice() == wanted.as_slice());
    Ok(())
}
