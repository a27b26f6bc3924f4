// A small tree, changed in steps.
ghost use Rattle.std.specs.Prelude.{◌≤◌, ◌<◌, OnOk};
ghost use Rattle.dentry_tree.specs.Dentries.{newest};

use crate::error::TreeError;
use crate::tree::DirTree;
use snap_ids::{Entries, Ids, Ino, Kind, NOSNAP, Name, Path, ROOT, SnapId};
use std::alloc::{AllocError, Global};
use std::test::Fail;

// A name in a directory, its inode, and what that is.
type Row = (Ino, &'static [u8], u64, Kind);

// Puts an entry.
fn put(alloc: Global, tree: &mut DirTree, row: Row, applied: SnapId) -> Result<(), Fail>
    requires below { applied.0 < 100 }
    requires newest { newest tree.old ≤ applied.0 }
    ensures { OnOk result (newest tree.new ≤ applied.0) }
{
    let (dir, name, ino, kind) = row;
    let name = Name::new(alloc, name)?;
    tree.put(dir, name, Ino(ino), kind, applied)?;
    Ok(())
}

// Two directories and a file from id 2 on; from id 3 on the file is gone, and one directory has a directory; from id 5 on
// the file's name is a directory's, and the other directory's name a file's.
fn grown(alloc: Global) -> Result<DirTree, Fail> {
    let mut tree = DirTree::new(alloc)?;
    let name = Name::new(alloc, b"a")?;
    let other = Name::new(alloc, b"b")?;
    put(alloc, &mut tree, (ROOT, b"b", 10, Kind::Dir), SnapId(1))?;
    put(alloc, &mut tree, (ROOT, b"a", 11, Kind::File), SnapId(1))?;
    put(alloc, &mut tree, (ROOT, b"ab", 12, Kind::Dir), SnapId(1))?;
    tree.cut_file(ROOT, &name, SnapId(2))?;
    put(alloc, &mut tree, (Ino(10), b"c", 13, Kind::Dir), SnapId(2))?;
    tree.cut_dir(ROOT, &other, SnapId(4))?;
    put(alloc, &mut tree, (ROOT, b"a", 14, Kind::Dir), SnapId(4))?;
    put(alloc, &mut tree, (ROOT, b"b", 15, Kind::File), SnapId(4))?;
    Ok(tree)
}

// The names, each with `/` behind a directory's and a space behind a file's.
fn spelled(alloc: Global, entries: &Entries) -> Result<Vec<u8>, AllocError> {
    let mut text = Vec::new(alloc);
    for (name, kind) in entries.as_slice() {
        text.extend_from_slice(name.as_bytes())?;
        text.push(if *kind == Kind::Dir { b'/' } else { b' ' })?;
    }
    Ok(text)
}

// Ids of a list.
fn ids(alloc: Global, of: &[u8]) -> Result<Ids, AllocError> {
    let mut ids = Vec::new(alloc);
    for id in of {
        ids.push(SnapId(u64::from(*id)))?;
    }
    Ok(Ids::from_vec(ids))
}

#[test]
fn a_name_has_an_inode_at_each_id(rt: HostRuntime) -> Result<(), Fail> {
    let tree = grown(rt.alloc())?;
    let a = Name::new(rt.alloc(), b"a")?;
    let b = Name::new(rt.alloc(), b"b")?;
    for (id, of_a, of_b) in [
        (SnapId(1), None, None),
        (SnapId(2), Some(Ino(11)), Some(Ino(10))),
        (SnapId(3), None, Some(Ino(10))),
        (SnapId(4), None, Some(Ino(10))),
        (SnapId(5), Some(Ino(14)), Some(Ino(15))),
        (NOSNAP, Some(Ino(14)), Some(Ino(15))),
    ] {
        assert_eq!(rt; tree.at(ROOT, &a, id), of_a, "a at {id:?}");
        assert_eq!(rt; tree.at(ROOT, &b, id), of_b, "b at {id:?}");
    }
    Ok(())
}

#[test]
fn a_walk_ends_at_each_id(rt: HostRuntime) -> Result<(), Fail> {
    let tree = grown(rt.alloc())?;
    let path = Path::parse(rt.alloc(), b"/b/c")?;
    for (id, end) in [
        (SnapId(2), None),
        (SnapId(3), Some(Ino(13))),
        (SnapId(4), Some(Ino(13))),
        (NOSNAP, None),
    ] {
        assert_eq!(rt; tree.walk(ROOT, &path, id).ok(), end, "at {id:?}");
    }
    let absent = tree.walk(ROOT, &path, SnapId(2));
    assert!(rt; matches!(absent, Err(TreeError::NoEntry)));
    let through_a_file = tree.walk(ROOT, &path, SnapId(5));
    assert!(rt; matches!(through_a_file, Err(TreeError::NotDir)));
    Ok(())
}

#[test]
fn a_directory_lists_what_it_has_at_each_id(rt: HostRuntime) -> Result<(), Fail> {
    let tree = grown(rt.alloc())?;
    for (dir, id, want) in [
        (ROOT, SnapId(1), b"".as_slice()),
        (ROOT, SnapId(2), b"a ab/b/".as_slice()),
        (ROOT, SnapId(3), b"ab/b/".as_slice()),
        (ROOT, NOSNAP, b"a/ab/b ".as_slice()),
        (Ino(10), SnapId(2), b"".as_slice()),
        (Ino(10), NOSNAP, b"c/".as_slice()),
        (Ino(12), NOSNAP, b"".as_slice()),
    ] {
        let entries = tree.list(dir, id)?;
        let text = spelled(rt.alloc(), &entries)?;
        assert_eq!(rt; text.as_slice(), want, "{dir:?} at {id:?}");
        assert_eq!(rt;
            tree.has_entries(dir, id),
            !want.is_empty(),
            "{dir:?} at {id:?}"
        );
    }
    Ok(())
}

#[test]
fn a_trim_keeps_what_a_live_id_needs(rt: HostRuntime) -> Result<(), Fail> {
    let mut tree = grown(rt.alloc())?;
    let a = Name::new(rt.alloc(), b"a")?;
    let b = Name::new(rt.alloc(), b"b")?;
    let live = ids(rt.alloc(), &[3, 6])?;
    assert_eq!(rt; tree.trim(&live), 1);
    for (id, of_a, of_b) in [
        (SnapId(2), None, Some(Ino(10))),
        (SnapId(3), None, Some(Ino(10))),
        (SnapId(6), Some(Ino(14)), Some(Ino(15))),
        (NOSNAP, Some(Ino(14)), Some(Ino(15))),
    ] {
        assert_eq!(rt; tree.at(ROOT, &a, id), of_a, "a at {id:?}");
        assert_eq!(rt; tree.at(ROOT, &b, id), of_b, "b at {id:?}");
    }
    let none = ids(rt.alloc(), b"")?;
    assert_eq!(rt; tree.trim(&none), 1);
    assert_eq!(rt; tree.at(ROOT, &b, SnapId(3)), None);
    Ok(())
}
