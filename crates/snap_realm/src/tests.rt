// Moves between realms, the limits, a file of two names, a purge, and the names under `.snap`.
use crate::error::RealmError;
use crate::tree::RealmTree;
use snap_ids::{Entries, GLOBAL, Ids, Ino, Kind, Name, ROOT, RealmInfo, STRAY, SnapId};
use std::alloc::{AllocError, Global};
use std::test::Fail;

const A: Ino = Ino(1099511627776);

const B: Ino = Ino(1099511627777);

const D: Ino = Ino(1099511627778);

const X: Ino = Ino(1099511627779);

// Makes an inode below another, where that may be.
fn born(tree: &mut RealmTree, ino: Ino, parent: Ino) -> Result<(), Fail> {
    if !tree.has(parent) || tree.is_in_global(parent) || tree.has(ino) {
        return Err(Fail::from("it can't be born there"));
    }
    tree.born(ino, parent)?;
    Ok(())
}

// Makes a snapshot, where that may be, and tells why not.
fn try_snap(
    alloc: Global,
    tree: &mut RealmTree,
    dir: Ino,
    id: u64,
    name: &[u8],
) -> Result<Option<RealmError>, Fail> {
    let name = Name::new(alloc, name)?;
    if !tree.has(dir) || tree.is_in_global(dir) || dir.0 == STRAY.0 || !name.is_new_snap() {
        return Err(Fail::from("no snapshot can be made of it"));
    }
    if id <= tree.applied().0 || 4611686018427387904 <= id {
        return Err(Fail::from("no new id"));
    }
    Ok(tree.add_snap(dir, SnapId(id), name).err())
}

// Makes a snapshot.
fn snap(alloc: Global, tree: &mut RealmTree, dir: Ino, id: u64, name: &[u8]) -> Result<(), Fail> {
    match try_snap(alloc, tree, dir, id, name)? {
        None => Ok(()),
        Some(_) => Err(Fail::from("it was refused")),
    }
}

// Moves an inode below another, where that may be.
fn moved(tree: &mut RealmTree, ino: Ino, parent: Ino) -> Result<bool, Fail> {
    if !tree.has(ino) || !tree.has(parent) || ino.0 <= GLOBAL.0 {
        return Err(Fail::from("it can't be moved"));
    }
    if tree.is_in_global(parent) || tree.is_under(parent, ino) {
        return Err(Fail::from("it can't be moved there"));
    }
    let leaves = tree.move_to(ino, parent)?;
    Ok(leaves)
}

// The context of an inode is this one, and its sequence id alone is the same.
fn has_context(tree: &RealmTree, ino: Ino, seq: u64, ids: &[SnapId]) -> Result<bool, Fail> {
    if !tree.has(ino) {
        return Ok(false);
    }
    let context = tree.context(ino)?;
    Ok(context.seq() == SnapId(seq) && context.ids() == ids && tree.seq_of(ino) == SnapId(seq))
}

// The inode at which the realm of one begins.
fn realm_of(tree: &RealmTree, ino: Ino) -> Option<Ino> {
    if tree.has(ino) {
        Some(tree.realm_of(ino))
    } else {
        None
    }
}

// A realm of a trace.
fn info(
    alloc: Global,
    ino: Ino,
    bounds: (u64, u64),
    own: &[SnapId],
    past: &[SnapId],
) -> Result<RealmInfo, AllocError> {
    Ok(RealmInfo {
        ino,
        seq: SnapId(bounds.0),
        since: SnapId(bounds.1),
        own: Ids::from_vec(own.to_vec(alloc)?),
        past: Ids::from_vec(past.to_vec(alloc)?),
    })
}

// The names, each with `/` behind a directory's.
fn spelled(alloc: Global, entries: &Entries) -> Result<Vec<u8>, AllocError> {
    let mut text = Vec::new(alloc);
    for (name, kind) in entries.as_slice() {
        text.extend_from_slice(name.as_bytes())?;
        text.push(if *kind == Kind::Dir { b'/' } else { b' ' })?;
    }
    Ok(text)
}

// Whether the names under the `.snap` of a directory are these.
fn shows(alloc: Global, tree: &RealmTree, dir: Ino, wanted: &[u8]) -> Result<bool, Fail> {
    if !tree.has(dir) || tree.is_in_global(dir) {
        return Ok(false);
    }
    let names = tree.names(dir)?;
    Ok(spelled(alloc, &names)?.as_slice() == wanted)
}

// The id that a name has under the `.snap` of a directory.
fn named(alloc: Global, tree: &RealmTree, dir: Ino, name: &[u8]) -> Result<Option<SnapId>, Fail> {
    if !tree.has(dir) || tree.is_in_global(dir) {
        return Err(Fail::from("it shows nothing"));
    }
    let name = Name::new(alloc, name)?;
    Ok(tree.snap_named(dir, &name))
}

// `/a`, `/b` and `/a/d`, a snapshot `t` of `/b`, a snapshot `s` of `/a`, and a file `/a/d/x`.
fn made(alloc: Global) -> Result<RealmTree, Fail> {
    let mut tree = RealmTree::new(alloc)?;
    born(&mut tree, A, ROOT)?;
    born(&mut tree, B, ROOT)?;
    born(&mut tree, D, A)?;
    snap(alloc, &mut tree, B, 2, b"t")?;
    snap(alloc, &mut tree, A, 3, b"s")?;
    born(&mut tree, X, D)?;
    Ok(tree)
}

#[test]
fn a_move_keeps_what_covered(rt: HostRuntime) -> Result<(), Fail> {
    let alloc = rt.alloc();
    let mut tree = made(alloc)?;
    assert!(rt; !moved(&mut tree, X, A)?);
    assert!(rt; !moved(&mut tree, X, D)?);
    assert_eq!(rt; realm_of(&tree, X), Some(A));
    assert!(rt; moved(&mut tree, D, B)?);
    assert_eq!(rt; realm_of(&tree, X), Some(D));
    assert!(rt; has_context(&tree, D, 3, &[SnapId(3)])?);
    assert!(rt; has_context(&tree, X, 1, &[])?);
    assert!(rt; tree.has(D));
    assert_eq!(rt; tree.effective(D)?.as_slice(), [SnapId(3)].as_slice());
    let realms = [
        info(alloc, D, (3, 4), &[], &[SnapId(3)])?,
        info(alloc, B, (2, 0), &[SnapId(2)], &[])?,
        info(alloc, ROOT, (1, 0), &[], &[])?,
    ];
    assert!(rt; tree.trace(D)?.as_slice() == realms.as_slice());
    assert!(rt; moved(&mut tree, D, A)?);
    assert_eq!(rt; realm_of(&tree, D), Some(D));
    assert!(rt; has_context(&tree, D, 3, &[SnapId(3)])?);
    assert_eq!(rt; tree.applied(), SnapId(3));
    assert_eq!(rt; tree.live()?.as_slice(), [SnapId(3), SnapId(2)].as_slice());
    Ok(())
}

#[test]
fn a_removed_snapshot_stays_until_purged(rt: HostRuntime) -> Result<(), Fail> {
    let alloc = rt.alloc();
    let mut tree = made(alloc)?;
    let s = Name::new(alloc, b"s")?;
    assert_eq!(rt; tree.drop_snap(A, &s).ok(), Some(SnapId(3)));
    assert!(rt; matches!(tree.drop_snap(A, &s), Err(RealmError::NoSnap)));
    assert_eq!(rt; tree.live()?.as_slice(), [SnapId(2)].as_slice());
    assert!(rt; has_context(&tree, D, 3, &[SnapId(3)])?);
    assert!(rt; shows(alloc, &tree, D, b"")?);
    assert!(rt; !tree.is_live(SnapId(3)));
    tree.purged(SnapId(3));
    assert!(rt; has_context(&tree, D, 3, &[])?);
    Ok(())
}

#[test]
fn a_file_of_two_names_is_global(rt: HostRuntime) -> Result<(), Fail> {
    let alloc = rt.alloc();
    let mut tree = made(alloc)?;
    assert!(rt; tree.has(X) && tree.is_leaf(X));
    tree.to_global(X)?;
    assert_eq!(rt; realm_of(&tree, X), Some(GLOBAL));
    snap(alloc, &mut tree, B, 4, b"u")?;
    assert!(rt; has_context(&tree, X, 4, &[SnapId(4)])?);
    assert!(rt; tree.has(X));
    assert_eq!(rt; tree.birth_of(X), SnapId(4));
    let all = [SnapId(4), SnapId(3), SnapId(2)];
    let realms = [info(alloc, GLOBAL, (4, 0), &[], &all)?];
    assert!(rt; tree.trace(X)?.as_slice() == realms.as_slice());
    assert!(rt; tree.is_leaf(X));
    tree.forget(X);
    assert!(rt; !tree.has(X));
    Ok(())
}

#[test]
fn a_snapshot_is_refused_in_order(rt: HostRuntime) -> Result<(), Fail> {
    let alloc = rt.alloc();
    let mut tree = made(alloc)?;
    for n in 0_u8..99 {
        let name = [b'n', b'0' + n / 10, b'0' + n % 10];
        snap(alloc, &mut tree, A, 4 + u64::from(n), &name)?;
    }
    let taken = try_snap(alloc, &mut tree, A, 200, b"s")?;
    assert_eq!(rt; taken, Some(RealmError::SnapExists));
    let many = try_snap(alloc, &mut tree, A, 200, b"v")?;
    assert_eq!(rt; many, Some(RealmError::TooManySnaps));
    for n in 0_u8..27 {
        let name = [b'n', b'0' + n / 10, b'0' + n % 10];
        snap(alloc, &mut tree, B, 200 + u64::from(n), &name)?;
    }
    let live = try_snap(alloc, &mut tree, B, 300, b"v")?;
    assert_eq!(rt; live, Some(RealmError::TooManyLive));
    let both = try_snap(alloc, &mut tree, A, 300, b"v")?;
    assert_eq!(rt; both, Some(RealmError::TooManySnaps));
    Ok(())
}

#[test]
fn names_are_own_or_inherited(rt: HostRuntime) -> Result<(), Fail> {
    let alloc = rt.alloc();
    let mut tree = made(alloc)?;
    snap(alloc, &mut tree, D, 4, b"a")?;
    snap(alloc, &mut tree, D, 5, b"Z")?;
    assert!(rt; shows(alloc, &tree, A, b"s/")?);
    assert!(rt; shows(alloc, &tree, ROOT, b"")?);
    assert!(rt; shows(alloc, &tree, D, b"Z/_s_1099511627776/a/")?);
    assert_eq!(rt;
        named(alloc, &tree, D, b"_s_1099511627776")?,
        Some(SnapId(3))
    );
    assert_eq!(rt; named(alloc, &tree, D, b"a")?, Some(SnapId(4)));
    for name in [
        b"s".as_slice(),
        b"_a_1099511627778",
        b"_s_1099511627777",
        b"_t_1099511627777",
    ] {
        assert_eq!(rt; named(alloc, &tree, D, name)?, None);
    }
    Ok(())
}

#[test]
fn the_longest_name(rt: HostRuntime) -> Result<(), Fail> {
    let alloc = rt.alloc();
    let long = b"0123456789012345678901234567890123456789012345678901234567890123";
    let all =
        b"_0123456789012345678901234567890123456789012345678901234567890123_18446744073709551615/";
    let top = Ino(18446744073709551615);
    let mut tree = RealmTree::new(alloc)?;
    born(&mut tree, top, ROOT)?;
    born(&mut tree, A, top)?;
    snap(alloc, &mut tree, top, 2, long)?;
    assert!(rt; shows(alloc, &tree, A, all)?);
    assert_eq!(rt; named(alloc, &tree, A, &all[..86])?, Some(SnapId(2)));
    Ok(())
}
