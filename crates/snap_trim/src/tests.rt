// What is purged next, and what is dropped.
ghost use Rattle.std.specs.Prelude.{◌≡◌, ◌<◌, ◌+◌, OnOk};

use crate::{next_trim, trim_all};
use dentry_tree::DirTree;
use inode_versions::{Attr, InodeTable};
use snap_ids::{Ids, Ino, Kind, Name, ROOT, SnapId};
use snap_table::SnapTable;
use std::alloc::Global;
use std::test::Fail;

// A list of ids.
fn ids(alloc: Global, of: &[u64]) -> Result<Ids, Fail> {
    let mut list = Vec::new(alloc);
    for id in of {
        list.push(SnapId(*id))?;
    }
    Ok(Ids::from_vec(list))
}

// One snapshot more.
fn make(table: &mut SnapTable) -> Result<(), Fail>
    requires { table.old.last < 100 }
    ensures { OnOk result (table.new.last ≡ table.old.last + 1) }
{
    table.prepare_create()?;
    table.commit();
    Ok(())
}

// A table of snapshots 2 to 4, of which 3 and then 2 were removed.
fn removed(alloc: Global) -> Result<SnapTable, Fail> {
    let mut table = SnapTable::new(alloc);
    make(&mut table)?;
    make(&mut table)?;
    make(&mut table)?;
    for id in [SnapId(3), SnapId(2)] {
        if table.is_live(id) {
            table.prepare_destroy(id)?;
            table.commit();
        }
    }
    Ok(table)
}

#[test]
fn the_least_removed_id_is_next(rt: HostRuntime) -> Result<(), Fail> {
    let table = removed(rt.alloc())?;
    let rows: [(&[u64], Option<SnapId>); 4] = [
        (&[], Some(SnapId(2))),
        (&[2], Some(SnapId(3))),
        (&[4, 3], Some(SnapId(2))),
        (&[3, 2], None),
    ];
    for (sent, next) in rows {
        let sent = ids(rt.alloc(), sent)?;
        assert_eq!(rt; next_trim(&table, &sent), next);
    }
    Ok(())
}

#[test]
fn what_no_live_id_needs_is_dropped(rt: HostRuntime) -> Result<(), Fail> {
    let alloc = rt.alloc();
    let file = Ino(10);
    let old = Attr {
        kind: Kind::File,
        mode: 420,
        size: 0,
    };
    let new = Attr {
        kind: Kind::File,
        mode: 384,
        size: 0,
    };
    let mut inodes = InodeTable::new(alloc);
    inodes.create(file, SnapId(2), old)?;
    inodes.change(file, SnapId(3), new)?;
    let mut dirs = DirTree::new(alloc)?;
    let name = Name::new(alloc, b"f")?;
    dirs.put(ROOT, name.clone()?, file, Kind::File, SnapId(1))?;
    dirs.cut_file(ROOT, &name, SnapId(3))?;
    let two = ids(alloc, &[2])?;
    assert_eq!(rt; trim_all(&mut inodes, &mut dirs, &two), 0);
    assert_eq!(rt; dirs.at(ROOT, &name, SnapId(3)), Some(file));
    let four = ids(alloc, &[4])?;
    assert_eq!(rt; trim_all(&mut inodes, &mut dirs, &four), 2);
    assert_eq!(rt; dirs.at(ROOT, &name, SnapId(3)), None);
    assert_eq!(rt; inodes.at(file, SnapId(3)), None);
    assert_eq!(rt; inodes.head(file), Some(new));
    Ok(())
}
