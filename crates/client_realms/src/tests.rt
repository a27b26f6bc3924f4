// Files that are held, let go and told of.
ghost use Rattle.std.specs.Prelude.{IfOk};
ghost use Rattle.client_realms.specs.Contexts.{IsBorn};

use crate::ClientRealms;
use plain_types::{FileTrace, SnapUpdate};
use snap_ids::{Ids, Ino, RealmInfo, SnapId, Trace};
use std::alloc::{AllocError, Global};
use std::test::Fail;

// A file, born at 2, in one realm with these snapshots, of which the first is the last one.
fn file(alloc: Global, ino: u64, seq: u64, ids: &[u64]) -> Result<FileTrace, AllocError>
    ensures { IfOk result IsBorn }
{
    let mut own = Vec::new(alloc);
    for id in ids {
        own.push(SnapId(*id))?;
    }
    let realm = RealmInfo {
        ino: Ino(1),
        seq: SnapId(seq),
        since: SnapId(2),
        own: Ids::from_vec(own),
        past: Ids::new(alloc),
    };
    Ok(FileTrace {
        ino: Ino(ino),
        birth: SnapId(2),
        trace: Trace::from_vec(vec![in alloc; realm]?),
    })
}

#[test]
fn held_files_are_known(rt: HostRuntime) -> Result<(), Fail> {
    let alloc = rt.alloc();
    let mut realms = ClientRealms::new(alloc);
    assert!(rt; realms.context(Ino(7)).is_none());
    realms.hold(&file(alloc, 7, 3, &[3, 2])?)?;
    let Some(context) = realms.context(Ino(7)) else {
        return Err(Fail::from("a held file isn't known"));
    };
    assert_eq!(rt; context.seq(), SnapId(3));
    assert_eq!(rt; context.ids(), [SnapId(3), SnapId(2)].as_slice());
    assert!(rt; realms.context(Ino(8)).is_none());
    realms.let_go(Ino(8));
    assert!(rt; realms.context(Ino(7)).is_some());
    realms.let_go(Ino(7));
    assert!(rt; realms.context(Ino(7)).is_none());
    Ok(())
}

#[test]
fn grown_files_are_answered(rt: HostRuntime) -> Result<(), Fail> {
    let alloc = rt.alloc();
    let mut realms = ClientRealms::new(alloc);
    realms.hold(&file(alloc, 7, 3, &[3])?)?;
    realms.hold(&file(alloc, 9, 4, &[4])?)?;
    let same = file(alloc, 9, 4, &[])?;
    let unknown = file(alloc, 8, 5, &[5])?;
    let grown = file(alloc, 7, 5, &[5, 3])?;
    let update = SnapUpdate::from_vec(vec![in alloc; grown, unknown, same]?);
    let told = realms.update(&update)?;
    assert_eq!(rt; told.as_slice(), [(Ino(7), SnapId(3))].as_slice());
    assert!(rt; realms.context(Ino(8)).is_none());
    let Some(context) = realms.context(Ino(9)) else {
        return Err(Fail::from("a held file isn't known"));
    };
    assert!(rt; context.ids().is_empty());
    Ok(())
}
