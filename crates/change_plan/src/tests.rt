// Requests to a server whose tables are empty.
ghost use Rattle.std.specs.Prelude.{IfOk};
ghost use Rattle.rename_split.specs.Plans.{IsOf, live};

use crate::plan::plan_change;
use dentry_tree::DirTree;
use file_uses::FileUses;
use plain_types::{Change, Refusal, Request};
use snap_ids::{FIRST_INO, Ino, Mode, Name, Path, ROOT, SnapId};
use snap_realm::RealmTree;
use std::alloc::Global;
use std::test::Fail;

// The tables of a server.
#[derive(Drop)]
struct Tables {
    names: DirTree,
    realms: RealmTree,
    uses: FileUses,
}

// Those of a server at its start.
fn empty(alloc: Global) -> Result<Tables, Fail>
    ensures { IfOk result (λ tables. IsOf (live tables.names) tables.realms) }
{
    let names = DirTree::new(alloc)?;
    let realms = RealmTree::new(alloc)?;
    let uses = FileUses::new(alloc);
    Ok(Tables {
        names,
        realms,
        uses,
    })
}

// What the request comes to there.
fn planned(alloc: Global, request: &Request) -> Result<Option<Result<Change, Refusal>>, Fail> {
    let tables = empty(alloc)?;
    let id = SnapId(2);
    let plan = plan_change(
        &tables.names,
        &tables.realms,
        &tables.uses,
        FIRST_INO,
        0,
        id,
        request,
    )?;
    Ok(plan)
}

#[test]
fn a_refusal_is_the_first_that_applies(rt: HostRuntime) -> Result<(), Fail> {
    let alloc = rt.alloc();
    for (text, mkdir, rmdir, create, unlink) in [
        (
            b"/".as_slice(),
            Refusal::BadName,
            Refusal::BadName,
            Refusal::BadName,
            Refusal::BadName,
        ),
        (
            b"/a/b".as_slice(),
            Refusal::NoEntry,
            Refusal::NoEntry,
            Refusal::NoEntry,
            Refusal::NoEntry,
        ),
        (
            b"/.snap".as_slice(),
            Refusal::ReadOnly,
            Refusal::ReadOnly,
            Refusal::ReadOnly,
            Refusal::ReadOnly,
        ),
        (
            b"/.snap/_s".as_slice(),
            Refusal::BadName,
            Refusal::NoSnap,
            Refusal::ReadOnly,
            Refusal::ReadOnly,
        ),
        (
            b"/a/.snap/s".as_slice(),
            Refusal::NoEntry,
            Refusal::NoEntry,
            Refusal::ReadOnly,
            Refusal::ReadOnly,
        ),
        (
            b"/.snap/s/b".as_slice(),
            Refusal::ReadOnly,
            Refusal::ReadOnly,
            Refusal::ReadOnly,
            Refusal::ReadOnly,
        ),
    ] {
        let path = Path::parse(alloc, text)?;
        let request = Request::Mkdir {
            path: path.clone()?,
        };
        assert_eq!(rt;
            planned(alloc, &request)?,
            Some(Err(mkdir)),
            "mkdir {text:?}"
        );
        let request = Request::Rmdir {
            path: path.clone()?,
        };
        assert_eq!(rt;
            planned(alloc, &request)?,
            Some(Err(rmdir)),
            "rmdir {text:?}"
        );
        let request = Request::Create {
            path: path.clone()?,
            mode: 420,
        };
        assert_eq!(rt;
            planned(alloc, &request)?,
            Some(Err(create)),
            "create {text:?}"
        );
        let request = Request::Unlink { path };
        assert_eq!(rt;
            planned(alloc, &request)?,
            Some(Err(unlink)),
            "unlink {text:?}"
        );
    }
    Ok(())
}

#[test]
fn new_names_are_planned(rt: HostRuntime) -> Result<(), Fail> {
    let alloc = rt.alloc();
    let name = Name::new(alloc, b"a")?;
    let made = Change::Mkdir {
        dir: ROOT,
        name: name.clone()?,
        ino: FIRST_INO,
    };
    let request = Request::Mkdir {
        path: Path::parse(alloc, b"/a")?,
    };
    assert_eq!(rt; planned(alloc, &request)?, Some(Ok(made)));
    let made = Change::Mksnap {
        id: SnapId(2),
        dir: ROOT,
        name,
    };
    let request = Request::Mkdir {
        path: Path::parse(alloc, b"/.snap/a")?,
    };
    assert_eq!(rt; planned(alloc, &request)?, Some(Ok(made)));
    let request = Request::Cap {
        ino: Ino(9),
        mode: Mode::Read,
    };
    assert_eq!(rt; planned(alloc, &request)?, None);
    let request = Request::Close { handle: 1 };
    assert_eq!(rt; planned(alloc, &request)?, Some(Err(Refusal::BadHandle)));
    Ok(())
}
