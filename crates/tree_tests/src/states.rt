// What the entries of a journal make of the state.
ghost use Rattle.std.specs.Prelude.{◌≡◌, true, IfOk, OnOk};
ghost use Rattle.plain_journal.specs.Legal.{is_journal};
ghost use Rattle.meta_state.specs.Queries.{HasDirectory};
ghost use Rattle.meta_state.specs.Stands.{IsState, StandsFor};

use inode_versions::Attr;
use meta_state::{Decision, Found, MetaState};
use plain_types::{Entry, Inos, Refusal, Request, What};
use snap_ids::{Ino, Kind, Name, Path, ROOT, SnapId};
use std::alloc::Global;
use std::test::Fail;

const DIR: Ino = Ino(1099511627776);

const FILE: Ino = Ino(1099511627777);

const UNMADE: Ino = Ino(1099511627778);

// The state after the entries of a journal.
fn after(alloc: Global, entries: &[Entry]) -> Result<MetaState, Fail>
    requires { is_journal entries.now ≡ true }
    ensures { IfOk result (λ state. StandsFor state entries.now) }
{
    let mut state = MetaState::new(alloc)?;
    for entry in entries {
        state.apply(entry)?;
    }
    Ok(state)
}

// A request of client 1 is served: its entry is applied; a snapshot gets the id after the last one.
fn serve(state: &mut MetaState, request: &Request) -> Result<(), Fail>
    requires { IsState state.old }
    ensures { OnOk result (IsState state.new) }
{
    let last = state.realms().applied();
    if last.0 >= 1000 {
        return Ok(());
    }
    match state.decide(1, 1, request, SnapId(last.0 + 1))? {
        Decision::Put(entry) => Ok(state.apply(&entry)?),
        Decision::Say(_) => Ok(()),
    }
}

// What was to be asked is served, where it could be made.
pub(crate) fn ask(state: &mut MetaState, request: Result<Request, Fail>) -> Result<(), Fail>
    requires { IsState state.old }
    ensures { OnOk result (IsState state.new) }
{
    let request = request?;
    serve(state, &request)
}

pub(crate) fn path(alloc: Global, text: &[u8]) -> Result<Path, Fail> {
    Ok(Path::parse(alloc, text)?)
}

pub(crate) fn mkdir(alloc: Global, text: &[u8]) -> Result<Request, Fail> {
    Ok(Request::Mkdir {
        path: path(alloc, text)?,
    })
}

pub(crate) fn rmdir(alloc: Global, text: &[u8]) -> Result<Request, Fail> {
    Ok(Request::Rmdir {
        path: path(alloc, text)?,
    })
}

pub(crate) fn create(alloc: Global, text: &[u8], mode: u16) -> Result<Request, Fail> {
    Ok(Request::Create {
        path: path(alloc, text)?,
        mode,
    })
}

pub(crate) fn rename(alloc: Global, text: &[u8], target: &[u8]) -> Result<Request, Fail> {
    Ok(Request::Rename {
        path: path(alloc, text)?,
        target: path(alloc, target)?,
    })
}

// `/a` with the file `f`, which gets 7 bytes for the snapshot `s` of `/a`, then another mode, 9 bytes, and no name; and a
// barrier.
fn flushed(alloc: Global) -> Result<MetaState, Fail>
    ensures state { IfOk result (λ state. IsState state) }
    ensures directory { IfOk result (λ state. HasDirectory state DIR) }
{
    let a = Name::new(alloc, b"a")?;
    let f = Name::new(alloc, b"f")?;
    let s = Name::new(alloc, b"s")?;
    let again = Name::new(alloc, b"f")?;
    let entries = [
        Entry {
            client: 1,
            number: 1,
            what: What::Mkdir {
                dir: ROOT,
                name: a,
                ino: DIR,
            },
        },
        Entry {
            client: 1,
            number: 1,
            what: What::Create {
                dir: DIR,
                name: f,
                ino: FILE,
                mode: 0o644,
            },
        },
        Entry {
            client: 1,
            number: 1,
            what: What::Mksnap {
                id: SnapId(2),
                dir: DIR,
                name: s,
            },
        },
        Entry {
            client: 1,
            number: 1,
            what: What::Settle {
                ino: FILE,
                follows: SnapId(1),
                upto: SnapId(2),
                size: 7,
            },
        },
        Entry {
            client: 1,
            number: 1,
            what: What::Chmod {
                ino: FILE,
                mode: 0o600,
            },
        },
        Entry {
            client: 1,
            number: 1,
            what: What::Release {
                ino: FILE,
                follows: SnapId(2),
                size: 9,
            },
        },
        Entry {
            client: 1,
            number: 1,
            what: What::Unlink {
                dir: DIR,
                name: again,
            },
        },
        Entry {
            client: 1,
            number: 1,
            what: What::Barrier { number: 3 },
        },
    ];
    let state = after(alloc, &entries)?;
    Ok(state)
}

#[test]
fn a_file_from_its_first_name_to_its_last(rt: HostRuntime) -> Result<(), Fail> {
    let alloc = rt.alloc();
    let state = flushed(alloc)?;
    let rows = [
        (ROOT, Some((Kind::Dir, 0o755, 0))),
        (DIR, Some((Kind::Dir, 0o755, 0))),
        (FILE, Some((Kind::File, 0o600, 9))),
        (UNMADE, None),
    ];
    for (ino, head) in rows {
        let head = head.map(|(kind, mode, size)| Attr { kind, mode, size });
        assert_eq!(rt; state.head(ino), head);
    }
    let none = Inos::new(alloc);
    assert_eq!(rt; state.dead(&none), Some(FILE));
    let sent = Inos::from_vec(vec![in alloc; FILE]?);
    assert_eq!(rt; state.dead(&sent), None);
    assert_eq!(rt; state.barrier(), 3);
    assert_eq!(rt; state.entries(), 8);
    Ok(())
}

#[test]
fn a_file_is_found_below_a_snapshot(rt: HostRuntime) -> Result<(), Fail> {
    let alloc = rt.alloc();
    let state = flushed(alloc)?;
    let s = Name::new(alloc, b"s")?;
    let below = [Name::new(alloc, b"f")?];
    let attr = Attr {
        kind: Kind::File,
        mode: 0o644,
        size: 7,
    };
    let found = Found {
        ino: FILE,
        snap: SnapId(2),
        attr,
    };
    assert!(rt; state.snap_find(DIR, &s, &below) == Ok(found));
    let t = Name::new(alloc, b"t")?;
    assert!(rt; state.snap_find(DIR, &t, &below) == Err(Refusal::NoSnap));
    Ok(())
}
