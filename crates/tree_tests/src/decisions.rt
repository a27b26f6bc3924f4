// Requests on a small tree, and what they come to.
ghost use Rattle.std.specs.Prelude.{IfOk};
ghost use Rattle.meta_state.specs.Stands.{IsState};

use crate::states::{ask, create, mkdir, path, rename, rmdir};
use meta_state::{Decision, MetaState};
use plain_types::{Answer, Entry, Refusal, Request, What};
use snap_ids::{Ino, Mode, Name, SnapId};
use std::alloc::Global;
use std::test::Fail;

// The inodes of `/a` and `/a/f`, and the next one.
pub(crate) const DIR: Ino = Ino(1099511627776);

pub(crate) const FILE: Ino = Ino(1099511627777);

const NEXT: Ino = Ino(1099511627780);

// The id of the snapshot `s` of `/a`, and the next one.
pub(crate) const SNAP: SnapId = SnapId(2);

const NEXT_SNAP: SnapId = SnapId(3);

fn unlink(alloc: Global, text: &[u8]) -> Result<Request, Fail> {
    Ok(Request::Unlink {
        path: path(alloc, text)?,
    })
}

fn open(alloc: Global, handle: u8, text: &[u8]) -> Result<Request, Fail> {
    Ok(Request::Open {
        handle,
        path: path(alloc, text)?,
        writable: true,
    })
}

fn link(alloc: Global, text: &[u8], target: &[u8]) -> Result<Request, Fail> {
    Ok(Request::Link {
        path: path(alloc, text)?,
        target: path(alloc, target)?,
    })
}

// `/a` with the snapshot `s`, `/a/f`, which client 1 has open under the handle 1, and `/b/c`.
pub(crate) fn small(alloc: Global) -> Result<MetaState, Fail>
    ensures { IfOk result (λ state. IsState state) }
{
    let mut state = MetaState::new(alloc)?;
    ask(&mut state, mkdir(alloc, b"/a"))?;
    ask(&mut state, create(alloc, b"/a/f", 420))?;
    ask(&mut state, open(alloc, 1, b"/a/f"))?;
    ask(&mut state, mkdir(alloc, b"/a/.snap/s"))?;
    ask(&mut state, mkdir(alloc, b"/b"))?;
    ask(&mut state, mkdir(alloc, b"/b/c"))?;
    Ok(state)
}

// What the ninth request of client 1 comes to there.
fn decided(alloc: Global, request: &Request) -> Result<Decision, Fail> {
    let state = small(alloc)?;
    Ok(state.decide(1, 9, request, NEXT_SNAP)?)
}

// Whether a request, where it could be made, is answered so.
fn is_said(alloc: Global, request: Result<Request, Fail>, answer: Answer) -> Result<bool, Fail> {
    let request = request?;
    let decision = decided(alloc, &request)?;
    Ok(decision == Decision::Say(answer))
}

fn is_refused(
    alloc: Global,
    request: Result<Request, Fail>,
    refusal: Refusal,
) -> Result<bool, Fail> {
    is_said(alloc, request, Answer::Refused(refusal))
}

// Whether a request, where it could be made, is written down so.
fn is_put(alloc: Global, what: What, request: Result<Request, Fail>) -> Result<bool, Fail> {
    let request = request?;
    let decision = decided(alloc, &request)?;
    let entry = Entry {
        client: 1,
        number: 9,
        what,
    };
    Ok(decision == Decision::Put(entry))
}

// Whether a name can be neither made nor removed, for these reasons.
fn are_refused(
    alloc: Global,
    text: &[u8],
    mkdir_is: Refusal,
    rmdir_is: Refusal,
    create_is: Refusal,
    unlink_is: Refusal,
) -> Result<bool, Fail> {
    Ok(
        is_refused(alloc, mkdir(alloc, text), mkdir_is)?
            && (is_refused(alloc, rmdir(alloc, text), rmdir_is)?
                && (is_refused(alloc, create(alloc, text, 420), create_is)?
                    && is_refused(alloc, unlink(alloc, text), unlink_is)?)),
    )
}

#[test]
fn a_refusal_is_the_first_that_applies(rt: HostRuntime) -> Result<(), Fail> {
    let alloc = rt.alloc();
    for (text, mkdir_is, rmdir_is, create_is, unlink_is) in [
        (
            b"/".as_slice(),
            Refusal::BadName,
            Refusal::BadName,
            Refusal::BadName,
            Refusal::BadName,
        ),
        (
            b"/x/y".as_slice(),
            Refusal::NoEntry,
            Refusal::NoEntry,
            Refusal::NoEntry,
            Refusal::NoEntry,
        ),
        (
            b"/a".as_slice(),
            Refusal::Exists,
            Refusal::HasSnapshots,
            Refusal::Exists,
            Refusal::IsDir,
        ),
        (
            b"/b".as_slice(),
            Refusal::Exists,
            Refusal::NotEmpty,
            Refusal::Exists,
            Refusal::IsDir,
        ),
        (
            b"/a/f/_g".as_slice(),
            Refusal::NotDir,
            Refusal::NotDir,
            Refusal::NotDir,
            Refusal::NotDir,
        ),
        (
            b"/x/.snap/_s".as_slice(),
            Refusal::NoEntry,
            Refusal::NoEntry,
            Refusal::ReadOnly,
            Refusal::ReadOnly,
        ),
        (
            b"/.snap/_s".as_slice(),
            Refusal::BadName,
            Refusal::NoSnap,
            Refusal::ReadOnly,
            Refusal::ReadOnly,
        ),
    ] {
        let is_so = are_refused(alloc, text, mkdir_is, rmdir_is, create_is, unlink_is)?;
        assert!(rt; is_so, "{text:?}");
    }
    Ok(())
}

// Whether moves, further names and handles are refused for these reasons.
fn moves_and_handles_are_refused(alloc: Global) -> Result<bool, Fail> {
    Ok(
        is_refused(alloc, rename(alloc, b"/a", b"/a/b"), Refusal::IntoItself)?
            && (is_refused(alloc, link(alloc, b"/a", b"/a/b"), Refusal::IsDir)?
                && (is_refused(
                    alloc,
                    link(alloc, b"/a/f", b"/a/.snap/s/g"),
                    Refusal::ReadOnly,
                )? && is_refused(alloc, open(alloc, 1, b"/x"), Refusal::BadHandle)?)),
    )
}

#[test]
fn moves_and_handles_have_their_refusals(rt: HostRuntime) -> Result<(), Fail> {
    let is_so = moves_and_handles_are_refused(rt.alloc())?;
    assert!(rt; is_so);
    Ok(())
}

fn new_directory(alloc: Global) -> Result<What, Fail> {
    let name = Name::new(alloc, b"n")?;
    Ok(What::Mkdir {
        dir: DIR,
        name,
        ino: NEXT,
    })
}

fn new_snapshot(alloc: Global) -> Result<What, Fail> {
    let name = Name::new(alloc, b"n")?;
    Ok(What::Mksnap {
        id: NEXT_SNAP,
        dir: DIR,
        name,
    })
}

#[test]
fn changes_are_written_down(rt: HostRuntime) -> Result<(), Fail> {
    let alloc = rt.alloc();
    let is_so = is_put(alloc, new_directory(alloc)?, mkdir(alloc, b"/a/n"))?;
    assert!(rt; is_so, "mkdir");
    let is_so = is_put(alloc, new_snapshot(alloc)?, mkdir(alloc, b"/a/.snap/n"))?;
    assert!(rt; is_so, "snapshot");
    let gone = What::Rmsnap { id: SNAP };
    let is_so = is_put(alloc, gone, rmdir(alloc, b"/a/.snap/s"))?;
    assert!(rt; is_so, "removed snapshot");
    Ok(())
}

#[test]
fn what_asks_for_no_change_is_done(rt: HostRuntime) -> Result<(), Fail> {
    let request = Request::Cap {
        ino: FILE,
        mode: Mode::Read,
    };
    let is_so = is_said(rt.alloc(), Ok(request), Answer::Done)?;
    assert!(rt; is_so);
    Ok(())
}
