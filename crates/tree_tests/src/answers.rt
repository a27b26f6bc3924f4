// Each kind of query over the small tree of the decisions, with answers that were worked out by hand.
ghost use Rattle.meta_state.specs.Stands.{IsState};

use crate::decisions::{DIR, FILE, SNAP, small};
use crate::states::path;
use meta_state::MetaState;
use plain_types::{Answer, Query, Refusal};
use snap_ids::{Entries, Ino, Kind, SnapId};
use std::alloc::Global;
use std::test::Fail;

// What `stat` answers.
fn stat(alloc: Global, meta: &MetaState, text: &[u8]) -> Result<Answer, Fail>
    requires { IsState meta.now }
{
    let path = path(alloc, text)?;
    Ok(meta.answer(&Query::Stat { path })?)
}

// What `cat` answers.
fn cat(alloc: Global, meta: &MetaState, text: &[u8]) -> Result<Answer, Fail>
    requires { IsState meta.now }
{
    let path = path(alloc, text)?;
    Ok(meta.answer(&Query::Cat { path })?)
}

// What `ls` answers.
fn list(alloc: Global, meta: &MetaState, text: &[u8]) -> Result<Answer, Fail>
    requires { IsState meta.now }
{
    let path = path(alloc, text)?;
    Ok(meta.answer(&Query::List { path })?)
}

// What `realm` answers.
fn realm(alloc: Global, meta: &MetaState, text: &[u8]) -> Result<Answer, Fail>
    requires { IsState meta.now }
{
    let path = path(alloc, text)?;
    Ok(meta.answer(&Query::Realm { path })?)
}

// What `clones` answers of the third object of a file.
fn clones(alloc: Global, meta: &MetaState, text: &[u8]) -> Result<Answer, Fail>
    requires { IsState meta.now }
{
    let path = path(alloc, text)?;
    Ok(meta.answer(&Query::Clones { path, index: 2 })?)
}

// The names of a listing, a `/` behind each directory and a blank behind each file.
fn spelled(alloc: Global, entries: &Entries) -> Result<Vec<u8>, Fail> {
    let mut text = Vec::new(alloc);
    for (name, kind) in entries.as_slice() {
        text.extend_from_slice(name.as_bytes())?;
        text.push(if *kind == Kind::Dir { b'/' } else { b' ' })?;
    }
    Ok(text)
}

// Whether an answer lists these names.
fn lists(alloc: Global, answer: &Answer, wanted: &[u8]) -> Result<bool, Fail> {
    match answer {
        Answer::Listed(entries) => Ok(spelled(alloc, entries)?.as_slice() == wanted),
        _ => Ok(false),
    }
}

// Whether an answer is this realm with this context.
fn is_realm(answer: &Answer, ino: Ino, seq: u64, ids: &[SnapId]) -> bool {
    match answer {
        Answer::RealmIs(realm, context) => {
            realm.0 == ino.0 && (context.seq().0 == seq && context.ids() == ids)
        }
        _ => false,
    }
}

// Whether what was answered is as wanted, where it could be asked.
fn is_answered(answer: Result<Answer, Fail>, wanted: Answer) -> Result<bool, Fail> {
    let answer = answer?;
    Ok(answer == wanted)
}

fn is_listed(alloc: Global, answer: Result<Answer, Fail>, wanted: &[u8]) -> Result<bool, Fail> {
    let answer = answer?;
    lists(alloc, &answer, wanted)
}

fn is_in_realm(
    answer: Result<Answer, Fail>,
    ino: Ino,
    seq: u64,
    ids: &[SnapId],
) -> Result<bool, Fail> {
    let answer = answer?;
    Ok(is_realm(&answer, ino, seq, ids))
}

// Whether the file is found live and in the snapshot.
fn file_is_found(alloc: Global, meta: &MetaState) -> Result<bool, Fail>
    requires { IsState meta.now }
{
    let live = Answer::FoundLive {
        ino: FILE,
        perm: 420,
        size: 0,
        write_held: false,
    };
    if !is_answered(stat(alloc, meta, b"/a/f"), live)? {
        return Ok(false);
    }
    let there = Answer::FoundSnap {
        ino: FILE,
        snap: SNAP,
        size: 0,
    };
    if !is_answered(cat(alloc, meta, b"/a/.snap/s/f"), there)? {
        return Ok(false);
    }
    let object = Answer::FoundObject {
        ino: FILE,
        index: 2,
    };
    is_answered(clones(alloc, meta, b"/a/f"), object)
}

// Whether directories, snapshots and a realm are shown.
fn tree_is_shown(alloc: Global, meta: &MetaState) -> Result<bool, Fail>
    requires { IsState meta.now }
{
    Ok(
        is_listed(alloc, list(alloc, meta, b"/"), b"a/b/")?
            && (is_listed(alloc, list(alloc, meta, b"/a/.snap"), b"s/")?
                && (is_listed(alloc, list(alloc, meta, b"/a/.snap/s"), b"f ")?
                    && is_in_realm(realm(alloc, meta, b"/a/f"), DIR, 2, &[SNAP])?)),
    )
}

// Whether each reason for which a query is refused is told.
fn queries_are_refused(alloc: Global, meta: &MetaState) -> Result<bool, Fail>
    requires { IsState meta.now }
{
    Ok(
        is_answered(stat(alloc, meta, b"/x"), Answer::Refused(Refusal::NoEntry))?
            && (is_answered(list(alloc, meta, b"/a/f"), Answer::Refused(Refusal::NotDir))?
                && (is_answered(
                    list(alloc, meta, b"/a/.snap/t"),
                    Answer::Refused(Refusal::NoSnap),
                )? && is_answered(cat(alloc, meta, b"/a"), Answer::Refused(Refusal::IsDir))?)),
    )
}

fn are_all_answered(alloc: Global) -> Result<bool, Fail> {
    let meta = small(alloc)?;
    Ok(
        file_is_found(alloc, &meta)?
            && (tree_is_shown(alloc, &meta)? && queries_are_refused(alloc, &meta)?),
    )
}

#[test]
fn each_kind_of_query_is_answered(rt: HostRuntime) -> Result<(), Fail> {
    let is_so = are_all_answered(rt.alloc())?;
    assert!(rt; is_so);
    Ok(())
}
