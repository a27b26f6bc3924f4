// The stories of the definitions, told by the store, and many extents.
use object_clones::{ObjectStore, StoreError};
use snap_ids::{Bytes, CloneList, Ino, ListOf, SnapContext, SnapId};
use std::alloc::Global;
use std::process::Abort;
use std::test::Fail;

const FILE: Ino = Ino(7);

fn context(alloc: Global, seq: u64, ids: &[SnapId]) -> Result<SnapContext, Fail> {
    let ids = ListOf::from_vec(ids.to_vec(alloc)?);
    Ok(SnapContext::new(SnapId(seq), ids)?)
}

fn write(
    rt: &impl Abort,
    alloc: Global,
    store: &mut ObjectStore,
    offset: u32,
    text: &[u8],
    context: &SnapContext,
) -> Result<(), Fail> {
    let bytes: Bytes = ListOf::from_vec(text.to_vec(alloc)?);
    assert!(rt; offset <= 60000);
    assert!(rt; bytes.len() <= 5000);
    store.write(FILE, offset, &bytes, context)?;
    Ok(())
}

// A list of clones as a reply prints it.
fn printed(alloc: Global, list: &CloneList) -> Result<String, Fail> {
    let mut out = String::new(alloc);
    for clone in list.clones.as_slice() {
        let id = clone.0.0;
        write!(&mut out, "{id}:")?;
        for id in clone.1.as_slice() {
            let id = id.0;
            write!(&mut out, "{id},")?;
        }
        out.push_str(" ")?;
    }
    match list.head {
        Some(length) => write!(&mut out, "head {length}")?,
        None => out.push_str("none")?,
    }
    Ok(out)
}

// That an object is listed so.
fn lists(
    rt: &impl Abort,
    alloc: Global,
    store: &ObjectStore,
    index: u32,
    expected: &str,
) -> Result<(), Fail> {
    let list = store.clones(FILE, index)?;
    let text = printed(alloc, &list)?;
    assert_eq!(rt; text.as_str(), expected);
    Ok(())
}

// That the head begins so.
fn reads(rt: &impl Abort, store: &ObjectStore, expected: &[u8]) -> Result<(), Fail> {
    assert!(rt; expected.len() <= 4096);
    let bytes = store.read_head(FILE, expected.len() as u32)?;
    assert_eq!(rt; bytes.as_slice(), expected);
    Ok(())
}

// That the file begins so at a snapshot.
fn reads_at(rt: &impl Abort, store: &ObjectStore, s: u64, expected: &[u8]) -> Result<(), Fail> {
    assert!(rt; expected.len() <= 4096);
    let bytes = store.read_at(FILE, expected.len() as u32, SnapId(s))?;
    assert_eq!(rt; bytes.as_slice(), expected);
    Ok(())
}

#[test]
fn two_objects(rt: HostRuntime) -> Result<(), Fail> {
    let alloc = rt.alloc();
    let mut store = ObjectStore::new(alloc, 16);
    let first = context(alloc, 1, &[])?;
    let second = context(alloc, 2, &[SnapId(2)])?;
    write(&rt, alloc, &mut store, 0, b"abcdefghijklmnopqr", &first)?;
    write(&rt, alloc, &mut store, 16, b"XY", &second)?;
    lists(&rt, alloc, &store, 1, "2:2, head 2")?;
    lists(&rt, alloc, &store, 0, "head 16")?;
    reads_at(&rt, &store, 2, b"abcdefghijklmnopqr")?;
    reads(&rt, &store, b"abcdefghijklmnopXY")?;
    store.purge(SnapId(2))?;
    lists(&rt, alloc, &store, 1, "head 2")?;
    let gone = store.read_at(FILE, 18, SnapId(2));
    assert!(rt; matches!(gone, Err(StoreError::Gone)));
    Ok(())
}

#[test]
fn a_clone_for_two_snapshots(rt: HostRuntime) -> Result<(), Fail> {
    let alloc = rt.alloc();
    let mut store = ObjectStore::new(alloc, 4096);
    let first = context(alloc, 1, &[])?;
    let third = context(alloc, 3, &[SnapId(3), SnapId(2)])?;
    write(&rt, alloc, &mut store, 0, b"aa", &first)?;
    write(&rt, alloc, &mut store, 0, b"bb", &third)?;
    lists(&rt, alloc, &store, 0, "3:3,2, head 2")?;
    store.purge(SnapId(3))?;
    lists(&rt, alloc, &store, 0, "3:2, head 2")?;
    reads_at(&rt, &store, 2, b"aa\0")?;
    store.purge(SnapId(2))?;
    lists(&rt, alloc, &store, 0, "head 2")
}

#[test]
fn cut_written_past_and_deleted(rt: HostRuntime) -> Result<(), Fail> {
    let alloc = rt.alloc();
    let mut store = ObjectStore::new(alloc, 16);
    let first = context(alloc, 1, &[])?;
    let second = context(alloc, 2, &[SnapId(2)])?;
    write(&rt, alloc, &mut store, 0, b"abcd", &first)?;
    store.truncate(FILE, 1, &first)?;
    write(&rt, alloc, &mut store, 5, b"z", &first)?;
    reads(&rt, &store, b"a\0\0\0\0z\0")?;
    store.delete(FILE, &second)?;
    lists(&rt, alloc, &store, 0, "2:2, none")?;
    reads(&rt, &store, b"\0\0")?;
    reads_at(&rt, &store, 2, b"a\0")
}

// Lays bytes over others.
fn lay(plain: &mut [u8], offset: usize, bytes: &[u8]) {
    for (byte, new) in plain.iter_mut().skip(offset).zip(bytes) {
        *byte = *new;
    }
}

// Writes to the store and to plain bytes.
fn write_both(
    rt: &impl Abort,
    alloc: Global,
    store: &mut ObjectStore,
    plain: &mut [u8],
    offset: u32,
    text: &[u8],
) -> Result<(), Fail> {
    let first = context(alloc, 1, &[])?;
    write(rt, alloc, store, offset, text, &first)?;
    lay(plain, offset as usize, text);
    Ok(())
}

#[test]
fn five_hundred_extents(rt: HostRuntime) -> Result<(), Fail> {
    let alloc = rt.alloc();
    let mut store = ObjectStore::new(alloc, 4096);
    let mut plain = vec![in alloc; 0u8; 4096]?;
    for i in 0..500u32 {
        let text = [(i % 251) as u8, 7, 9];
        write_both(&rt, alloc, &mut store, &mut plain, i * 8 + i % 3, &text)?;
    }
    reads(&rt, &store, &plain)?;
    for i in 0..100u32 {
        let text = [1, (i % 251) as u8, 2, 3, 4, 5, 6, 8, 9, 10, 11, 12];
        write_both(&rt, alloc, &mut store, &mut plain, i * 37, &text)?;
        reads(&rt, &store, &plain)?;
    }
    Ok(())
}
