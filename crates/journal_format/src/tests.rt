// An entry's bytes, and what is read from bytes.
use crate::{decode, encode};
use plain_types::{Entry, What};
use snap_ids::{FIRST_INO, Name, ROOT, SnapId};
use std::test::Fail;

// Client 1's first request makes the directory `a` in the root.
const FIRST: [u8; 28] = [
    1, 1, 0, 0, 0, 0, 0, 0, 0, 1, 0, 0, 0, 0, 0, 0, 0, 1, 1, 97, 0, 0, 1, 0, 0, 0, 0, 0,
];

#[test]
fn an_entry_is_written(rt: HostRuntime) -> Result<(), Fail> {
    let alloc = rt.alloc();
    let entry = Entry {
        client: 1,
        number: 1,
        what: What::Mkdir {
            dir: ROOT,
            name: Name::new(alloc, b"a")?,
            ino: FIRST_INO,
        },
    };
    let mut out = Vec::new(alloc);
    encode(alloc, &entry, &mut out)?;
    assert_eq!(rt; out.as_slice(), FIRST.as_slice());
    Ok(())
}

#[test]
fn a_second_entry_stands_behind_the_first(rt: HostRuntime) -> Result<(), Fail> {
    let alloc = rt.alloc();
    let entry = Entry {
        client: 0,
        number: 0,
        what: What::Trim { id: SnapId(258) },
    };
    let mut out = Vec::new(alloc);
    out.push(7)?;
    encode(alloc, &entry, &mut out)?;
    let expected: [u8; 19] = [7, 17, 0, 0, 0, 0, 0, 0, 0, 0, 0, 0, 0, 0, 0, 0, 0, 1, 2];
    assert_eq!(rt; out.as_slice(), expected.as_slice());
    Ok(())
}

#[test]
fn bytes_are_read(rt: HostRuntime) -> Result<(), Fail> {
    let read = decode(rt.alloc(), &FIRST)?.ok_or("the bytes are an entry")?;
    assert_eq!(rt; read.len(), 1);
    Ok(())
}

#[test]
fn no_bytes_are_no_entry(rt: HostRuntime) -> Result<(), Fail> {
    let read = decode(rt.alloc(), &[])?.ok_or("no bytes are the list of no entry")?;
    assert_eq!(rt; read.len(), 0);
    Ok(())
}

#[test]
fn part_of_an_entry_is_none(rt: HostRuntime) -> Result<(), Fail> {
    let read = decode(rt.alloc(), &[1])?;
    assert!(rt; read.is_none());
    Ok(())
}
