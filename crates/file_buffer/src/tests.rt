// Pieces kept back, sent and acknowledged.
use crate::{BufError, FileBuf, Piece};
use snap_ids::{Bytes, Ids, SnapContext, SnapId};
use std::alloc::Global;
use std::test::Fail;

// Bytes of a list.
fn bytes(alloc: Global, of: &[u8]) -> Result<Bytes, Fail> {
    Ok(Bytes::from_vec(Vec::from_slice(alloc, of)?))
}

// A context without a snapshot.
fn context(alloc: Global, seq: u64) -> Result<SnapContext, Fail> {
    Ok(SnapContext::new(SnapId(seq), Ids::new(alloc))?)
}

// The length that a piece cuts to, and None of a write.
fn cut_to(piece: Option<&Piece>) -> Option<u32> {
    match piece {
        Some(Piece::Cut { length, .. }) => Some(*length),
        _ => None,
    }
}

#[test]
fn pieces_lie_over_what_is_stored(rt: HostRuntime) -> Result<(), Fail> {
    let alloc = rt.alloc();
    let mut file = FileBuf::new(alloc, 4);
    let stored = bytes(alloc, b"abcd")?;
    file.write(1, bytes(alloc, b"xy")?, context(alloc, 1)?)?;
    let read = file.read_over(&stored)?;
    assert_eq!(rt; read.as_slice(), b"axyd".as_slice());
    file.sent();
    file.truncate(2, context(alloc, 1)?)?;
    file.write(5, bytes(alloc, b"z")?, context(alloc, 1)?)?;
    assert_eq!(rt; file.size(), 6);
    let read = file.read_over(&stored)?;
    assert_eq!(rt; read.as_slice(), b"ax\0\0\0z".as_slice());
    Ok(())
}

#[test]
fn pieces_are_sent_and_acknowledged_in_order(rt: HostRuntime) -> Result<(), Fail> {
    let alloc = rt.alloc();
    let mut file = FileBuf::new(alloc, 9);
    assert!(rt; file.next_piece().is_none());
    file.truncate(3, context(alloc, 1)?)?;
    file.truncate(2, context(alloc, 2)?)?;
    assert_eq!(rt; cut_to(file.next_piece()), Some(3));
    file.sent();
    assert_eq!(rt; cut_to(file.next_piece()), Some(2));
    assert_eq!(rt; file.unacked_count(), 1);
    assert_eq!(rt; file.unsent_count(), 1);
    file.acked();
    assert_eq!(rt; file.unacked_count(), 0);
    assert_eq!(rt; cut_to(file.next_piece()), Some(2));
    let read = file.read_over(&bytes(alloc, b"abcd")?)?;
    assert_eq!(rt; read.as_slice(), b"ab".as_slice());
    Ok(())
}

#[test]
fn a_file_ends_at_65536(rt: HostRuntime) -> Result<(), Fail> {
    let alloc = rt.alloc();
    let mut file = FileBuf::new(alloc, 0);
    file.truncate(65536, context(alloc, 1)?)?;
    file.write(65535, bytes(alloc, &[255])?, context(alloc, 1)?)?;
    let late = file.write(65536, bytes(alloc, &[255])?, context(alloc, 1)?);
    assert_eq!(rt; late, Err(BufError::TooLarge));
    let long = file.truncate(65537, context(alloc, 1)?);
    assert_eq!(rt; long, Err(BufError::TooLarge));
    assert_eq!(rt; file.size(), 65536);
    Ok(())
}
