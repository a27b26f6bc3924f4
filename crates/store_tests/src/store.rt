// Each kind of message once, with answers by hand.
use node_core::{NodeCore, NodeError};
use plain_types::{Done, FromStore, Message, Step, ToServer, ToStore};
use snap_ids::{Bytes, CloneList, Ino, ListOf, SnapContext, SnapId};
use std::alloc::Global;
use std::process::Abort;
use std::test::Fail;
use store_node::Store;

const FILE: Ino = Ino(7);

fn context(alloc: Global, seq: u64, ids: &[SnapId]) -> Result<SnapContext, Fail> {
    let ids = ListOf::from_vec(ids.to_vec(alloc)?);
    Ok(SnapContext::new(SnapId(seq), ids)?)
}

fn write(
    alloc: Global,
    offset: u32,
    text: &[u8],
    seq: u64,
    ids: &[SnapId],
) -> Result<ToStore, Fail> {
    let bytes: Bytes = ListOf::from_vec(text.to_vec(alloc)?);
    let context = context(alloc, seq, ids)?;
    Ok(ToStore::WriteAt {
        ino: FILE,
        offset,
        bytes,
        context,
    })
}

// A list of clones as a reply prints it.
fn print_clones(out: &mut String, list: &CloneList) -> Result<(), Fail> {
    for clone in list.clones.as_slice() {
        let id = clone.0.0;
        write!(out, "{id}:")?;
        for id in clone.1.as_slice() {
            let id = id.0;
            write!(out, "{id},")?;
        }
        out.push_str(" ")?;
    }
    match list.head {
        Some(length) => write!(out, "head {length}")?,
        None => out.push_str("none")?,
    }
    Ok(())
}

fn print_said(out: &mut String, said: &FromStore) -> Result<(), Fail> {
    match said {
        FromStore::Stored { ino } => {
            let ino = ino.0;
            write!(out, "stored {ino}")?;
        }
        FromStore::Got { key, bytes } => {
            write!(out, "got {key} ")?;
            for byte in bytes.as_slice() {
                out.push(*byte as char)?;
            }
        }
        FromStore::NotThere { key } => write!(out, "not there {key}")?,
        FromStore::CloneListIs { key, list } => {
            write!(out, "clones {key} ")?;
            print_clones(out, list)?;
        }
    }
    Ok(())
}

// What a step sent, with whom it goes to.
fn printed(alloc: Global, done: &Done) -> Result<String, Fail> {
    let mut out = String::new(alloc);
    for sent in done.sent.as_slice() {
        let to = sent.to;
        write!(&mut out, "to {to}: ")?;
        match &sent.message {
            Message::FromStore(said) => print_said(&mut out, said)?,
            Message::ToServer(ToServer::Purged(id)) => {
                let id = id.0;
                write!(&mut out, "purged {id}")?;
            }
            Message::ToServer(ToServer::Deleted(ino)) => {
                let ino = ino.0;
                write!(&mut out, "deleted {ino}")?;
            }
            _ => out.push_str("something else")?,
        }
    }
    Ok(out)
}

// That a message of a node is answered so.
fn takes(
    rt: &impl Abort,
    alloc: Global,
    store: &mut Store,
    node: u8,
    order: ToStore,
    expected: &str,
) -> Result<(), Fail> {
    let done = store.take(node, order)?;
    let text = printed(alloc, &done)?;
    assert_eq!(rt; text.as_str(), expected);
    Ok(())
}

fn read_head(size: u32) -> ToStore {
    ToStore::ReadHead {
        key: 5,
        ino: FILE,
        size,
    }
}

fn read_snap(size: u32, id: u64) -> ToStore {
    ToStore::ReadSnap {
        key: 6,
        ino: FILE,
        size,
        snap: SnapId(id),
    }
}

fn list_clones(index: u32) -> ToStore {
    ToStore::ListClones {
        key: 8,
        ino: FILE,
        index,
    }
}

#[test]
fn each_message_once(rt: HostRuntime) -> Result<(), Fail> {
    let alloc = rt.alloc();
    let s = &mut Store::new(alloc, 16);
    let first = write(alloc, 0, b"abcdefghijklmnopqr", 1, &[])?;
    takes(&rt, alloc, s, 1, first, "to 1: stored 7")?;
    let second = write(alloc, 16, b"XY", 2, &[SnapId(2)])?;
    takes(&rt, alloc, s, 2, second, "to 2: stored 7")?;
    takes(
        &rt,
        alloc,
        s,
        1,
        list_clones(1),
        "to 1: clones 8 2:2, head 2",
    )?;
    takes(&rt, alloc, s, 1, list_clones(0), "to 1: clones 8 head 16")?;
    takes(
        &rt,
        alloc,
        s,
        3,
        read_snap(18, 2),
        "to 3: got 6 abcdefghijklmnopqr",
    )?;
    takes(
        &rt,
        alloc,
        s,
        1,
        read_head(18),
        "to 1: got 5 abcdefghijklmnopXY",
    )?;
    takes(&rt, alloc, s, 1, ToStore::Purge(SnapId(2)), "")?;
    takes(
        &rt,
        alloc,
        s,
        0,
        ToStore::Purge(SnapId(2)),
        "to 0: purged 2",
    )?;
    takes(&rt, alloc, s, 1, read_snap(18, 2), "to 1: not there 6")?;
    let cut = ToStore::Cut {
        ino: FILE,
        length: 3,
        context: context(alloc, 2, &[SnapId(2)])?,
    };
    takes(&rt, alloc, s, 1, cut, "to 1: stored 7")?;
    takes(&rt, alloc, s, 1, read_head(3), "to 1: got 5 abc")?;
    let delete = ToStore::Delete {
        ino: FILE,
        context: context(alloc, 2, &[SnapId(2)])?,
    };
    takes(&rt, alloc, s, 0, delete, "to 0: deleted 7")?;
    takes(&rt, alloc, s, 1, list_clones(0), "to 1: clones 8 none")
}

#[test]
fn what_cannot_be_is_dropped(rt: HostRuntime) -> Result<(), Fail> {
    let alloc = rt.alloc();
    let s = &mut Store::new(alloc, 65536);
    let last = write(alloc, 65535, b"z", 1, &[])?;
    takes(&rt, alloc, s, 1, last, "to 1: stored 7")?;
    let over = write(alloc, 65535, b"zz", 1, &[])?;
    takes(&rt, alloc, s, 1, over, "")?;
    let live = write(alloc, 0, b"z", 18446744073709551614, &[])?;
    takes(&rt, alloc, s, 1, live, "")?;
    takes(&rt, alloc, s, 1, read_head(65537), "")?;
    takes(&rt, alloc, s, 1, read_snap(1, 18446744073709551614), "")?;
    takes(
        &rt,
        alloc,
        s,
        1,
        read_snap(1, 18446744073709551613),
        "to 1: got 6 \0",
    )?;
    let live = ToStore::Purge(SnapId(18446744073709551614));
    takes(&rt, alloc, s, 0, live, "")?;
    takes(
        &rt,
        alloc,
        s,
        1,
        list_clones(0),
        "to 1: clones 8 head 65536",
    )
}

#[test]
fn what_a_node_does_not_send_is_dropped(rt: HostRuntime) -> Result<(), Fail> {
    let alloc = rt.alloc();
    let s = &mut Store::new(alloc, 16);
    let server = write(alloc, 0, b"z", 1, &[])?;
    takes(&rt, alloc, s, 0, server, "")?;
    takes(&rt, alloc, s, 0, list_clones(0), "")?;
    takes(&rt, alloc, s, 1, list_clones(0), "to 1: clones 8 none")?;
    let client = write(alloc, 0, b"z", 1, &[])?;
    takes(&rt, alloc, s, 1, client, "to 1: stored 7")?;
    let delete = ToStore::Delete {
        ino: FILE,
        context: context(alloc, 1, &[])?,
    };
    takes(&rt, alloc, s, 1, delete, "")?;
    takes(&rt, alloc, s, 1, list_clones(0), "to 1: clones 8 head 1")
}

// Whether a node answers that a step isn't enabled, or that what it is handed doesn't fit.
fn refuses<N: NodeCore>(node: &mut N, step: &Step, taken: Option<Message>) -> bool {
    let refused = node.act(step, taken);
    matches!(refused, Err(NodeError::NotEnabled))
}

#[test]
fn a_store_as_a_node(rt: HostRuntime) -> Result<(), Fail> {
    let alloc = rt.alloc();
    let s = &mut Store::new(alloc, 16);
    assert!(rt; s.enabled(&Step::StoreTakes(1)));
    assert!(rt; !s.enabled(&Step::Tend));
    let purge = Message::ToStore(ToStore::Purge(SnapId(2)));
    assert!(rt; refuses(s, &Step::StoreTakes(1), Some(purge)));
    let read = Message::ToStore(read_head(1));
    assert!(rt; refuses(s, &Step::StoreTakes(0), Some(read)));
    let report = Message::ToServer(ToServer::Purged(SnapId(2)));
    assert!(rt; refuses(s, &Step::StoreTakes(0), Some(report)));
    assert!(rt; refuses(s, &Step::StoreTakes(1), None));
    assert!(rt; refuses(s, &Step::Tend, None));
    let purge = Message::ToStore(ToStore::Purge(SnapId(2)));
    let done = s.act(&Step::StoreTakes(0), Some(purge))?;
    assert!(rt; matches!(&done.step, Step::StoreTakes(0)));
    let text = printed(alloc, &done)?;
    assert_eq!(rt; text.as_str(), "to 0: purged 2");
    assert_eq!(rt; s.buffered().ever, 0);
    assert_eq!(rt; s.buffered().now, 0);
    Ok(())
}
