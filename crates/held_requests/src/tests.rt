// Requests wait, and are taken.
use crate::{Asked, Waiting};
use plain_types::Request;
use snap_ids::{Ino, Mode};
use std::test::Fail;

fn cap(client: u8, tid: u64) -> Asked {
    Asked {
        client,
        tid,
        request: Request::Cap {
            ino: Ino(1 << 40),
            mode: Mode::Write,
        },
    }
}

fn at_barrier(client: u8, tid: u64, number: u64) -> Asked {
    Asked {
        client,
        tid,
        request: Request::Barrier { number },
    }
}

fn number_of(asked: Option<Asked>) -> u64 {
    match asked {
        Some(asked) => asked.tid,
        None => 0,
    }
}

#[test]
fn they_are_taken_by_client(rt: HostRuntime) -> Result<(), Fail> {
    let mut held = Waiting::new(rt.alloc());
    assert!(rt; held.is_empty() && held.first().is_none());
    held.push_back(cap(2, 7))?;
    held.push_back(cap(1, 8))?;
    held.push_back(cap(2, 9))?;
    assert_eq!(rt; held.len(), 3);
    assert_eq!(rt; held.clients()?.as_slice(), [2, 1, 2].as_slice());
    assert_eq!(rt; number_of(held.take_of(2)), 7);
    assert_eq!(rt; number_of(held.take_of(2)), 0);
    assert_eq!(rt; held.clients()?.as_slice(), [1].as_slice());
    held.drop_of(1);
    assert!(rt; held.is_empty());
    Ok(())
}

#[test]
fn they_are_taken_in_order(rt: HostRuntime) -> Result<(), Fail> {
    let mut deferred = Waiting::new(rt.alloc());
    deferred.push_back(cap(255, 1))?;
    deferred.push_back(cap(3, 2))?;
    deferred.push_front(cap(4, 3))?;
    assert_eq!(rt; number_of(deferred.take_first()), 3);
    assert_eq!(rt; number_of(deferred.take_first()), 1);
    assert_eq!(rt; number_of(deferred.take_first()), 2);
    assert_eq!(rt; number_of(deferred.take_first()), 0);
    Ok(())
}

#[test]
fn all_wait_at_a_barrier(rt: HostRuntime) -> Result<(), Fail> {
    let mut held = Waiting::new(rt.alloc());
    held.push_back(at_barrier(2, 1, 5))?;
    assert!(rt; held.waits_at(5, 2) && !held.waits_at(5, 1) && !held.waits_at(4, 2));
    assert!(rt; !held.all_wait_at(5, 2) && held.all_wait_at(5, 0));
    held.push_back(at_barrier(1, 1, 5))?;
    assert!(rt; held.all_wait_at(5, 2) && !held.all_wait_at(5, 3));
    assert_eq!(rt; held.first_barrier(), Some(5));
    held.push_front(cap(3, 1))?;
    assert_eq!(rt; held.first_barrier(), None);
    Ok(())
}
