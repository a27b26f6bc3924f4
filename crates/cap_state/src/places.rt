// Holdings in the order of their inodes and clients.
ghost use Rattle.std.specs.Prelude.{◌≡◌, ◌==◌, ◌+◌, ◌<◌, ◌≤◌, [], vec_len, vec_capacity, map, filter, find, not, option_map, IfOk, IfErr, OnOk, OnErr};
ghost use Rattle.std.specs.List.{AllByRecursion, list_any};
ghost use Rattle.cap_state.specs.Table as table;
ghost use Rattle.cap_state.specs.Table.{IsTable};
ghost use Rattle.cap_state.specs.Places.{IsPlace, IsGap, IsApart};

use crate::holding::{conflicts, is_at, raised, stands_before, suffices, writes};
use plain_types::Claim;
use snap_ids::{Ino, Mode, NoMemory, SnapId};
use std::alloc::Global;

// Where a client's holding of a file stands, or else where it would stand.
fn place(held: &[(u8, Claim)], client: u8, ino: Ino) -> Result<usize, usize>
    requires { IsTable held.now }
    ensures found { IfOk result (IsPlace client ino held.now) }
    ensures absent { IfErr result (IsGap client ino held.now) }
{
    let place = held.partition_point(|h| stands_before(h, client, ino));
    if place == held.len() {
        return Err(place);
    }
    if is_at(&held[place], client, ino) {
        Ok(place)
    } else {
        Err(place)
    }
}

// The holdings of a file.
pub(crate) fn of_file(held: &[(u8, Claim)], ino: Ino) -> &[(u8, Claim)]
    requires { IsTable held.now }
    ensures { result.now ≡ table.holders_of ino held.now }
{
    let from = held.partition_point(|h| h.1.ino < ino);
    let rest = &held[from..];
    let count = rest.partition_point(|h| h.1.ino <= ino);
    &rest[..count]
}

// The mode in which a client holds a file.
pub(crate) fn mode_of(held: &[(u8, Claim)], client: u8, ino: Ino) -> Option<Mode>
    requires { IsTable held.now }
    ensures { result ≡ table.mode_of client ino held.now }
{
    match place(held, client, ino) {
        Ok(at) => Some(held[at].1.mode),
        Err(_) => None,
    }
}

// The clients of a file's holdings that conflict with what a client asks for.
pub(crate) fn against(
    alloc: Global,
    holders: &[(u8, Claim)],
    client: u8,
    mode: Mode,
) -> Result<Vec<u8>, NoMemory>
    ensures { IfOk result (λ clients. clients.items
        ≡ map (λ h. h.0) (filter (table.conflicts client mode) holders.now)) }
{
    Ok(
        holders
            .iter()
            .filter(|h| conflicts(h, client, mode))
            .map(|h| h.0)
            .collect(alloc)?,
    )
}

// The holder for Write among a file's, and the id up to which its holding is settled.
pub(crate) fn writer(holders: &[(u8, Claim)]) -> Option<(u8, SnapId)>
    ensures { result ≡ option_map (λ h. (h.0, h.1.settled)) (find (λ h. table.writes h.1.mode) holders.now) }
{
    holders
        .iter()
        .find(|h| writes(h.1.mode))
        .map(|h| (h.0, h.1.settled))
}

// A client holds a file as it asks, nobody being against it. No memory is asked for where it holds the file already.
pub(crate) fn grant(held: &mut Vec<(u8, Claim)>, client: u8, claim: Claim) -> Result<(), NoMemory>
    requires table { IsTable held.old.items }
    requires free { table.against client claim.ino claim.mode held.old.items ≡ [] }
    ensures table { IsTable held.new.items }
    ensures granted { OnOk result (held.new.items ≡ table.granted client claim held.old.items) }
    ensures as_before { OnErr result (held.new.items ≡ held.old.items) }
{
    match place(held, client, claim.ino) {
        Ok(at) => {
            if !suffices(held[at].1.mode, claim.mode) {
                held[at] = (client, claim);
            }
        }
        Err(at) => held.insert(at, (client, claim))?,
    }
    Ok(())
}

// Puts a client's holding of a file in its place, or in that of its old one. There is room for it.
pub(crate) fn put(held: &mut Vec<(u8, Claim)>, client: u8, claim: Claim)
    requires table { IsTable held.old.items }
    requires apart { AllByRecursion (IsApart (client, claim)) held.old.items }
    requires room { vec_len held.old < vec_capacity held.old }
    ensures table { IsTable held.new.items }
    ensures held { held.new.items ≡ table.with_holding (client, claim) held.old.items }
    ensures len { vec_len held.new ≤ vec_len held.old + 1 }
    ensures capacity { vec_capacity held.new ≡ vec_capacity held.old }
{
    match place(held, client, claim.ino) {
        Ok(at) => held[at] = (client, claim),
        Err(at) => held.insert(at, (client, claim)).unwrap(),
    }
}

// A client lets a file go; whether it held it.
pub(crate) fn let_go(held: &mut Vec<(u8, Claim)>, client: u8, ino: Ino) -> bool
    requires { IsTable held.old.items }
    ensures table { IsTable held.new.items }
    ensures said { result ≡ list_any (table.is_at client ino) held.old.items }
    ensures gone { held.new.items ≡ table.without client ino held.old.items }
{
    match place(held, client, ino) {
        Ok(at) => {
            held.remove(at);
            true
        }
        Err(_) => false,
    }
}

// A client's holding of a file for Write is settled up to an id; whether there is one.
pub(crate) fn settle(held: &mut Vec<(u8, Claim)>, client: u8, ino: Ino, upto: SnapId) -> bool
    requires { IsTable held.old.items }
    ensures table { IsTable held.new.items }
    ensures said { result ≡ list_any (table.is_writer client ino) held.old.items }
    ensures flushed { held.new.items ≡ table.flushed client ino upto held.old.items }
{
    match place(held, client, ino) {
        Ok(at) => {
            let claim = held[at].1;
            let is_writer = writes(claim.mode);
            if is_writer {
                held[at] = (client, raised(&claim, upto));
            }
            is_writer
        }
        Err(_) => false,
    }
}
