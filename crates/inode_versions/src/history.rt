// One inode: what it is now, and its earlier versions.
ghost use Rattle.std.specs.Prelude.{◌≡◌, ◌+◌, ◌<◌, ◌≤◌, ◌++◌, [], length, OnOk, OnErr, IfOk, take};
ghost use Rattle.inode_versions.specs.Histories.{IsHistory, earlier_at, at_id, since_settled, is_needed};
ghost use Rattle.std.specs.Option.{option_copied};
ghost use Rattle.std.specs.List.{flat_map};
ghost use Rattle.inode_versions.specs.Parts.{begun, part, changed, settled_parts, head_parts, head_settled, settled, trimmed, unneeded};

use crate::attr::{Attr, Version, with_size};
use crate::error::InodeError;
use snap_ids::{Ids, Interval, NOSNAP, SnapId};
use std::alloc::Global;
use std::marker::Model;

// One inode: what it is now, the first id for which it is that, and its earlier versions, the oldest first. An inode in Ceph
// has `first` and `old_inodes` in the same way.
#[derive(Debug, Drop)]
pub(crate) struct History {
    since: SnapId,
    head: Attr,
    earlier: Vec<Version>,
}

impl Model for History {
    ghost use Rattle.inode_versions.specs.Histories.{History, IsHistory};

    ghost Value = { History };

    ghost view = { λ inode. record { since = inode.since; head = inode.head; earlier = inode.earlier.items } };

    ghost invariant = { λ inode. IsHistory (record { since = inode.since; head = inode.head; earlier = inode.earlier.items }) };
}

// Puts a version last, if its first id isn't above its last one.
fn push_part(
    versions: &mut Vec<Version>,
    first: u64,
    last: u64,
    attr: Attr,
) -> Result<(), InodeError>
    ensures pushed { OnOk result (versions.new.items ≡ versions.old.items ++ part first last attr) }
    ensures err { OnErr result (versions.new.items ≡ versions.old.items) }
    ensures split { OnErr result (first ≤ last) }
{
    if first <= last {
        let valid = Interval {
            first: SnapId(first),
            last: SnapId(last),
        };
        versions.push(Version { valid, attr })?;
    }
    Ok(())
}

// Puts last what a version is after a size is settled at the ids above `follows` and up to `upto`.
fn push_settled(
    versions: &mut Vec<Version>,
    version: &Version,
    follows: SnapId,
    upto: SnapId,
    size: u32,
) -> Result<(), InodeError>
    requires { follows.0 < upto.0 }
    ensures { OnOk result (versions.new.items ≡ versions.old.items ++ settled_parts follows upto size version.now) }
{
    let attr = version.attr;
    if attr.size == size {
        versions.push(*version)?;
        return Ok(());
    }
    let first = version.valid.first.0;
    let last = version.valid.last.0;
    push_part(versions, first, last.min(follows.0), attr)?;
    push_part(
        versions,
        first.max(follows.0 + 1),
        last.min(upto.0),
        with_size(size, attr),
    )?;
    if upto.0 < last {
        push_part(versions, first.max(upto.0 + 1), last, attr)?;
    }
    Ok(())
}

// What versions are after a size is settled.
fn settled_versions(
    alloc: Global,
    versions: &[Version],
    follows: SnapId,
    upto: SnapId,
    size: u32,
) -> Result<Vec<Version>, InodeError>
    requires { follows.0 < upto.0 }
    ensures { IfOk result (λ made. made.items ≡ flat_map (settled_parts follows upto size) versions.now) }
{
    let mut made = Vec::new(alloc);
    for version in versions {
        push_settled(&mut made, version, follows, upto, size)?;
    }
    Ok(made)
}

// Whether an id of a list is one at which a version is valid.
fn is_needed(version: &Version, live: &Ids) -> bool
    ensures { result ≡ is_needed live.now version.now }
{
    live.as_slice().iter().any(|s| version.valid.holds(*s))
}

// The attribute of a version, if there is one and it begins by an id.
fn begun(version: Option<&Version>, s: SnapId) -> Option<Attr>
    ensures { result ≡ begun s (option_copied version.entry) }
{
    match version {
        Some(version) if version.valid.first <= s => Some(version.attr),
        _ => None,
    }
}

// The first id of the head after a size is settled.
fn since_settled(since: SnapId, head: Attr, follows: SnapId, upto: SnapId, size: u32) -> SnapId
    requires { follows.0 < NOSNAP.0 }
    ensures { result ≡ since_settled follows upto size head since }
{
    if head.size == size || upto <= follows || upto < since {
        since
    } else if upto < NOSNAP {
        SnapId(upto.0 + 1)
    } else {
        SnapId(since.0.max(follows.0 + 1))
    }
}

// The head after a size is settled.
fn head_settled(head: Attr, upto: SnapId, size: u32) -> Attr
    ensures { result ≡ head_settled upto size head }
{
    if upto < NOSNAP {
        head
    } else {
        with_size(size, head)
    }
}

// Puts others in the place of the versions from a place on.
fn replace_from(
    versions: &mut Vec<Version>,
    place: usize,
    mut tail: Vec<Version>,
) -> Result<(), InodeError>
    ensures replaced { OnOk result (versions.new.items ≡ take place versions.old.items ++ tail.items) }
    ensures err { OnErr result (versions.new.items ≡ versions.old.items) }
{
    versions.reserve(tail.len())?;
    versions.truncate(place);
    versions.append(&mut tail).unwrap();
    Ok(())
}

impl History {
    // An inode that begins at an id.
    pub fn new(alloc: Global, since: SnapId, head: Attr) -> History
        requires { since.0 ≤ NOSNAP.0 }
        ensures { result ≡ record { since = since; head = head; earlier = [] } }
    {
        History {
            since,
            head,
            earlier: Vec::new(alloc),
        }
    }

    // What it is now.
    pub fn head(&self) -> Attr
        ensures head { result ≡ self.now.head }
        ensures well_formed { IsHistory self.now }
    {
        self.head
    }

    // How many earlier versions it has.
    pub fn earlier(&self) -> usize
        ensures { result ≡ length self.now.earlier }
    {
        self.earlier.len()
    }

    // The attribute of the earlier version that is valid at an id.
    fn earlier_at(&self, s: SnapId) -> Option<Attr>
        ensures { result ≡ earlier_at self.now.earlier s }
    {
        let place = self
            .earlier
            .partition_point(|version| version.valid.last < s);
        begun(self.earlier.get(place), s)
    }

    // What it is at an id.
    pub fn at(&self, s: SnapId) -> Option<Attr>
        ensures at { result ≡ at_id self.now s }
        ensures well_formed { IsHistory self.now }
    {
        if s < self.since {
            self.earlier_at(s)
        } else if s <= NOSNAP {
            Some(self.head)
        } else {
            None
        }
    }

    // Gets another head at the ids above `follows`. It adds no more than `room` versions.
    pub fn change(&mut self, follows: SnapId, attr: Attr, room: usize) -> Result<(), InodeError>
        requires { follows.0 < NOSNAP.0 }
        ensures changed { OnOk result (self.new ≡ changed follows attr self.old) }
        ensures room { OnOk result (length self.new.earlier ≤ length self.old.earlier + room) }
        ensures as_before { OnErr result (self.new ≡ self.old) }
        ensures split { OnErr result (self.old.since.0 ≤ follows.0) }
    {
        if self.since <= follows && room == 0 {
            return Err(InodeError::NoMemory);
        }
        push_part(&mut self.earlier, self.since.0, follows.0, self.head)?;
        self.since = SnapId(self.since.0.max(follows.0 + 1));
        self.head = attr;
        Ok(())
    }

    // Puts last what the head is before its first id after a size is settled.
    fn push_head_parts(
        &self,
        versions: &mut Vec<Version>,
        follows: SnapId,
        upto: SnapId,
        size: u32,
    ) -> Result<(), InodeError>
        requires { follows.0 < upto.0 }
        ensures { OnOk result (versions.new.items ≡ versions.old.items ++ head_parts follows upto size self.now) }
    {
        if self.head.size == size || upto < self.since {
            return Ok(());
        }
        push_part(versions, self.since.0, follows.0, self.head)?;
        if upto < NOSNAP {
            let first = self.since.0.max(follows.0 + 1);
            push_part(versions, first, upto.0, with_size(size, self.head))?;
        }
        Ok(())
    }

    // Settles a size at the ids above `follows` and up to `upto`. What ends by `follows` isn't touched. It adds no more than
    // `room` versions.
    pub fn settle(
        &mut self,
        alloc: Global,
        follows: SnapId,
        upto: SnapId,
        size: u32,
        room: usize,
    ) -> Result<(), InodeError>
        requires below { follows.0 < NOSNAP.0 }
        requires less { follows.0 < upto.0 }
        ensures settled { OnOk result (self.new ≡ settled follows upto size self.old) }
        ensures room { OnOk result (length self.new.earlier ≤ length self.old.earlier + room) }
        ensures as_before { OnErr result (self.new ≡ self.old) }
    {
        let place = self
            .earlier
            .partition_point(|version| version.valid.last <= follows);
        let mut tail = settled_versions(alloc, &self.earlier[place..], follows, upto, size)?;
        self.push_head_parts(&mut tail, follows, upto, size)?;
        if room < tail.len() {
            return Err(InodeError::NoMemory);
        }
        replace_from(&mut self.earlier, place, tail)?;
        self.since = since_settled(self.since, self.head, follows, upto, size);
        self.head = head_settled(self.head, upto, size);
        Ok(())
    }

    // How many earlier versions no id of a list needs.
    pub fn unneeded(&self, live: &Ids) -> usize
        ensures count { result ≡ unneeded live.now self.now }
    {
        self.earlier
            .iter()
            .filter(|version| !is_needed(version, live))
            .count()
    }

    // Drops them.
    pub fn trim(&mut self, live: &Ids)
        ensures { self.new ≡ trimmed live.now self.old }
    {
        self.earlier.retain(|version| is_needed(version, live));
    }
}
