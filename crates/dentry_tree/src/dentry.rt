// A name of a directory, with the inodes that it had.
ghost use Rattle.std.specs.Prelude.{◌≡◌, ◌<◌, ◌≤◌, ◌+◌, [], ◌∷◌, length, slice_get, if◌then◌else◌, OnOk, OnErr, IfOk, IfErr};
ghost use Rattle.std.specs.List.{list_any};
ghost use Rattle.std.specs.Option.{option_copied};
ghost use Rattle.snap_ids.specs.declared.id.Ino.{Ino as Inode};
ghost use Rattle.plain_tree.specs.State.{same_ino};
ghost use Rattle.dentry_tree.specs.Dentries.{is_valid_at, ino_at, AreVersions, kind_in};
ghost use Rattle.dentry_tree.specs.Places.{stands_before, has_name, is_in, begun, with_version, last_ended, cut_versions, cut_dentry, has_versions, is_needed, trimmed, unneeded};

use crate::error::TreeError;
use crate::kinds::Kinds;
use crate::version::Version;
use snap_ids::{Ids, Ino, Kind, NOSNAP, Name, SnapId};
use std::alloc::{AllocError, Global};
use std::marker::Model;

// A name of a directory, and the inodes that it had, the oldest first. Contracts see the record of these.
#[derive(Debug, Drop)]
pub(crate) struct Dentry {
    dir: Ino,
    name: Name,
    versions: Vec<Version>,
}

impl Model for Dentry {
    ghost use Rattle.dentry_tree.specs.Dentries.{Dentry};

    ghost Value = { Dentry };

    ghost view = { λ dentry. record { dir = dentry.dir; name = dentry.name; versions = dentry.versions.items } };
}

// The version at a place.
fn version_at(versions: &[Version], place: usize) -> Option<&Version>
    ensures { option_copied result ≡ slice_get versions.now place }
{
    versions.get(place)
}

// The inode of the first version, if there is one and it begins by an id.
fn begun(version: Option<&Version>, s: SnapId) -> Option<Ino>
    ensures { result ≡ begun s (option_copied version.entry) }
{
    match version {
        Some(version) if version.valid.first <= s => Some(version.ino),
        _ => None,
    }
}

// Whether a version is valid at an id of a list.
fn is_valid_among(version: &Version, live: &Ids) -> bool
    ensures { result ≡ list_any (λ s. is_valid_at s version.now) live.now }
{
    live.as_slice().iter().any(|s| version.valid.holds(*s))
}

// Whether a version is live, or valid at an id of a list.
fn is_needed(version: &Version, live: &Ids) -> bool
    ensures { result ≡ is_needed live.now version.now }
{
    version.valid.last == NOSNAP || is_valid_among(version, live)
}

// The last version ends by an id.
fn end_last(versions: &mut Vec<Version>, applied: SnapId)
    ensures { versions.new.items ≡ last_ended applied versions.old.items }
{
    if let Some(version) = versions.last_mut() {
        version.valid.last = SnapId(version.valid.last.0.min(applied.0));
    }
}

impl Dentry {
    // A name with its first version.
    pub fn new(alloc: Global, dir: Ino, name: Name, version: Version) -> Result<Dentry, AllocError>
        ensures { IfOk result (λ dentry. dentry ≡ record { dir = dir; name = name; versions = version ∷ [] }) }
    {
        let mut versions = Vec::with_capacity(alloc, 1)?;
        versions.push(version)?;
        Ok(Dentry {
            dir,
            name,
            versions,
        })
    }

    // The directory.
    pub fn dir(&self) -> Ino
        ensures { result ≡ self.now.dir }
    {
        self.dir
    }

    // The name.
    pub fn name(&self) -> &Name
        ensures { result.now ≡ self.now.name }
    {
        &self.name
    }

    // Whether it stands before a name of a directory.
    pub fn stands_before(&self, dir: Ino, name: &[u8]) -> bool
        ensures { result ≡ stands_before dir name.now self.now }
    {
        if self.dir == dir {
            self.name.as_bytes().cmp(name).is_lt()
        } else {
            self.dir < dir
        }
    }

    // Whether it is that of a name of a directory.
    pub fn has_name(&self, dir: Ino, name: &[u8]) -> bool
        ensures { result ≡ has_name dir name.now self.now }
    {
        self.dir == dir && self.name.as_bytes() == name
    }

    // Whether it has versions.
    pub fn has_versions(&self) -> bool
        ensures { result ≡ has_versions self.now }
    {
        !self.versions.is_empty()
    }

    // How many versions it has.
    pub fn len(&self) -> usize
        ensures { result ≡ length self.now.versions }
    {
        self.versions.len()
    }

    // The inode that the name has at an id.
    pub fn ino_at(&self, s: SnapId) -> Option<Ino>
        requires { AreVersions self.now }
        ensures { result ≡ ino_at s self.now.versions }
    {
        let place = self
            .versions
            .partition_point(|version| version.valid.last < s);
        begun(version_at(&self.versions, place), s)
    }

    // One more version, whose inode is put as a kind.
    pub fn begin(
        &mut self,
        version: Version,
        kinds: &mut Kinds,
        kind: Kind,
    ) -> Result<(), TreeError>
        ensures begun { OnOk result (self.new ≡ with_version version self.old) }
        ensures kinds { OnOk result ((i : Inode) → kind_in kinds.new i
            ≡ (if same_ino i version.ino then kind else kind_in kinds.old i)) }
        ensures no_memory { IfErr result (λ error. error ≡ TreeError.NoMemory) }
        ensures err { OnErr result ((self.new ≡ self.old) × (kinds.new ≡ kinds.old)) }
    {
        self.versions.reserve(1)?;
        kinds.put(version.ino, kind)?;
        self.versions.push(version)?;
        Ok(())
    }

    // The name is cut: it has what it had at the ids up to `applied`, and nothing later. Answers how many versions go.
    pub fn cut(&mut self, applied: SnapId) -> usize
        requires { AreVersions self.old }
        ensures cut { self.new ≡ cut_dentry applied self.old }
        ensures count { result + length self.new.versions ≡ length self.old.versions }
    {
        let before = self.versions.len();
        let count = self
            .versions
            .partition_point(|version| version.valid.first <= applied);
        self.versions.truncate(count);
        end_last(&mut self.versions, applied);
        before - count
    }

    // How many versions are neither live nor valid at an id of a list.
    pub fn unneeded(&self, live: &Ids) -> usize
        ensures { result ≡ unneeded live.now self.now }
    {
        self.versions
            .iter()
            .filter(|version| !is_needed(version, live))
            .count()
    }

    // Drops these.
    pub fn trim(&mut self, live: &Ids)
        ensures { self.new ≡ trimmed live.now self.old }
    {
        self.versions.retain(|version| is_needed(version, live));
    }
}
