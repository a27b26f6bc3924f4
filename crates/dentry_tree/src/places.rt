// Dentries in the order of their directories and names.
ghost use Rattle.std.specs.Prelude.{◌≡◌, ◌↔◌, ◌<◌, ◌≤◌, ◌^◌, ◌+◌, ◌++◌, insert, set, if◌then◌else◌, None, Some, slice_get, take, drop, length, map, filter, filter_map, IsSome, IfOk, IfErr, OnOk, OnErr, IsErrOf};
ghost use Rattle.std.specs.List.{AllByRecursion, list_any};
ghost use Rattle.std.specs.Option.{option_copied};
ghost use Rattle.snap_ids.specs.declared.id.Ino.{Ino as Inode};
ghost use Rattle.plain_tree.specs.State.{lookup, same_ino};
ghost use Rattle.dentry_tree.specs.Dentries.{Dentry as Named, entries_in, kind_in, newest_in, IsInOrder, AreVersions, AreDentries, total};
ghost use Rattle.dentry_tree.specs.Places.{IsPlace, found_at, has_it, is_found_at, is_in, item_at, with_version, begun_at, cut_dentry, kept, trimmed_all, count_unneeded, Puts, Cuts};

use crate::dentry::Dentry;
use crate::error::TreeError;
use crate::kinds::Kinds;
use crate::version::Version;
use snap_ids::{Ids, Ino, Interval, Kind, NOSNAP, Name, SnapId};
use std::alloc::Global;

// Where a name of a directory stands, or would stand.
pub(crate) fn place(dentries: &[Dentry], dir: Ino, name: &[u8]) -> usize
    requires { IsInOrder dentries.now }
    ensures { IsPlace dir name.now dentries.now result }
{
    dentries.partition_point(|dentry| dentry.stands_before(dir, name))
}

// The dentry at a place.
fn dentry_at(dentries: &[Dentry], place: usize) -> Option<&Dentry>
    ensures { option_copied result ≡ slice_get dentries.now place }
{
    dentries.get(place)
}

// Whether a name of a directory stands at a place.
fn has_it(dentry: Option<&Dentry>, dir: Ino, name: &[u8]) -> bool
    ensures { result ≡ has_it dir name.now (option_copied dentry.entry) }
{
    match dentry {
        Some(dentry) => dentry.has_name(dir, name),
        None => false,
    }
}

// The inode that a name of a directory has at an id, where this is its place.
pub(crate) fn found_at(
    dentries: &[Dentry],
    place: usize,
    dir: Ino,
    name: &[u8],
    s: SnapId,
) -> Option<Ino>
    requires { AllByRecursion AreVersions dentries.now }
    ensures { result ≡ found_at s dir name.now (slice_get dentries.now place) }
{
    match dentry_at(dentries, place) {
        Some(dentry) if dentry.has_name(dir, name) => dentry.ino_at(s),
        _ => None,
    }
}

// What a name of a directory has at an id.
#[tactic(auto, using(crate::proofs::Entries::lookup_found))]
pub(crate) fn find(dentries: &[Dentry], dir: Ino, name: &[u8], s: SnapId) -> Option<Ino>
    requires { AreDentries dentries.now }
    ensures { result ≡ lookup (entries_in s dentries.now) dir name.now }
{
    let place = place(dentries, dir, name);
    found_at(dentries, place, dir, name, s)
}

// Puts a new dentry in its place; its inode is put as a kind.
fn insert(
    dentries: &mut Vec<Dentry>,
    place: usize,
    dentry: Dentry,
    ino: Ino,
    kinds: &mut Kinds,
    kind: Kind,
) -> Result<(), TreeError>
    requires { place ≤ length dentries.old.items }
    ensures inserted { OnOk result (dentries.new.items ≡ insert dentries.old.items place dentry) }
    ensures kinds { OnOk result ((i : Inode) → kind_in kinds.new i
        ≡ (if same_ino i ino then kind else kind_in kinds.old i)) }
    ensures no_memory { IfErr result (λ error. error ≡ TreeError.NoMemory) }
    ensures err { OnErr result ((dentries.new.items ≡ dentries.old.items) × (kinds.new ≡ kinds.old)) }
{
    dentries.reserve(1)?;
    kinds.put(ino, kind)?;
    dentries.insert(place, dentry)?;
    Ok(())
}

// One more version of the dentry at a place; its inode is put as a kind.
fn begin(
    dentries: &mut Vec<Dentry>,
    place: usize,
    version: Version,
    kinds: &mut Kinds,
    kind: Kind,
) -> Result<(), TreeError>
    requires { place < length dentries.old.items }
    ensures begun { OnOk result ((dentry : Named) → slice_get dentries.old.items place ≡ Some dentry
        → dentries.new.items ≡ set dentries.old.items place (with_version version dentry)) }
    ensures kinds { OnOk result ((i : Inode) → kind_in kinds.new i
        ≡ (if same_ino i version.ino then kind else kind_in kinds.old i)) }
    ensures no_memory { IfErr result (λ error. error ≡ TreeError.NoMemory) }
    ensures err { OnErr result ((dentries.new.items ≡ dentries.old.items) × (kinds.new ≡ kinds.old)) }
{
    dentries[place].begin(version, kinds, kind)
}

// A version of a name of a directory, whose place this is; its inode is put as a kind.
fn put_at(
    alloc: Global,
    dentries: &mut Vec<Dentry>,
    place: usize,
    dir: Ino,
    name: Name,
    version: Version,
    kinds: &mut Kinds,
    kind: Kind,
) -> Result<(), TreeError>
    requires { place ≤ length dentries.old.items }
    ensures begun { OnOk result (dentries.new.items
        ≡ begun_at place dir name version (slice_get dentries.old.items place) dentries.old.items) }
    ensures kinds { OnOk result ((i : Inode) → kind_in kinds.new i
        ≡ (if same_ino i version.ino then kind else kind_in kinds.old i)) }
    ensures no_memory { IfErr result (λ error. error ≡ TreeError.NoMemory) }
    ensures err { OnErr result ((dentries.new.items ≡ dentries.old.items) × (kinds.new ≡ kinds.old)) }
{
    if has_it(dentry_at(dentries, place), dir, name.as_bytes()) {
        return begin(dentries, place, version, kinds, kind);
    }
    let dentry = Dentry::new(alloc, dir, name, version)?;
    insert(dentries, place, dentry, version.ino, kinds, kind)
}

// A name of a directory, whose place this is and which has nothing now, gets an inode from the id after `applied` on. The
// inode is put as a kind.
pub(crate) fn put(
    alloc: Global,
    dentries: &mut Vec<Dentry>,
    place: usize,
    dir: Ino,
    name: Name,
    ino: Ino,
    applied: SnapId,
    kinds: &mut Kinds,
    kind: Kind,
) -> Result<(), TreeError>
    requires before_nosnap { applied.0 < NOSNAP.0 }
    requires dentries { AreDentries dentries.old.items }
    requires newest { newest_in dentries.old.items ≤ applied.0 }
    requires place { IsPlace dir name dentries.old.items place }
    requires free { found_at NOSNAP dir name (slice_get dentries.old.items place) ≡ None }
    ensures puts { OnOk result (Puts applied dir name ino dentries.old.items dentries.new.items) }
    ensures kinds { OnOk result ((i : Inode) → kind_in kinds.new i
        ≡ (if same_ino i ino then kind else kind_in kinds.old i)) }
    ensures no_memory { IfErr result (λ error. error ≡ TreeError.NoMemory) }
    ensures err { OnErr result ((dentries.new.items ≡ dentries.old.items) × (kinds.new ≡ kinds.old)) }
{
    let valid = Interval {
        first: SnapId(applied.0 + 1),
        last: NOSNAP,
    };
    let version = Version { ino, valid };
    put_at(alloc, dentries, place, dir, name, version, kinds, kind)
}

// The dentry at a place is cut, and goes where no version is left. Answers how many versions go.
fn cut_at(dentries: &mut Vec<Dentry>, place: usize, applied: SnapId) -> usize
    requires within { place < length dentries.old.items }
    requires versions { AllByRecursion AreVersions dentries.old.items }
    ensures cut { (dentry : Named) → slice_get dentries.old.items place ≡ Some dentry
        → dentries.new.items ≡ take place dentries.old.items ++ (kept (cut_dentry applied dentry) ++ drop (place + 1) dentries.old.items) }
    ensures count { result + total dentries.new.items ≡ total dentries.old.items }
{
    let dropped = dentries[place].cut(applied);
    if !dentries[place].has_versions() {
        dentries.remove(place);
    }
    dropped
}

// A name of a directory, whose place this is and which has an inode now, loses it from the id after `applied` on. Answers
// how many versions go.
pub(crate) fn cut(
    dentries: &mut Vec<Dentry>,
    place: usize,
    dir: Ino,
    name: &[u8],
    applied: SnapId,
) -> usize
    requires dentries { AreDentries dentries.old.items }
    requires place { IsPlace dir name.now dentries.old.items place }
    requires there { IsSome (found_at NOSNAP dir name.now (slice_get dentries.old.items place)) }
    ensures cuts { Cuts applied dir name.now dentries.old.items dentries.new.items }
    ensures count { result + total dentries.new.items ≡ total dentries.old.items }
{
    cut_at(dentries, place, applied)
}

// The dentries of a directory.
pub(crate) fn of_directory(dentries: &[Dentry], dir: Ino) -> &[Dentry]
    requires { IsInOrder dentries.now }
    ensures { result.now ≡ filter (is_in dir) dentries.now }
{
    let from = dentries.partition_point(|dentry| dentry.dir() < dir);
    let rest = &dentries[from..];
    let count = rest.partition_point(|dentry| dentry.dir() <= dir);
    &rest[..count]
}

// Whether one of these names has an inode at an id.
pub(crate) fn has_some(dentries: &[Dentry], s: SnapId) -> bool
    requires { AllByRecursion AreVersions dentries.now }
    ensures { result ≡ list_any (is_found_at s) dentries.now }
{
    let mut left = dentries;
    while let Some((dentry, rest)) = left.split_first() {
        if dentry.ino_at(s).is_some() {
            return true;
        }
        left = rest;
    }
    false
}

// What a directory lists for a dentry that names an inode.
fn item_of(dentry: &Dentry, ino: Ino, kinds: &Kinds) -> Result<(Name, Kind), TreeError>
    ensures listed { IfOk result (λ item. item ≡ (dentry.now.name, kind_in kinds.now ino)) }
    ensures no_memory { IfErr result (λ error. error ≡ TreeError.NoMemory) }
{
    let name = dentry.name().clone()?;
    Ok((name, kinds.of(ino)))
}

// What these dentries list at an id.
pub(crate) fn listed(
    alloc: Global,
    dentries: &[Dentry],
    s: SnapId,
    kinds: &Kinds,
) -> Result<Vec<(Name, Kind)>, TreeError>
    requires { AllByRecursion AreVersions dentries.now }
    ensures listed { IfOk result (λ items. items.items ≡ filter_map (item_at s (kind_in kinds.now)) dentries.now) }
    ensures no_memory { IfErr result (λ error. error ≡ TreeError.NoMemory) }
{
    let mut items = Vec::new(alloc);
    let mut left = dentries;
    while let Some((dentry, rest)) = left.split_first() {
        if let Some(ino) = dentry.ino_at(s) {
            match item_of(dentry, ino, kinds) {
                Ok(item) => items.push(item)?,
                Err(error) => return Err(error),
            }
        }
        left = rest;
    }
    Ok(items)
}

// How many versions are neither live nor valid at an id of a list.
#[tactic(auto, using(crate::proofs::Trims::count_unneeded_cons, crate::proofs::Trims::count_unneeded_nil))]
pub(crate) fn unneeded(dentries: &[Dentry], live: &Ids) -> usize
    requires { total dentries.now < 2 ^ 64 }
    ensures { result ≡ count_unneeded live.now dentries.now }
{
    let mut count = 0;
    let mut left = dentries;
    while let Some((dentry, rest)) = left.split_first() {
        count += dentry.unneeded(live);
        left = rest;
    }
    count
}

// Drops these, and the dentries that have no other version.
pub(crate) fn trim(dentries: &mut Vec<Dentry>, live: &Ids)
    ensures { dentries.new.items ≡ trimmed_all live.now dentries.old.items }
{
    for dentry in dentries.iter_mut() {
        dentry.trim(live);
    }
    dentries.retain(|dentry| dentry.has_versions());
}
