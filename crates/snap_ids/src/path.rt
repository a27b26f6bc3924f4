// A path from the root.
ghost use Rattle.std.specs.Prelude.{◌≡◌, ◌↔◌, ◌==◌, ◌<◌, None, Some, length, map, position, is_some, IfSome, IfOk, IsErrOf};
ghost use Rattle.std.specs.List.{list_all, slice_split};
ghost use Rattle.snap_ids.specs.Name.{is_name, is_dot_snap};
ghost use Rattle.snap_ids.specs.Path.{path_of, names_of, place_said, place_of, place_behind};
ghost use Rattle.snap_ids.specs.declared.path.PathError.TheVariants.{NoMemory};

use crate::list::ListOf;
use crate::memory::NoMemory;
use crate::name::{Name, is_name};
use crate::text::pieces;
use std::alloc::{AllocError, AllocFailed, Global};
use std::marker::Model;
use thiserror::Error;

/// A path from the root: its names in order, none for `/`. Contracts see the list of names.
#[derive(Clone, Debug, PartialEq, Eq, Drop)]
pub struct Path {
    names: ListOf<Name>,
}

impl Model for Path {
    ghost use Rattle.std.specs.Prelude.{ℕ, List};

    ghost Value = { List (List ℕ) };

    ghost view = { λ path. path.names };

    ghost inverse = { λ names. record { names = names } };
}

/// Where a path leads.
#[derive(Clone, Copy, Debug)]
pub enum Target<'a> {
    /// To an entry of the live tree.
    Live(&'a [Name]),
    /// To the `.snap` of a directory, whose path this is.
    Snaps(&'a [Name]),
    /// Into a snapshot: the path of its directory, its name, and the path below it.
    InSnap(&'a [Name], &'a Name, &'a [Name]),
}

/// Why a text is refused as a path.
#[derive(Clone, Copy, Debug, PartialEq, Eq, Error)]
pub enum PathError {
    #[error("not a path")]
    BadPath,
    #[error("out of memory")]
    NoMemory,
}

impl From<AllocError> for PathError {
    ghost from_gives = { λ _ e. e ≡ NoMemory };

    fn from(_: AllocError) -> Self {
        PathError::NoMemory
    }
}

impl<T: Drop> From<AllocFailed<T>> for PathError {
    ghost from_gives = { λ _ e. e ≡ NoMemory };

    fn from(_: AllocFailed<T>) -> Self {
        PathError::NoMemory
    }
}

// Whether each text between two slashes is a name.
fn are_names(text: &[u8]) -> bool
    ensures { result ≡ list_all is_name (slice_split (λ b. b == 47) text.now) }
{
    text.split(|b| *b == b'/').all(is_name)
}

// How many texts there are between the slashes.
fn count_of_names(text: &[u8]) -> usize
    ensures { result ≡ length (slice_split (λ b. b == 47) text.now) }
{
    text.split(|b| *b == b'/').count()
}

// Whether a text is what follows the first slash of a path.
fn is_names(text: &[u8]) -> bool
    ensures { result ≡ is_some (names_of text.now) }
{
    text.is_empty() || (count_of_names(text) <= 32 && are_names(text))
}

impl Path {
    /// Whether a text spells a path: `/`, or 1 to 32 names, each after one `/`.
    pub fn is_path(text: &[u8]) -> bool
        ensures { result ≡ is_some (path_of text.now) }
    {
        match text.split_first() {
            Some((b'/', rest)) => is_names(rest),
            _ => false,
        }
    }

    /// The path that a text spells: `/`, or 1 to 32 names, each after one `/`.
    pub fn parse(alloc: Global, text: &[u8]) -> Result<Path, PathError>
        ensures spelled { IfOk result (λ path. path_of text.now ≡ Some path) }
        ensures bad_path { IsErrOf result PathError.BadPath ↔ (path_of text.now ≡ None) }
    {
        if !Path::is_path(text) {
            return Err(PathError::BadPath);
        }
        match names_behind(alloc, &text[1..]) {
            Ok(names) => Ok(Path {
                names: ListOf::from_vec(names),
            }),
            Err(NoMemory) => Err(PathError::NoMemory),
        }
    }

    /// The names, the root's child first.
    pub fn names(&self) -> &[Name]
        ensures { result.now ≡ self.now }
    {
        self.names.as_slice()
    }

    /// Where the path leads. It is split at its first `.snap`.
    pub fn target(&self) -> Target<'_>
        ensures { place_said result ≡ place_of self.now }
    {
        let names = self.names();
        match first_snap(names) {
            None => Target::Live(names),
            Some(i) => target_behind(&names[..i], &names[i + 1..]),
        }
    }
}

// Where the first `.snap` stands.
fn first_snap(names: &[Name]) -> Option<usize>
    ensures found { result ≡ position is_dot_snap names.now }
    ensures within { IfSome result (λ i. i < length names.now) }
{
    names.iter().position(|name| name.is_dot_snap())
}

// Where a path leads whose `.snap` stands between these names.
fn target_behind<'a>(dir: &'a [Name], behind: &'a [Name]) -> Target<'a>
    ensures { place_said result ≡ place_behind dir.now behind.now }
{
    match behind.split_first() {
        None => Target::Snaps(dir),
        Some((name, rest)) => Target::InSnap(dir, name, rest),
    }
}

// The names of what follows the first slash of a path.
fn names_behind(alloc: Global, text: &[u8]) -> Result<Vec<Name>, NoMemory>
    ensures { IfOk result (λ names. IfSome (names_of text.now) (λ spelled. names.items ≡ spelled)) }
{
    if text.is_empty() {
        return Ok(Vec::new(alloc));
    }
    let parts = pieces(alloc, text, b'/')?;
    names_spelled(alloc, &parts)
}

// The names that texts spell which are all names.
fn names_spelled(alloc: Global, texts: &[&[u8]]) -> Result<Vec<Name>, NoMemory>
    ensures { IfOk result (λ names. names.items ≡ map (λ text. text.now) texts.now) }
{
    let mut names = Vec::with_capacity(alloc, texts.len())?;
    for text in texts {
        match Name::new(alloc, text) {
            Ok(name) => names.push(name)?,
            Err(_) => return Err(NoMemory),
        }
    }
    Ok(names)
}
