//! Ids, names, paths and contexts: the small values that every part of the file system speaks of.
#![tactic(auto)]

mod context;
mod id;
mod list;
mod memory;
mod name;
mod path;
mod text;
mod trace;
mod values;

pub use context::{ContextError, SnapContext};
pub use id::{FIRST_INO, FIRST_SNAP, GLOBAL, Ino, Interval, NOSNAP, ROOT, STRAY, SnapId};
pub use list::ListOf;
pub use memory::NoMemory;
pub use name::{Name, NameError};
pub use path::{Path, PathError, Target};
pub use text::pieces;
pub use trace::context_of;
pub use values::{Bytes, CloneList, Clones, Entries, Ids, Kind, Mode, RealmInfo, Trace};

#[cfg(test)]
mod tests;
