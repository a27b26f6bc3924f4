//! The attributes of inodes by intervals of ids of snapshots: what each inode is now, and what it was.
#![tactic(auto)]

mod attr;
mod error;
mod history;
mod table;

pub use attr::Attr;
pub use error::InodeError;
pub use table::InodeTable;

#[cfg(test)]
mod tests;
