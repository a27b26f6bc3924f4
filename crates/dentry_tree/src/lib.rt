//! The entries of a tree, with the ids of snapshots for which each is valid.
#![tactic(auto)]

mod dentry;
mod error;
mod kinds;
mod places;
#[cfg(test)]
mod tests;
mod tree;
mod version;

pub use error::TreeError;
pub use tree::DirTree;
