//! The object store's objects, with the clones that they keep for snapshots.
#![tactic(auto)]

mod error;
mod extents;
mod file;
mod files;
mod listing;
mod object;
mod purged;
mod store;

pub use error::StoreError;
pub use store::ObjectStore;
