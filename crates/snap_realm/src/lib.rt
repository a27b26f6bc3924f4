//! The tree of snapshot realms of the metadata server: from it come the context of each file, the ids that its old bytes
//! are kept for, and the names under `.snap`. Ceph developer guide, CephFS Snapshots.
#![tactic(auto)]

mod error;
mod laws;
mod names;
mod snaps;
mod tree;
mod walk;

pub use error::RealmError;
pub use laws::{a_story_tells_the_conditions, a_trace_gives_the_context};
pub use tree::RealmTree;

#[cfg(test)]
mod tests;
