//! How a metadata server treats a request that asks for no change: for a file, for what a path leads to, for realms and
//! clones, and at a barrier. Ceph developer guide, CephFS Snapshots.
#![tactic(auto)]

mod caps;
mod queries;
mod sight;
mod treated;

pub use queries::{is_query, queries_count_no_others, treat_query};
