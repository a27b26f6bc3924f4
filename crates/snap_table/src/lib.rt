//! The table of snapshots of a file system's metadata server: which ids were given, which snapshots live, which are
//! destroyed and not purged, and the operation that is outstanding. Ceph developer guide, CephFS Snapshots.
#![tactic(auto)]

mod ids;
mod op;
mod table;

pub use op::{TableError, TableOp};
pub use table::SnapTable;

#[cfg(test)]
mod tests;
