//! What a metadata server does in the background: it finishes the operation on the table of snapshots that is outstanding,
//! begins a deferred one, purges removed snapshots, collects dead files, and opens a barrier at which all clients wait.
//! Ceph developer guide, CephFS Snapshots.
#![tactic(auto)]

mod barrier;
mod collect;
mod finish;
mod own;
mod turning;

pub use turning::turn;
