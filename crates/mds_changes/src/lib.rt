//! How a metadata server treats a request for a change: a change of the tree is made and answered, an operation on the table
//! of snapshots is prepared or deferred, and what can't be done is refused. Ceph developer guide, CephFS Snapshots.
#![tactic(auto)]

mod effect;
mod operation;
mod treat;

pub use effect::make_effect;
pub use treat::{is_change, treat_change};
