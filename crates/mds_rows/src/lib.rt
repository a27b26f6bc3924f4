//! Each step of a metadata server: a message of a client, a report of the store, the background turn, a commit and a
//! restart. Ceph developer guide, CephFS Snapshots.
#![tactic(auto)]

mod fits;
mod laws;
mod rest;
mod sending;
mod taking;
mod tending;

pub use laws::rows_leave_requests_fit;
pub use rest::{commit, report, restart};
pub use taking::take;
pub use tending::{can_tend, tend};
