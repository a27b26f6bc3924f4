//! What a metadata server makes of clients' flushes, of readers that let go, of a client that connects, and of what the
//! store reports. Ceph developer guide, CephFS Snapshots.
#![tactic(auto)]

mod back;
mod report;
mod taking;

pub use back::{come_back, may_connect};
pub use report::on_report;
pub use taking::{may_flush, on_drop, on_flush};
