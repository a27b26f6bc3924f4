//! How a metadata server treats requests: one that is taken, and those that are held, which are decided anew when something
//! opens. Ceph developer guide, CephFS Snapshots.
#![tactic(auto)]

mod anew;
mod asking;
mod laws;
mod rounds;
mod treating;

pub use anew::decide_anew;
pub use asking::{ask, connect_with};
pub use laws::{
    acts_leave_a_server_ready, acts_leave_clients_one_request, acts_leave_requests_fit,
    flushes_were_past,
};
pub use rounds::then_held;
pub use treating::treat;
