//! The state of a metadata server with its acts: what it knows, what it makes and hasn't sent, and the small changes of
//! which its rules are made. Ceph developer guide, CephFS Snapshots.
#![tactic(auto)]

mod background;
mod buffering;
mod change;
mod holders;
mod links;
mod looks;
mod notices;
mod rows;
mod state;
mod telling;
mod tenures;
mod waiting;
mod written;

pub use change::effects_of;
pub use held_requests::Asked;
pub use state::MdsState;
pub use tenures::Given;
