//! The requests that wait at a metadata server: for a capability, for other clients at a barrier, or for the outstanding
//! operation on the snapshot table. They stand in the order of their arrival, and each client's are found by its number.
#![tactic(auto)]

mod asked;
mod index;
mod laws;
mod order;
mod waiting;

pub use asked::Asked;
pub use laws::{calls_are_the_acts, waits_are_the_tables};
pub use waiting::Waiting;

#[cfg(test)]
mod tests;
