//! What a node is: server, client or store. Each step that a node makes is a row of a table, and contracts say which.
#![tactic(auto)]

mod laws;
mod node;

pub use laws::{a_peer_takes_what_is_sent, a_step_is_one_nodes, orders_and_reports_are_their_own};
pub use node::{Buffered, NodeCore, NodeError};

#[cfg(test)]
mod tests;
