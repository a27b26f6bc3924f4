//! Tests of the nodes and of the parts that make them, over their public calls alone.
#![tactic(auto)]

#[cfg(test)]
mod server_flushes;
#[cfg(test)]
mod server_state;
