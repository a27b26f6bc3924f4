//! The client as a node: it goes on with its lines, sends what is due, and takes what server and store tell it. Each step is
//! a row of the protocol's table.
#![tactic(auto)]

mod client;
mod lines;
mod node;
mod own;

pub use client::Client;
