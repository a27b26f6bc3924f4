//! The object store as a node: it carries out each message that it takes, and answers it.
#![tactic(auto)]

mod fits;
mod node;
mod serve;
mod store;

pub use store::Store;
