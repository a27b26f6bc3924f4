//! What the metadata server drops of its tables once a snapshot is removed.
#![tactic(auto)]

mod trim;

pub use trim::{next_trim, trim_all};

#[cfg(test)]
mod tests;
