//! The contexts of the files that a client holds for writing, as it last heard of them.
#![tactic(auto)]

mod realms;

pub use realms::ClientRealms;

#[cfg(test)]
mod tests;
