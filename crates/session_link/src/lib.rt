//! One client's link at the server: which connection is current, which request had an effect last, which flush was
//! taken last.
#![tactic(auto)]

mod session;

pub use session::{OldConnection, Session};

#[cfg(test)]
mod tests;
