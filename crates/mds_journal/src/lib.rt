//! The metadata server's journal: batches of entries on a disk that may fail, and that a crash may stop at any moment.
#![tactic(auto)]

mod append;
mod calls;
mod fault;
mod journal;
mod recover;
mod scan;

pub use fault::{JournalError, JournalFault};
pub use journal::Journal;
pub use journal_format::{decode, encode};

#[cfg(test)]
mod tests;
