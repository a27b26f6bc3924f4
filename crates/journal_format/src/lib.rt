//! The journal's entries as bytes: each entry has its bytes, and a list of entries is read from exactly these.
#![tactic(auto)]

mod examples;
mod fields;
mod laws;
mod reading;
mod unread;
mod what_reading;
mod writing;

pub use examples::{a_journal_of_one_entry, a_journal_of_two_batches};
pub use laws::a_file_has_one_list;
pub use reading::decode;
pub use writing::encode;

#[cfg(test)]
mod tests;
