//! Whom the metadata server tells that the realms of files have changed.
#![tactic(auto)]

mod notice;

pub use notice::{has_all, notices};

#[cfg(test)]
mod tests;
