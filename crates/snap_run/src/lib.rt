//! The program's one call: a script's bytes in, the bytes of its replies out.
#![tactic(auto)]

mod edge;
mod ends;
mod run;
mod serve;
mod verdict;

pub use run::run_tool;
pub use verdict::{Report, run_bytes};

#[cfg(test)]
mod end_tests;
#[cfg(test)]
mod reply_tests;
#[cfg(test)]
mod tests;
