//! Tests of the texts that a run reads and writes, over their public calls alone.
#![tactic(auto)]

#[cfg(test)]
mod replies;
#[cfg(test)]
mod scripts;
