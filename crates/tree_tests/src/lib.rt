//! Tests of the tree of a metadata server as one state, over its public calls alone.
#![tactic(auto)]

#[cfg(test)]
mod answers;
#[cfg(test)]
mod decisions;
#[cfg(test)]
mod states;
