//! Tests of the objects that clone, of the store over them and of the channels, over their public calls alone.
#![tactic(auto)]

#[cfg(test)]
mod channels;
#[cfg(test)]
mod objects;
#[cfg(test)]
mod store;
