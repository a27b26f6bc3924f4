//! A client's own steps: a line is begun, and what is due is sent.
#![tactic(auto)]

mod asked;
mod begin;
mod edit;
mod items;
mod steps;

pub use steps::{flush, may_flush, may_op, op};
