//! Scripts: their grammar, the parser that is proved against it, and what a run of one comes to.
#![tactic(auto)]

mod client;
mod cut;
mod error;
mod laws;
mod number;
mod outcome;
mod parser;
mod places;
mod reading;
mod schedule;
mod seeded;

pub use error::ScriptError;
pub use laws::{accepted_inputs_are_short, small_inputs, small_scripts, the_front_decides};
pub use outcome::{End, Outcome};
pub use parser::parse;
pub use places::number_at;
pub use seeded::load;
