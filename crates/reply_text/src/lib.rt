//! The text of a run: its replies line by line or as JSON, its steps as a schedule, or a summary.
#![tactic(auto)]

mod answer;
mod form;
mod laws;
mod lists;
mod number;
mod objects;
mod order;
mod steps;
mod summary;

pub use form::{Form, write_text};
pub use laws::small_texts;
pub use number::push_number;
