//! What a client holds: files in the order in which they were held, each with the changes and marks that it keeps back.
//! The definitions stand in `specs/`. Beside the two types that they share with code, the functions here have no body, and
//! their contracts are small stories of the definitions.
#![tactic(auto)]

mod due;
mod examples;
mod piece;

pub use due::Due;
pub use examples::{
    a_mark_waits_for_older_pieces, a_raise_clears_the_recall, a_reader_drops_its_file,
    a_recalled_writer_gives_back, files_take_turns, pieces_lie_over_stored_bytes,
};
pub use piece::Piece;
