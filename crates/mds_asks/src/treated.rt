// What comes of a request in hand.

// What came of it.
#[derive(Clone, Copy)]
pub(crate) enum Treated {
    // It is done with: whether a Read was raised to Write.
    Done(bool),
    // It is to be held.
    Waits,
}
