// What a line comes to.
use crate::answer::Answer;
use crate::change::Change;

/// What a line comes to: a change of the tree, or an answer alone.
#[derive(Clone, Debug, PartialEq, Eq, Drop)]
pub enum Decision {
    Put(Change),
    Say(Answer),
}
