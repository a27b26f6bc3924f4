// The context of a write: for which snapshots the old bytes are to be kept.
ghost use Rattle.std.specs.Prelude.{◌≡◌, ◌↔◌, ◌<◌, true, false, IsTrue, IfOk, IsErrOf};
ghost use Rattle.snap_ids.specs.Context.{falls, begins_below, begins_above, is_context, is_listed};

use crate::id::SnapId;
use crate::values::Ids;
use std::marker::Model;
use thiserror::Error;

/// A sequence id, and ids that fall strictly, none of them above it. Contracts see the record of the two. Ceph developer
/// guide, CephFS Snapshots, "SnapContext".
#[derive(Clone, Debug, PartialEq, Eq, Drop)]
pub struct SnapContext {
    seq: SnapId,
    ids: Ids,
}

impl Model for SnapContext {
    ghost use Rattle.std.specs.Prelude.{IsTrue};
    ghost use Rattle.snap_ids.specs.Context.{Context, is_context};

    ghost Value = { Context };

    ghost view = { λ context. record { seq = context.seq; ids = context.ids } };

    ghost inverse = { λ context. record { seq = context.seq; ids = context.ids } };

    ghost invariant = { λ context. IsTrue (is_context (record { seq = context.seq; ids = context.ids })) };
}

/// Why ids are refused as those of a context.
#[derive(Clone, Copy, Debug, PartialEq, Eq, Error)]
pub enum ContextError {
    /// Two neighbours don't fall strictly.
    #[error("the ids don't fall")]
    NotDescending,
    /// They fall, and the first is above the sequence id.
    #[error("an id is above the sequence id")]
    AboveSeq,
}

// Whether the ids fall strictly.
fn falls(ids: &[SnapId]) -> bool
    ensures { result ≡ falls ids.now }
{
    let mut left = ids;
    while let Some((first, rest)) = left.split_first() {
        if !begins_below(*first, rest) {
            return false;
        }
        left = rest;
    }
    true
}

// Whether the first of some ids, if there is one, is below another id.
fn begins_below(id: SnapId, ids: &[SnapId]) -> bool
    ensures { result ≡ begins_below id ids.now }
{
    match ids.first() {
        Some(first) => *first < id,
        None => true,
    }
}

// Whether the first of some ids is above a sequence id.
fn begins_above(seq: SnapId, ids: &[SnapId]) -> bool
    ensures { result ≡ begins_above seq ids.now }
{
    match ids.first() {
        Some(first) => seq < *first,
        None => false,
    }
}

impl SnapContext {
    /// The context of a sequence id and of ids. It takes no memory; refused ids are dropped.
    pub fn new(seq: SnapId, ids: Ids) -> Result<SnapContext, ContextError>
        ensures made { IfOk result (λ context. context ≡ record { seq = seq; ids = ids }) }
        ensures not_descending { IsErrOf result ContextError.NotDescending ↔ (falls ids ≡ false) }
        ensures above_seq { IsErrOf result ContextError.AboveSeq
            ↔ ((falls ids ≡ true) × (begins_above seq ids ≡ true)) }
    {
        if !falls(ids.as_slice()) {
            return Err(ContextError::NotDescending);
        }
        if begins_above(seq, ids.as_slice()) {
            return Err(ContextError::AboveSeq);
        }
        Ok(SnapContext { seq, ids })
    }

    // The context of a sequence id and of ids that are known to be right.
    pub(crate) fn made(seq: SnapId, ids: Ids) -> SnapContext
        requires { IsTrue (is_context (record { seq = seq; ids = ids })) }
        ensures { result ≡ record { seq = seq; ids = ids } }
    {
        SnapContext { seq, ids }
    }

    /// The sequence id.
    pub fn seq(&self) -> SnapId
        ensures seq { result ≡ self.now.seq }
        ensures well_formed { IsTrue (is_context self.now) }
    {
        self.seq
    }

    /// The ids, falling.
    pub fn ids(&self) -> &[SnapId]
        ensures ids { result.now ≡ self.now.ids }
        ensures well_formed { IsTrue (is_context self.now) }
    {
        self.ids.as_slice()
    }

    /// Whether an id is listed.
    pub fn knows(&self, s: SnapId) -> bool
        ensures { result ≡ is_listed s self.now.ids }
    {
        self.ids.as_slice().iter().any(|id| id.0 == s.0)
    }
}
