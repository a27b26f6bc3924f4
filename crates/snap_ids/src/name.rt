// A name of an entry or of a snapshot.
ghost use Rattle.std.specs.Prelude.{◌≡◌, ◌↔◌, false, IsTrue, IfOk, IsErrOf};
ghost use Rattle.std.specs.List.{list_all};
ghost use Rattle.snap_ids.specs.Name.{is_name_byte, has_name_length, is_dots, is_name, is_new, is_new_snap, is_dot_snap};
ghost use Rattle.snap_ids.specs.declared.name.NameError.TheVariants.{NoMemory};
ghost use Rattle.std.specs.Prelude.{nat_eq, refl};
ghost use Rattle.std.specs.Ordering.{nat_cmp, as_partial_cmp};
ghost use Rattle.std.specs.Cmp.{partial_order_from_own_ties};
ghost use Rattle.std.specs.Cmp.Rules.{comparing};
ghost use Rattle.std.specs.Cmp.Lexicographic.{pointwise, slice_cmp};
ghost use Rattle.std.proofs.Common.{rules};

use std::alloc::{AllocError, Global};
use std::cmp::Ordering;
use std::marker::Model;
use thiserror::Error;

/// A name: 1 to 96 bytes of `a-z A-Z 0-9 . _ -`, and neither `.` nor `..`. Contracts see its bytes.
#[derive(Clone, Debug, Drop)]
pub struct Name {
    bytes: Vec<u8>,
}

impl Model for Name {
    ghost use Rattle.std.specs.Prelude.{ℕ, List, IsTrue};
    ghost use Rattle.snap_ids.specs.Name.{is_name};

    ghost Value = { List ℕ };

    ghost view = { λ name. name.bytes.items };

    ghost invariant = { λ name. IsTrue (is_name name.bytes.items) };
}

impl PartialEq for Name {
    ghost eq = { pointwise nat_eq };

    ghost laws = { Prim.search (comparing, rules) };

    fn eq(&self, other: &Self) -> bool {
        self.bytes == other.bytes
    }
}

impl Eq for Name {
    ghost laws = { Prim.search (comparing, rules) };
}

/// Names stand in the order of their bytes.
impl PartialOrd for Name {
    ghost partial_cmp = { as_partial_cmp (slice_cmp nat_cmp) };

    ghost laws = { partial_order_from_own_ties (Prim.search (comparing, rules)) (Prim.search (comparing, rules)) };

    fn partial_cmp(&self, other: &Self) -> Option<Ordering> {
        Some(self.cmp(other))
    }
}

impl Ord for Name {
    ghost cmp = { slice_cmp nat_cmp };

    ghost total = { Prim.search (comparing, rules) };

    ghost matches_partial_cmp = { λ x y. refl };

    ghost matches_eq = { Prim.search (comparing, rules) };

    fn cmp(&self, other: &Self) -> Ordering {
        self.bytes.cmp(&other.bytes)
    }
}

/// Why a text is refused as a name.
#[derive(Clone, Copy, Debug, PartialEq, Eq, Error)]
pub enum NameError {
    #[error("not a name")]
    BadName,
    #[error("out of memory")]
    NoMemory,
}

impl From<AllocError> for NameError {
    ghost from_gives = { λ _ e. e ≡ NoMemory };

    fn from(_: AllocError) -> Self {
        NameError::NoMemory
    }
}

fn is_name_byte(b: u8) -> bool
    ensures { result ≡ is_name_byte b }
{
    b.is_ascii_alphanumeric() || b == b'.' || b == b'_' || b == b'-'
}

fn is_dots(text: &[u8]) -> bool
    ensures { result ≡ is_dots text.now }
{
    text == b".".as_slice() || text == b"..".as_slice()
}

fn has_name_bytes(text: &[u8]) -> bool
    ensures { result ≡ list_all is_name_byte text.now }
{
    text.iter().all(|b| is_name_byte(*b))
}

fn has_name_length(text: &[u8]) -> bool
    ensures { result ≡ has_name_length text.now }
{
    !text.is_empty() && text.len() <= 96
}

// Whether a text is a name.
pub fn is_name(text: &[u8]) -> bool
    ensures { result ≡ is_name text.now }
{
    has_name_length(text) && has_name_bytes(text) && !is_dots(text)
}

impl Name {
    /// The name that a text spells.
    pub fn new(alloc: Global, text: &[u8]) -> Result<Name, NameError>
        ensures spelled { IfOk result (λ name. name ≡ text.now) }
        ensures bad_name { IsErrOf result NameError.BadName ↔ (is_name text.now ≡ false) }
    {
        if !is_name(text) {
            return Err(NameError::BadName);
        }
        let bytes = text.to_vec(alloc)?;
        Ok(Name { bytes })
    }

    /// The name's bytes.
    pub fn as_bytes(&self) -> &[u8]
        ensures bytes { result.now ≡ self.now }
        ensures spelled { IsTrue (is_name self.now) }
    {
        &self.bytes
    }

    /// Whether it is `.snap`, the name of each directory's hidden directory of snapshots.
    pub fn is_dot_snap(&self) -> bool
        ensures { result ≡ is_dot_snap self.now }
    {
        self.bytes.as_slice() == b".snap".as_slice()
    }

    /// Whether a new entry may have this name: at most 64 bytes, and not `.snap`.
    pub fn is_new(&self) -> bool
        ensures { result ≡ is_new self.now }
    {
        self.bytes.len() <= 64 && !self.is_dot_snap()
    }

    /// Whether a new snapshot may have this name: that of a new entry, without a leading `_`, which
    /// inherited snapshots have. Ceph developer guide, CephFS Snapshots.
    pub fn is_new_snap(&self) -> bool
        ensures { result ≡ is_new_snap self.now }
    {
        self.is_new() && self.bytes.first() != Some(&b'_')
    }
}
