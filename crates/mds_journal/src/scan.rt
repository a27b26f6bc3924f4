// A journal's batches, read from the bytes of its file.
ghost use Rattle.std.specs.Prelude.{◌≡◌, ◌++◌, ◌∷◌, [], ℕ, List, None, option_map, IfSome, IfErr, OnOk};
ghost use Rattle.journal_format.specs.Image.{header};
ghost use Rattle.journal_format.specs.Reading.{word_at};
ghost use Rattle.mds_journal.specs.declared.fault.JournalFault.TheVariants as why;
ghost use Rattle.mds_journal.specs.Faults.{ReadsBatch, Scans};
ghost use Rattle.mds_journal.specs.Batches.{body_at};

use crate::fault::JournalFault;
use journal_format::decode;
use plain_types::{Entry, EntryList};
use snap_ids::NoMemory;
use std::alloc::Global;

// The length in front of a batch's entries, and what stands behind it.
fn take_length(bytes: &[u8]) -> Option<(u32, &[u8])>
    ensures { option_map (λ x. (x.0, x.1.now)) result ≡ word_at bytes.now }
{
    if bytes.len() < 4 {
        return None;
    }
    let (front, rest) = bytes.split_at(4);
    let length = u32::from_be_bytes([front[0], front[1], front[2], front[3]]);
    Some((length, rest))
}

// The bytes of a batch's entries behind their length, and what stands behind them.
#[tactic(auto, unfolding(crate::specs::Batches::body_at))]
fn take_body(bytes: &[u8]) -> Option<(&[u8], &[u8])>
    ensures { option_map (λ x. (x.0.now, x.1.now)) result ≡ body_at bytes.now }
{
    let Some((length, rest)) = take_length(bytes) else {
        return None;
    };
    let length = length as usize;
    if length == 0 || rest.len() < length {
        return None;
    }
    Some(rest.split_at(length))
}

// The gate in front, and what stands behind it.
fn take_gate(bytes: &[u8]) -> Option<(u8, &[u8])>
    ensures some { IfSome result (λ x. bytes.now ≡ x.0 ∷ x.1.now) }
    ensures none { result ≡ None → bytes.now ≡ [] }
{
    match bytes {
        [] => None,
        [gate, rest @ ..] => Some((*gate, rest)),
    }
}

// The batch in front, and what stands behind it; None where a closed gate stands there.
fn next_batch(alloc: Global, bytes: &[u8]) -> Result<Option<(EntryList, &[u8])>, JournalFault>
    ensures { ReadsBatch (λ x. (x.0, x.1.now)) bytes.now result }
{
    let Some((gate, rest)) = take_gate(bytes) else {
        return Err(JournalFault::NotJournal);
    };
    if gate != 1 {
        return Ok(None);
    }
    let Some((body, behind)) = take_body(rest) else {
        return Err(JournalFault::NotJournal);
    };
    match decode(alloc, body) {
        Err(NoMemory) => Err(JournalFault::NoMemory),
        Ok(None) => Err(JournalFault::NotJournal),
        Ok(Some(batch)) => Ok(Some((batch, behind))),
    }
}

// Puts the entries of a batch behind those that were read before.
fn put_batch(entries: &mut Vec<Entry>, batch: EntryList) -> Result<(), JournalFault>
    ensures ok { OnOk result (entries.new.items ≡ entries.old.items ++ batch) }
    ensures err { IfErr result (λ e. e ≡ why.NoMemory) }
{
    let mut batch = batch.into_vec();
    match entries.append(&mut batch) {
        Ok(()) => Ok(()),
        Err(_) => Err(JournalFault::NoMemory),
    }
}

// What stands behind the header.
fn behind_header(bytes: &[u8]) -> Option<&[u8]>
    ensures some { IfSome result (λ x. bytes.now ≡ header ++ x.now) }
    ensures none { result ≡ None → (x : List ℕ) → bytes.now ≡ header ++ x → ⊥ }
{
    bytes.strip_prefix(b"SNAPJRN1")
}

// The entries of a journal's file, and the place of its closed gate.
pub fn scan(alloc: Global, bytes: &[u8]) -> Result<(EntryList, u64), JournalFault>
    ensures { Scans bytes.now result }
{
    let Some(mut rest) = behind_header(bytes) else {
        return Err(JournalFault::NotJournal);
    };
    let mut entries = Vec::new(alloc);
    while let Some((batch, behind)) = next_batch(alloc, rest)? {
        put_batch(&mut entries, batch)?;
        rest = behind;
    }
    let gate = bytes.len() - rest.len();
    Ok((EntryList::from_vec(entries), gate as u64))
}
