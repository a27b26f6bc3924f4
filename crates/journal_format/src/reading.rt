// Entries, read from bytes.
ghost use Rattle.std.specs.Prelude.{◌≡◌, List, Some, IfOk, IfSome};
ghost use Rattle.plain_types.specs.declared.entry.Entry.{Entry};
ghost use Rattle.journal_format.specs.declared.unread.Unread.TheVariants as why;
ghost use Rattle.journal_format.specs.Bytes.{bytes_of_all, AreEntries};
ghost use Rattle.journal_format.specs.Reading.{Gives, entry_at, Reads};

use crate::fields::{take_byte, take_u64};
use crate::unread::Unread;
use crate::what_reading::take_what;
use plain_types::{Entry, EntryList};
use snap_ids::NoMemory;
use std::alloc::Global;

// The entry at the front.
#[tactic(auto, unfolding(crate::specs::Reading::entry_at))]
fn take_entry(alloc: Global, bytes: &[u8]) -> Result<(Entry, &[u8]), Unread>
    ensures { Gives (λ x. (x.0, x.1.now)) result (entry_at bytes.now) }
{
    let (kind, rest) = take_byte(bytes)?;
    let (client, rest) = take_byte(rest)?;
    let (number, rest) = take_u64(rest)?;
    let (what, rest) = take_what(alloc, kind, rest)?;
    let entry = Entry {
        client,
        number,
        what,
    };
    Ok((entry, rest))
}

// All entries of the bytes.
fn take_entries(alloc: Global, bytes: &[u8]) -> Result<EntryList, Unread>
    ensures { Reads bytes.now result }
{
    let mut entries = EntryList::new(alloc);
    let mut rest = bytes;
    while !rest.is_empty() {
        let (entry, after) = take_entry(alloc, rest)?;
        entries.push(entry)?;
        rest = after;
    }
    Ok(entries)
}

/// The list of entries that these are the bytes of; None where they are of no list.
///
/// An entry is its kind and its client, a byte each, its number, and the fields of what it says. Numbers are
/// big-endian and as wide as their types, a name has a byte with its length in front, and a flag is 0 or 1.
pub fn decode(alloc: Global, bytes: &[u8]) -> Result<Option<EntryList>, NoMemory>
    // What is read has these bytes.
    ensures found { IfOk result (λ read. IfSome read (λ entries.
        AreEntries entries × (bytes.now ≡ bytes_of_all entries))) }
    // What has these bytes is read.
    ensures only { IfOk result (λ read. (entries : List Entry) → AreEntries entries →
        bytes.now ≡ bytes_of_all entries → read ≡ Some entries) }
{
    match take_entries(alloc, bytes) {
        Ok(entries) => Ok(Some(entries)),
        Err(Unread::Malformed) => Ok(None),
        Err(Unread::NoMemory) => Err(NoMemory),
    }
}
