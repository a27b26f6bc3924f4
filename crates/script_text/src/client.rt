// What a client's line asks.
ghost use Rattle.std.specs.Prelude.{◌≡◌, is_some, IfOk, IsSome};
ghost use Rattle.snap_ids.specs.Path.{path_of};
ghost use Rattle.script_text.specs.Lines.{words_of};
ghost use Rattle.script_text.specs.Verbs.{is_verb_of_path, is_verb_of_handle};
ghost use Rattle.script_text.specs.Asked.{handle_of, access_of, bare_line, short_line, paired_line, long_line, asked};

use crate::cut::{Words, cut_words};
use crate::number::{bytes_of, is_hex, mode_of, small_of, within};
use plain_types::Line;
use snap_ids::{NoMemory, Path, PathError};
use std::alloc::Global;

// The handle that a word spells.
fn handle_of(word: &[u8]) -> Option<u8>
    ensures { result ≡ handle_of word.now }
{
    within(1, 64, word).map(|n| n as u8)
}

// Whether a word says that a file may be changed.
fn access_of(word: &[u8]) -> Option<bool>
    ensures { result ≡ access_of word.now }
{
    if word == b"w".as_slice() {
        Some(true)
    } else if word == b"r".as_slice() {
        Some(false)
    } else {
        None
    }
}

// The path that a word spells.
fn path_of(alloc: Global, word: &[u8]) -> Result<Option<Path>, NoMemory>
    ensures { IfOk result (λ path. path ≡ path_of word.now) }
{
    match Path::parse(alloc, word) {
        Ok(path) => Ok(Some(path)),
        Err(PathError::BadPath) => Ok(None),
        Err(PathError::NoMemory) => Err(NoMemory),
    }
}

// What a verb asks alone.
fn bare_line(verb: &[u8]) -> Option<Line>
    ensures { result ≡ bare_line verb.now }
{
    if verb == b"barrier".as_slice() {
        Some(Line::Barrier)
    } else if verb == b"break".as_slice() {
        Some(Line::Break)
    } else {
        None
    }
}

// What a verb asks with one word.
fn short_line(alloc: Global, verb: &[u8], word: &[u8]) -> Result<Option<Line>, NoMemory>
    ensures { IfOk result (λ line. line ≡ short_line verb.now word.now) }
{
    if verb == b"mkdir".as_slice() {
        Ok(path_of(alloc, word)?.map(|path| Line::Mkdir { path }))
    } else if verb == b"rmdir".as_slice() {
        Ok(path_of(alloc, word)?.map(|path| Line::Rmdir { path }))
    } else if verb == b"unlink".as_slice() {
        Ok(path_of(alloc, word)?.map(|path| Line::Unlink { path }))
    } else if verb == b"cat".as_slice() {
        Ok(path_of(alloc, word)?.map(|path| Line::Cat { path }))
    } else if verb == b"stat".as_slice() {
        Ok(path_of(alloc, word)?.map(|path| Line::Stat { path }))
    } else if verb == b"ls".as_slice() {
        Ok(path_of(alloc, word)?.map(|path| Line::List { path }))
    } else if verb == b"realm".as_slice() {
        Ok(path_of(alloc, word)?.map(|path| Line::Realm { path }))
    } else if verb == b"close".as_slice() {
        Ok(handle_of(word).map(|handle| Line::Close { handle }))
    } else if verb == b"read".as_slice() {
        Ok(handle_of(word).map(|handle| Line::Read { handle }))
    } else {
        Ok(None)
    }
}

// What a verb asks with two words.
fn paired_line(alloc: Global, verb: &[u8], a: &[u8], b: &[u8]) -> Result<Option<Line>, NoMemory>
    ensures { IfOk result (λ line. line ≡ paired_line verb.now a.now b.now) }
{
    if verb == b"create".as_slice() {
        let words = path_of(alloc, a)?.zip(mode_of(b));
        Ok(words.map(|(path, mode)| Line::Create { path, mode }))
    } else if verb == b"chmod".as_slice() {
        let words = path_of(alloc, a)?.zip(mode_of(b));
        Ok(words.map(|(path, mode)| Line::Chmod { path, mode }))
    } else if verb == b"link".as_slice() {
        let words = path_of(alloc, a)?.zip(path_of(alloc, b)?);
        Ok(words.map(|(path, target)| Line::Link { path, target }))
    } else if verb == b"rename".as_slice() {
        let words = path_of(alloc, a)?.zip(path_of(alloc, b)?);
        Ok(words.map(|(path, target)| Line::Rename { path, target }))
    } else if verb == b"clones".as_slice() {
        let words = path_of(alloc, a)?.zip(small_of(b));
        Ok(words.map(|(path, index)| Line::Clones { path, index }))
    } else if verb == b"truncate".as_slice() {
        let words = handle_of(a).zip(small_of(b));
        Ok(words.map(|(handle, length)| Line::Truncate { handle, length }))
    } else {
        Ok(None)
    }
}

// What a verb asks with three words.
fn long_line(
    alloc: Global,
    verb: &[u8],
    a: &[u8],
    b: &[u8],
    c: &[u8],
) -> Result<Option<Line>, NoMemory>
    ensures { IfOk result (λ line. line ≡ long_line verb.now a.now b.now c.now) }
{
    if verb == b"open".as_slice() {
        let words = handle_of(a).zip(path_of(alloc, b)?).zip(access_of(c));
        Ok(words.map(|((handle, path), writable)| Line::Open {
            handle,
            path,
            writable,
        }))
    } else if verb == b"write".as_slice() {
        let words = handle_of(a).zip(small_of(b)).zip(bytes_of(alloc, c)?);
        Ok(words.map(|((handle, offset), bytes)| Line::Write {
            handle,
            offset,
            bytes,
        }))
    } else {
        Ok(None)
    }
}

// What the words behind the client ask.
pub fn asked(alloc: Global, text: &[u8]) -> Result<Option<Line>, NoMemory>
    ensures { IfOk result (λ line. line ≡ asked (words_of text.now)) }
{
    match cut_words(text) {
        Words::One(verb) => Ok(bare_line(verb)),
        Words::Two(verb, word) => short_line(alloc, verb, word),
        Words::Three(verb, a, b) => paired_line(alloc, verb, a, b),
        Words::Four(verb, a, b, c) => long_line(alloc, verb, a, b, c),
        Words::Many => Ok(None),
    }
}

// Whether a verb is one that has a path, and nothing else.
fn is_verb_of_path(verb: &[u8]) -> bool
    ensures { result ≡ is_verb_of_path verb.now }
{
    verb == b"mkdir".as_slice()
        || verb == b"rmdir".as_slice()
        || verb == b"unlink".as_slice()
        || verb == b"cat".as_slice()
        || verb == b"stat".as_slice()
        || verb == b"ls".as_slice()
        || verb == b"realm".as_slice()
}

// Whether a verb is one that has a handle, and nothing else.
fn is_verb_of_handle(verb: &[u8]) -> bool
    ensures { result ≡ is_verb_of_handle verb.now }
{
    verb == b"close".as_slice() || verb == b"read".as_slice()
}

// Whether a verb with one word asks something.
fn is_short_line(verb: &[u8], word: &[u8]) -> bool
    ensures { result ≡ is_some (short_line verb.now word.now) }
{
    if is_verb_of_path(verb) {
        Path::is_path(word)
    } else if is_verb_of_handle(verb) {
        handle_of(word).is_some()
    } else {
        false
    }
}

// Whether a verb with two words asks something.
fn is_paired_line(verb: &[u8], a: &[u8], b: &[u8]) -> bool
    ensures { result ≡ is_some (paired_line verb.now a.now b.now) }
{
    if verb == b"create".as_slice() || verb == b"chmod".as_slice() {
        Path::is_path(a) && mode_of(b).is_some()
    } else if verb == b"link".as_slice() || verb == b"rename".as_slice() {
        Path::is_path(a) && Path::is_path(b)
    } else if verb == b"clones".as_slice() {
        Path::is_path(a) && small_of(b).is_some()
    } else if verb == b"truncate".as_slice() {
        handle_of(a).is_some() && small_of(b).is_some()
    } else {
        false
    }
}

// Whether a verb with three words asks something.
fn is_long_line(verb: &[u8], a: &[u8], b: &[u8], c: &[u8]) -> bool
    ensures { result ≡ is_some (long_line verb.now a.now b.now c.now) }
{
    if verb == b"open".as_slice() {
        handle_of(a).is_some() && Path::is_path(b) && access_of(c).is_some()
    } else if verb == b"write".as_slice() {
        handle_of(a).is_some() && small_of(b).is_some() && is_hex(c)
    } else {
        false
    }
}

// Whether the words behind the client ask something. It takes no memory.
pub fn is_asked(text: &[u8]) -> bool
    ensures { result ≡ is_some (asked (words_of text.now)) }
{
    match cut_words(text) {
        Words::One(verb) => bare_line(verb).is_some(),
        Words::Two(verb, word) => is_short_line(verb, word),
        Words::Three(verb, a, b) => is_paired_line(verb, a, b),
        Words::Four(verb, a, b, c) => is_long_line(verb, a, b, c),
        Words::Many => false,
    }
}
