// What a word spells, if it is no path.
ghost use Rattle.std.specs.Prelude.{◌≡◌, ◌∷◌, [], ◌≤◌, ◌^◌, ◌<◌, is_some, None, length, MatchOption, IfOk, OnErr, IfSome, IsSome, IsTrue, ◌&&◌, nat_le};
ghost use Rattle.std.specs.List.{list_all};
ghost use Rattle.std.specs.Char.{is_ascii_digit};
ghost use Rattle.hex.specs.Hex.{is_hex_digit};
ghost use Rattle.script_text.specs.Lines.{is_number, value_of, number_of, within, small_of, is_octal_digit, mode_of, bytes_of};

use snap_ids::{Bytes, NoMemory};
use std::alloc::Global;

fn are_digits(word: &[u8]) -> bool
    ensures { result ≡ list_all is_ascii_digit word.now }
{
    word.iter().all(|b| b.is_ascii_digit())
}

// Whether a word spells a number.
pub fn is_number(word: &[u8]) -> bool
    ensures { result ≡ is_number word.now }
{
    match word.split_first() {
        None => false,
        Some((first, rest)) => are_digits(word) && (rest.is_empty() || *first != b'0'),
    }
}

// The value of digits, if a u64 holds it.
pub fn value_of(digits: &[u8]) -> Option<u64>
    ensures { MatchOption result (2 ^ 64 ≤ value_of 0 digits.now) (λ n. n ≡ value_of 0 digits.now) }
{
    let mut n: u64 = 0;
    for b in digits {
        let digit = u64::from(b.saturating_sub(b'0'));
        let Some(tens) = n.checked_mul(10) else {
            return None;
        };
        let Some(more) = tens.checked_add(digit) else {
            return None;
        };
        n = more;
    }
    Some(n)
}

// The number that a word spells, if it is from `low` to `high`.
pub fn within(low: u64, high: u64, word: &[u8]) -> Option<u64>
    ensures { result ≡ within low high (number_of word.now) }
{
    if !is_number(word) {
        return None;
    }
    match value_of(word) {
        Some(n) if low <= n && n <= high => Some(n),
        _ => None,
    }
}

// The number below 2^32 that a word spells.
pub fn small_of(word: &[u8]) -> Option<u32>
    ensures { result ≡ small_of word.now }
{
    within(0, 4294967295, word).map(|n| n as u32)
}

// Whether a byte is an octal digit.
fn is_octal_digit(b: u8) -> bool
    ensures { result ≡ is_octal_digit b }
{
    b'0' <= b && b <= b'7'
}

// The mode that a word spells.
pub fn mode_of(word: &[u8]) -> Option<u16>
    ensures { result ≡ mode_of word.now }
{
    match word {
        [zero, a, b, c] => mode_of_digits(*zero, *a, *b, *c),
        _ => None,
    }
}

// The mode of four octal digits, the first of them 0.
fn mode_of_digits(zero: u8, a: u8, b: u8, c: u8) -> Option<u16>
    ensures { result ≡ mode_of (zero ∷ a ∷ b ∷ c ∷ []) }
{
    if zero == b'0' && is_octal_digit(a) && is_octal_digit(b) && is_octal_digit(c) {
        Some(u16::from(a - b'0') * 64 + u16::from(b - b'0') * 8 + u16::from(c - b'0'))
    } else {
        None
    }
}

// Whether a byte is a hex digit of either case.
fn is_hex_digit(b: u8) -> bool
    ensures { result ≡ is_hex_digit b }
{
    b.is_ascii_hexdigit()
}

fn are_hex_digits(word: &[u8]) -> bool
    ensures { result ≡ list_all is_hex_digit word.now }
{
    word.iter().all(|b| is_hex_digit(*b))
}

// Whether a word spells bytes: one or more pairs of hex digits.
pub fn is_hex(word: &[u8]) -> bool
    ensures { result ≡ is_some (bytes_of word.now) }
{
    if word.is_empty() {
        return false;
    }
    word.len() % 2 == 0 && are_hex_digits(word)
}

// The bytes that a word spells.
pub fn bytes_of(alloc: Global, word: &[u8]) -> Result<Option<Bytes>, NoMemory>
    ensures { IfOk result (λ bytes. bytes ≡ bytes_of word.now) }
{
    if !is_hex(word) {
        return Ok(None);
    }
    match hex::decode(alloc, word) {
        Ok(bytes) => Ok(Some(Bytes::from_vec(bytes))),
        Err(_) => Err(NoMemory),
    }
}
