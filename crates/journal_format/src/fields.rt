// The fields of an entry, read from the front of bytes.
ghost use Rattle.std.specs.Prelude.{◌≡◌};
ghost use Rattle.std.specs.Int.{w16, w32, w64};
ghost use Rattle.journal_format.specs.Reading.{Gives, byte_at, number_at, flag_at, name_at};

use crate::unread::Unread;
use snap_ids::{Name, NameError};
use std::alloc::Global;

// The first byte.
pub fn take_byte(bytes: &[u8]) -> Result<(u8, &[u8]), Unread>
    ensures { Gives (λ x. (x.0, x.1.now)) result (byte_at bytes.now) }
{
    match bytes {
        [] => Err(Unread::Malformed),
        [byte, rest @ ..] => Ok((*byte, rest)),
    }
}

// A number of two bytes.
pub fn take_u16(bytes: &[u8]) -> Result<(u16, &[u8]), Unread>
    ensures { Gives (λ x. (x.0, x.1.now)) result (number_at w16 bytes.now) }
{
    if bytes.len() < 2 {
        return Err(Unread::Malformed);
    }
    let (front, rest) = bytes.split_at(2);
    let number = u16::from_be_bytes([front[0], front[1]]);
    Ok((number, rest))
}

// A number of four bytes.
pub fn take_u32(bytes: &[u8]) -> Result<(u32, &[u8]), Unread>
    ensures { Gives (λ x. (x.0, x.1.now)) result (number_at w32 bytes.now) }
{
    if bytes.len() < 4 {
        return Err(Unread::Malformed);
    }
    let (front, rest) = bytes.split_at(4);
    let number = u32::from_be_bytes([front[0], front[1], front[2], front[3]]);
    Ok((number, rest))
}

// A number of eight bytes.
pub fn take_u64(bytes: &[u8]) -> Result<(u64, &[u8]), Unread>
    ensures { Gives (λ x. (x.0, x.1.now)) result (number_at w64 bytes.now) }
{
    if bytes.len() < 8 {
        return Err(Unread::Malformed);
    }
    let (front, rest) = bytes.split_at(8);
    let number = u64::from_be_bytes([
        front[0], front[1], front[2], front[3], front[4], front[5], front[6], front[7],
    ]);
    Ok((number, rest))
}

// A flag, which is one byte.
#[tactic(auto, unfolding(crate::specs::Reading::flag_at))]
pub fn take_flag(bytes: &[u8]) -> Result<(bool, &[u8]), Unread>
    ensures { Gives (λ x. (x.0, x.1.now)) result (flag_at bytes.now) }
{
    match bytes {
        [] => Err(Unread::Malformed),
        [0, rest @ ..] => Ok((false, rest)),
        [1, rest @ ..] => Ok((true, rest)),
        [_, ..] => Err(Unread::Malformed),
    }
}

// A name: its length in one byte, and its bytes.
#[tactic(auto, unfolding(crate::specs::Reading::name_at))]
pub fn take_name(alloc: Global, bytes: &[u8]) -> Result<(Name, &[u8]), Unread>
    ensures { Gives (λ x. (x.0, x.1.now)) result (name_at bytes.now) }
{
    let (length, rest) = take_byte(bytes)?;
    let length = length as usize;
    if rest.len() < length {
        return Err(Unread::Malformed);
    }
    let (text, rest) = rest.split_at(length);
    match Name::new(alloc, text) {
        Ok(name) => Ok((name, rest)),
        Err(NameError::BadName) => Err(Unread::Malformed),
        Err(NameError::NoMemory) => Err(Unread::NoMemory),
    }
}
