// Numbers and bytes as text.
ghost use Rattle.std.specs.Prelude.{◌≡◌, ◌++◌, [], ◌∷◌, decimal, OnOk, OnErr};
ghost use Rattle.hex.specs.Hex.{encode_lower};
ghost use Rattle.reply_text.specs.Count.{count_line};
ghost use Rattle.reply_text.specs.Answer.{octal_digit, mode_text, bytes_text};
ghost use Rattle.reply_text.specs.Plain.{IsPlain};

use itoa::Buffer;
use std::alloc::{AllocError, Global};

/// Puts a number behind a text, in decimal. Where there is no memory, the text stays as it was.
pub fn push_number(out: &mut Vec<u8>, n: u64) -> Result<(), AllocError>
    ensures ok { OnOk result (out.new.items ≡ out.old.items ++ decimal n) }
    ensures err { OnErr result (out.new.items ≡ out.old.items) }
{
    let mut buffer = Buffer::new();
    out.extend_from_slice(buffer.format(n).as_bytes())
}

// Puts words and a number behind a text.
pub(crate) fn push_counted(out: &mut Vec<u8>, words: &[u8], n: u64) -> Result<(), AllocError>
    ensures { OnOk result (out.new.items ≡ out.old.items ++ words.now ++ decimal n) }
{
    out.extend_from_slice(words)?;
    push_number(out, n)
}

// Puts a line of a word and a number behind a text.
pub(crate) fn push_count(out: &mut Vec<u8>, word: &[u8], n: u64) -> Result<(), AllocError>
    ensures { OnOk result (out.new.items ≡ out.old.items ++ count_line word.now n) }
{
    out.extend_from_slice(word)?;
    push_counted(out, b" ", n)?;
    out.push(b'\n')?;
    Ok(())
}

// The last octal digit of a number.
fn octal_digit(n: u16) -> u8
    ensures { result ≡ octal_digit n }
{
    b'0' + (n % 8) as u8
}

// Puts a mode behind a text: its last four octal digits.
pub(crate) fn push_mode(out: &mut Vec<u8>, mode: u16) -> Result<(), AllocError>
    ensures { OnOk result (out.new.items ≡ out.old.items ++ mode_text mode) }
{
    out.extend_from_slice(&[
        octal_digit(mode / 512),
        octal_digit(mode / 64),
        octal_digit(mode / 8),
        octal_digit(mode),
    ])
}

// Puts bytes behind a text, in hex.
pub(crate) fn push_hex(alloc: Global, out: &mut Vec<u8>, bytes: &[u8]) -> Result<(), AllocError>
    ensures pushed { OnOk result (out.new.items ≡ out.old.items ++ encode_lower bytes.now) }
    ensures plain { OnOk result (IsPlain (encode_lower bytes.now)) }
{
    let digits = hex::encode(alloc, bytes)?;
    out.extend_from_slice(digits.as_bytes())
}

// Puts a file's bytes behind a text, in hex, or `-` where it has none.
pub(crate) fn push_bytes(alloc: Global, out: &mut Vec<u8>, bytes: &[u8]) -> Result<(), AllocError>
    ensures pushed { OnOk result (out.new.items ≡ out.old.items ++ bytes_text bytes.now) }
    ensures plain { OnOk result (IsPlain (bytes_text bytes.now)) }
{
    if bytes.is_empty() {
        out.push(b'-')?;
        return Ok(());
    }
    push_hex(alloc, out, bytes)
}
