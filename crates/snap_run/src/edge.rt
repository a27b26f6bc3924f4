// Reading all of a source, and writing all of a text.
ghost use Rattle.std.specs.Prelude.{◌≡◌, ◌≤◌, ◌<◌, ◌+◌, length, take, IfSome, IfOk, IfErr, OnOk, OnErr, IsErrOf};
ghost use Rattle.std.specs.Io.KnownBytes.{Consumes, Appends, IsAtEnd};
ghost use Rattle.io_edge.specs.Outside.{Rises, AppendsSome};
ghost use Rattle.snap_run.specs.declared.edge.ReadError.TheVariants as why;

use io_edge::{Failed, Sink, Source};
use std::alloc::{AllocError, Global};

/// Why an input couldn't be read.
#[derive(Debug, Drop)]
pub enum ReadError {
    Failed,
    NoMemory,
}

impl From<AllocError> for ReadError {
    ghost from_gives = { λ _ e. e ≡ why.NoMemory };

    fn from(_: AllocError) -> Self {
        ReadError::NoMemory
    }
}

/// A script has at most so many bytes.
const INPUT_BYTES: usize = 16_777_216;

const PIECE_BYTES: usize = 16384;

/// All that a source has left, up to one byte more than a script can have, and nothing further is read. A read that
/// fails is told, and never tried again.
pub fn read_input<S: Source>(alloc: Global, source: &mut S) -> Result<Vec<u8>, ReadError>
    ensures input { IfOk result (λ input.
        IfSome (S.left source.old) (λ bytes. input.items ≡ take 16777217 bytes)) }
    ensures end { IfOk result (λ input. length input.items ≤ 16777216 → IsAtEnd (S.left source.new)) }
    ensures taken { IfOk result (λ input. Consumes (S.left source.old) (S.left source.new) input.items) }
    ensures sound { OnOk result (S.faults source.new ≡ S.faults source.old) }
    ensures no_memory { IsErrOf result ReadError.NoMemory → S.faults source.new ≡ S.faults source.old }
    ensures failed { IsErrOf result ReadError.Failed → Rises (S.faults source.old) (S.faults source.new) }
{
    let mut input = Vec::new(alloc);
    let mut room = [0u8; PIECE_BYTES];
    while input.len() <= INPUT_BYTES {
        let most = (INPUT_BYTES + 1 - input.len()).min(PIECE_BYTES);
        let Ok(n) = source.read(&mut room[..most]) else {
            return Err(ReadError::Failed);
        };
        if n == 0 {
            return Ok(input);
        }
        input.extend_from_slice(&room[..n])?;
    }
    Ok(input)
}

/// Writes all of a text. Where that fails, some front of it was written.
pub fn write_text<W: Sink>(sink: &mut W, text: &[u8]) -> Result<(), Failed>
    ensures ok { OnOk result (Appends (W.written sink.old) (W.written sink.new) text.now) }
    ensures err { OnErr result (AppendsSome (W.written sink.old) (W.written sink.new) text.now) }
    ensures sound { OnOk result (W.faults sink.new ≡ W.faults sink.old) }
    ensures cause { OnErr result (Rises (W.faults sink.old) (W.faults sink.new)) }
{
    let mut done = 0;
    while done < text.len() {
        let n = match sink.write(&text[done..]) {
            Ok(n) => n,
            Err(Failed) => return Err(Failed),
        };
        if n == 0 {
            return Err(Failed);
        }
        done += n;
    }
    Ok(())
}
