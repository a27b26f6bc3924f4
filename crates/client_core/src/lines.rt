// A client's own lines of a script.
ghost use Rattle.std.specs.Prelude.{◌≡◌, IfOk};
ghost use Rattle.step_table.specs.World.{lines_of};

use plain_types::Line;
use snap_ids::NoMemory;
use std::alloc::Global;
use std::collections::VecDeque;

// The same line.
fn copied(line: &Line) -> Result<Line, NoMemory>
    ensures { IfOk result (λ copy. copy ≡ line.now) }
{
    match line {
        Line::Mkdir { path } => Ok(Line::Mkdir {
            path: path.clone()?,
        }),
        Line::Rmdir { path } => Ok(Line::Rmdir {
            path: path.clone()?,
        }),
        Line::Create { path, mode } => Ok(Line::Create {
            path: path.clone()?,
            mode: *mode,
        }),
        Line::Unlink { path } => Ok(Line::Unlink {
            path: path.clone()?,
        }),
        Line::Link { path, target } => Ok(Line::Link {
            path: path.clone()?,
            target: target.clone()?,
        }),
        Line::Rename { path, target } => Ok(Line::Rename {
            path: path.clone()?,
            target: target.clone()?,
        }),
        Line::Chmod { path, mode } => Ok(Line::Chmod {
            path: path.clone()?,
            mode: *mode,
        }),
        Line::Open {
            handle,
            path,
            writable,
        } => Ok(Line::Open {
            handle: *handle,
            path: path.clone()?,
            writable: *writable,
        }),
        Line::Close { handle } => Ok(Line::Close { handle: *handle }),
        Line::Write {
            handle,
            offset,
            bytes,
        } => Ok(Line::Write {
            handle: *handle,
            offset: *offset,
            bytes: bytes.clone()?,
        }),
        Line::Truncate { handle, length } => Ok(Line::Truncate {
            handle: *handle,
            length: *length,
        }),
        Line::Read { handle } => Ok(Line::Read { handle: *handle }),
        Line::Cat { path } => Ok(Line::Cat {
            path: path.clone()?,
        }),
        Line::Stat { path } => Ok(Line::Stat {
            path: path.clone()?,
        }),
        Line::List { path } => Ok(Line::List {
            path: path.clone()?,
        }),
        Line::Realm { path } => Ok(Line::Realm {
            path: path.clone()?,
        }),
        Line::Clones { path, index } => Ok(Line::Clones {
            path: path.clone()?,
            index: *index,
        }),
        Line::Barrier => Ok(Line::Barrier),
        Line::Break => Ok(Line::Break),
    }
}

// The lines of one client, in their order.
pub(crate) fn lines_of(
    alloc: Global,
    number: u8,
    lines: &[(u8, Line)],
) -> Result<VecDeque<Line>, NoMemory>
    ensures { IfOk result (λ own. own.items ≡ lines_of number lines.now) }
{
    let mut own = VecDeque::new(alloc);
    let mut left = lines;
    while let Some((text, rest)) = left.split_first() {
        if text.0 == number {
            own.push_back(copied(&text.1)?)?;
        }
        left = rest;
    }
    Ok(own)
}
