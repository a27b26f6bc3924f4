// What the server is asked for a line.
ghost use Rattle.std.specs.Prelude.{◌≡◌, IfOk};
ghost use Rattle.plain_tree.specs.Line.{request_of};

use plain_types::{Line, Request};
use snap_ids::NoMemory;

/// What the server is asked for a line; None where the line is its client's own.
pub(crate) fn request_of(line: &Line) -> Result<Option<Request>, NoMemory>
    ensures { IfOk result (λ asked. asked ≡ request_of line.now) }
{
    match line {
        Line::Mkdir { path } => Ok(Some(Request::Mkdir {
            path: path.clone()?,
        })),
        Line::Rmdir { path } => Ok(Some(Request::Rmdir {
            path: path.clone()?,
        })),
        Line::Create { path, mode } => Ok(Some(Request::Create {
            path: path.clone()?,
            mode: *mode,
        })),
        Line::Unlink { path } => Ok(Some(Request::Unlink {
            path: path.clone()?,
        })),
        Line::Link { path, target } => Ok(Some(Request::Link {
            path: path.clone()?,
            target: target.clone()?,
        })),
        Line::Rename { path, target } => Ok(Some(Request::Rename {
            path: path.clone()?,
            target: target.clone()?,
        })),
        Line::Chmod { path, mode } => Ok(Some(Request::Chmod {
            path: path.clone()?,
            mode: *mode,
        })),
        Line::Open {
            handle,
            path,
            writable,
        } => Ok(Some(Request::Open {
            handle: *handle,
            path: path.clone()?,
            writable: *writable,
        })),
        Line::Close { handle } => Ok(Some(Request::Close { handle: *handle })),
        Line::Cat { path } => Ok(Some(Request::Cat {
            path: path.clone()?,
        })),
        Line::Stat { path } => Ok(Some(Request::Stat {
            path: path.clone()?,
        })),
        Line::List { path } => Ok(Some(Request::List {
            path: path.clone()?,
        })),
        Line::Realm { path } => Ok(Some(Request::Realm {
            path: path.clone()?,
        })),
        Line::Clones { path, index } => Ok(Some(Request::Clones {
            path: path.clone()?,
            index: *index,
        })),
        Line::Write { .. } => Ok(None),
        Line::Truncate { .. } => Ok(None),
        Line::Read { .. } => Ok(None),
        Line::Barrier => Ok(None),
        Line::Break => Ok(None),
    }
}
