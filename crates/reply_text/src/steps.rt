// A script as it is read, and the steps of a run.
ghost use Rattle.std.specs.Prelude.{◌≡◌, ◌++◌, codes, decimal, flat_map, OnOk};
ghost use Rattle.reply_text.specs.Answer.{mode_text};
ghost use Rattle.reply_text.specs.Step.{part_text, path_text, access_text, line_text, client_line, object_line, restart_line, node_text, step_text, event_line};
ghost use Rattle.reply_text.specs.Text.{steps_text};

use crate::number::{push_count, push_counted, push_hex, push_mode, push_number};
use plain_types::{Event, History, Line, Script, Step};
use snap_ids::{Name, Path};
use std::alloc::{AllocError, Global};

fn push_names(out: &mut Vec<u8>, names: &[Name]) -> Result<(), AllocError>
    ensures { OnOk result (out.new.items ≡ out.old.items ++ flat_map part_text names.now) }
{
    for name in names {
        out.push(b'/')?;
        out.extend_from_slice(name.as_bytes())?;
    }
    Ok(())
}

fn push_path(out: &mut Vec<u8>, path: &Path) -> Result<(), AllocError>
    ensures { OnOk result (out.new.items ≡ out.old.items ++ path_text path.now) }
{
    let names = path.names();
    if names.is_empty() {
        out.push(b'/')?;
        return Ok(());
    }
    push_names(out, names)
}

// Puts a word and a path behind a text.
fn push_at(out: &mut Vec<u8>, word: &[u8], path: &Path) -> Result<(), AllocError>
    ensures { OnOk result (out.new.items ≡ out.old.items ++ word.now ++ path_text path.now) }
{
    out.extend_from_slice(word)?;
    push_path(out, path)
}

// Puts a word and two paths behind a text.
fn push_both(out: &mut Vec<u8>, word: &[u8], path: &Path, target: &Path) -> Result<(), AllocError>
    ensures { OnOk result (out.new.items ≡ out.old.items ++ word.now ++ path_text path.now
        ++ codes " " ++ path_text target.now) }
{
    push_at(out, word, path)?;
    push_at(out, b" ", target)
}

// Puts a word, a path and a mode behind a text.
fn push_with_mode(out: &mut Vec<u8>, word: &[u8], path: &Path, mode: u16) -> Result<(), AllocError>
    ensures { OnOk result (out.new.items ≡ out.old.items ++ word.now ++ path_text path.now
        ++ codes " " ++ mode_text mode) }
{
    push_at(out, word, path)?;
    out.push(b' ')?;
    push_mode(out, mode)
}

fn push_access(out: &mut Vec<u8>, writable: bool) -> Result<(), AllocError>
    ensures { OnOk result (out.new.items ≡ out.old.items ++ access_text writable) }
{
    out.extend_from_slice(if writable { b" w" } else { b" r" })
}

fn push_open(out: &mut Vec<u8>, handle: u8, path: &Path, writable: bool) -> Result<(), AllocError>
    ensures { OnOk result (out.new.items ≡ out.old.items
        ++ line_text (Line.Open handle path.now writable)) }
{
    push_counted(out, b"open ", u64::from(handle))?;
    push_at(out, b" ", path)?;
    push_access(out, writable)
}

fn push_write(
    alloc: Global,
    out: &mut Vec<u8>,
    handle: u8,
    offset: u32,
    bytes: &[u8],
) -> Result<(), AllocError>
    ensures { OnOk result (out.new.items ≡ out.old.items
        ++ line_text (Line.Write handle offset bytes.now)) }
{
    push_counted(out, b"write ", u64::from(handle))?;
    push_counted(out, b" ", u64::from(offset))?;
    out.push(b' ')?;
    push_hex(alloc, out, bytes)
}

fn push_truncate(out: &mut Vec<u8>, handle: u8, length: u32) -> Result<(), AllocError>
    ensures { OnOk result (out.new.items ≡ out.old.items
        ++ line_text (Line.Truncate handle «length»)) }
{
    push_counted(out, b"truncate ", u64::from(handle))?;
    push_counted(out, b" ", u64::from(length))
}

fn push_clones(out: &mut Vec<u8>, path: &Path, index: u32) -> Result<(), AllocError>
    ensures { OnOk result (out.new.items ≡ out.old.items
        ++ line_text (Line.Clones path.now index)) }
{
    push_at(out, b"clones ", path)?;
    push_counted(out, b" ", u64::from(index))
}

// Puts what a client asks behind a text.
fn push_line(alloc: Global, out: &mut Vec<u8>, line: &Line) -> Result<(), AllocError>
    ensures { OnOk result (out.new.items ≡ out.old.items ++ line_text line.now) }
{
    match line {
        Line::Mkdir { path } => push_at(out, b"mkdir ", path),
        Line::Rmdir { path } => push_at(out, b"rmdir ", path),
        Line::Create { path, mode } => push_with_mode(out, b"create ", path, *mode),
        Line::Unlink { path } => push_at(out, b"unlink ", path),
        Line::Link { path, target } => push_both(out, b"link ", path, target),
        Line::Rename { path, target } => push_both(out, b"rename ", path, target),
        Line::Chmod { path, mode } => push_with_mode(out, b"chmod ", path, *mode),
        Line::Open {
            handle,
            path,
            writable,
        } => push_open(out, *handle, path, *writable),
        Line::Close { handle } => push_counted(out, b"close ", u64::from(*handle)),
        Line::Write {
            handle,
            offset,
            bytes,
        } => push_write(alloc, out, *handle, *offset, bytes.as_slice()),
        Line::Truncate { handle, length } => push_truncate(out, *handle, *length),
        Line::Read { handle } => push_counted(out, b"read ", u64::from(*handle)),
        Line::Cat { path } => push_at(out, b"cat ", path),
        Line::Stat { path } => push_at(out, b"stat ", path),
        Line::List { path } => push_at(out, b"ls ", path),
        Line::Realm { path } => push_at(out, b"realm ", path),
        Line::Clones { path, index } => push_clones(out, path, *index),
        Line::Barrier => out.extend_from_slice(b"barrier"),
        Line::Break => out.extend_from_slice(b"break"),
    }
}

fn push_client_line(alloc: Global, out: &mut Vec<u8>, asked: &(u8, Line)) -> Result<(), AllocError>
    ensures { OnOk result (out.new.items ≡ out.old.items ++ client_line asked.now) }
{
    push_number(out, u64::from(asked.0))?;
    out.push(b' ')?;
    push_line(alloc, out, &asked.1)?;
    out.push(b'\n')?;
    Ok(())
}

fn push_client_lines(
    alloc: Global,
    out: &mut Vec<u8>,
    lines: &[(u8, Line)],
) -> Result<(), AllocError>
    ensures { OnOk result (out.new.items ≡ out.old.items ++ flat_map client_line lines.now) }
{
    for asked in lines {
        push_client_line(alloc, out, asked)?;
    }
    Ok(())
}

fn push_object_size(out: &mut Vec<u8>, object: Option<u32>) -> Result<(), AllocError>
    ensures { OnOk result (out.new.items ≡ out.old.items ++ object_line object) }
{
    match object {
        None => Ok(()),
        Some(size) => push_count(out, b"objsize", u64::from(size)),
    }
}

fn push_restart(out: &mut Vec<u8>, restart: &(u64, u32)) -> Result<(), AllocError>
    ensures { OnOk result (out.new.items ≡ out.old.items ++ restart_line restart.now) }
{
    push_counted(out, b"restart ", restart.0)?;
    push_counted(out, b" ", u64::from(restart.1))?;
    out.push(b'\n')?;
    Ok(())
}

fn push_restarts(out: &mut Vec<u8>, restarts: &[(u64, u32)]) -> Result<(), AllocError>
    ensures { OnOk result (out.new.items ≡ out.old.items ++ flat_map restart_line restarts.now) }
{
    for restart in restarts {
        push_restart(out, restart)?;
    }
    Ok(())
}

fn push_node(out: &mut Vec<u8>, clients: u8, node: u8) -> Result<(), AllocError>
    ensures { OnOk result (out.new.items ≡ out.old.items ++ node_text clients node) }
{
    if node == 0 {
        return out.extend_from_slice(b"server");
    }
    if node - 1 == clients {
        return out.extend_from_slice(b"store");
    }
    push_number(out, u64::from(node))
}

// Puts words and a node behind a text.
fn push_taken(out: &mut Vec<u8>, words: &[u8], clients: u8, node: u8) -> Result<(), AllocError>
    ensures { OnOk result (out.new.items ≡ out.old.items ++ words.now ++ node_text clients node) }
{
    out.extend_from_slice(words)?;
    push_node(out, clients, node)
}

// Puts that a client takes behind a text.
fn push_take(out: &mut Vec<u8>, client: u8, behind: &[u8]) -> Result<(), AllocError>
    ensures { OnOk result (out.new.items ≡ out.old.items ++ codes "take " ++ decimal client
        ++ behind.now) }
{
    push_counted(out, b"take ", u64::from(client))?;
    out.extend_from_slice(behind)
}

fn push_step(out: &mut Vec<u8>, clients: u8, step: Step) -> Result<(), AllocError>
    ensures { OnOk result (out.new.items ≡ out.old.items ++ step_text clients step) }
{
    match step {
        Step::Op(client) => push_counted(out, b"op ", u64::from(client)),
        Step::Flush(client) => push_counted(out, b"flush ", u64::from(client)),
        Step::ClientFromServer(client) => push_take(out, client, b" server"),
        Step::ClientFromStore(client) => push_take(out, client, b" store"),
        Step::ServerTakes(node) => push_taken(out, b"take server ", clients, node),
        Step::Commit => out.extend_from_slice(b"commit"),
        Step::Restart(kept) => push_counted(out, b"restart ", u64::from(kept)),
        Step::Tend => out.extend_from_slice(b"tend"),
        Step::StoreTakes(node) => push_taken(out, b"take store ", clients, node),
    }
}

fn push_events(out: &mut Vec<u8>, clients: u8, events: &[Event]) -> Result<(), AllocError>
    ensures { OnOk result (out.new.items ≡ out.old.items
        ++ flat_map (event_line clients) events.now) }
{
    for event in events {
        push_step(out, clients, event.step)?;
        out.push(b'\n')?;
    }
    Ok(())
}

// Puts a script behind a text, and the steps that were made as its schedule.
pub(crate) fn push_steps(
    alloc: Global,
    out: &mut Vec<u8>,
    script: &Script,
    history: &History,
) -> Result<(), AllocError>
    ensures { OnOk result (out.new.items ≡ out.old.items ++ steps_text script.now history.now) }
{
    push_count(out, b"clients", u64::from(script.clients))?;
    push_object_size(out, script.object)?;
    push_restarts(out, script.restarts.as_slice())?;
    push_client_lines(alloc, out, script.lines.as_slice())?;
    out.extend_from_slice(b"schedule\n")?;
    push_events(out, script.clients, history.as_slice())
}
