// What a script comes to before its first step.
ghost use Rattle.std.specs.Prelude.{◌≡◌, ◌≤◌, ◌<◌, not, length, position, IfNone, IfSome};
ghost use Rattle.std.specs.List.{AllByRecursion};
ghost use Rattle.snap_ids.specs.Path.{place_of};
ghost use Rattle.direct_journal.specs.Served.{is_live_place, is_served};
ghost use Rattle.snap_run.specs.Ends.{is_taken, IsTaken, header_lines, is_all, first_number, first_unfollowed, first_unserved, is_unfinished};

use plain_types::{Line, Planned, Script};
use script_text::number_at;
use snap_ids::{Path, Target};

// Whether a path is one of the live tree.
fn is_live(path: &Path) -> bool
    ensures { result ≡ is_live_place (place_of path.now) }
{
    match path.target() {
        Target::Live(_) => true,
        Target::Snaps(_) | Target::InSnap(..) => false,
    }
}

// Whether a server takes the line yet.
fn is_served(line: &Line) -> bool
    ensures { result ≡ is_served line.now }
{
    match line {
        Line::Mkdir { .. }
        | Line::Rmdir { .. }
        | Line::Create { .. }
        | Line::Unlink { .. }
        | Line::Link { .. }
        | Line::Rename { .. }
        | Line::Chmod { .. }
        | Line::List { .. }
        | Line::Realm { .. } => true,
        Line::Stat { path } => is_live(path),
        _ => false,
    }
}

// Whether the line is one of client 1 that a server takes yet.
fn is_taken(line: &(u8, Line)) -> bool
    ensures { result ≡ is_taken line.now }
{
    line.0 == 1 && is_served(&line.1)
}

// Where the first line stands that isn't taken.
fn first_untaken(lines: &[(u8, Line)]) -> Option<usize>
    ensures found { result ≡ position (λ line. not (is_taken line)) lines.now }
    ensures within { IfSome result (λ place. place < length lines.now) }
{
    lines.iter().position(|line| !is_taken(line))
}

// How many lines of the input stand before the client lines, those apart that are skipped.
fn header_lines(script: &Script) -> usize
    requires { length script.now.restarts ≤ 16 }
    ensures { result ≡ header_lines script.now }
{
    let first = if script.object.is_some() { 2 } else { 1 };
    first + script.restarts.len()
}

// The first line of a schedule that no server follows yet.
fn first_unfollowed(schedule: &[(u32, Planned)]) -> Option<u32>
    ensures { result ≡ first_unfollowed schedule.now }
{
    let ((number, plan), rest) = schedule.split_first()?;
    if *plan != Planned::All {
        return Some(*number);
    }
    let (next, _) = rest.first()?;
    Some(*next)
}

/// The number of the first line of a script that no server takes yet. The input spells the script.
pub fn first_unserved(input: &[u8], script: &Script) -> Option<u32>
    requires short { length input.now ≤ 16777217 }
    requires few { length script.now.lines ≤ 512 }
    requires few_restarts { length script.now.restarts ≤ 16 }
    ensures first { result ≡ first_unserved input.now script.now }
    ensures taken { IfNone result (AllByRecursion IsTaken script.now.lines) }
{
    if script.clients != 1 {
        return Some(number_at(input, 0));
    }
    match first_untaken(script.lines.as_slice()) {
        Some(place) => Some(number_at(input, header_lines(script) + place)),
        None => first_unfollowed(script.schedule.as_slice()),
    }
}

/// Whether a client has a line and the schedule doesn't let it go on.
pub fn is_unfinished(script: &Script) -> bool
    ensures { result ≡ is_unfinished script.now }
{
    !script.lines.is_empty() && script.schedule.is_empty()
}
