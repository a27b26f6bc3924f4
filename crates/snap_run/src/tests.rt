// Scripts over sources and sinks in memory: the examples, and the largest ones.
use crate::{run_bytes, run_tool};
use io_edge::{MemSink, MemSource};
use std::alloc::{AllocError, Global};
use std::fmt::Write;
use std::process::Abort;
use std::test::Fail;

// What is to be run, over a source and a sink of which some calls fail.
#[derive(Clone, Copy)]
pub(crate) struct Row<'a> {
    pub(crate) words: &'a [&'a str],
    pub(crate) input: &'a str,
    pub(crate) failing_read: u64,
    pub(crate) room: usize,
}

// Runs it, and compares the status and what the sink holds.
pub(crate) fn compare<R: Abort + AllocGlobal>(
    rt: &R,
    row: &Row<'_>,
    status: u8,
    text: &str,
) -> Result<(), Fail> {
    let alloc = rt.alloc();
    let mut words = Vec::new(alloc);
    for word in row.words {
        words.push(String::from_str(alloc, word)?)?;
    }
    let mut source = MemSource::new(alloc, row.input.as_bytes(), &[row.failing_read])?;
    let mut sink = MemSink::new(alloc, row.room, &[])?;
    let outcome = run_tool(alloc, &words, &mut source, &mut sink);
    let input = row.input;
    assert_eq!(rt; outcome.status, status, "of {input}");
    assert_eq!(rt; sink.bytes(), text.as_bytes(), "of {input}");
    Ok(())
}

// A replay of an input over a source and a sink that don't fail.
pub(crate) fn replayed<R: Abort + AllocGlobal>(
    rt: &R,
    input: &str,
    status: u8,
    text: &str,
) -> Result<(), Fail> {
    let row = Row {
        words: &["snapctl", "replay"],
        input,
        failing_read: 0,
        room: 100_000,
    };
    compare(rt, &row, status, text)
}

// The scripts of the examples, with what they answer.
pub(crate) const STORY: &str = "# A snapshot of one directory, and an entry that is made later.
clients 1
1 mkdir /a
1 mkdir /a/.snap/s
1 mkdir /a/b
1 ls /a/.snap/s
1 ls /a
schedule
all
";

pub(crate) const STORY_TEXT: &str = "1.1 ok
1.2 ok snap 2
1.3 ok
1.4 list
1.5 list b/
done
";

const BACKUP: &str = "# Two snapshots of a tree that goes on changing.
clients 1
1 mkdir /home
1 mkdir /home/ann
1 mkdir /home/ann/photos
1 mkdir /home/.snap/monday

1 mkdir /home/ann/letters
1 mkdir /home/bob
1 mkdir /home/.snap/tuesday

1 mkdir /home/bob/drafts

# Each lists what was there when it was made, also below.
1 ls /home/.snap/monday
1 ls /home/.snap/monday/ann
1 ls /home/.snap/tuesday
1 ls /home/.snap/tuesday/ann
1 ls /home/.snap/tuesday/bob
1 ls /home/bob
schedule
all
";

const BACKUP_TEXT: &str = "1.1 ok
1.2 ok
1.3 ok
1.4 ok snap 2
1.5 ok
1.6 ok
1.7 ok snap 3
1.8 ok
1.9 list ann/
1.10 list photos/
1.11 list ann/ bob/
1.12 list letters/ photos/
1.13 list
1.14 list drafts/
done
";

const UNDER_SNAP: &str = "# What a snapshot refuses.
clients 1
1 mkdir /project
1 mkdir /project/src
1 mkdir /project/.snap/before
1 mkdir /project/src/experiment

# Its name a second time, a change under it, a name that begins with an underscore.
1 mkdir /project/.snap/before
1 mkdir /project/.snap/before/src/fix
1 mkdir /project/.snap/_mine

# What came later isn't in it, and no other name leads into one.
1 ls /project/src
1 ls /project/.snap/before/src
1 ls /project/.snap/before/src/experiment
1 ls /project/.snap/after
schedule
all
";

const UNDER_SNAP_TEXT: &str = "1.1 ok
1.2 ok
1.3 ok snap 2
1.4 ok
1.5 exists
1.6 read-only
1.7 bad-name
1.8 list experiment/
1.9 list
1.10 no-entry
1.11 no-snap
done
";

#[test]
fn scripts_are_answered(rt: HostRuntime) -> Result<(), Fail> {
    replayed(&rt, "clients 1", 0, "done\n")?;
    replayed(&rt, "clients 1\n", 0, "done\n")?;
    replayed(&rt, "clients 1\nschedule\nall\n", 0, "done\n")?;
    replayed(&rt, STORY, 0, STORY_TEXT)?;
    replayed(&rt, BACKUP, 0, BACKUP_TEXT)?;
    replayed(&rt, UNDER_SNAP, 0, UNDER_SNAP_TEXT)
}

// Lines that make so many snapshots of a directory, and what they are answered: the first has this line's number and id.
fn push_snaps(
    input: &mut String,
    text: &mut String,
    dir: &str,
    count: u32,
    line: u32,
    id: u32,
) -> Result<(), AllocError> {
    for number in 0..count {
        write!(input, "1 mkdir /{dir}/.snap/n{number}\n")?;
        let number = u64::from(number);
        let (line, id) = (u64::from(line) + number, u64::from(id) + number);
        write!(text, "1.{line} ok snap {id}\n")?;
    }
    Ok(())
}

#[test]
fn snapshots_have_limits(rt: HostRuntime) -> Result<(), Fail> {
    let alloc = rt.alloc();
    let mut input = String::from_str(alloc, "clients 1\n1 mkdir /a\n1 mkdir /b\n")?;
    let mut text = String::from_str(alloc, "1.1 ok\n1.2 ok\n")?;
    push_snaps(&mut input, &mut text, "a", 100, 3, 2)?;
    input.push_str("1 mkdir /a/.snap/n0\n1 mkdir /a/.snap/m\n")?;
    text.push_str("1.103 exists\n1.104 too-many-snaps\n")?;
    push_snaps(&mut input, &mut text, "b", 28, 105, 102)?;
    input.push_str("1 mkdir /b/.snap/m\n1 rmdir /a/.snap/n7\n1 mkdir /b/.snap/m\n")?;
    text.push_str("1.133 too-many-live\n1.134 ok\n1.135 ok snap 130\n")?;
    input.push_str("schedule\nall\n")?;
    text.push_str("done\n")?;
    replayed(&rt, &input, 0, &text)
}

#[test]
fn comments_and_carriage_returns_are_skipped(rt: HostRuntime) -> Result<(), Fail> {
    let input =
        "# A tree\r\n\r\nclients 1\r\n1 mkdir /a\r\n\n# and its list\n1 ls /\r\nschedule\r\nall\r\n";
    replayed(&rt, input, 0, "1.1 ok\n1.2 list a/\ndone\n")
}

// A name of 64 bytes that ends in a number.
fn long_name(alloc: Global, number: usize) -> Result<String, AllocError> {
    let mut digits = String::new(alloc);
    write!(digits, "{number}")?;
    let mut name = String::new(alloc);
    for _ in digits.len()..64 {
        name.push_str("n")?;
    }
    name.push_str(&digits)?;
    Ok(name)
}

// So many directories with long names in one, a snapshot of it, and so many pairs of a list of it and of the snapshot.
fn wide(alloc: Global, dirs: usize, pairs: usize) -> Result<String, AllocError> {
    let mut input = String::from_str(alloc, "clients 1\n1 mkdir /d\n")?;
    for number in 0..dirs {
        let name = long_name(alloc, number)?;
        input.push_str("1 mkdir /d/")?;
        input.push_str(&name)?;
        input.push_str("\n")?;
    }
    input.push_str("1 mkdir /d/.snap/s\n")?;
    for _ in 0..pairs {
        input.push_str("1 ls /d\n1 ls /d/.snap/s\n")?;
    }
    input.push_str("schedule\nall\n")?;
    Ok(input)
}

// A wide script of 512 lines, whose lists have so many bytes of names.
fn run_wide<R: Abort + AllocGlobal>(
    rt: &R,
    dirs: usize,
    pairs: usize,
    names: usize,
) -> Result<(), Fail> {
    let alloc = rt.alloc();
    let words = vec![in alloc;
        String::from_str(alloc, "snapctl")?,
        String::from_str(alloc, "replay")?,
    ]?;
    let report = run_bytes(alloc, &words, wide(alloc, dirs, pairs)?.as_bytes());
    assert_eq!(rt; report.status, 0);
    assert_eq!(rt; report.history.as_slice().len(), 512);
    assert!(rt; names < report.text.len());
    // The rest are the lines' numbers and their other answers.
    assert!(rt; report.text.len() - names < 8_000);
    assert!(rt; report.text.as_slice().ends_with(b"done\n"));
    Ok(())
}

#[test]
fn the_largest_scripts_are_run(rt: HostRuntime) -> Result<(), Fail> {
    // As many directories as may be, and then as many bytes of replies: each name has 64 bytes, a space and a `/`.
    run_wide(&rt, 500, 5, 330_000)?;
    run_wide(&rt, 256, 127, 4_291_584)
}
