// How a run ends: with a refused input, a line that no server takes, a script that is unfinished, a wrong usage, or a fault.
use crate::run_bytes;
use crate::tests::{Row, STORY, STORY_TEXT, compare, replayed};
use script_text::{End, ScriptError};
use std::alloc::{AllocError, Global};
use std::test::Fail;

#[test]
fn wrong_lines_are_named(rt: HostRuntime) -> Result<(), Fail> {
    let table = [
        ("", "error line 1 bad\n"),
        ("# none\n", "error line 1 bad\n"),
        ("clients 0\n", "error line 1 bad\n"),
        ("clients 9\n", "error line 1 limit\n"),
        ("\n# two\nclients 9\n", "error line 3 limit\n"),
        ("1 frob\n", "error line 1 bad\n"),
        ("clients 1\n1 frob\n", "error line 2 bad\n"),
        ("clients 1\n2 mkdir /a\n", "error line 2 bad\n"),
        ("clients 1\n1 mkdir a\n", "error line 2 bad\n"),
        ("clients 1\n1  mkdir /a\n", "error line 2 bad\n"),
        ("clients 1\n1 mkdir /a\r", "error line 2 bad\n"),
        ("clients 1\nschedule\nfrob\n", "error line 3 bad\n"),
        ("clients 1\nobjsize 8\n", "error line 2 limit\n"),
        (
            "clients 2\n1 barrier\nschedule\nall\n",
            "error barriers 1 2\n",
        ),
    ];
    for (input, text) in table {
        replayed(&rt, input, 3, text)?;
    }
    Ok(())
}

// An input whose second line is a comment of so many bytes.
fn commented(alloc: Global, count: usize) -> Result<String, AllocError> {
    let mut input = String::from_str(alloc, "clients 1\n#")?;
    for _ in 1..count {
        input.push_str("-")?;
    }
    input.push_str("\n")?;
    Ok(input)
}

#[test]
fn long_lines_are_refused(rt: HostRuntime) -> Result<(), Fail> {
    replayed(&rt, &commented(rt.alloc(), 1_024)?, 0, "done\n")?;
    replayed(
        &rt,
        &commented(rt.alloc(), 1_025)?,
        3,
        "error line 2 long\n",
    )
}

#[test]
fn lines_that_no_server_takes_are_named(rt: HostRuntime) -> Result<(), Fail> {
    let table = [
        ("clients 2\n", "error line 1 bad\n"),
        (
            "# of two\n\nclients 2\n2 mkdir /a\n1 mkdir /b\n",
            "error line 3 bad\n",
        ),
        ("clients 1\n1 cat /a\nschedule\nall\n", "error line 2 bad\n"),
        (
            "clients 1\n1 mkdir /a\n\n1 stat /a/.snap/s\nschedule\nall\n",
            "error line 4 bad\n",
        ),
        (
            "clients 1\nobjsize 4096\nrestart 3 0\n1 open 1 /a w\n",
            "error line 4 bad\n",
        ),
        (
            "clients 1\n1 stat /a/.snap\nschedule\nall\n",
            "error line 2 bad\n",
        ),
        (
            "clients 1\n1 barrier\nschedule\nall\n",
            "error line 2 bad\n",
        ),
        (
            "clients 1\n1 mkdir /a\nschedule\ncommit\n",
            "error line 4 bad\n",
        ),
        (
            "clients 1\nschedule\nall\n# again\nall\n",
            "error line 5 bad\n",
        ),
    ];
    for (input, text) in table {
        replayed(&rt, input, 3, text)?;
    }
    Ok(())
}

#[test]
fn lines_without_a_schedule_are_unfinished(rt: HostRuntime) -> Result<(), Fail> {
    replayed(&rt, "clients 1\n1 mkdir /a\n", 8, "error unfinished 2\n")?;
    replayed(
        &rt,
        "clients 1\n1 mkdir /a\nschedule\n",
        8,
        "error unfinished 3\n",
    )?;
    replayed(
        &rt,
        "clients 1\n\n1 mkdir /a\n# end\n",
        8,
        "error unfinished 4\n",
    )?;
    replayed(&rt, "clients 1\n", 0, "done\n")?;
    replayed(&rt, "clients 1\nschedule\n", 0, "done\n")
}

#[test]
fn bytes_are_run_without_a_source(rt: HostRuntime) -> Result<(), Fail> {
    let alloc = rt.alloc();
    let name = vec![in alloc; String::from_str(alloc, "snapctl")?]?;
    let report = run_bytes(alloc, &name, STORY.as_bytes());
    assert_eq!(rt; (report.status, report.end), (2, End::Usage));
    assert_eq!(rt; report.text.as_slice(), b"error usage\n".as_slice());
    assert!(rt; report.history.as_slice().is_empty());
    let words = vec![in alloc;
        String::from_str(alloc, "snapctl")?,
        String::from_str(alloc, "replay")?,
    ]?;
    let report = run_bytes(alloc, &words, STORY.as_bytes());
    assert_eq!(rt; (report.status, report.end), (0, End::Done));
    assert_eq!(rt; report.text.as_slice(), STORY_TEXT.as_bytes());
    assert_eq!(rt; report.history.as_slice().len(), 5);
    let report = run_bytes(alloc, &words, b"clients 9".as_slice());
    assert_eq!(rt;
        (report.status, report.end),
        (3, End::ScriptRefused(ScriptError::Limit(1)))
    );
    assert_eq!(rt; report.text.as_slice(), b"error line 1 limit\n".as_slice());
    Ok(())
}

#[test]
fn only_replay_is_a_command(rt: HostRuntime) -> Result<(), Fail> {
    let usage = "error usage\n";
    let row = Row {
        words: &[],
        input: STORY,
        failing_read: 0,
        room: 100,
    };
    compare(&rt, &row, 2, usage)?;
    compare(
        &rt,
        &Row {
            words: &["snapctl"],
            ..row
        },
        2,
        usage,
    )?;
    compare(
        &rt,
        &Row {
            words: &["snapctl", "run"],
            ..row
        },
        2,
        usage,
    )?;
    compare(
        &rt,
        &Row {
            words: &["snapctl", "replay", "x"],
            ..row
        },
        2,
        usage,
    )
}

#[test]
fn faults_of_the_outside_are_told(rt: HostRuntime) -> Result<(), Fail> {
    let row = Row {
        words: &["snapctl", "replay"],
        input: STORY,
        failing_read: 2,
        room: 100,
    };
    compare(&rt, &row, 4, "error read\n")?;
    compare(
        &rt,
        &Row {
            failing_read: 1,
            ..row
        },
        4,
        "error read\n",
    )?;
    compare(
        &rt,
        &Row {
            failing_read: 0,
            room: 5,
            ..row
        },
        5,
        "1.1 o",
    )?;
    compare(
        &rt,
        &Row {
            failing_read: 1,
            room: 5,
            ..row
        },
        5,
        "error",
    )
}
