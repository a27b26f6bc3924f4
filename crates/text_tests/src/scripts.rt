// Every form of line, every refusal, the largest inputs, and a script that a seed makes.
use plain_types::{Line, Planned, Script, Step};
use script_text::{End, ScriptError, load, parse};
use snap_ids::{Bytes, Path};
use std::alloc::{AllocError, Global};
use std::test::Fail;

// A path that a test spells.
fn path(alloc: Global, text: &str) -> Result<Path, Fail> {
    Ok(Path::parse(alloc, text.as_bytes())?)
}

// Whether a client's line asks this.
fn asks(alloc: Global, text: &str, wanted: Line) -> Result<bool, Fail> {
    let input = format!(in alloc; "clients 3\n3 {text}\n3 barrier\n1 barrier\n2 barrier\n")?;
    let Ok(script) = parse(alloc, input.as_bytes(), false) else {
        return Ok(false);
    };
    match script.lines.as_slice().first() {
        Some((client, line)) => Ok(*client == 3 && *line == wanted),
        None => Ok(false),
    }
}

#[test]
fn lines_with_a_path_ask_what_they_say(rt: HostRuntime) -> Result<(), Fail> {
    let a = rt.alloc();
    assert!(rt;
        asks(
            a,
            "mkdir /a",
            Line::Mkdir {
                path: path(a, "/a")?
            }
        )?
    );
    assert!(rt;
        asks(
            a,
            "rmdir /a/b",
            Line::Rmdir {
                path: path(a, "/a/b")?
            }
        )?
    );
    assert!(rt;
        asks(
            a,
            "unlink /f",
            Line::Unlink {
                path: path(a, "/f")?
            }
        )?
    );
    assert!(rt;
        asks(
            a,
            "cat /.snap/s/f",
            Line::Cat {
                path: path(a, "/.snap/s/f")?
            }
        )?
    );
    assert!(rt;
        asks(
            a,
            "stat /a",
            Line::Stat {
                path: path(a, "/a")?
            }
        )?
    );
    assert!(rt;
        asks(
            a,
            "ls /",
            Line::List {
                path: path(a, "/")?
            }
        )?
    );
    assert!(rt;
        asks(
            a,
            "realm /a",
            Line::Realm {
                path: path(a, "/a")?
            }
        )?
    );
    Ok(())
}

#[test]
fn lines_with_a_path_and_more_ask_what_they_say(rt: HostRuntime) -> Result<(), Fail> {
    let a = rt.alloc();
    let f = path(a, "/f")?;
    assert!(rt; asks(a, "create /f 0644", Line::Create { path: f, mode: 420 })?);
    assert!(rt;
        asks(
            a,
            "chmod / 0777",
            Line::Chmod {
                path: path(a, "/")?,
                mode: 511
            }
        )?
    );
    let g = path(a, "/g")?;
    assert!(rt;
        asks(
            a,
            "link /f /g",
            Line::Link {
                path: path(a, "/f")?,
                target: g
            }
        )?
    );
    let g = path(a, "/g")?;
    assert!(rt;
        asks(
            a,
            "rename /f /g",
            Line::Rename {
                path: path(a, "/f")?,
                target: g
            }
        )?
    );
    assert!(rt;
        asks(
            a,
            "clones /f 12",
            Line::Clones {
                path: path(a, "/f")?,
                index: 12
            }
        )?
    );
    Ok(())
}

#[test]
fn lines_of_handles_ask_what_they_say(rt: HostRuntime) -> Result<(), Fail> {
    let a = rt.alloc();
    let f = path(a, "/f")?;
    assert!(rt;
        asks(
            a,
            "open 64 /f r",
            Line::Open {
                handle: 64,
                path: f,
                writable: false
            }
        )?
    );
    let f = path(a, "/f")?;
    assert!(rt;
        asks(
            a,
            "open 1 /f w",
            Line::Open {
                handle: 1,
                path: f,
                writable: true
            }
        )?
    );
    assert!(rt; asks(a, "close 9", Line::Close { handle: 9 })?);
    assert!(rt; asks(a, "read 10", Line::Read { handle: 10 })?);
    assert!(rt;
        asks(
            a,
            "truncate 2 0",
            Line::Truncate {
                handle: 2,
                length: 0
            }
        )?
    );
    let bytes = Bytes::from_vec(b"\x00\xff\xab".to_vec(a)?);
    let write = Line::Write {
        handle: 1,
        offset: 4294967295,
        bytes,
    };
    assert!(rt; asks(a, "write 1 4294967295 00fFaB", write)?);
    assert!(rt; asks(a, "break", Line::Break)?);
    Ok(())
}

#[test]
fn lines_of_a_schedule_say_what_they_say(rt: HostRuntime) -> Result<(), Fail> {
    for (text, wanted) in [
        ("op 3", Planned::Make(Step::Op(3))),
        ("flush 1", Planned::Make(Step::Flush(1))),
        ("commit", Planned::Make(Step::Commit)),
        ("tend", Planned::Make(Step::Tend)),
        (
            "restart 4294967295",
            Planned::Make(Step::Restart(4294967295)),
        ),
        ("take 1 server", Planned::Make(Step::ClientFromServer(1))),
        ("take 3 store", Planned::Make(Step::ClientFromStore(3))),
        ("take server 2", Planned::Make(Step::ServerTakes(2))),
        ("take server store", Planned::Make(Step::ServerTakes(4))),
        ("take store 2", Planned::Make(Step::StoreTakes(2))),
        ("take store server", Planned::Make(Step::StoreTakes(0))),
        ("drain", Planned::Drain),
        ("all", Planned::All),
        (
            "ops 3 0",
            Planned::Ops {
                client: 3,
                times: 0,
            },
        ),
    ] {
        let input = format!(in rt.alloc(); "clients 3\nschedule\n\n{text}")?;
        let script = parse(rt.alloc(), input.as_bytes(), true)?;
        assert_eq!(rt;
            script.schedule.as_slice(),
            [(4, wanted)].as_slice(),
            "{text}"
        );
    }
    Ok(())
}

// Why an input is refused, if it is.
fn refusal(alloc: Global, input: &[u8], schedule: bool) -> Option<ScriptError> {
    match parse(alloc, input, schedule) {
        Ok(_) => None,
        Err(error) => Some(error),
    }
}

#[test]
fn inputs_are_refused_at_their_first_wrong_line(rt: HostRuntime) {
    for (input, wanted) in [
        ("", ScriptError::BadLine(1)),
        ("# a\n\n#\n", ScriptError::BadLine(1)),
        ("client 1\n", ScriptError::BadLine(1)),
        ("\nclients 0\n", ScriptError::BadLine(2)),
        ("clients 9\n", ScriptError::Limit(1)),
        ("clients 99999999999999999999999\n", ScriptError::Limit(1)),
        ("clients 01\n", ScriptError::BadLine(1)),
        ("clients 1 \n", ScriptError::BadLine(1)),
        ("clients 1\nclients 1\n", ScriptError::BadLine(2)),
        ("clients 1\nobjsize 0\n", ScriptError::Limit(2)),
        ("clients 1\nobjsize 15\n", ScriptError::Limit(2)),
        ("clients 1\nobjsize 65537\n", ScriptError::Limit(2)),
        (
            "clients 1\nobjsize 99999999999999999999999\n",
            ScriptError::Limit(2),
        ),
        ("clients 1\nobjsize 016\n", ScriptError::BadLine(2)),
        (
            "clients 1\nobjsize 16\nobjsize 16\n",
            ScriptError::BadLine(3),
        ),
        (
            "clients 1\nrestart 1 0\nobjsize 16\n",
            ScriptError::BadLine(3),
        ),
        ("clients 1\n1 break\nobjsize 16\n", ScriptError::BadLine(3)),
        ("clients 1\n1 break\nrestart 1 0\n", ScriptError::BadLine(3)),
        ("clients 1\nrestart 0 0\n", ScriptError::BadLine(2)),
        (
            "clients 1\nrestart 18446744073709551616 0\n",
            ScriptError::BadLine(2),
        ),
        ("clients 1\nrestart 1 4294967296\n", ScriptError::BadLine(2)),
        (
            "clients 1\nrestart 2 0\nrestart 2 0\n",
            ScriptError::BadLine(3),
        ),
        ("clients 1\n1 frob\n", ScriptError::BadLine(2)),
        ("clients 1\n1\n", ScriptError::BadLine(2)),
        ("clients 2\n0 barrier\n", ScriptError::BadLine(2)),
        ("clients 2\n3 barrier\n", ScriptError::BadLine(2)),
        ("clients 1\n1  barrier\n", ScriptError::BadLine(2)),
        ("clients 1\n1\tbarrier\n", ScriptError::BadLine(2)),
        ("clients 1\n1 barrier\r", ScriptError::BadLine(2)),
        ("clients 1\n1 barrier\r\r\n", ScriptError::BadLine(2)),
        ("clients 1\n1 mkdir a\n", ScriptError::BadLine(2)),
        ("clients 1\n1 create /f 00644\n", ScriptError::BadLine(2)),
        ("clients 1\n1 create /f 1644\n", ScriptError::BadLine(2)),
        ("clients 1\n1 create /f 0648\n", ScriptError::BadLine(2)),
        ("clients 1\n1 open 0 /f r\n", ScriptError::BadLine(2)),
        ("clients 1\n1 open 65 /f r\n", ScriptError::BadLine(2)),
        ("clients 1\n1 open 1 /f rw\n", ScriptError::BadLine(2)),
        ("clients 1\n1 write 1 0 616\n", ScriptError::BadLine(2)),
        ("clients 1\n1 write 1 0 6g\n", ScriptError::BadLine(2)),
        ("clients 1\n1 write 1 0 \n", ScriptError::BadLine(2)),
        (
            "clients 1\n1 write 1 4294967296 61\n",
            ScriptError::BadLine(2),
        ),
        ("clients 1\n1 write 1 00 61\n", ScriptError::BadLine(2)),
        (
            "clients 1\n1 truncate 1 4294967296\n",
            ScriptError::BadLine(2),
        ),
        (
            "clients 1\n1 clones /f 4294967296\n",
            ScriptError::BadLine(2),
        ),
        ("clients 1\n1 rename /a /b /c\n", ScriptError::BadLine(2)),
        ("clients 1\n1 write 1 0 61 62\n", ScriptError::BadLine(2)),
        ("clients 2\n1 barrier\n", ScriptError::Barriers(1, 2)),
        (
            "clients 3\n1 barrier\n2 barrier\n3 break",
            ScriptError::Barriers(1, 3),
        ),
        ("clients 2\n1 barrier\n1 frob\n", ScriptError::BadLine(3)),
        ("clients 1\nschedule\nop 0\n", ScriptError::BadLine(3)),
        ("clients 1\nschedule\nop 2\n", ScriptError::BadLine(3)),
        (
            "clients 1\nschedule\nops 1 4294967296\n",
            ScriptError::BadLine(3),
        ),
        (
            "clients 1\nschedule\nrestart 4294967296\n",
            ScriptError::BadLine(3),
        ),
        ("clients 1\nschedule\ntake 1 1\n", ScriptError::BadLine(3)),
        (
            "clients 1\nschedule\ntake server server\n",
            ScriptError::BadLine(3),
        ),
        ("clients 1\nschedule\nschedule\n", ScriptError::BadLine(3)),
        ("clients 1\nschedule\n1 barrier\n", ScriptError::BadLine(3)),
        ("schedule\n", ScriptError::BadLine(1)),
    ] {
        assert_eq!(rt;
            refusal(rt.alloc(), input.as_bytes(), true),
            Some(wanted),
            "{input:?}"
        );
    }
    let planned = b"clients 1\nschedule\nall\n".as_slice();
    assert_eq!(rt;
        refusal(rt.alloc(), planned, false),
        Some(ScriptError::BadLine(2))
    );
    assert_eq!(rt; refusal(rt.alloc(), planned, true), None);
}

// An input of these lines: one, then another so many times, then a last one.
fn repeated(
    alloc: Global,
    first: &[u8],
    line: &[u8],
    count: usize,
    last: &[u8],
) -> Result<Vec<u8>, AllocError> {
    let mut input = first.to_vec(alloc)?;
    for _ in 0..count {
        input.extend_from_slice(line)?;
    }
    input.extend_from_slice(last)?;
    Ok(input)
}

#[test]
fn limits_come_after_what_is_wrong(rt: HostRuntime) -> Result<(), Fail> {
    let a = rt.alloc();
    let long = repeated(a, b"", b"a", 1025, b"")?;
    for (first, line, count, last, wanted) in [
        (
            b"clients 1\n".as_slice(),
            b"1 break\n".as_slice(),
            512,
            b"1 break".as_slice(),
            Some(ScriptError::Limit(514)),
        ),
        (
            b"clients 1\n",
            b"1 break\n",
            512,
            b"1 broke",
            Some(ScriptError::BadLine(514)),
        ),
        (
            b"clients 1\n",
            b"1 break\n",
            512,
            &long,
            Some(ScriptError::TooLong(514)),
        ),
        (b"clients 1\n", b"1 break\n", 512, b"# that is all", None),
        (
            b"clients 1\nschedule\n",
            b"op 1\n",
            500000,
            b"op 1",
            Some(ScriptError::Limit(500003)),
        ),
        (
            b"clients 1\nschedule\n",
            b"op 1\n",
            500000,
            b"op 2",
            Some(ScriptError::BadLine(500003)),
        ),
        (b"clients 1\nschedule\n", b"op 1\n", 500000, b"", None),
        (b"#", b"a", 1023, b"\nclients 1\n", None),
        (
            b"#",
            b"a",
            1024,
            b"\nclients 1\n",
            Some(ScriptError::TooLong(1)),
        ),
    ] {
        let input = repeated(a, first, line, count, last)?;
        assert_eq!(rt; refusal(a, &input, true), wanted, "{count} {last:?}");
    }
    Ok(())
}

#[test]
fn restart_lines_are_limited(rt: HostRuntime) -> Result<(), Fail> {
    let a = rt.alloc();
    let mut input = b"clients 1\n".to_vec(a)?;
    for after in 1u8..17 {
        let line = format!(in a; "restart {after} 0\n")?;
        input.extend_from_slice(line.as_bytes())?;
    }
    assert_eq!(rt; refusal(a, &input, false), None);
    let rising = repeated(a, &input, b"", 0, b"restart 17 0")?;
    assert_eq!(rt; refusal(a, &rising, false), Some(ScriptError::Limit(18)));
    let falling = repeated(a, &input, b"", 0, b"restart 16 0")?;
    assert_eq!(rt; refusal(a, &falling, false), Some(ScriptError::BadLine(18)));
    Ok(())
}

#[test]
fn inputs_are_limited_in_bytes(rt: HostRuntime) -> Result<(), Fail> {
    let a = rt.alloc();
    let comment = repeated(a, b"#", b"a", 1022, b"\n")?;
    let head = repeated(a, b"clients 1\n#", b"a", 1012, b"\n")?;
    let whole = repeated(a, &head, &comment, 16383, b"")?;
    assert_eq!(rt; whole.len(), 16777216);
    assert_eq!(rt; refusal(a, &whole, false), None);
    let more = repeated(a, &whole, b"", 0, b"\n")?;
    assert_eq!(rt; refusal(a, &more, false), Some(ScriptError::TooLong(16386)));
    Ok(())
}

#[test]
fn a_seed_makes_a_script(rt: HostRuntime) -> Result<(), Fail> {
    let a = rt.alloc();
    let script = load(a, 7, 4, 200)?;
    assert_eq!(rt;
        (script.clients, script.object, script.input_lines),
        (4, None, 0)
    );
    let lines = script.lines.as_slice();
    assert_eq!(rt; lines.len(), 199);
    let made = lines
        .iter()
        .filter(|asked| matches!(&asked.1, Line::Mkdir { .. }))
        .count();
    let removed = lines
        .iter()
        .filter(|asked| matches!(&asked.1, Line::Rmdir { .. }))
        .count();
    assert_eq!(rt; (made, removed), (4 + 17, 13));
    assert_eq!(rt;
        lines.first(),
        Some(&(
            1,
            Line::Mkdir {
                path: path(a, "/c1")?
            }
        ))
    );
    Ok(())
}

// Whether a script's lines are those of an input.
fn is_script_of(alloc: Global, script: &Script, input: &str) -> Result<bool, Fail> {
    let wanted = parse(alloc, input.as_bytes(), false)?;
    Ok(script.clients == wanted.clients && script.lines == wanted.lines)
}

#[test]
fn small_seeds_make_these_scripts(rt: HostRuntime) -> Result<(), Fail> {
    let a = rt.alloc();
    let input =
        "clients 2\n1 mkdir /c1\n1 create /c1/f 0644\n1 open 1 /c1/f w\n1 barrier\n2 mkdir /c2\n2 create /c2/f 0644\n2 open 1 /c2/f w\n2 barrier\n1 write 1 2006 59cce65af39af629\n2 write 1 3002 fbf27c20ba0c1a1f\n1 mkdir /.snap/r1\n1 barrier\n2 barrier\n1 cat /.snap/r1/c1/f\n";
    let script = load(a, 1, 2, 19)?;
    assert!(rt; is_script_of(a, &script, input)?);
    Ok(())
}

#[test]
fn each_end_has_its_status(rt: HostRuntime) {
    for (end, status) in [
        (End::Done, 0),
        (End::Usage, 2),
        (End::ScriptRefused(ScriptError::BadLine(2)), 3),
        (End::ReadFault, 4),
        (End::WriteFault, 5),
        (End::DiskFault, 6),
        (End::NoMemory, 7),
        (End::ScheduleRefused(3), 8),
        (End::Unfinished(2), 8),
    ] {
        assert_eq!(rt; end.status(), status, "{end:?}");
    }
}
