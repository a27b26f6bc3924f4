// The text of runs in each form, against texts written by hand.
use plain_types::{Answer, Event, History, Line, Refusal, Replied, Script, Step};
use reply_text::{Form, push_number, write_text};
use snap_ids::{CloneList, Ino, Kind, ListOf, Name, Path, SnapContext, SnapId};
use std::alloc::Global;
use std::process::Abort;
use std::test::Fail;

fn path(alloc: Global, text: &str) -> Result<Path, Fail> {
    Ok(Path::parse(alloc, text.as_bytes())?)
}

fn ids(alloc: Global, numbers: &[u64]) -> Result<ListOf<SnapId>, Fail> {
    let mut ids = Vec::new(alloc);
    for number in numbers {
        ids.push(SnapId(*number))?;
    }
    Ok(ListOf::from_vec(ids))
}

fn realm(alloc: Global, ino: u64, seq: u64, numbers: &[u64]) -> Result<Answer, Fail> {
    let ids = ids(alloc, numbers)?;
    Ok(Answer::RealmIs(Ino(ino), SnapContext::new(SnapId(seq), ids)?))
}

// Directories end in `/`.
fn entries(alloc: Global, names: &[&str]) -> Result<Answer, Fail> {
    let mut entries = Vec::new(alloc);
    for name in names {
        let kind = if name.ends_with('/') {
            Kind::Dir
        } else {
            Kind::File
        };
        let bytes = name.trim_end_matches('/').as_bytes();
        entries.push((Name::new(alloc, bytes)?, kind))?;
    }
    Ok(Answer::Listed(ListOf::from_vec(entries)))
}

fn clones(alloc: Global, lists: &[(u64, &[u64])], head: Option<u32>) -> Result<Answer, Fail> {
    let mut clones = Vec::new(alloc);
    for (id, numbers) in lists {
        clones.push((SnapId(*id), ids(alloc, numbers)?))?;
    }
    let clones = ListOf::from_vec(clones);
    Ok(Answer::ClonesAre(CloneList { clones, head }))
}

fn bytes(alloc: Global, of: &[u8]) -> Result<Answer, Fail> {
    Ok(Answer::FileBytes(ListOf::from_vec(of.to_vec(alloc)?)))
}

fn script_of(alloc: Global, clients: u8, lines: Vec<(u8, Line)>) -> Script {
    Script {
        clients,
        object: None,
        restarts: ListOf::new(alloc),
        lines: ListOf::from_vec(lines),
        schedule: ListOf::new(alloc),
        input_lines: 0,
    }
}

// An event with one reply, or with none.
fn event(alloc: Global, step: Step, reply: Option<Replied>) -> Result<Event, Fail> {
    let mut replies = Vec::new(alloc);
    if let Some(reply) = reply {
        replies.push(reply)?;
    }
    Ok(Event {
        node: 1,
        step,
        taken: None,
        sent: ListOf::new(alloc),
        effects: ListOf::new(alloc),
        replies: ListOf::from_vec(replies),
    })
}

// One more event, with this reply.
fn reply(
    alloc: Global,
    history: &mut History,
    client: u8,
    line: u32,
    answer: Answer,
) -> Result<(), Fail> {
    let reply = Replied {
        client,
        line,
        changed: false,
        entry: 0,
        answer,
    };
    let event = event(alloc, Step::ClientFromServer(client), Some(reply))?;
    history.push(event)?;
    Ok(())
}

fn written(alloc: Global, script: &Script, history: &History, form: Form) -> Result<String, Fail> {
    let mut out = Vec::new(alloc);
    write_text(alloc, script, history, form, &mut out)?;
    Ok(String::from_utf8(out)?)
}

// That a reply with this answer has these words, plainly and in JSON.
fn says(rt: &impl Abort, alloc: Global, answer: Answer, wanted: &str) -> Result<(), Fail> {
    let script = script_of(alloc, 1, Vec::new(alloc));
    let mut history = ListOf::new(alloc);
    reply(alloc, &mut history, 1, 7, answer)?;
    let plain = written(alloc, &script, &history, Form::Plain)?;
    assert_eq!(rt; plain, format!(in alloc; "1.7 {wanted}\ndone\n")?);
    let json = written(alloc, &script, &history, Form::Json)?;
    assert_eq!(rt;
        json,
        format!(in alloc;
            "{{\"client\":1,\"line\":7,\"reply\":\"{wanted}\"}}\n{{\"done\":true}}\n"
        )?
    );
    Ok(())
}

// That a client's line is read so.
fn reads(rt: &impl Abort, alloc: Global, line: Line, wanted: &str) -> Result<(), Fail> {
    let mut lines = Vec::new(alloc);
    lines.push((2, line))?;
    let script = script_of(alloc, 3, lines);
    let history: History = ListOf::new(alloc);
    let text = written(alloc, &script, &history, Form::Steps)?;
    assert_eq!(rt;
        text,
        format!(in alloc; "clients 3\n2 {wanted}\nschedule\n")?
    );
    Ok(())
}

// That a step of a run of two clients is spelled so.
fn goes(rt: &impl Abort, alloc: Global, step: Step, wanted: &str) -> Result<(), Fail> {
    let script = script_of(alloc, 2, Vec::new(alloc));
    let mut history: History = ListOf::new(alloc);
    history.push(event(alloc, step, None)?)?;
    let text = written(alloc, &script, &history, Form::Steps)?;
    assert_eq!(rt; text, format!(in alloc; "clients 2\nschedule\n{wanted}\n")?);
    Ok(())
}

#[test]
fn refusals_in_their_words(rt: HostRuntime) -> Result<(), Fail> {
    for (refusal, wanted) in [
        (Refusal::BadName, "bad-name"),
        (Refusal::Exists, "exists"),
        (Refusal::NoEntry, "no-entry"),
        (Refusal::NotDir, "not-dir"),
        (Refusal::IsDir, "is-dir"),
        (Refusal::NotEmpty, "not-empty"),
        (Refusal::HasSnapshots, "has-snapshots"),
        (Refusal::ReadOnly, "read-only"),
        (Refusal::NoSnap, "no-snap"),
        (Refusal::BadHandle, "bad-handle"),
        (Refusal::IntoItself, "into-itself"),
        (Refusal::TooLarge, "too-large"),
        (Refusal::TooManySnaps, "too-many-snaps"),
        (Refusal::TooManyLive, "too-many-live"),
    ] {
        says(&rt, rt.alloc(), Answer::Refused(refusal), wanted)?;
    }
    Ok(())
}

#[test]
fn short_answers(rt: HostRuntime) -> Result<(), Fail> {
    let alloc = rt.alloc();
    says(&rt, alloc, Answer::Done, "ok")?;
    says(&rt, alloc, Answer::Snap(SnapId(129)), "ok snap 129")?;
    says(&rt, alloc, Answer::Opened(Ino(1099511627776)), "ok")?;
    says(&rt, alloc, Answer::Pending(16), "pending 16")?;
    says(&rt, alloc, Answer::Gone, "gone")?;
    Ok(())
}

#[test]
fn what_files_and_directories_answer(rt: HostRuntime) -> Result<(), Fail> {
    let alloc = rt.alloc();
    says(
        &rt,
        alloc,
        Answer::StatFile(0o644, 65536),
        "stat file 0644 65536",
    )?;
    says(&rt, alloc, Answer::StatFile(0, 0), "stat file 0000 0")?;
    says(&rt, alloc, Answer::StatDir(0o755), "stat dir 0755")?;
    says(&rt, alloc, bytes(alloc, &[])?, "bytes -")?;
    says(&rt, alloc, bytes(alloc, &[0, 0x4a, 0xff])?, "bytes 004aff")?;
    says(&rt, alloc, entries(alloc, &[])?, "list")?;
    says(
        &rt,
        alloc,
        entries(alloc, &["_s_1/", "f", "z/"])?,
        "list _s_1/ f z/",
    )?;
    Ok(())
}

#[test]
fn what_realms_and_objects_answer(rt: HostRuntime) -> Result<(), Fail> {
    let alloc = rt.alloc();
    says(
        &rt,
        alloc,
        realm(alloc, 1099511627778, 4, &[4, 3, 2])?,
        "realm 1099511627778 seq 4 ids 4,3,2",
    )?;
    says(&rt, alloc, realm(alloc, 1, 1, &[])?, "realm 1 seq 1 ids -")?;
    says(&rt, alloc, clones(alloc, &[], None)?, "clones none")?;
    says(&rt, alloc, clones(alloc, &[], Some(2))?, "clones head 2")?;
    let two: [(u64, &[u64]); 2] = [(3, &[3, 2]), (5, &[5])];
    says(
        &rt,
        alloc,
        clones(alloc, &two, Some(0))?,
        "clones 3:3,2 5:5 head 0",
    )?;
    says(
        &rt,
        alloc,
        clones(alloc, &two, None)?,
        "clones 3:3,2 5:5 none",
    )?;
    Ok(())
}

#[test]
fn lines_that_change_the_tree(rt: HostRuntime) -> Result<(), Fail> {
    let alloc = rt.alloc();
    reads(
        &rt,
        alloc,
        Line::Mkdir {
            path: path(alloc, "/a")?,
        },
        "mkdir /a",
    )?;
    reads(
        &rt,
        alloc,
        Line::Rmdir {
            path: path(alloc, "/a/.snap/s")?,
        },
        "rmdir /a/.snap/s",
    )?;
    reads(
        &rt,
        alloc,
        Line::Create {
            path: path(alloc, "/a/f")?,
            mode: 0o644,
        },
        "create /a/f 0644",
    )?;
    reads(
        &rt,
        alloc,
        Line::Unlink {
            path: path(alloc, "/")?,
        },
        "unlink /",
    )?;
    reads(
        &rt,
        alloc,
        Line::Chmod {
            path: path(alloc, "/")?,
            mode: 0o7,
        },
        "chmod / 0007",
    )?;
    Ok(())
}

#[test]
fn lines_of_two_paths(rt: HostRuntime) -> Result<(), Fail> {
    let alloc = rt.alloc();
    let (from, to) = (path(alloc, "/a/f")?, path(alloc, "/b")?);
    reads(
        &rt,
        alloc,
        Line::Link {
            path: from,
            target: to,
        },
        "link /a/f /b",
    )?;
    let (from, to) = (path(alloc, "/")?, path(alloc, "/c/d")?);
    reads(
        &rt,
        alloc,
        Line::Rename {
            path: from,
            target: to,
        },
        "rename / /c/d",
    )?;
    Ok(())
}

#[test]
fn lines_of_handles(rt: HostRuntime) -> Result<(), Fail> {
    let alloc = rt.alloc();
    let file = path(alloc, "/a/f")?;
    reads(
        &rt,
        alloc,
        Line::Open {
            handle: 64,
            path: file,
            writable: true,
        },
        "open 64 /a/f w",
    )?;
    let file = path(alloc, "/a/f")?;
    reads(
        &rt,
        alloc,
        Line::Open {
            handle: 1,
            path: file,
            writable: false,
        },
        "open 1 /a/f r",
    )?;
    let bytes = ListOf::from_vec([0xabu8, 0x01].to_vec(alloc)?);
    reads(
        &rt,
        alloc,
        Line::Write {
            handle: 2,
            offset: 4294967295,
            bytes,
        },
        "write 2 4294967295 ab01",
    )?;
    reads(
        &rt,
        alloc,
        Line::Truncate {
            handle: 2,
            length: 0,
        },
        "truncate 2 0",
    )?;
    reads(&rt, alloc, Line::Read { handle: 2 }, "read 2")?;
    reads(&rt, alloc, Line::Close { handle: 1 }, "close 1")?;
    Ok(())
}

#[test]
fn lines_that_change_nothing(rt: HostRuntime) -> Result<(), Fail> {
    let alloc = rt.alloc();
    reads(
        &rt,
        alloc,
        Line::Cat {
            path: path(alloc, "/a/.snap/s/f")?,
        },
        "cat /a/.snap/s/f",
    )?;
    reads(
        &rt,
        alloc,
        Line::Stat {
            path: path(alloc, "/")?,
        },
        "stat /",
    )?;
    reads(
        &rt,
        alloc,
        Line::List {
            path: path(alloc, "/a/.snap")?,
        },
        "ls /a/.snap",
    )?;
    reads(
        &rt,
        alloc,
        Line::Realm {
            path: path(alloc, "/a")?,
        },
        "realm /a",
    )?;
    reads(
        &rt,
        alloc,
        Line::Clones {
            path: path(alloc, "/f")?,
            index: 3,
        },
        "clones /f 3",
    )?;
    reads(&rt, alloc, Line::Barrier, "barrier")?;
    reads(&rt, alloc, Line::Break, "break")?;
    Ok(())
}

#[test]
fn steps_as_a_schedule_spells_them(rt: HostRuntime) -> Result<(), Fail> {
    for (step, wanted) in [
        (Step::Op(1), "op 1"),
        (Step::Flush(2), "flush 2"),
        (Step::ClientFromServer(1), "take 1 server"),
        (Step::ClientFromStore(2), "take 2 store"),
        (Step::ServerTakes(2), "take server 2"),
        (Step::ServerTakes(3), "take server store"),
        (Step::Commit, "commit"),
        (Step::Restart(7), "restart 7"),
        (Step::Tend, "tend"),
        (Step::StoreTakes(1), "take store 1"),
        (Step::StoreTakes(0), "take store server"),
    ] {
        goes(&rt, rt.alloc(), step, wanted)?;
    }
    Ok(())
}

#[test]
fn what_stands_above_the_lines(rt: HostRuntime) -> Result<(), Fail> {
    let alloc = rt.alloc();
    let mut script = script_of(alloc, 1, Vec::new(alloc));
    script.object = Some(4096);
    script.restarts.push((3, 0))?;
    script.restarts.push((18446744073709551615, 4294967295))?;
    let history: History = ListOf::new(alloc);
    let text = written(alloc, &script, &history, Form::Steps)?;
    let wanted =
        "clients 1\nobjsize 4096\nrestart 3 0\nrestart 18446744073709551615 4294967295\nschedule\n";
    assert_eq!(rt; text.as_str(), wanted);
    Ok(())
}

#[test]
fn a_run_of_nothing(rt: HostRuntime) -> Result<(), Fail> {
    let alloc = rt.alloc();
    let script = script_of(alloc, 1, Vec::new(alloc));
    let history: History = ListOf::new(alloc);
    for (form, wanted) in [
        (Form::Plain, "done\n"),
        (Form::Json, "{\"done\":true}\n"),
        (Form::Steps, "clients 1\nschedule\n"),
        (
            Form::Summary,
            "clients 1\nlines 0\nsnapshots 0\nremoved 0\nrefused 0\ndone\n",
        ),
    ] {
        let text = written(alloc, &script, &history, form)?;
        assert_eq!(rt; text.as_str(), wanted);
    }
    Ok(())
}

// Client 1's lines, as `mkdir` of the first ones and `ls` of the others.
fn small_script(alloc: Global) -> Result<Script, Fail> {
    let mut lines = Vec::new(alloc);
    for at in ["/a", "/a/.snap/s", "/a/b"] {
        lines.push((
            1,
            Line::Mkdir {
                path: path(alloc, at)?,
            },
        ))?;
    }
    for at in ["/a/.snap/s", "/a"] {
        lines.push((
            1,
            Line::List {
                path: path(alloc, at)?,
            },
        ))?;
    }
    Ok(script_of(alloc, 1, lines))
}

fn small_history(alloc: Global) -> Result<History, Fail> {
    let mut history = ListOf::new(alloc);
    reply(alloc, &mut history, 1, 1, Answer::Done)?;
    reply(alloc, &mut history, 1, 2, Answer::Snap(SnapId(2)))?;
    reply(alloc, &mut history, 1, 3, Answer::Done)?;
    reply(alloc, &mut history, 1, 4, entries(alloc, &[])?)?;
    reply(alloc, &mut history, 1, 5, entries(alloc, &["b/"])?)?;
    Ok(history)
}

const SMALL_PLAIN: &str = "1.1 ok\n1.2 ok snap 2\n1.3 ok\n1.4 list\n1.5 list b/\ndone\n";

const SMALL_JSON: &str = "{\"client\":1,\"line\":1,\"reply\":\"ok\"}
{\"client\":1,\"line\":2,\"reply\":\"ok snap 2\"}
{\"client\":1,\"line\":3,\"reply\":\"ok\"}
{\"client\":1,\"line\":4,\"reply\":\"list\"}
{\"client\":1,\"line\":5,\"reply\":\"list b/\"}
{\"done\":true}
";

const SMALL_STEPS: &str = "clients 1
1 mkdir /a
1 mkdir /a/.snap/s
1 mkdir /a/b
1 ls /a/.snap/s
1 ls /a
schedule
take 1 server
take 1 server
take 1 server
take 1 server
take 1 server
";

const SMALL_SUMMARY: &str = "clients 1\nlines 5\nsnapshots 1\nremoved 0\nrefused 0\ndone\n";

#[test]
fn a_small_run_in_each_form(rt: HostRuntime) -> Result<(), Fail> {
    let alloc = rt.alloc();
    let script = small_script(alloc)?;
    let history = small_history(alloc)?;
    for (form, wanted) in [
        (Form::Plain, SMALL_PLAIN),
        (Form::Json, SMALL_JSON),
        (Form::Steps, SMALL_STEPS),
        (Form::Summary, SMALL_SUMMARY),
    ] {
        let text = written(alloc, &script, &history, form)?;
        assert_eq!(rt; text.as_str(), wanted);
    }
    Ok(())
}

#[test]
fn replies_come_by_client_and_line(rt: HostRuntime) -> Result<(), Fail> {
    let alloc = rt.alloc();
    let script = script_of(alloc, 2, Vec::new(alloc));
    let mut history = ListOf::new(alloc);
    for (client, line, told) in [
        (2, 1, 9),
        (1, 3, 8),
        (3, 1, 7),
        (1, 1, 6),
        (2, 2, 5),
        (1, 3, 4),
        (1, 2, 3),
        (0, 1, 2),
    ] {
        reply(alloc, &mut history, client, line, Answer::Pending(told))?;
    }
    let wanted =
        "1.1 pending 6\n1.2 pending 3\n1.3 pending 8\n1.3 pending 4\n2.1 pending 9\n2.2 pending 5\ndone\n";
    let text = written(alloc, &script, &history, Form::Plain)?;
    assert_eq!(rt; text.as_str(), wanted);
    Ok(())
}

// The client lines of this summary: each an `rmdir`.
fn removing_script(alloc: Global) -> Result<Script, Fail> {
    let mut lines = Vec::new(alloc);
    for (client, at) in [
        (1, "/a"),
        (2, "/.snap/s"),
        (1, "/.snap/s"),
        (1, "/.snap/t"),
        (1, "/.snap"),
        (1, "/.snap/t/a"),
        (2, "/b"),
        (2, "/c"),
    ] {
        lines.push((
            client,
            Line::Rmdir {
                path: path(alloc, at)?,
            },
        ))?;
    }
    Ok(script_of(alloc, 2, lines))
}

fn removing_history(alloc: Global) -> Result<History, Fail> {
    let mut history = ListOf::new(alloc);
    for (client, line) in [
        (1, 1),
        (1, 3),
        (1, 4),
        (1, 5),
        (1, 0),
        (1, 6),
        (2, 1),
        (3, 1),
    ] {
        reply(alloc, &mut history, client, line, Answer::Done)?;
    }
    reply(alloc, &mut history, 1, 2, Answer::Refused(Refusal::NoSnap))?;
    reply(alloc, &mut history, 2, 2, Answer::Pending(1))?;
    reply(alloc, &mut history, 2, 3, Answer::Gone)?;
    reply(alloc, &mut history, 3, 2, Answer::Gone)?;
    reply(alloc, &mut history, 2, 4, Answer::Snap(SnapId(2)))?;
    Ok(history)
}

#[test]
fn what_a_summary_counts(rt: HostRuntime) -> Result<(), Fail> {
    let alloc = rt.alloc();
    let script = removing_script(alloc)?;
    let history = removing_history(alloc)?;
    let text = written(alloc, &script, &history, Form::Summary)?;
    let wanted = "clients 2\nlines 8\nsnapshots 1\nremoved 2\nrefused 3\ndone\n";
    assert_eq!(rt; text.as_str(), wanted);
    Ok(())
}

#[test]
fn a_large_run_behind_another_text(rt: HostRuntime) -> Result<(), Fail> {
    let alloc = rt.alloc();
    let script = script_of(alloc, 1, Vec::new(alloc));
    let mut history = ListOf::new(alloc);
    for line in 1..513u32 {
        reply(alloc, &mut history, 1, line, bytes(alloc, &[0; 2048])?)?;
    }
    let mut out = b"before\n".to_vec(alloc)?;
    write_text(alloc, &script, &history, Form::Plain, &mut out)?;
    // 9 replies begin with 4 bytes, 90 with 5 and 413 with 6; `bytes `, two digits a byte and a line feed follow
    let lines = 9 * 4 + 90 * 5 + 413 * 6 + 512 * (6 + 4096 + 1);
    assert_eq!(rt; out.len(), 7 + lines + 5);
    assert!(rt;
        out.as_slice()
            .starts_with(b"before\n1.1 bytes 0000".as_slice())
    );
    assert!(rt; out.as_slice().ends_with(b"0000\ndone\n".as_slice()));
    Ok(())
}

#[test]
fn numbers_are_decimal(rt: HostRuntime) -> Result<(), Fail> {
    let mut out = Vec::new(rt.alloc());
    push_number(&mut out, 0)?;
    push_number(&mut out, 18446744073709551615)?;
    assert_eq!(rt; out.as_slice(), b"018446744073709551615".as_slice());
    Ok(())
}
