//! `snapctl`: runs a script over a file system with snapshots, and prints every reply.
#![tactic(auto)]

use io_edge::{StdSink, StdSource};
use script_text::End;
use snap_run::run_tool;
use std::process::ExitCode;
use std::{env, io};

// The program's words, its own name first.
fn words_of(rt: &HostRuntime) -> io::Result<Vec<String>> {
    let mut words = Vec::new(rt.alloc());
    for word in env::args(rt)? {
        words.push(word)?;
    }
    Ok(words)
}

fn main(rt: HostRuntime) -> ExitCode {
    let words = match words_of(&rt) {
        Ok(words) => words,
        Err(error) if error.kind() == io::ErrorKind::OutOfMemory => {
            return ExitCode::from(End::NoMemory.status());
        }
        // A word that isn't text is none of the program's, and neither is no word at all.
        Err(_) => Vec::new(rt.alloc()),
    };
    let mut source = StdSource::new(rt.stdin());
    let mut sink = StdSink::new(rt.stdout());
    let outcome = run_tool(rt.alloc(), &words, &mut source, &mut sink);
    ExitCode::from(outcome.status)
}
