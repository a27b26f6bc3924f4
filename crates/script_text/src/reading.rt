// What was read of an input, line by line.
ghost use Rattle.std.specs.Prelude.{◌≡◌, ◌≤◌, ◌<◌, ◌+◌, ◌^◌, ◌∷◌, [], length, OnOk, IfErr, Ok};
ghost use Rattle.std.specs.Option.{option_zip};
ghost use Rattle.script_text.specs.Lines.{number_of, text_of_line, words_of};
ghost use Rattle.script_text.specs.Asked.{asked};
ghost use Rattle.script_text.specs.Planned.{client_of, planned};
ghost use Rattle.script_text.specs.Faults.{IsFaultOf, IsErrorOf};
ghost use Rattle.script_text.specs.Grammar.{with_clients, takes_object, with_object, last_after, with_restart, with_line, with_plan, restart_of, first_line, schedule_begins, lone_number, longer_line, body_line, read_words, counted, read_text, read_line, unread, is_barrier_of, barriers_of, uneven, finished};

use crate::client::{asked, is_asked};
use crate::cut::{Words, cut_words, first_word, is_skipped, text_of_line};
use crate::error::{Fault, ScriptError};
use crate::number::{is_number, small_of, value_of, within};
use crate::schedule::{client_of, planned};
use plain_types::{Line, Lines, Restarts, Schedule, Script};
use snap_ids::NoMemory;
use std::alloc::Global;

// What was read: the script so far, whose `input_lines` are the lines read; whether the schedule has begun; and how
// many bytes the lines had.
#[derive(Drop)]
pub struct Reading {
    pub script: Script,
    pub planning: bool,
    pub bytes: usize,
}

impl Reading {
    // Nothing was read yet.
    pub fn new(alloc: Global) -> Reading
        ensures { result ≡ unread }
    {
        Reading {
            script: Script {
                clients: 0,
                object: None,
                restarts: Restarts::new(alloc),
                lines: Lines::new(alloc),
                schedule: Schedule::new(alloc),
                input_lines: 0,
            },
            planning: false,
            bytes: 0,
        }
    }

    // `clients N`.
    fn read_clients(&mut self, word: &[u8]) -> Result<(), Fault>
        ensures ok { OnOk result (with_clients self.old (number_of word.now) ≡ Ok self.new) }
        ensures err { IfErr result (IsFaultOf (with_clients self.old (number_of word.now))) }
    {
        if !is_number(word) {
            return Err(Fault::Bad);
        }
        match value_of(word) {
            Some(0) => Err(Fault::Bad),
            Some(n) if n <= 8 => {
                self.script.clients = n as u8;
                Ok(())
            }
            _ => Err(Fault::Limit),
        }
    }

    // Whether `objsize` may still stand.
    fn takes_object(&self) -> bool
        ensures { result ≡ takes_object self.now }
    {
        self.script.object.is_none()
            && self.script.restarts.is_empty()
            && self.script.lines.is_empty()
    }

    // `objsize S`.
    fn read_object(&mut self, word: &[u8]) -> Result<(), Fault>
        ensures ok { OnOk result (with_object self.old (number_of word.now) ≡ Ok self.new) }
        ensures err { IfErr result (IsFaultOf (with_object self.old (number_of word.now))) }
    {
        if !is_number(word) || !self.takes_object() {
            return Err(Fault::Bad);
        }
        match value_of(word) {
            Some(size) if 16 <= size && size <= 65536 => {
                self.script.object = Some(size as u32);
                Ok(())
            }
            _ => Err(Fault::Limit),
        }
    }

    // The AFTER of the last restart line, or 0.
    fn last_after(&self) -> u64
        ensures { result ≡ last_after self.now.script.restarts }
    {
        match self.script.restarts.as_slice().last() {
            Some((after, _)) => *after,
            None => 0,
        }
    }

    // `restart AFTER KEEP`.
    fn read_restart(&mut self, after: &[u8], kept: &[u8]) -> Result<(), Fault>
        ensures ok { OnOk result (
            with_restart self.old (restart_of (after.now ∷ kept.now ∷ [])) ≡ Ok self.new) }
        ensures err { IfErr result (IsFaultOf
            (with_restart self.old (restart_of (after.now ∷ kept.now ∷ [])))) }
    {
        let Some(restart) = within(1, 18446744073709551615, after).zip(small_of(kept)) else {
            return Err(Fault::Bad);
        };
        if !self.script.lines.is_empty() || restart.0 <= self.last_after() {
            return Err(Fault::Bad);
        }
        if self.script.restarts.len() >= 16 {
            return Err(Fault::Limit);
        }
        self.script.restarts.push(restart)?;
        Ok(())
    }

    // A client's line: the client, and what follows the space behind it.
    fn read_line_of(&mut self, alloc: Global, client: &[u8], text: &[u8]) -> Result<(), Fault>
        ensures ok { OnOk result (
            with_line self.old
            (option_zip (client_of self.old.script.clients client.now) (asked (words_of text.now))) ≡ Ok self.new) }
        ensures err { IfErr result (IsFaultOf
            (with_line self.old
            (option_zip (client_of self.old.script.clients client.now) (asked (words_of text.now))))) }
    {
        let Some(client) = client_of(self.script.clients, client) else {
            return Err(Fault::Bad);
        };
        if !is_asked(text) {
            return Err(Fault::Bad);
        }
        if self.script.lines.len() >= 512 {
            return Err(Fault::Limit);
        }
        match asked(alloc, text) {
            Ok(Some(line)) => {
                self.script.lines.push((client, line))?;
                Ok(())
            }
            Ok(None) => Err(Fault::Bad),
            Err(NoMemory) => Err(Fault::NoMemory),
        }
    }

    // A line of the schedule.
    fn read_plan(&mut self, text: &[u8]) -> Result<(), Fault>
        requires { self.old.script.clients ≤ 8 }
        ensures ok { OnOk result (
            with_plan self.old (planned self.old.script.clients (words_of text.now)) ≡ Ok self.new) }
        ensures err { IfErr result (IsFaultOf
            (with_plan self.old (planned self.old.script.clients (words_of text.now)))) }
    {
        let Some(plan) = planned(self.script.clients, text) else {
            return Err(Fault::Bad);
        };
        if self.script.schedule.len() >= 500000 {
            return Err(Fault::Limit);
        }
        self.script.schedule.push((self.script.input_lines, plan))?;
        Ok(())
    }

    // The first line that isn't skipped.
    fn read_first(&mut self, text: &[u8]) -> Result<(), Fault>
        ensures ok { OnOk result (first_line self.old (words_of text.now) ≡ Ok self.new) }
        ensures err { IfErr result (IsFaultOf (first_line self.old (words_of text.now))) }
    {
        match cut_words(text) {
            Words::Two(word, count) => self.read_counted(word, count),
            Words::One(_) | Words::Three(..) | Words::Four(..) | Words::Many => Err(Fault::Bad),
        }
    }

    // The first line, where it has two words.
    fn read_counted(&mut self, word: &[u8], count: &[u8]) -> Result<(), Fault>
        ensures ok { OnOk result (first_line self.old (word.now ∷ count.now ∷ []) ≡ Ok self.new) }
        ensures err { IfErr result (IsFaultOf (first_line self.old (word.now ∷ count.now ∷ []))) }
    {
        if word == b"clients".as_slice() {
            self.read_clients(count)
        } else {
            Err(Fault::Bad)
        }
    }

    // The line `schedule`.
    fn begin_schedule(&mut self, allowed: bool, word: &[u8]) -> Result<(), Fault>
        ensures ok { OnOk result (schedule_begins allowed self.old word.now ≡ Ok self.new) }
        ensures err { IfErr result (IsFaultOf (schedule_begins allowed self.old word.now)) }
    {
        if allowed && word == b"schedule".as_slice() {
            self.planning = true;
            Ok(())
        } else {
            Err(Fault::Bad)
        }
    }

    // What follows the word `objsize`.
    fn read_sized(&mut self, text: &[u8]) -> Result<(), Fault>
        ensures ok { OnOk result (
            with_object self.old (lone_number (words_of text.now)) ≡ Ok self.new) }
        ensures err { IfErr result (IsFaultOf
            (with_object self.old (lone_number (words_of text.now)))) }
    {
        match cut_words(text) {
            Words::One(word) => self.read_object(word),
            Words::Two(..) | Words::Three(..) | Words::Four(..) | Words::Many => Err(Fault::Bad),
        }
    }

    // What follows the word `restart`.
    fn read_after(&mut self, text: &[u8]) -> Result<(), Fault>
        ensures ok { OnOk result (
            with_restart self.old (restart_of (words_of text.now)) ≡ Ok self.new) }
        ensures err { IfErr result (IsFaultOf
            (with_restart self.old (restart_of (words_of text.now)))) }
    {
        match cut_words(text) {
            Words::Two(after, kept) => self.read_restart(after, kept),
            Words::One(_) | Words::Three(..) | Words::Four(..) | Words::Many => Err(Fault::Bad),
        }
    }

    // A line between the first one and the schedule, of two words and more: the first, and what follows it.
    fn read_longer(&mut self, alloc: Global, word: &[u8], text: &[u8]) -> Result<(), Fault>
        ensures ok { OnOk result (longer_line self.old word.now (words_of text.now) ≡ Ok self.new) }
        ensures err { IfErr result (IsFaultOf (longer_line self.old word.now (words_of text.now))) }
    {
        if word == b"objsize".as_slice() {
            self.read_sized(text)
        } else if word == b"restart".as_slice() {
            self.read_after(text)
        } else {
            self.read_line_of(alloc, word, text)
        }
    }

    // A line between the first one and the schedule.
    fn read_body(&mut self, alloc: Global, allowed: bool, text: &[u8]) -> Result<(), Fault>
        ensures ok { OnOk result (body_line allowed self.old (words_of text.now) ≡ Ok self.new) }
        ensures err { IfErr result (IsFaultOf (body_line allowed self.old (words_of text.now))) }
    {
        let (word, rest) = first_word(text);
        let Some(rest) = rest else {
            return self.begin_schedule(allowed, word);
        };
        self.read_longer(alloc, word, rest)
    }

    // A line that isn't skipped.
    fn read_words(&mut self, alloc: Global, allowed: bool, text: &[u8]) -> Result<(), Fault>
        requires { self.old.script.clients ≤ 8 }
        ensures ok { OnOk result (read_words allowed self.old (words_of text.now) ≡ Ok self.new) }
        ensures err { IfErr result (IsFaultOf (read_words allowed self.old (words_of text.now))) }
    {
        if self.script.clients == 0 {
            self.read_first(text)
        } else if self.planning {
            self.read_plan(text)
        } else {
            self.read_body(alloc, allowed, text)
        }
    }

    // A line that is counted already.
    fn read_text(&mut self, alloc: Global, allowed: bool, text: &[u8]) -> Result<(), Fault>
        requires { self.old.script.clients ≤ 8 }
        ensures ok { OnOk result (read_text allowed self.old text.now ≡ Ok self.new) }
        ensures err { IfErr result (IsFaultOf (read_text allowed self.old text.now)) }
    {
        if text.len() > 1024 || self.bytes > 16777216 {
            Err(Fault::TooLong)
        } else if is_skipped(text) {
            Ok(())
        } else {
            self.read_words(alloc, allowed, text)
        }
    }

    // One line more.
    fn read_counted_line(&mut self, alloc: Global, allowed: bool, line: &[u8]) -> Result<(), Fault>
        requires clients { self.old.script.clients ≤ 8 }
        requires lines { self.old.script.input_lines + 1 < 2 ^ 32 }
        requires bytes { self.old.bytes + length line.now < 2 ^ 64 }
        ensures ok { OnOk result (
            read_text allowed (counted self.old (length line.now)) (text_of_line line.now) ≡ Ok self.new) }
        ensures err { IfErr result (IsFaultOf
            (read_text allowed (counted self.old (length line.now)) (text_of_line line.now))) }
    {
        self.script.input_lines += 1;
        self.bytes += line.len();
        self.read_text(alloc, allowed, text_of_line(line))
    }

    // One line more. Where it is refused, nothing further is told of what was read.
    pub fn read_line(
        &mut self,
        alloc: Global,
        allowed: bool,
        line: &[u8],
    ) -> Result<(), ScriptError>
        requires clients { self.old.script.clients ≤ 8 }
        requires lines { self.old.script.input_lines + 1 < 2 ^ 32 }
        requires bytes { self.old.bytes + length line.now < 2 ^ 64 }
        ensures ok { OnOk result (read_line allowed self.old line.now ≡ Ok self.new) }
        ensures err { IfErr result (IsErrorOf (read_line allowed self.old line.now)) }
    {
        let number = self.script.input_lines + 1;
        match self.read_counted_line(alloc, allowed, line) {
            Ok(()) => Ok(()),
            Err(fault) => Err(fault.at(number)),
        }
    }

    // How many `barrier` lines a client has.
    fn barriers_of(&self, client: u8) -> usize
        ensures { result ≡ barriers_of self.now.script.lines client }
    {
        self.script
            .lines
            .as_slice()
            .iter()
            .filter(|asked| is_barrier_of(client, asked))
            .count()
    }

    // The least client whose number of `barrier` lines isn't client 1's.
    fn uneven(&self) -> Option<u8>
        requires { self.now.script.clients ≤ 8 }
        ensures { result ≡ uneven self.now.script.lines self.now.script.clients }
    {
        let first = self.barriers_of(1);
        for client in 0..self.script.clients {
            if self.barriers_of(client + 1) != first {
                return Some(client + 1);
            }
        }
        None
    }

    // The script, where the input ends here.
    pub fn finish(self) -> Result<Script, ScriptError>
        requires { self.script.clients ≤ 8 }
        ensures { result ≡ finished self }
    {
        if self.script.clients == 0 {
            return Err(ScriptError::BadLine(1));
        }
        match self.uneven() {
            None => Ok(self.script),
            Some(client) => Err(ScriptError::Barriers(1, client)),
        }
    }
}

// Whether this is a client's `barrier`.
fn is_barrier_of(client: u8, asked: &(u8, Line)) -> bool
    ensures { result ≡ is_barrier_of client asked.now }
{
    match asked {
        (of, Line::Barrier) => *of == client,
        _ => false,
    }
}
