// What a client hears of its connection and of its flushes, and what it has open.
ghost use Rattle.std.specs.Prelude.{◌≡◌, ◌==◌, nat_le, false, not, filter, fold, if◌then◌else◌, IfOk, OnOk};
ghost use Rattle.plain_tree.specs.Change.{is_handle};
ghost use Rattle.plain_types.specs.declared.answer.Answer.TheVariants.{Done, Opened};
ghost use Rattle.plain_tree.specs.History.{stamp_of};
ghost use Rattle.step_table.specs.ClientTakes.{acked, settled_by, having_heard, handles_after};
ghost use Rattle.client_state.specs.Picks.{picks};

use crate::handles::OpenFile;
use crate::state::ClientState;
use cap_snap::CapSnaps;
use plain_types::{Answer, FlushMsg, Request, Stamp, ToClient};
use snap_ids::{Ino, NoMemory};
use std::alloc::Global;

// Which flushes are acknowledged.
#[derive(Clone, Copy)]
pub(crate) enum Which {
    // the one of this number
    One(u64),
    // all up to this number
    UpTo(u64),
}

// When a message was made.
fn stamp_of(told: &ToClient) -> Stamp
    ensures { result ≡ stamp_of told.now }
{
    match told {
        ToClient::Reply { stamp, .. } => *stamp,
        ToClient::Grant { stamp, .. } => *stamp,
        ToClient::Recall { stamp, .. } => *stamp,
        ToClient::Notice { stamp, .. } => *stamp,
        ToClient::FlushAck { stamp, .. } => *stamp,
        ToClient::Welcome { stamp, .. } => *stamp,
        ToClient::Restarted { stamp } => *stamp,
    }
}

// The entry of the last message of the own connection.
fn last_own(own: bool, entry: u64, before: u64) -> u64
    ensures { result ≡ (if own then entry else before) }
{
    if own { entry } else { before }
}

// Whether a flush is meant.
fn is_picked(which: Which, number: u64) -> bool
    ensures { result ≡ picks which number }
{
    match which {
        Which::One(meant) => number == meant,
        Which::UpTo(last) => number <= last,
    }
}

// The flushes that aren't meant.
fn kept_of(alloc: Global, flushes: &[FlushMsg], which: Which) -> Result<Vec<FlushMsg>, NoMemory>
    ensures { IfOk result (λ kept. kept.items ≡ filter (λ f. not (picks which f.number)) flushes.now) }
{
    Ok(
        flushes
            .iter()
            .copied()
            .filter(|f| !is_picked(which, f.number))
            .collect(alloc)?,
    )
}

// The open files but one.
fn without_handle(
    alloc: Global,
    open: &[OpenFile],
    client: u8,
    handle: u8,
) -> Result<Vec<OpenFile>, NoMemory>
    ensures { IfOk result (λ kept. kept.items ≡ filter (λ f. not (is_handle client handle f)) open.now) }
{
    Ok(
        open.iter()
            .copied()
            .filter(|f| !f.is_handle(client, handle))
            .collect(alloc)?,
    )
}

// A flush settles its file, where it is meant and isn't a release.
fn settle(files: &mut CapSnaps, flush: FlushMsg, which: Which)
    ensures { files.new ≡ (if picks which flush.number then settled_by files.old flush else files.old) }
{
    if is_picked(which, flush.number) && !flush.release {
        files.acked(flush.ino, flush.upto);
    }
}

// The flushes that are meant settle their files.
fn settle_all(files: &mut CapSnaps, flushes: &[FlushMsg], which: Which)
    ensures { files.new ≡ fold settled_by files.old (filter (λ f. picks which f.number) flushes.now) }
{
    let mut left = flushes;
    while let Some((flush, rest)) = left.split_first() {
        settle(files, *flush, which);
        left = rest;
    }
}

impl ClientState {
    /// A message of the server was heard, whether it is taken or not.
    pub fn hear(&mut self, told: &ToClient)
        ensures { self.new ≡ having_heard self.old told.now }
    {
        let own = self.is_own(told);
        let stamp = stamp_of(told);
        self.heard_own = last_own(own, stamp.entry, self.heard_own);
        self.heard_any = stamp.entry;
    }

    /// The server has welcomed the connection.
    pub fn thaw(&mut self)
        ensures { self.new ≡ record self.old { frozen = false } }
    {
        self.frozen = false;
    }

    // Some flushes are acknowledged.
    fn acknowledge_by(&mut self, which: Which) -> Result<(), NoMemory>
        ensures { OnOk result (self.new ≡ acked self.old (picks which)) }
    {
        let kept = kept_of(self.alloc, &self.unacked, which)?;
        settle_all(&mut self.files, &self.unacked, which);
        self.unacked = kept;
        Ok(())
    }

    /// The flush of this number is acknowledged.
    pub fn acknowledge(&mut self, number: u64) -> Result<(), NoMemory>
        ensures { OnOk result (self.new ≡ acked self.old (λ n. n == number)) }
    {
        self.acknowledge_by(Which::One(number))
    }

    /// The flushes up to this number are acknowledged.
    pub fn acknowledge_up_to(&mut self, last: u64) -> Result<(), NoMemory>
        ensures { OnOk result (self.new ≡ acked self.old (λ n. nat_le n last)) }
    {
        self.acknowledge_by(Which::UpTo(last))
    }

    // A request to open was done.
    fn opens(&mut self, ino: Ino, asked: &Request) -> Result<(), NoMemory>
        ensures { OnOk result (self.new ≡ record self.old { handles = handles_after self.old (Opened ino) asked.now }) }
    {
        match asked {
            Request::Open {
                handle,
                writable,
                ..
            } => {
                self.handles
                    .push(OpenFile::new(self.number, *handle, ino, *writable))?;
                Ok(())
            }
            _ => Ok(()),
        }
    }

    // A request to close was done.
    fn closes(&mut self, asked: &Request) -> Result<(), NoMemory>
        ensures { OnOk result (self.new ≡ record self.old { handles = handles_after self.old Done asked.now }) }
    {
        match asked {
            Request::Close { handle } => {
                self.handles = without_handle(self.alloc, &self.handles, self.number, *handle)?;
                Ok(())
            }
            _ => Ok(()),
        }
    }

    /// What is open after an answer to a request.
    pub fn answered(&mut self, said: &Answer, asked: &Request) -> Result<(), NoMemory>
        ensures { OnOk result (self.new ≡ record self.old { handles = handles_after self.old said.now asked.now }) }
    {
        match said {
            Answer::Opened(ino) => self.opens(*ino, asked),
            Answer::Done => self.closes(asked),
            _ => Ok(()),
        }
    }
}
