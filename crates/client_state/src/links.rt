// A client's connection, and what it flushes and gives back.
ghost use Rattle.std.specs.Prelude.{◌≡◌, IfOk, OnOk};
ghost use Rattle.plain_types.specs.declared.message.ToServer.TheVariants.{DropRead};
ghost use Rattle.step_table.specs.ClientState.{tells, connects};
ghost use Rattle.step_table.specs.ClientLines.{breaks, flushes_with, mark_flush, release_flush, lets_go};
ghost use Rattle.client_state.specs.Acts.{row_of};

use crate::acted::Acted;
use crate::state::{ClientState, one_more};
use plain_types::{Answer, FlushMsg, Flushes, ToServer};
use snap_ids::{Ino, NOSNAP, NoMemory, SnapId};
use std::alloc::Global;

// A copy of some flushes.
fn copies(alloc: Global, flushes: &[FlushMsg]) -> Result<Flushes, NoMemory>
    ensures { IfOk result (λ list. list ≡ flushes.now) }
{
    let mut list = Vec::new(alloc);
    list.extend_from_slice(flushes)?;
    Ok(Flushes::from_vec(list))
}

impl ClientState {
    // A flush is sent and kept.
    fn send_flush(&mut self, flush: FlushMsg) -> Result<Acted, NoMemory>
        ensures { IfOk result (λ acted. row_of self.new acted ≡ flushes_with self.old flush) }
    {
        let flushes = one_more(self.flushes)?;
        self.unacked.push(flush)?;
        self.flushes = flushes;
        Acted::telling(
            self.alloc,
            ToServer::Flush {
                conn: self.conn,
                flush,
            },
        )
    }

    // A file is let go.
    fn let_go(&mut self, ino: Ino) -> Result<(), NoMemory>
        ensures { OnOk result (self.new ≡ lets_go self.old ino) }
    {
        self.under.remember(self.alloc, ino)?;
        self.contexts.let_go(ino);
        Ok(())
    }

    /// The link is broken: the client connects anew with all that it holds, what isn't acknowledged and its open request,
    /// and waits for the welcome.
    pub fn connect(&mut self) -> Result<Acted, NoMemory>
        ensures { IfOk result (λ acted. row_of self.new acted ≡ connects self.old) }
    {
        let conn = one_more(self.conn)?;
        let claims = self.files.claims()?;
        let flushes = copies(self.alloc, &self.unacked)?;
        let asked = self.under.open_request()?;
        self.under.send_again(self.alloc);
        self.conn = conn;
        self.frozen = true;
        Acted::telling(
            self.alloc,
            ToServer::Connect {
                conn,
                claims,
                flushes,
                asked,
            },
        )
    }

    /// The line `break` breaks the link, and is answered at once.
    pub fn break_link(&mut self, number: u32) -> Result<Acted, NoMemory>
        ensures { IfOk result (λ acted. row_of self.new acted ≡ breaks self.old number) }
    {
        let mut acted = self.connect()?;
        let answer = self.reply(number, false, 0, Answer::Done)?;
        acted.replies = answer.replies;
        Ok(acted)
    }

    /// A mark is sent as a flush, under the next number, and kept until it is acknowledged.
    pub fn send_mark(
        &mut self,
        ino: Ino,
        follows: SnapId,
        upto: SnapId,
        size: u32,
    ) -> Result<Acted, NoMemory>
        ensures { IfOk result (λ acted. row_of self.new acted ≡ flushes_with self.old (mark_flush self.old ino follows upto size)) }
    {
        let number = one_more(self.flushes)?;
        self.send_flush(FlushMsg {
            number,
            ino,
            follows,
            upto,
            size,
            release: false,
        })
    }

    /// A file is given up by a writer: it is let go, and its last flush is sent.
    pub fn send_release(&mut self, ino: Ino, size: u32) -> Result<Acted, NoMemory>
        ensures { IfOk result (λ acted. row_of self.new acted ≡ flushes_with (lets_go self.old ino) (release_flush self.old ino size)) }
    {
        let number = one_more(self.flushes)?;
        let follows = self.seq_of(ino);
        self.let_go(ino)?;
        self.send_flush(FlushMsg {
            number,
            ino,
            follows,
            upto: NOSNAP,
            size,
            release: true,
        })
    }

    /// A file is given up by a reader: it is let go, and the server is told.
    pub fn send_drop(&mut self, ino: Ino) -> Result<Acted, NoMemory>
        ensures { IfOk result (λ acted. row_of self.new acted ≡ tells (lets_go self.old ino) (DropRead self.old.conn ino)) }
    {
        self.let_go(ino)?;
        let conn = self.conn;
        Acted::telling(self.alloc, ToServer::DropRead { conn, ino })
    }
}
