// What a client sends and answers.
ghost use Rattle.std.specs.Prelude.{◌≡◌, true, false, IfOk};
ghost use Rattle.step_table.specs.ClientState.{Idle, AtStore, stays, tells, asks_store, replies, refuses, asks, reads_head, edit_of};
ghost use Rattle.step_table.specs.ClientLines.{asks_barrier};
ghost use Rattle.step_table.specs.ClientTakes.{asks_anew};
ghost use Rattle.client_state.specs.Acts.{row_of, under_of, under_fits, edit_asked};

use crate::acted::Acted;
use crate::state::{ClientState, one_more};
use crate::under_way::UnderWay;
use plain_types::{Answer, Line, Message, Refusal, Replied, Request, Sent, ToServer, ToStore};
use snap_ids::{Ino, NoMemory};
use std::mem;

impl ClientState {
    /// Nothing happens. It takes no memory.
    pub fn stay(&self) -> Acted
        ensures { row_of self.now result ≡ stays self.now }
    {
        Acted::nothing(self.alloc)
    }

    /// The server is told something.
    pub fn tell(&self, said: ToServer) -> Result<Acted, NoMemory>
        ensures { IfOk result (λ acted. row_of self.now acted ≡ tells self.now said) }
    {
        Acted::telling(self.alloc, said)
    }

    /// The store is sent a message, and what is under way stays.
    pub fn order_store(&self, order: ToStore) -> Result<Acted, NoMemory>
        ensures { IfOk result (λ acted. row_of self.now acted ≡ asks_store self.now order) }
    {
        Acted::ordering(self.alloc, self.store, order)
    }

    /// A line gets its reply.
    pub fn reply(
        &self,
        line: u32,
        changed: bool,
        entry: u64,
        answer: Answer,
    ) -> Result<Acted, NoMemory>
        ensures { IfOk result (λ acted. row_of self.now acted ≡ replies self.now line changed entry answer) }
    {
        let client = self.number;
        Acted::replying(
            self.alloc,
            Replied {
                client,
                line,
                changed,
                entry,
                answer,
            },
        )
    }

    /// A line is refused, without the server.
    pub fn refuse(&self, line: u32, refusal: Refusal) -> Result<Acted, NoMemory>
        ensures { IfOk result (λ acted. row_of self.now acted ≡ refuses self.now line refusal) }
    {
        self.reply(line, false, 0, Answer::Refused(refusal))
    }

    /// A request of a line is sent, under the next number.
    pub fn ask(&mut self, number: u32, line: Line, request: Request) -> Result<Acted, NoMemory>
        requires { edit_asked (edit_of line) request ≡ true }
        ensures { IfOk result (λ acted. row_of self.new acted ≡ asks self.old number line request) }
    {
        let tid = one_more(self.tid)?;
        let copy = request.clone()?;
        self.tid = tid;
        self.under = UnderWay::asked(self.alloc, number, tid, line, request);
        Acted::telling(
            self.alloc,
            ToServer::Ask {
                conn: self.conn,
                tid,
                request: copy,
            },
        )
    }

    /// The client waits for all others, with the next of its barriers.
    pub fn ask_barrier(&mut self, number: u32) -> Result<Acted, NoMemory>
        ensures { IfOk result (λ acted. row_of self.new acted ≡ asks_barrier self.old number) }
    {
        let barrier = one_more(self.barriers)?;
        self.barriers = barrier;
        self.ask(number, Line::Barrier, Request::Barrier { number: barrier })
    }

    /// A file that the client let go since it last sent the request is let go again, and the client asks anew.
    pub fn ask_anew(
        &mut self,
        number: u32,
        line: Line,
        request: Request,
        ino: Ino,
    ) -> Result<Acted, NoMemory>
        requires { edit_asked (edit_of line) request ≡ true }
        ensures { IfOk result (λ acted. row_of self.new acted ≡ asks_anew self.old number line request ino) }
    {
        let alloc = self.alloc;
        let conn = self.conn;
        let asked = self.ask(number, line, request)?;
        let dropped = Sent {
            to: 0,
            message: Message::ToServer(ToServer::DropRead { conn, ino }),
        };
        asked.led_by(alloc, dropped)
    }

    /// The store is asked for a held file's live bytes. The line's number is the key.
    pub fn read_head(&mut self, number: u32, entry: u64, ino: Ino) -> Result<Acted, NoMemory>
        ensures { IfOk result (λ acted. row_of self.new acted ≡ reads_head self.old number entry ino) }
    {
        let size = self.size_of(ino);
        self.under = UnderWay::AtStore {
            number,
            entry,
            ino,
            head: true,
        };
        let order = ToStore::ReadHead {
            key: number,
            ino,
            size,
        };
        Acted::ordering(self.alloc, self.store, order)
    }

    /// The store is asked for something else of a file.
    pub fn read_from_store(
        &mut self,
        number: u32,
        entry: u64,
        ino: Ino,
        order: ToStore,
    ) -> Result<Acted, NoMemory>
        ensures { IfOk result (λ acted. row_of self.new acted
            ≡ asks_store (record self.old { under = AtStore number entry ino false }) order) }
    {
        self.under = UnderWay::AtStore {
            number,
            entry,
            ino,
            head: false,
        };
        Acted::ordering(self.alloc, self.store, order)
    }

    /// Nothing is under way any more: what was is handed out.
    pub fn idle(&mut self) -> UnderWay
        ensures taken { under_of result ≡ self.old.under }
        ensures fits { under_fits (under_of result) ≡ true }
        ensures idle { self.new ≡ record self.old { under = Idle } }
    {
        mem::replace(&mut self.under, UnderWay::Idle)
    }
}
