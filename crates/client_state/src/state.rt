// The state of a client.
ghost use Rattle.std.specs.Prelude.{◌≡◌, ◌+◌, ◌<◌, IfOk};
ghost use Rattle.step_table.specs.ClientState.{new_client};

use crate::contexts::Contexts;
use crate::handles::OpenFile;
use crate::under_way::UnderWay;
use cap_snap::CapSnaps;
use plain_types::{FlushMsg, Line};
use snap_ids::NoMemory;
use std::alloc::Global;
use std::collections::VecDeque;
use std::marker::Model;

/// The state of a client: the lines that it has left, and the one under way; its connection; what it has numbered; the
/// files that it holds, with their contexts, and those that it has open; and what it heard. Contracts see the state of the
/// protocol's table. After `NoMemory` it may only be dropped. Ceph developer guide, CephFS Snapshots.
#[derive(Drop)]
pub struct ClientState {
    pub(crate) alloc: Global,
    pub(crate) number: u8,
    pub(crate) store: u8,
    pub(crate) lines: VecDeque<Line>,
    pub(crate) begun: u32,
    pub(crate) under: UnderWay,
    pub(crate) conn: u64,
    pub(crate) frozen: bool,
    pub(crate) tid: u64,
    pub(crate) flushes: u64,
    pub(crate) barriers: u64,
    pub(crate) unacked: Vec<FlushMsg>,
    pub(crate) handles: Vec<OpenFile>,
    pub(crate) files: CapSnaps,
    pub(crate) contexts: Contexts,
    pub(crate) heard_any: u64,
    pub(crate) heard_own: u64,
}

impl Model for ClientState {
    ghost use Rattle.std.specs.Prelude.{◌≡◌, true};
    ghost use Rattle.step_table.specs.ClientState.{Client};

    ghost Value = { Client };

    ghost use Rattle.client_state.specs.Acts.{under_of, under_fits};

    ghost view = { λ state. record {
      number = state.number;
      store = state.store;
      lines = state.lines.items;
      begun = state.begun;
      under = under_of state.under;
      conn = state.conn;
      frozen = state.frozen;
      tid = state.tid;
      flushes = state.flushes;
      barriers = state.barriers;
      unacked = state.unacked.items;
      handles = state.handles.items;
      files = state.files;
      contexts = state.contexts;
      heard = record { any = state.heard_any; own = state.heard_own };
    } };

    ghost invariant = { λ state. under_fits (under_of state.under) ≡ true };
}

impl ClientState {
    /// A client of this number among so many, which has these lines to go through. Its first connection is 1. It takes no
    /// memory.
    pub fn new(alloc: Global, number: u8, clients: u8, lines: VecDeque<Line>) -> ClientState
        requires { clients < 255 }
        ensures { result ≡ new_client number (clients + 1) lines.items }
    {
        ClientState {
            alloc,
            number,
            store: clients + 1,
            lines,
            begun: 0,
            under: UnderWay::Idle,
            conn: 1,
            frozen: false,
            tid: 0,
            flushes: 0,
            barriers: 0,
            unacked: Vec::new(alloc),
            handles: Vec::new(alloc),
            files: CapSnaps::new(alloc),
            contexts: Contexts::new(alloc),
            heard_any: 0,
            heard_own: 0,
        }
    }
}

// One more of what is counted. No count of a run comes near 2^62.
pub(crate) fn one_more(count: u64) -> Result<u64, NoMemory>
    ensures { IfOk result (λ more. more ≡ count + 1) }
{
    if count >= 1 << 62 {
        return Err(NoMemory);
    }
    Ok(count + 1)
}
