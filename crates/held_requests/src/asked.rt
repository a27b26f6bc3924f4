// A request as the server took it.
ghost use Rattle.std.specs.Prelude.{◌≡◌};
ghost use Rattle.step_table.specs.Background.{barrier_of, is_number};

use plain_types::Request;
use std::marker::Model;

/// A request as the server took it: whose it is, its number among the client's, and what is asked. Contracts see the record
/// that the protocol's table has.
#[derive(Debug, Drop)]
pub struct Asked {
    pub(crate) client: u8,
    pub(crate) tid: u64,
    pub(crate) request: Request,
}

impl Model for Asked {
    ghost use Rattle.step_table.specs.ServerState.{Asked as Taken};

    ghost Value = { Taken };

    ghost view = { λ a. record { client = a.client; tid = a.tid; request = a.request } };
}

impl Asked {
    /// A client's request of this number.
    pub fn new(client: u8, tid: u64, request: Request) -> Asked
        ensures { result ≡ record { client = client; tid = tid; request = request } }
    {
        Asked {
            client,
            tid,
            request,
        }
    }

    /// Whose request it is.
    pub fn client(&self) -> u8
        ensures { result ≡ self.now.client }
    {
        self.client
    }

    /// Its number among the client's requests.
    pub fn tid(&self) -> u64
        ensures { result ≡ self.now.tid }
    {
        self.tid
    }

    /// What is asked.
    pub fn request(&self) -> &Request
        ensures { result.now ≡ self.now.request }
    {
        &self.request
    }

    /// The number of the barrier at which it waits, where it asks for one.
    pub fn barrier(&self) -> Option<u64>
        ensures { result ≡ barrier_of self.now.request }
    {
        match &self.request {
            Request::Barrier { number } => Some(*number),
            _ => None,
        }
    }

    /// Whether it waits at a barrier of this number.
    pub(crate) fn is_at(&self, number: u64) -> bool
        ensures { result ≡ is_number number (barrier_of self.now.request) }
    {
        match self.barrier() {
            Some(other) => other == number,
            None => false,
        }
    }
}
