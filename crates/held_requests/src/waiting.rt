// Requests that wait, by arrival.
ghost use Rattle.std.specs.Prelude.{◌≡◌, ◌++◌, ◌∷◌, [], drop, filter, length, ◌==◌, IfOk, None, OnOk, OnErr, option_copied};
ghost use Rattle.held_files.specs.Files.{is_empty};
ghost use Rattle.step_table.specs.Acts.{of_client, first_of};
ghost use Rattle.step_table.specs.Flushes.{not_of};
ghost use Rattle.step_table.specs.Background.{first_barrier};
ghost use Rattle.held_requests.specs.Keys.{cut_first};
ghost use Rattle.held_requests.specs.Kept.{is_at_barrier, listed};
ghost use Rattle.slab.specs.Slab.{get, Updates};
ghost use Rattle.std.specs.List.{list_any};
ghost use Rattle.std.specs.Option.{option_map};
ghost use Rattle.held_requests.specs.Waits.{waits_at, all_wait_at, clients_of};

use crate::asked::Asked;
use crate::index::Index;
use crate::order::{cut, put_first};
use slab::Slab;
use snap_ids::NoMemory;
use std::alloc::Global;
use std::marker::Model;

/// Requests that wait. Contracts see the list of them in the order of their arrival. Each stands under a key of a slab; a
/// list of the keys has the order, and a list for each client has the keys of its own.
#[derive(Drop)]
pub struct Waiting {
    alloc: Global,
    asked: Slab<Asked>,
    // The keys, by arrival.
    order: Vec<usize>,
    // The keys of each client's.
    index: Index,
}

impl Model for Waiting {
    ghost use Rattle.std.specs.Prelude.{List};
    ghost use Rattle.step_table.specs.ServerState.{Asked as Taken};

    ghost Value = { List Taken };

    ghost use Rattle.held_requests.specs.Kept.{listed, IsKept};

    ghost view = { λ w. listed w.asked w.order.items };

    ghost invariant = { λ w. IsKept w.asked w.order.items w.index };
}

// Takes the request under a key out, and the key.
fn take_out(asked: &mut Slab<Asked>, order: &mut Vec<usize>, key: usize) -> Option<Asked>
    ensures taken { result ≡ get asked.old key }
    ensures asked { Updates asked.old asked.new key None }
    ensures order { order.new.items ≡ cut_first (λ next. next == key) order.old.items }
{
    cut(order, key);
    asked.try_remove(key)
}

// Whether the request under a key waits at a barrier.
fn is_at(asked: &Slab<Asked>, key: usize, number: u64) -> bool
    ensures { result ≡ is_at_barrier number (get asked.now key) }
{
    match asked.get(key) {
        Some(asked) => asked.is_at(number),
        None => false,
    }
}

// Whether one of the requests under keys waits at a barrier.
fn any_at(asked: &Slab<Asked>, keys: &[usize], number: u64) -> bool
    ensures { result ≡ list_any (λ key. is_at_barrier number (get asked.now key)) keys.now }
{
    for key in keys {
        if is_at(asked, *key, number) {
            return true;
        }
    }
    false
}

// The clients of the requests under keys.
fn clients_under(alloc: Global, asked: &Slab<Asked>, keys: &[usize]) -> Result<Vec<u8>, NoMemory>
    ensures { IfOk result (λ clients. clients.items ≡ clients_of (listed asked.now keys.now)) }
{
    let mut clients = Vec::with_capacity(alloc, keys.len())?;
    for key in keys {
        if let Some(asked) = asked.get(*key) {
            clients.push(asked.client)?;
        }
    }
    Ok(clients)
}

impl Waiting {
    /// Nothing waits. It takes no memory.
    pub fn new(alloc: Global) -> Waiting
        ensures { result ≡ [] }
    {
        Waiting {
            alloc,
            asked: Slab::new(alloc),
            order: Vec::new(alloc),
            index: Index::new(alloc),
        }
    }

    /// How many wait.
    pub fn len(&self) -> usize
        ensures { result ≡ length self.now }
    {
        self.order.len()
    }

    /// Whether nothing waits.
    pub fn is_empty(&self) -> bool
        ensures { result ≡ is_empty self.now }
    {
        self.order.is_empty()
    }

    /// A request waits behind all others. At want of memory all is as before, without it.
    pub fn push_back(&mut self, asked: Asked) -> Result<(), NoMemory>
        ensures waits { OnOk result (self.new ≡ self.old ++ asked ∷ []) }
        ensures as_before { OnErr result (self.new ≡ self.old) }
    {
        self.order.reserve(1)?;
        self.asked.reserve(1)?;
        let key = self.asked.vacant_key();
        self.index.push_back(asked.client, key)?;
        self.asked.insert_reserved(asked);
        self.order.push_reserved(key);
        Ok(())
    }

    /// A request waits before all others. At want of memory all is as before, without it.
    pub fn push_front(&mut self, asked: Asked) -> Result<(), NoMemory>
        ensures waits { OnOk result (self.new ≡ asked ∷ self.old) }
        ensures as_before { OnErr result (self.new ≡ self.old) }
    {
        self.order.reserve(1)?;
        self.asked.reserve(1)?;
        let key = self.asked.vacant_key();
        self.index.push_front(asked.client, key)?;
        self.asked.insert_reserved(asked);
        put_first(&mut self.order, key);
        Ok(())
    }

    // Takes the first request of a client.
    fn take_next(&mut self, client: u8) -> Option<Asked>
        ensures taken { result ≡ first_of (filter (of_client client) self.old) }
        ensures left { self.new ≡ cut_first (of_client client) self.old }
    {
        let key = self.index.pop_front(client)?;
        take_out(&mut self.asked, &mut self.order, key)
    }

    /// Takes the requests of a client, and answers the first of them.
    pub fn take_of(&mut self, client: u8) -> Option<Asked>
        ensures taken { result ≡ first_of (filter (of_client client) self.old) }
        ensures left { self.new ≡ not_of client self.old }
    {
        let first = self.take_next(client)?;
        while let Some(next) = self.take_next(client) {
            drop(next);
        }
        Some(first)
    }

    /// Drops the requests of a client.
    pub fn drop_of(&mut self, client: u8)
        ensures { self.new ≡ not_of client self.old }
    {
        drop(self.take_of(client));
    }

    /// Takes the first request of all.
    pub fn take_first(&mut self) -> Option<Asked>
        ensures taken { result ≡ first_of self.old }
        ensures left { self.new ≡ drop 1 self.old }
    {
        let client = self.first_client()?;
        self.take_next(client)
    }

    // The client of the first request.
    fn first_client(&self) -> Option<u8>
        ensures { result ≡ option_map (λ asked. asked.client) (first_of self.now) }
    {
        match self.first() {
            Some(asked) => Some(asked.client),
            None => None,
        }
    }

    /// The first request of all.
    pub fn first(&self) -> Option<&Asked>
        ensures { option_copied result ≡ first_of self.now }
    {
        match self.order.first() {
            Some(key) => self.asked.get(*key),
            None => None,
        }
    }

    /// The number of the barrier at which the first of all waits.
    pub fn first_barrier(&self) -> Option<u64>
        ensures { result ≡ first_barrier self.now }
    {
        match self.first() {
            Some(asked) => asked.barrier(),
            None => None,
        }
    }

    /// Whether a client waits at a barrier.
    pub fn waits_at(&self, number: u64, client: u8) -> bool
        ensures { result ≡ waits_at number client self.now }
    {
        any_at(&self.asked, self.index.of(client), number)
    }

    /// Whether each of so many clients waits at a barrier.
    pub fn all_wait_at(&self, number: u64, clients: u8) -> bool
        ensures { result ≡ all_wait_at number clients self.now }
    {
        let mut client = clients;
        while client > 0 {
            if !self.waits_at(number, client) {
                return false;
            }
            client -= 1;
        }
        true
    }

    /// The clients whose requests wait, by arrival: a client as often as it waits.
    pub fn clients(&self) -> Result<Vec<u8>, NoMemory>
        ensures { IfOk result (λ clients. clients.items ≡ clients_of self.now) }
    {
        clients_under(self.alloc, &self.asked, &self.order)
    }
}
