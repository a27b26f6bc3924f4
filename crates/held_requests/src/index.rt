// The keys of each client's requests.
ghost use Rattle.std.specs.Prelude.{◌≡◌, ◌++◌, ◌∷◌, [], ◌<◌, drop, length, OnOk, OnErr};
ghost use Rattle.held_requests.specs.Keys.{keys_of, first_key, OnlyOf, SameKeys};

use snap_ids::NoMemory;
use std::alloc::Global;
use std::marker::Model;

// The keys of one client's requests, by arrival. There is one at most, unless a client asks again before it is answered.
#[derive(Drop)]
struct Keys {
    items: Vec<usize>,
}

impl Model for Keys {
    ghost use Rattle.std.specs.Prelude.{ℕ, List};

    ghost Value = { List ℕ };

    ghost view = { λ keys. keys.items.items };
}

/// The keys of each client's requests. Contracts see a list for each client up to one.
#[derive(Drop)]
pub(crate) struct Index {
    alloc: Global,
    lists: Vec<Keys>,
}

impl Model for Index {
    ghost use Rattle.std.specs.Prelude.{ℕ, List};

    ghost Value = { List (List ℕ) };

    ghost view = { λ index. index.lists.items };
}

impl Keys {
    // No key.
    fn new(alloc: Global) -> Keys
        ensures { result ≡ [] }
    {
        Keys {
            items: Vec::new(alloc),
        }
    }

    // A key behind all others.
    fn push_back(&mut self, key: usize) -> Result<(), NoMemory>
        ensures pushed { OnOk result (self.new ≡ self.old ++ key ∷ []) }
        ensures as_before { OnErr result (self.new ≡ self.old) }
    {
        self.items.push(key)?;
        Ok(())
    }

    // A key before all others.
    fn push_front(&mut self, key: usize) -> Result<(), NoMemory>
        ensures pushed { OnOk result (self.new ≡ key ∷ self.old) }
        ensures as_before { OnErr result (self.new ≡ self.old) }
    {
        self.items.insert(0, key)?;
        Ok(())
    }

    // Takes the first key.
    fn pop_front(&mut self) -> Option<usize>
        ensures taken { result ≡ first_key self.old }
        ensures left { self.new ≡ drop 1 self.old }
    {
        if self.items.is_empty() {
            return None;
        }
        Some(self.items.remove(0))
    }

    // The keys.
    fn as_slice(&self) -> &[usize]
        ensures { result.now ≡ self.now }
    {
        self.items.as_slice()
    }
}

impl Index {
    /// No client has a key. It takes no memory.
    pub(crate) fn new(alloc: Global) -> Index
        ensures { result ≡ [] }
    {
        Index {
            alloc,
            lists: Vec::new(alloc),
        }
    }

    // Makes a list for each client up to one.
    fn grow(&mut self, client: u8) -> Result<(), NoMemory>
        ensures same { SameKeys self.old self.new }
        ensures enough { OnOk result (client < length self.new) }
    {
        while self.lists.len() <= usize::from(client) {
            self.lists.push(Keys::new(self.alloc))?;
        }
        Ok(())
    }

    /// A client has a key behind its others. At want of memory all is as before.
    pub(crate) fn push_back(&mut self, client: u8, key: usize) -> Result<(), NoMemory>
        ensures pushed { OnOk result (OnlyOf client (keys_of client self.old ++ key ∷ []) self.old self.new) }
        ensures as_before { OnErr result (SameKeys self.old self.new) }
    {
        self.grow(client)?;
        self.lists[usize::from(client)].push_back(key)
    }

    /// A client has a key before its others. At want of memory all is as before.
    pub(crate) fn push_front(&mut self, client: u8, key: usize) -> Result<(), NoMemory>
        ensures pushed { OnOk result (OnlyOf client (key ∷ keys_of client self.old) self.old self.new) }
        ensures as_before { OnErr result (SameKeys self.old self.new) }
    {
        self.grow(client)?;
        self.lists[usize::from(client)].push_front(key)
    }

    /// Takes the first key of a client.
    pub(crate) fn pop_front(&mut self, client: u8) -> Option<usize>
        ensures taken { result ≡ first_key (keys_of client self.old) }
        ensures left { OnlyOf client (drop 1 (keys_of client self.old)) self.old self.new }
    {
        if self.lists.len() <= usize::from(client) {
            return None;
        }
        self.lists[usize::from(client)].pop_front()
    }

    /// The keys of a client, by arrival.
    pub(crate) fn of(&self, client: u8) -> &[usize]
        ensures { result.now ≡ keys_of client self.now }
    {
        match self.lists.get(usize::from(client)) {
            Some(keys) => keys.as_slice(),
            None => &[],
        }
    }
}
