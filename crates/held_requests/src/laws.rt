// The calls as the protocol's table has them.
ghost use Rattle.std.specs.Prelude.{◌≡◌, ◌++◌, ◌∷◌, [], ℕ, drop, filter, Some};
ghost use Rattle.std.specs.List.{list_all};
ghost use Rattle.step_table.specs.ServerState.{Asked, Server, up_to};
ghost use Rattle.step_table.specs.Acts.{Wait, Defer, DeferFirst, TakeHeld, TakeDeferred, act, of_client, first_of};
ghost use Rattle.step_table.specs.Background as table;
ghost use Rattle.step_table.specs.Flushes.{not_of, connected};
ghost use Rattle.step_table.specs.ServerRows.{left_with};
ghost use Rattle.held_requests.specs.Waits.{waits_at, all_wait_at};

/// What the calls leave of held and of deferred requests, and what they take, is what the table's acts leave and take.
pub fn calls_are_the_acts()
    ensures wait { (s : Server) (a : Asked) → s.hand ≡ Some a → (act s Wait).held ≡ s.held ++ a ∷ [] }
    ensures defer { (s : Server) (a : Asked) → s.hand ≡ Some a → (act s Defer).deferred ≡ s.deferred ++ a ∷ [] }
    ensures defer_first { (s : Server) (a : Asked) → s.hand ≡ Some a → (act s DeferFirst).deferred ≡ a ∷ s.deferred }
    ensures take_held { (s : Server) (client : ℕ)
        → ((act s (TakeHeld client)).hand ≡ first_of (filter (of_client client) s.held))
        × ((act s (TakeHeld client)).held ≡ not_of client s.held) }
    ensures take_deferred { (s : Server)
        → ((act s TakeDeferred).hand ≡ first_of s.deferred) × ((act s TakeDeferred).deferred ≡ drop 1 s.deferred) }
    ensures connect { (s : Server) (client conn : ℕ)
        → ((connected s client conn).held ≡ not_of client s.held)
        × ((connected s client conn).deferred ≡ not_of client s.deferred) }
    ensures restart { (s : Server) (upto : ℕ) → ((left_with s upto).held ≡ []) × ((left_with s upto).deferred ≡ []) }
{}

/// What is asked of requests that wait at a barrier is what the table asks of the held ones.
pub fn waits_are_the_tables()
    ensures one { (s : Server) (number client : ℕ) → waits_at number client s.held ≡ table.waits_at s number client }
    ensures all { (s : Server) (number : ℕ)
        → all_wait_at number s.clients s.held ≡ list_all (table.waits_at s number) (up_to s.clients) }
{}
