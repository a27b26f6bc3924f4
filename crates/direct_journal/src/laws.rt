// What a direct history is, by the entries that it writes down.
ghost use Rattle.std.specs.Prelude.{◌≡◌, ◌<◌, ◌^◌, ◌+◌, ◌++◌, ℕ, List, [], ◌∷◌, true, length, Some, None};
ghost use Rattle.snap_ids.specs.declared.id.Ino.{Ino};
ghost use Rattle.snap_ids.specs.declared.id.SnapId.{SnapId};
ghost use Rattle.plain_types.specs.declared.change.Change.{Change};
ghost use Rattle.plain_types.specs.declared.entry.Entry.{Entry};
ghost use Rattle.plain_types.specs.declared.entry.What.{What};
ghost use Rattle.plain_types.specs.declared.history.Event.{Event};
ghost use Rattle.plain_types.specs.declared.script.Line.{Line};
ghost use Rattle.plain_tree.specs.History.{effects, replies, at_entry};
ghost use Rattle.plain_tree.specs.Query.{bytes_in};
ghost use Rattle.plain_journal.specs.Entries.{state_after, tree_at, applied};
ghost use Rattle.plain_journal.specs.Legal.{is_legal, is_journal};
ghost use Rattle.plain_journal.specs.Settled.{settled_size};
ghost use Rattle.journal_laws.specs.Entries.{was_made};
ghost use Rattle.direct_journal.specs.Cut.{tree};
ghost use Rattle.direct_journal.specs.Direct.{comes_to, IsServedBy, ServesAfter, OfOneClient};
ghost use Rattle.direct_journal.specs.Journal.{what_of, entries_in, journal_of, journal_at};
ghost use Rattle.direct_journal.specs.Legal.{Asked, success, numbered, Legal, EachReply, IsFromSnap, IsFromLive};

/// Events that serve the lines of one client, each after the entries so far, are a legal history: a snapshot's tree in
/// the whole history is what it was when the snapshot was made.
pub fn direct_histories_are_legal()
    ensures { (lines : List (ℕ × Line)) (history : List Event) → OfOneClient lines
        → ServesAfter [] (numbered lines) history → Legal history lines }
{}

/// A server serves one line more from what it wrote down so far; what the line writes is one entry where it makes a change,
/// and none else.
pub fn a_line_more_is_served()
    ensures served { (entries : List Entry) (lines : List Asked) (events : List Event) (asked : Asked) (event : Event)
        → ServesAfter entries lines events → IsServedBy (entries ++ journal_of events) asked event
        → ServesAfter entries (lines ++ asked ∷ []) (events ++ event ∷ []) }
    ensures written { (events : List Event) (event : Event)
        → journal_of (events ++ event ∷ []) ≡ journal_of events ++ entries_in event }
    ensures no_change { (entries : List Entry) (asked : Asked) (event : Event) → IsServedBy entries asked event
        → success (comes_to entries asked.client asked.line) ≡ None → entries_in event ≡ [] }
    ensures one_change { (entries : List Entry) (asked : Asked) (event : Event) (made : Change) (what : What)
        → IsServedBy entries asked event
        → success (comes_to entries asked.client asked.line) ≡ Some made → what_of made ≡ Some what
        → entries_in event ≡ record { client = asked.client; number = asked.number; what = what } ∷ [] }
{}

/// In a legal history each line of each client has one reply. That to `ls` of a `.snap` has the names that are shown then,
/// and that to `ls` under one is the answer in the one tree of that snapshot.
pub fn replies_under_snap_are_of_its_tree()
    ensures { (lines : List (ℕ × Line)) (history : List Event) → Legal history lines → EachReply
        (IsFromSnap history) lines (replies history) }
{}

/// In a legal history each other reply is the live answer, whatever trees the snapshots have.
pub fn other_replies_are_live()
    ensures { (lines : List (ℕ × Line)) (history : List Event) → Legal history lines → EachReply
        (IsFromLive history) lines (replies history) }
{}

/// What is live in a legal history is what its entries say, after each number of them.
pub fn entries_tell_what_is_live()
    ensures { (lines : List (ℕ × Line)) (history : List Event) → Legal history lines
        → (n : ℕ) → at_entry history n ≡ state_after (journal_at history n) }
{}

/// And the tree that a snapshot has by its cut is that of the entries: of all, of the first ones when the snapshot is among
/// these, and of more, since what comes after a snapshot changes nothing there.
pub fn entries_tell_the_trees()
    ensures of_all { (lines : List (ℕ × Line)) (history : List Event) → OfOneClient lines → Legal history lines
        → (s : SnapId) → tree history s ≡ tree_at (journal_of history) s }
    ensures of_the_first { (lines : List (ℕ × Line)) (history : List Event) → OfOneClient lines → Legal history lines
        → (n : ℕ) (s : SnapId) → was_made s (journal_at history n) ≡ true
        → tree history s ≡ tree_at (journal_at history n) s }
    ensures of_more { (lines : List (ℕ × Line)) (history : List Event) → OfOneClient lines → Legal history lines
        → (s : SnapId) (later : List Entry) → was_made s (journal_of history) ≡ true
        → tree history s ≡ tree_at (journal_of history ++ later) s }
{}

/// The entries of a legal history of fewer than 2^62 - 1 changes are those of a journal.
pub fn entries_are_a_journal()
    ensures { (lines : List (ℕ × Line)) (history : List Event) → Legal history lines
        → length (effects history) + 1 < 2 ^ 62 → is_journal (journal_of history) ≡ true }
{}

/// What a line that succeeds writes down may follow the entries, while ids of snapshots are left.
pub fn served_changes_may_follow()
    ensures { (entries : List Entry) (client number : ℕ) (asked : Line) (made : Change) (what : What)
        → success (comes_to entries client asked) ≡ Some made → what_of made ≡ Some what
        → applied entries + 1 < 2 ^ 62
        → is_legal entries (record { client = client; number = number; what = what }) ≡ true }
{}

/// No file has a byte: none after any entries, and none by a flush in a direct history.
pub fn files_are_empty()
    ensures bytes { (entries : List Entry) (ino : Ino) → bytes_in (state_after entries) ino ≡ [] }
    ensures sizes { (history : List Event) (ino : Ino) (s : SnapId) → settled_size (journal_of history) ino s ≡ 0 }
{}
