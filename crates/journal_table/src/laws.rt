// A table of snapshots from one entry of a journal to the next.
ghost use Rattle.std.specs.Prelude.{◌≡◌, ◌+◌, ◌++◌, ◌∷◌, [], ℕ, Bool, List, Option, Some, None, true, filter, option_map};
ghost use Rattle.snap_ids.specs.declared.id.SnapId.{SnapId};
ghost use Rattle.snap_ids.specs.Context.{is_listed};
ghost use Rattle.plain_types.specs.declared.entry.Entry.{Entry};
ghost use Rattle.plain_journal.specs.Entries.{state_after};
ghost use Rattle.plain_journal.specs.Legal.{is_journal};
ghost use Rattle.plain_journal.specs.Table.{next_snap, outstanding, to_purge};
ghost use Rattle.journal_moments.specs.Moments.{is_live_snap};
ghost use Rattle.snap_table.specs.Op.{id_of};
ghost use Rattle.snap_table.specs.Rising.{first_of};
ghost use Rattle.snap_table.specs.Table.{Table};
ghost use Rattle.journal_table.specs.Calls.{called, IsRuled, CanCall};
ghost use Rattle.journal_table.specs.Stands.{operation, TableStands, IsLeast};

/// A new table stands for no entries.
pub fn a_new_table_stands()
    ensures { TableStands (record { last = 1; live = []; unpurged = []; outstanding = None }) [] }
{}

/// At each entry that may follow and that a server's rules make, the entry's call on a table that stands for the entries so
/// far is fine.
pub fn calls_are_fine()
    ensures { (table : Table) (entries : List Entry) (e : Entry) → is_journal (entries ++ e ∷ []) ≡ true
        → IsRuled entries e.what → TableStands table entries → CanCall e.what table }
{}

/// And what it leaves stands for the entries with this one.
pub fn calls_lead_on()
    ensures { (table : Table) (entries : List Entry) (e : Entry) → is_journal (entries ++ e ∷ []) ≡ true
        → IsRuled entries e.what → TableStands table entries → TableStands (called e.what table) (entries ++ e ∷ []) }
{}

/// The operation of the table is the one that is outstanding after the entries.
pub fn the_operation_is_the_outstanding_one()
    ensures { (entries : List Entry) → option_map id_of (operation entries)
        ≡ option_map (λ (o : SnapId × ℕ). o.0) (outstanding entries) }
{}

/// What the table answers is what the journal says: the next id, whether a snapshot lives, which operation is outstanding,
/// and the least id to be purged.
pub fn answers_are_the_journals()
    ensures next { (table : Table) (entries : List Entry) → TableStands table entries
        → table.last + 1 ≡ next_snap entries }
    ensures is_live { (table : Table) (entries : List Entry) → TableStands table entries → (s : SnapId)
        → is_listed s table.live ≡ is_live_snap s (state_after entries).snaps }
    ensures outstanding { (table : Table) (entries : List Entry) → TableStands table entries
        → option_map id_of table.outstanding ≡ option_map (λ (o : SnapId × ℕ). o.0) (outstanding entries) }
    ensures to_purge { (table : Table) (entries : List Entry) → TableStands table entries
        → IsLeast (first_of table.unpurged) (to_purge entries) }
{}

/// Of the ids to be purged that pass a test, the table's first is the least.
pub fn the_least_that_passes_is_the_first()
    ensures { (table : Table) (entries : List Entry) (p : SnapId → Bool) → TableStands table entries
        → IsLeast (first_of (filter p table.unpurged)) (filter p (to_purge entries)) }
{}
