// Who comes back after a broken link or a restart.
ghost use Rattle.std.specs.Prelude.{◌≡◌, ◌∷◌, [], Some, None, codes};
ghost use Rattle.plain_types.specs.declared.answer.Answer.TheVariants.{Pending};
ghost use Rattle.plain_types.specs.declared.message.ToServer.TheVariants.{Connect, Flush};
ghost use Rattle.step_table.specs.ServerRows.{on_take};
ghost use Rattle.step_table.specs.Drops.{claim, file, id};
ghost use Rattle.step_table.specs.Example.{told, answer, snap, bytes};
ghost use Rattle.step_table.specs.Contests.{stops_at};
ghost use Rattle.step_table.specs.Returns.{flushed_before_the_break, acknowledged_before_the_break, held_since_the_snapshot, broken_before_the_notice, reader_comes_back, asked_before_the_claim, turn_before_all_connected, purge_lost, deletion_lost, broken_at_a_barrier, line_before_the_welcome, piece_before_the_welcome, flushed_once, first_flush, welcomed};

/// A writer that comes back owes nothing for a snapshot that it has flushed for, whether it has heard so or not.
pub fn a_flush_counts_for_the_claim()
    ensures unheard { told flushed_before_the_break ≡ Some ((2, 1, snap 2) ∷ (2, 2, bytes (codes "aa")) ∷ []) }
    ensures heard { told acknowledged_before_the_break ≡ Some ((2, 1, snap 2) ∷ (2, 2, bytes (codes "aa")) ∷ []) }
    ensures not_pending { ¬ (answer flushed_before_the_break 2 2 ≡ Some (Pending 1)) }
{}

/// Nor does it for a snapshot that was made before it held the file for Write.
pub fn an_older_snapshot_isnt_owed()
    ensures settled { told held_since_the_snapshot
        ≡ Some ((1, 5, bytes []) ∷ (2, 1, snap 2) ∷ (2, 2, bytes []) ∷ (2, 3, bytes []) ∷ (2, 4, bytes []) ∷ []) }
    ensures not_pending { ¬ (answer held_since_the_snapshot 2 3 ≡ Some (Pending 1)) }
{}

/// Who comes back is told its last flush and the contexts of the files that it writes. A flush is taken once.
pub fn a_client_is_welcomed()
    ensures told { (on_take flushed_once 1 (Connect 2 (claim file (id 1)) [] None)).sent ≡ welcomed }
    ensures brought { (on_take flushed_once 1 (Connect 2 (claim file (id 1)) (first_flush ∷ []) None)).state.entries ≡ flushed_once.entries }
    ensures flushed { (on_take flushed_once 1 (Flush 1 first_flush)).state.entries ≡ flushed_once.entries }
{}

/// A writer that missed the notice of a snapshot hears of it when it is welcomed.
pub fn a_welcome_tells_of_snapshots()
    ensures flushed { told broken_before_the_notice ≡ Some ((2, 1, snap 2) ∷ (2, 2, bytes (codes "aa")) ∷ []) }
{}

/// A reader that comes back holds its file, and a writer's file isn't given away before it has come back.
pub fn who_comes_back_holds_its_files()
    ensures reader { told reader_comes_back ≡ Some ((2, 2, bytes (codes "aa")) ∷ (2, 3, bytes (codes "aabb")) ∷ []) }
    ensures writer { told asked_before_the_claim ≡ Some ((1, 1, bytes (codes "aa")) ∷ []) }
    ensures not_empty { ¬ (answer asked_before_the_claim 1 1 ≡ Some (bytes [])) }
{}

/// While a client hasn't come back, the background turn rests.
pub fn no_turn_before_all_are_back()
    ensures rests { stops_at turn_before_all_connected ≡ Some 11 }
{}

/// A purge or a deletion that a restart has lost is sent again.
pub fn what_was_lost_is_sent_again()
    ensures purge { told purge_lost ≡ Some ((1, 2, snap 2) ∷ []) }
    ensures deletion { told deletion_lost ≡ Some [] }
{}

/// A barrier that has opened is open to who asks again.
pub fn an_open_barrier_stays_open()
    ensures opens { told broken_at_a_barrier ≡ Some [] }
{}

/// A client does nothing by itself until it is welcomed.
pub fn a_client_waits_for_its_welcome()
    ensures line { stops_at line_before_the_welcome ≡ Some 2 }
    ensures piece { stops_at piece_before_the_welcome ≡ Some 6 }
{}
