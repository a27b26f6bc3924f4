// What comes first, what waits, and who isn't told.
ghost use Rattle.std.specs.Prelude.{◌≡◌, ◌∷◌, [], Some, None, codes};
ghost use Rattle.plain_types.specs.declared.answer.Answer.TheVariants.{Refused, Pending, Gone, StatFile};
ghost use Rattle.plain_types.specs.declared.answer.Refusal.TheVariants.{NoSnap};
ghost use Rattle.step_table.specs.Example.{told, answer, snap, bytes, dirs};
ghost use Rattle.step_table.specs.Contests.{stops_at};
ghost use Rattle.step_table.specs.Orders.{two_to_purge, held_without_a_name, asked_again_behind, reader_beside_a_snapshot, barrier_before_the_purge, barrier_behind_the_purge, barrier_before_the_flush, named_anew, three_in_a_row, two_want_to_write, wanted_back_twice, recalled_while_reading, removal_not_durable, size_pending, grown_and_released};

/// Of two snapshots that are removed, the one with the lesser id is purged first, and none before its removal is durable.
pub fn the_least_id_is_purged_first()
    ensures gone { told two_to_purge ≡ Some ((1, 5, snap 2) ∷ (1, 6, snap 3) ∷ (2, 1, Gone) ∷ []) }
    ensures not_there { ¬ (answer two_to_purge 2 1 ≡ Some (bytes (codes "aa"))) }
    ensures durably { stops_at removal_not_durable ≡ Some 6 }
{}

/// Who holds a file without a name and a handle is asked to give it back.
pub fn a_dead_file_is_recalled()
    ensures recalled { told held_without_a_name ≡ Some [] }
{}

/// Requests for a file are granted in the order of arrival. What a client asked before its link broke counts no more: it
/// asks again behind the others.
pub fn who_asks_first_comes_first()
    ensures first { told two_want_to_write ≡ Some ((1, 5, bytes (codes "cc")) ∷ []) }
    ensures again { told asked_again_behind ≡ Some ((1, 4, bytes (codes "bb")) ∷ []) }
    ensures not_again { ¬ (answer asked_again_behind 1 4 ≡ Some (bytes (codes "cc"))) }
{}

/// A holder is recalled once, and lets go when its open read is answered.
pub fn a_recall_comes_once()
    ensures once { stops_at wanted_back_twice ≡ Some 7 }
    ensures waits { stops_at recalled_while_reading ≡ Some 6 }
{}

/// Only writers are told of a snapshot.
pub fn a_reader_isnt_told_of_a_snapshot()
    ensures nothing { stops_at reader_beside_a_snapshot ≡ Some 7 }
{}

/// A barrier waits until the store has purged what was removed, and for flushes that are owed.
pub fn a_barrier_waits_for_a_purge()
    ensures purge { stops_at barrier_before_the_purge ≡ Some 12 }
    ensures opens { told barrier_behind_the_purge ≡ Some ((1, 2, snap 2) ∷ []) }
    ensures flush { stops_at barrier_before_the_flush ≡ Some 11 }
{}

/// A removal whose path names another snapshot when its turn comes removes that one, before what was asked after it.
pub fn a_removal_follows_its_path()
    ensures removed { told named_anew
        ≡ Some ((1, 2, snap 2) ∷ (1, 4, snap 3) ∷ (3, 1, Refused NoSnap) ∷ (1, 6, dirs []) ∷ (1, 7, dirs (codes "s" ∷ [])) ∷ []) }
    ensures not_prepared { ¬ (answer named_anew 1 7 ≡ Some (dirs [])) }
{}

/// Who asks for a snapshot while another's request is deferred is deferred behind it.
pub fn snapshots_are_made_in_order()
    ensures made { told three_in_a_row ≡ Some ((1, 1, snap 2) ∷ (2, 1, snap 3) ∷ (3, 1, snap 4) ∷ []) }
    ensures not_before { ¬ (answer three_in_a_row 3 1 ≡ Some (snap 3)) }
{}

/// The size of a file in a snapshot is pending like its bytes, and a release doesn't change it.
pub fn a_snapshot_keeps_its_sizes()
    ensures pending { told size_pending ≡ Some ((2, 1, snap 2) ∷ (2, 2, Pending 1) ∷ (2, 3, StatFile 420 2) ∷ []) }
    ensures kept { told grown_and_released ≡ Some ((2, 1, snap 2) ∷ (2, 2, StatFile 420 4) ∷ (2, 3, StatFile 420 2) ∷ []) }
    ensures not_grown { ¬ (answer grown_and_released 2 3 ≡ Some (StatFile 420 4)) }
{}
