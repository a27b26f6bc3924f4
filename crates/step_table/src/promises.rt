// That the stories' replies are those of plain trees, and that the cuts of their snapshots are closed.
ghost use Rattle.std.specs.Prelude.{◌≡◌, ◌∷◌, [], true, codes};
ghost use Rattle.step_table.specs.Example.{bytes};
ghost use Rattle.step_table.specs.Kept.{replied, promised, cuts_are_good};
ghost use Rattle.step_table.specs.Stories.{before_the_notice, after_the_notice, pending_then_bytes, hand_over, two_notices, moved_in_between, made_and_lost, broken_before_the_reply, purged_before_the_read, asked_again_while_deferred, listed, linked, cut_and_grown, unlinked};

/// Each reply is what a plain tree answers, under `.snap` the one that the snapshot's cut makes.
pub fn replies_are_plain()
    ensures late { replied before_the_notice ≡ promised before_the_notice }
    ensures heard { replied after_the_notice ≡ promised after_the_notice }
    ensures what { promised after_the_notice ≡ bytes (codes "aa") ∷ [] }
    ensures pending { replied pending_then_bytes ≡ promised pending_then_bytes }
    ensures released { replied hand_over ≡ promised hand_over }
    ensures sizes { replied two_notices ≡ promised two_notices }
    ensures moved { replied moved_in_between ≡ promised moved_in_between }
    ensures restarted { replied made_and_lost ≡ promised made_and_lost }
    ensures broken { replied broken_before_the_reply ≡ promised broken_before_the_reply }
    ensures linked { replied linked ≡ promised linked }
    ensures cut { replied cut_and_grown ≡ promised cut_and_grown }
    ensures unlinked { replied unlinked ≡ promised unlinked }
{}

/// The cut of each snapshot is closed.
pub fn cuts_are_closed()
    ensures late { cuts_are_good before_the_notice ≡ true }
    ensures heard { cuts_are_good after_the_notice ≡ true }
    ensures pending { cuts_are_good pending_then_bytes ≡ true }
    ensures released { cuts_are_good hand_over ≡ true }
    ensures sizes { cuts_are_good two_notices ≡ true }
    ensures broken { cuts_are_good broken_before_the_reply ≡ true }
{}
