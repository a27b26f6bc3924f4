// What the definitions say together.
ghost use Rattle.std.specs.Prelude.{◌≡◌, ℕ, Some, Ok, false};
ghost use Rattle.snap_ids.specs.declared.id.SnapId.{SnapId};
ghost use Rattle.plain_types.specs.declared.change.Change.{Change};
ghost use Rattle.plain_types.specs.declared.request.Request.{Request};
ghost use Rattle.plain_tree.specs.State.{State};
ghost use Rattle.plain_tree.specs.Change.{is_refused};
ghost use Rattle.plain_tree.specs.Request.{change_asked};

/// A change that a request is said to come to isn't refused: its answer and its effect agree.
pub fn changes_that_are_asked_succeed()
    ensures { (state : State) (client : ℕ) (id : SnapId) (request : Request) (change : Change)
        → change_asked state client id request ≡ Some (Ok change) → is_refused state client change ≡ false }
{}
