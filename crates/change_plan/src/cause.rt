// Why a request isn't planned.
ghost use Rattle.std.specs.Prelude.{◌≡◌, Result, Err};
ghost use Rattle.snap_ids.specs.declared.id.Ino.{Ino};
ghost use Rattle.plain_types.specs.declared.answer.Refusal.{Refusal as Reason};
ghost use Rattle.plain_tree.specs.State.{Entry};
ghost use Rattle.dentry_tree.specs.Answers.{IsRefusal};
ghost use Rattle.rename_split.specs.Plans.{IsRefused};
ghost use Rattle.rename_split.specs.declared.plan.MovePlan.{MovePlan as Planned};
ghost use Rattle.rename_split.specs.declared.error.MoveError.TheVariants.{Tree};
ghost use Rattle.change_plan.specs.Asked.{reason};

use dentry_tree::TreeError;
use plain_types::Refusal;
use rename_split::MoveError;
use snap_realm::RealmError;

// Why a request isn't planned.
#[derive(Clone, Copy, Debug)]
pub(crate) enum Cause {
    // It is refused.
    Refused(Refusal),
    // There was no memory for a name.
    NoMemory,
}

// The refusal of a walk.
pub(crate) fn of_walk(error: &TreeError) -> Refusal
    ensures { (walked : Result Ino Reason) → IsRefusal error.now walked → walked ≡ Err result }
{
    match error {
        TreeError::NotDir => Refusal::NotDir,
        _ => Refusal::NoEntry,
    }
}

// The refusal of an entry in the tree.
fn of_tree(error: &TreeError) -> Refusal
    ensures moved { (planned : Result Planned Reason) → IsRefused (Tree error.now) planned → planned ≡ Err result }
    ensures named { (named : Result Entry Reason) → IsRefused (Tree error.now) named → named ≡ Err result }
{
    match error {
        TreeError::Exists => Refusal::Exists,
        TreeError::NoEntry => Refusal::NoEntry,
        TreeError::NotDir => Refusal::NotDir,
        TreeError::IsDir => Refusal::IsDir,
        TreeError::NotEmpty => Refusal::NotEmpty,
        TreeError::NoMemory => Refusal::BadName,
    }
}

// The refusal that the error of a plan is.
pub(crate) fn of_plan(error: &MoveError) -> Refusal
    ensures moved { (planned : Result Planned Reason) → IsRefused error.now planned → planned ≡ Err result }
    ensures named { (named : Result Entry Reason) → IsRefused error.now named → named ≡ Err result }
{
    match error {
        MoveError::IntoItself => Refusal::IntoItself,
        MoveError::HasSnapshots => Refusal::HasSnapshots,
        MoveError::BadName => Refusal::BadName,
        MoveError::Tree(error) => of_tree(error),
    }
}

// The refusal that the error of a snapshot is.
pub(crate) fn of_snap(error: RealmError) -> Refusal
    ensures { result ≡ reason error }
{
    match error {
        RealmError::SnapExists => Refusal::Exists,
        RealmError::TooManySnaps => Refusal::TooManySnaps,
        RealmError::TooManyLive => Refusal::TooManyLive,
        RealmError::NoSnap => Refusal::NoSnap,
        RealmError::NoMemory => Refusal::NoSnap,
    }
}
