// Why something can't be moved.
ghost use Rattle.std.specs.Prelude.{◌≡◌};

use dentry_tree::TreeError;
use thiserror::Error;

/// Why something can't be moved.
#[derive(Debug, Drop, Error)]
pub enum MoveError {
    /// A directory would come to be below itself.
    #[error("a directory can't be moved below itself")]
    IntoItself,
    /// The directory has live snapshots.
    #[error("the directory has snapshots")]
    HasSnapshots,
    /// `/`, or a name that can't be new.
    #[error("not a name that can be used here")]
    BadName,
    /// What the tree of entries refuses: `Exists`, `NoEntry`, `NotDir`, `IsDir` or `NotEmpty`.
    #[error("{0}")]
    Tree(TreeError),
}
