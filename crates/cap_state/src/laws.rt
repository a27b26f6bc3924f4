// What the definitions promise of a table of holdings, whatever is asked of it.
ghost use Rattle.std.specs.Prelude.{◌≡◌, ℕ, List, [], ◌∷◌, Some};
ghost use Rattle.snap_ids.specs.declared.id.Ino.{Ino};
ghost use Rattle.snap_ids.specs.declared.id.SnapId.{SnapId};
ghost use Rattle.snap_ids.specs.declared.values.Mode.{Mode};
ghost use Rattle.snap_ids.specs.declared.values.Mode.TheVariants.{Read, Write};
ghost use Rattle.plain_types.specs.declared.message.Claim.{Claim};
ghost use Rattle.cap_state.specs.Table.{Holding, IsTable, after_ask, without, flushed, rebuilt, writer_of, holders_of};

/// What a request, a release, a flush and a new connection leave of a table is a table: in order, each client's holding
/// of a file once, and never a holder for Write beside another holder of its file.
pub fn tables_stay_tables()
    ensures asked { (client : ℕ) (ino : Ino) (mode : Mode) (applied : SnapId) (held : List Holding)
        → IsTable held → IsTable (after_ask client ino mode applied held) }
    ensures released { (client : ℕ) (ino : Ino) (held : List Holding) → IsTable held
        → IsTable (without client ino held) }
    ensures flushed { (client : ℕ) (ino : Ino) (upto : SnapId) (held : List Holding) → IsTable held
        → IsTable (flushed client ino upto held) }
    ensures rebuilt { (client : ℕ) (claims : List Claim) (held : List Holding) → IsTable held
        → IsTable (rebuilt client claims held) }
{}

/// In a table a holder for Write is the only holder of its file.
pub fn a_writer_is_alone()
    ensures { (ino : Ino) (held : List Holding) (w : ℕ × SnapId) → IsTable held → writer_of ino held ≡ Some w
        → holders_of ino held ≡ (w.0, record { ino = ino; mode = Write; settled = w.1 }) ∷ [] }
{}

/// A request for Read leaves each file its holder for Write, with the id up to which that is settled.
pub fn a_read_keeps_the_writers()
    ensures { (client : ℕ) (ino : Ino) (applied : SnapId) (held : List Holding) (file : Ino) → IsTable held
        → writer_of file (after_ask client ino Read applied held) ≡ writer_of file held }
{}
