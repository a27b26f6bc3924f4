// What holds of every journal.
ghost use Rattle.std.specs.Prelude.{◌≡◌, ℕ, List};
ghost use Rattle.plain_types.specs.declared.entry.Entry.{Entry};
ghost use Rattle.journal_format.specs.Image.{IsJournal};

/// A file is a journal of one list of entries only.
pub fn a_file_has_one_list()
    ensures { (file : List ℕ) (a b : List Entry) → IsJournal file a → IsJournal file b → a ≡ b }
{}
