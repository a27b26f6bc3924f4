// What the definitions say of small journals, byte for byte.
ghost use Rattle.std.specs.Prelude.{◌≡◌, ◌≢◌, ◌++◌, ◌∷◌, [], codes};
ghost use Rattle.journal_format.specs.Bytes.{bytes_of};
ghost use Rattle.journal_format.specs.Image.{header, batch, journal_of, first_entry};

/// The journal of one entry in one batch: client 1 made the directory `a` in the root by its first request.
pub fn a_journal_of_one_entry()
    ensures empty { journal_of [] 0 ≡ codes "SNAPJRN1" ++ 0 ∷ [] }
    ensures entry { bytes_of first_entry ≡ 1 ∷ 1 ∷ 0 ∷ 0 ∷ 0 ∷ 0 ∷ 0 ∷ 0 ∷ 0 ∷ 1
        ∷ 0 ∷ 0 ∷ 0 ∷ 0 ∷ 0 ∷ 0 ∷ 0 ∷ 1 ∷ 1 ∷ 97 ∷ 0 ∷ 0 ∷ 1 ∷ 0 ∷ 0 ∷ 0 ∷ 0 ∷ 0 ∷ [] }
    ensures journal { journal_of ((first_entry ∷ []) ∷ []) 0 ≡ codes "SNAPJRN1" ++ 1 ∷ 0 ∷ 0 ∷ 0 ∷ 28
        ∷ 1 ∷ 1 ∷ 0 ∷ 0 ∷ 0 ∷ 0 ∷ 0 ∷ 0 ∷ 0 ∷ 1 ∷ 0 ∷ 0 ∷ 0 ∷ 0 ∷ 0 ∷ 0 ∷ 0 ∷ 1
        ∷ 1 ∷ 97 ∷ 0 ∷ 0 ∷ 1 ∷ 0 ∷ 0 ∷ 0 ∷ 0 ∷ 0 ∷ 0 ∷ [] }
{}

/// Two entries in two batches are another file than in one.
pub fn a_journal_of_two_batches()
    ensures parts { journal_of ((first_entry ∷ []) ∷ (first_entry ∷ []) ∷ []) 0
        ≡ header ++ (batch (first_entry ∷ []) ++ (batch (first_entry ∷ []) ++ 0 ∷ [])) }
{}
