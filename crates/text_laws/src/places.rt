//! Laws of wrong bytes: where a reader that follows the parts stops, the bytes are wrong.

ghost use Rattle.std.specs.Prelude.{◌≡◌, ℕ, ◌+◌, List, ◌∷◌, ◌++◌, length};
ghost use Rattle.lash_model.specs.Formulas.{Sort};
ghost use Rattle.lash_model.specs.Tables.{Table};
ghost use Rattle.text_laws.specs.Spellings.{Head, IsHead, head_text, rest_text, spelling, IsRestOf, IsInRange};
ghost use Rattle.text_laws.specs.Reading.{IsStuck};
ghost use Rattle.text_laws.specs.Refusals.{IsWithin, IsWrongAt, IsWrongHead, IsWrongRest};

/// The first lines are wrong at the place where a reader of them stops, and so are the lines after them.
pub fn stops_are_wrong()
    ensures head { (bytes : List ℕ) (k : ℕ) → IsStuck head_text IsHead bytes k → IsWrongHead bytes k }
    ensures rest { (h : Head) (bytes rest : List ℕ) (k : ℕ) → IsHead h → IsWithin h → bytes ≡ head_text h ++ rest
        → IsStuck rest_text (IsRestOf h) rest k → IsWrongRest bytes (length (head_text h) + k) }
{}

/// A byte after a whole text is wrong.
pub fn texts_end()
    ensures { (vs : List (List ℕ × Sort)) (t : Table) (bytes rest : List ℕ) (b : ℕ) → IsInRange vs t → bytes ≡ spelling vs t ++ b ∷ rest
        → IsWrongAt bytes (length (spelling vs t)) }
{}
