//! Laws of what reading answers.

ghost use Rattle.std.specs.Prelude.{◌≡◌, ◌⊎◌, ℕ, Bool, false, List, [], length, All};
ghost use Rattle.lash_model.specs.Formulas.{Sort, Int};
ghost use Rattle.lash_model.specs.Tables.{Table, IsTable};
ghost use Rattle.automaton_texts.specs.Text.{text_of};
ghost use Rattle.formula_core.specs.Variables.{names_of, AreVariables};
ghost use Rattle.text_laws.specs.Spellings.{head_of, IsHead, IsInRange, AreNew, has_real, spelling};
ghost use Rattle.text_laws.specs.Refusals.{Answer, IsAnswer, IsForm, IsPastLimit, SpellsWithin, IsSpelling, IsWithin, IsTextOf};

/// Each list of bytes has at most one answer.
pub fn bytes_have_one_answer()
    ensures { (bytes : List ℕ) (x y : Answer) → IsAnswer bytes x → IsAnswer bytes y → x ≡ y }
{}

/// Each list of bytes is wrong at a byte, says a size beyond the limits, or spells a table within them.
pub fn bytes_have_an_answer()
    ensures { (bytes : List ℕ) → ((k : ℕ) × IsForm bytes k) ⊎ (IsPastLimit bytes ⊎ SpellsWithin bytes) }
{}

/// No bytes are the text of two lists of variables or of two tables.
pub fn bytes_spell_one_table()
    ensures variables { (bytes : List ℕ) (vs us : List (List ℕ × Sort)) (t u : Table) → IsSpelling bytes vs t → IsSpelling bytes us u → vs ≡ us }
    ensures table { (bytes : List ℕ) (vs us : List (List ℕ × Sort)) (t u : Table) → IsSpelling bytes vs t → IsSpelling bytes us u → t ≡ u }
{}

/// A spelling within the limits is the text that is written of a table, and each such text is one. Its names are those of a list of
/// variables, and the other way round.
pub fn written_texts_are_spellings()
    ensures written { (vs : List (List ℕ × Sort)) (t : Table) → IsHead (head_of vs t) → IsTable t → text_of vs t ≡ spelling vs t }
    ensures in_range { (vs : List (List ℕ × Sort)) (t : Table) → IsHead (head_of vs t) → t.tracks ≡ length vs → IsTable t → IsInRange vs t }
    ensures within { (vs : List (List ℕ × Sort)) (t : Table) → t.tracks ≡ length vs → IsTable t → IsWithin (head_of vs t) }
    ensures table { (vs : List (List ℕ × Sort)) (t : Table) → IsInRange vs t → IsWithin (head_of vs t) → IsTable t }
    ensures text { (bytes : List ℕ) (vs : List (List ℕ × Sort)) (t : Table) → IsTextOf bytes vs t → bytes ≡ text_of vs t }
    ensures variables { (vs : List (List ℕ × Sort)) → AreNew [] vs → AreVariables (names_of vs) }
    ensures new { (vs : List (List ℕ × Sort)) → AreVariables (names_of vs) → AreNew [] vs }
    ensures integers { (vs : List (List ℕ × Sort)) → has_real vs ≡ false → All (λ v. v.1 ≡ Int) vs }
    ensures no_real { (vs : List (List ℕ × Sort)) → All (λ v. v.1 ≡ Int) vs → has_real vs ≡ false }
{}
