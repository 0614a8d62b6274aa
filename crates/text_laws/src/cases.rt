//! Laws of single cases: what some texts are, and where some bytes are wrong.

ghost use Rattle.std.specs.Prelude.{◌≡◌, ℕ, ◌<◌, Some, List, [], ◌∷◌, ◌++◌, codes, length};
ghost use Rattle.lash_model.specs.Formulas.{Int, Real};
ghost use Rattle.formula_core.specs.Names.{IsWord};
ghost use Rattle.text_laws.specs.Parts.{ended_number, IsBetween, ended_name, IsNewName};
ghost use Rattle.text_laws.specs.Spellings.{spelling};
ghost use Rattle.text_laws.specs.Reading.{IsStuck};

/// The texts of a diagram of one integer, and of an automaton of one real number.
pub fn tables_have_these_texts()
    ensures diagram { spelling ((codes "x", Int) ∷ [])
        (record { base = 2; tracks = 1; roots = 0 ∷ 1 ∷ []; rows = 0 ∷ 1 ∷ 1 ∷ 0 ∷ []; outs = 1 ∷ 0 ∷ []; frac_rows = []; colours = [] })
        ≡ codes "lash 1\nbase 2\nvars x int\nint 2\nroots 0 1\n0 + 0 1\n1 - 1 0\nend\n" }
    ensures mixed { spelling ((codes "y'", Real) ∷ [])
        (record { base = 2; tracks = 1; roots = 0 ∷ 0 ∷ []; rows = 0 ∷ 0 ∷ []; outs = 1 ∷ []; frac_rows = 0 ∷ 0 ∷ 1 ∷ 0 ∷ []; colours = 1 ∷ 0 ∷ [] })
        ≡ codes "lash 1\nbase 2\nvars y' real\nint 1\nfrac 2\nroots 0 0\n0 1 0 0\n0 + 0 0\n1 - 1 0\nend\n" }
{}

/// A word that is no new name is wrong at the space after it, and with a quote mark at the quote mark. A word that goes on is right.
pub fn repeated_names_stop()
    ensures plain { (earlier : List (List ℕ)) (w rest : List ℕ) → IsWord w → (IsNewName earlier w → ⊥)
        → IsStuck ended_name (IsNewName earlier) (w ++ (codes " " ++ rest)) (length w) }
    ensures quoted { (earlier : List (List ℕ)) (w rest : List ℕ) → IsWord w → (IsNewName earlier (w ++ codes "'") → ⊥)
        → IsStuck ended_name (IsNewName earlier) (w ++ (codes "'" ++ rest)) (length w) }
    ensures unfinished { (earlier : List (List ℕ)) (w : List ℕ) → IsWord w → IsStuck ended_name (IsNewName earlier) w (length w) }
{}

/// The base 1 is wrong at the end of its line, 17 at its second digit, and 0 at its place; 1 alone may still become 10. Of numbers below
/// a bound 00 is wrong at its second digit.
pub fn wrong_numbers_stop()
    ensures one { (rest : List ℕ) → IsStuck (ended_number 10) (IsBetween 2 (Some 17)) (codes "1\n" ++ rest) 1 }
    ensures seventeen { (rest : List ℕ) → IsStuck (ended_number 10) (IsBetween 2 (Some 17)) (codes "17" ++ rest) 1 }
    ensures zero_base { (rest : List ℕ) → IsStuck (ended_number 10) (IsBetween 2 (Some 17)) (codes "0" ++ rest) 0 }
    ensures unfinished { IsStuck (ended_number 10) (IsBetween 2 (Some 17)) (codes "1") 1 }
    ensures leading { (bound : ℕ) (rest : List ℕ) → 0 < bound → IsStuck (ended_number 32) (IsBetween 0 (Some bound)) (codes "00" ++ rest) 1 }
{}
