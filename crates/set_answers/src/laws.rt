//! Laws of answers.

ghost use Rattle.std.specs.Prelude.{◌≡◌, ◌↔◌, ℕ, List, length, codes};
ghost use Rattle.lash_model.specs.Formulas.{Sort, Formula};
ghost use Rattle.lash_model.specs.Lassos.{Lasso, denominator, numerators};
ghost use Rattle.lash_model.specs.Meaning.{Solves};
ghost use Rattle.lash_model.specs.Standing.{StandsFor};
ghost use Rattle.lash_model.specs.Tables.{Table, IsTable};
ghost use Rattle.automaton_texts.specs.Text.{text_of};
ghost use Rattle.formula_core.specs.Variables.{sorts_of};
ghost use Rattle.set_answers.specs.Agreement.{Agree, IsEmptySet, IsCanonicalOf};
ghost use Rattle.set_answers.specs.Solving.{IsFixed, IsSolved};
ghost use Rattle.set_answers.specs.Vectors.{ArePositive, HasVector};
ghost use Rattle.fraction_codes.specs.declared.ratio.Ratio.{Ratio};

/// Of a table `empty` is written exactly if nothing solves its set. In every other case the vector of the fixed solution solves it.
pub fn empty_where_nothing_solves()
    ensures empty { (vars : List (List ℕ × Sort)) (t : Table) (sorts : List Sort) (f : Formula) → IsTable t → t.tracks ≡ length sorts → StandsFor t sorts f → (IsSolved vars t (codes "empty\n") ↔ IsEmptySet sorts f) }
    ensures solution { (t : Table) (sorts : List Sort) (f : Formula) (x : Lasso) → IsTable t → t.tracks ≡ length sorts → StandsFor t sorts f → IsFixed t x → Solves sorts f (numerators t.base (length sorts) x) (denominator t.base x) }
{}

/// A table has one answer under a list of variables.
pub fn answers_are_unique()
    ensures { (vars : List (List ℕ × Sort)) (t : Table) (piece other : List ℕ) → IsTable t → IsSolved vars t piece → IsSolved vars t other → piece ≡ other }
{}

/// The texts of two canonical tables of one base, under one list of variables, are equal exactly if their sets agree.
pub fn texts_are_equal_where_sets_agree()
    ensures equal { (base : ℕ) (vars : List (List ℕ × Sort)) (f g : Formula) (t u : Table) → IsCanonicalOf base (sorts_of vars) f t → IsCanonicalOf base (sorts_of vars) g u → Agree (sorts_of vars) f g → text_of vars t ≡ text_of vars u }
    ensures agree { (base : ℕ) (vars : List (List ℕ × Sort)) (f g : Formula) (t u : Table) → IsCanonicalOf base (sorts_of vars) f t → IsCanonicalOf base (sorts_of vars) g u → text_of vars t ≡ text_of vars u → Agree (sorts_of vars) f g }
{}

/// Fractions of positive denominators are numerators over one positive denominator.
pub fn fractions_have_vectors()
    ensures { (vs : List Ratio) → ArePositive vs → HasVector vs }
{}
