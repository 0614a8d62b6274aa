//! Laws of solutions.

ghost use Rattle.std.specs.Prelude.{◌≡◌, ℕ, List, ◌∷◌, true};
ghost use Rattle.lash_model.specs.Formulas.{Sort, Formula};
ghost use Rattle.lash_model.specs.Lassos.{Lasso};
ghost use Rattle.lash_model.specs.Acceptance.{accepts_lasso};
ghost use Rattle.lash_model.specs.Letters.{sign_letter};
ghost use Rattle.lash_model.specs.Meaning.{Solves};
ghost use Rattle.lash_model.specs.Standing.{StandsForWhole};
ghost use Rattle.lash_model.specs.Tables.{Table, IsTable};
ghost use Rattle.solution_pick.specs.FractionSolutions.{AcceptsNoLasso, IsFixedSolution};
ghost use Rattle.solution_pick.specs.Solutions.{AcceptsNothing, IsLeastAccepted};

/// A table that accepts nothing has no least accepted word.
pub fn none_or_least()
    ensures { (t : Table) (sign : ℕ) (whole : List ℕ) → AcceptsNothing t → IsLeastAccepted t sign whole → ⊥ }
{}

/// There is one least accepted word, under one sign vector.
pub fn least_is_one()
    ensures signs { (t : Table) (sign other : ℕ) (whole word : List ℕ) → IsLeastAccepted t sign whole → IsLeastAccepted t other word → sign ≡ other }
    ensures words { (t : Table) (sign other : ℕ) (whole word : List ℕ) → IsLeastAccepted t sign whole → IsLeastAccepted t other word → whole ≡ word }
{}

/// The least accepted word of a table that stands for a set does not begin with the sign letter of its sign vector: without that
/// letter it would spell the same numbers.
pub fn no_idle_letter()
    ensures { (t : Table) (sorts : List Sort) (f : Formula) (sign : ℕ) (whole : List ℕ) → IsTable t → StandsForWhole t (Solves sorts f)
        → IsLeastAccepted t sign (sign_letter t.base t.tracks sign ∷ whole) → ⊥ }
{}

/// A fixed solution is accepted.
pub fn fixed_is_accepted()
    ensures { (t : Table) (x : Lasso) → IsFixedSolution t x → accepts_lasso t x ≡ true }
{}

/// A table that accepts no lasso has no fixed solution.
pub fn none_or_fixed()
    ensures { (t : Table) (x : Lasso) → AcceptsNoLasso t → IsFixedSolution t x → ⊥ }
{}

/// There is one fixed solution.
pub fn fixed_is_one()
    ensures { (t : Table) (x y : Lasso) → IsFixedSolution t x → IsFixedSolution t y → x ≡ y }
{}
