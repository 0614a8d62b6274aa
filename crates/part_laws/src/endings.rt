//! Laws of endings.

ghost use Rattle.std.specs.Prelude.{◌≡◌, ℕ, ◌<◌, List, ◌++◌, length, slice_index, nat_eq};
ghost use Rattle.graph_laws.specs.Walks.{go, copies};
ghost use Rattle.part_laws.specs.Graphs.{Graph, IsWord, IsGraph, IsWeak};
ghost use Rattle.part_laws.specs.Endings.{ComesBack, accepts_from};

/// After as many iterations of a cycle as there are states, a run is in a state to which at most so many further ones lead back.
pub fn runs_come_back()
    ensures { (width : ℕ) (g : Graph) → IsGraph width g → (q : ℕ) (stem cycle : List ℕ) → q < length g.colours → IsWord width stem → IsWord width cycle
        → ComesBack g.rows width (length g.colours) (go g.rows width q (stem ++ copies (length g.colours) cycle)) cycle }
{}

/// In a weak graph any loop of iterations of the cycle, after any number of iterations, decides acceptance by its colour.
pub fn loops_decide()
    ensures { (width : ℕ) (g : Graph) → IsGraph width g → IsWeak width g → (q : ℕ) (stem cycle : List ℕ) (i n : ℕ) → q < length g.colours
        → IsWord width stem → IsWord width cycle → 0 < length cycle → 0 < n
        → go g.rows width (go g.rows width q (stem ++ copies i cycle)) (copies n cycle) ≡ go g.rows width q (stem ++ copies i cycle)
        → accepts_from width g q stem cycle ≡ nat_eq (slice_index g.colours (go g.rows width q (stem ++ copies i cycle))) 1 }
{}
