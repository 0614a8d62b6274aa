//! Laws of ranks.

ghost use Rattle.std.specs.Prelude.{◌≡◌, ℕ, ◌<◌, List, length, slice_index};
ghost use Rattle.graph_laws.specs.Walks.{go};
ghost use Rattle.part_laws.specs.Graphs.{Graph, IsWord, IsGraph, IsLooping, IsWeak};
ghost use Rattle.part_laws.specs.Endings.{AcceptAlike};
ghost use Rattle.part_laws.specs.Ranks.{even, HasChain, IsRank, IsByRank, IsRecolouring, recoloured};

/// States of two weak graphs that accept the same lassos have the same chains, and one rank. If the colours are by rank they have
/// equal colours after all words.
pub fn alike_states_have_one_rank()
    ensures chains { (width : ℕ) (a b : Graph) → IsGraph width a → IsGraph width b → IsWeak width b → (p q : ℕ) → p < length a.colours
        → q < length b.colours → AcceptAlike width a b p q → (m : ℕ) → HasChain width a m p → HasChain width b m q }
    ensures ranks { (width : ℕ) (a b : Graph) → IsGraph width a → IsGraph width b → IsWeak width a → IsWeak width b → (p q : ℕ) → p < length a.colours
        → q < length b.colours → AcceptAlike width a b p q → (m n : ℕ) → IsRank width a p m → IsRank width b q n → m ≡ n }
    ensures colours { (width : ℕ) (a b : Graph) → IsGraph width a → IsGraph width b → IsWeak width a → IsWeak width b → IsByRank width a → IsByRank width b
        → (p q : ℕ) → p < length a.colours → q < length b.colours → AcceptAlike width a b p q → (w : List ℕ) → IsWord width w
        → slice_index a.colours (go a.rows width p w) ≡ slice_index b.colours (go b.rows width q w) }
{}

/// The colour of a looping state says whether its rank is even.
pub fn looping_states_have_their_colour()
    ensures { (width : ℕ) (g : Graph) → IsGraph width g → (q m : ℕ) → q < length g.colours → IsLooping g.rows width q → IsRank width g q m
        → slice_index g.colours q ≡ even m }
{}

/// A weak graph with the colours of its ranks accepts the same lassos from each state, is weak, and has the colours of its ranks.
pub fn recolouring_keeps_lassos()
    ensures alike { (width : ℕ) (g : Graph) → IsGraph width g → (colours : List ℕ) → IsRecolouring width g colours → (q : ℕ) → q < length g.colours
        → AcceptAlike width g (recoloured g colours) q q }
    ensures weak { (width : ℕ) (g : Graph) → IsGraph width g → IsWeak width g → (colours : List ℕ) → IsRecolouring width g colours
        → IsWeak width (recoloured g colours) }
    ensures by_rank { (width : ℕ) (g : Graph) → IsGraph width g → IsWeak width g → (colours : List ℕ) → IsRecolouring width g colours
        → IsByRank width (recoloured g colours) }
{}
