//! Laws of matchings, images and pairs.

ghost use Rattle.std.specs.Prelude.{◌≡◌, ℕ, ◌<◌, Bool, IsTrue, List, length, map};
ghost use Rattle.part_laws.specs.Graphs.{Graph, IsWord, IsGraph, IsWeak};
ghost use Rattle.part_laws.specs.Endings.{accepts_from, AcceptAlike};
ghost use Rattle.part_laws.specs.Ranks.{IsByRank};
ghost use Rattle.part_laws.specs.Matchings.{IsMatching};
ghost use Rattle.part_laws.specs.Images.{IsImage, Side, IsPairGraph};

/// A graph that is matched with a weak one is weak, matched states accept the same lassos, and the colours are by rank if those of the
/// weak one are.
pub fn matched_states_accept_alike()
    ensures weak { (width : ℕ) (rel : ℕ → ℕ → Bool) (a b : Graph) → IsGraph width a → IsWeak width a → IsMatching width (λ p q. IsTrue (rel p q)) a b
        → IsWeak width b }
    ensures alike { (width : ℕ) (rel : ℕ → ℕ → Bool) (a b : Graph) → IsGraph width a → IsWeak width a → IsMatching width (λ p q. IsTrue (rel p q)) a b
        → (p q : ℕ) → IsTrue (rel p q) → AcceptAlike width a b p q }
    ensures by_rank { (width : ℕ) (rel : ℕ → ℕ → Bool) (a b : Graph) → IsGraph width a → IsWeak width a → IsByRank width a
        → IsMatching width (λ p q. IsTrue (rel p q)) a b → IsByRank width b }
{}

/// An image of a weak graph is weak, accepts the same lassos from each place, and has the colours of its ranks if the graph has.
pub fn images_accept_alike()
    ensures weak { (width : ℕ) (a b : Graph) → IsGraph width a → IsWeak width a → IsImage width a b → IsWeak width b }
    ensures alike { (width : ℕ) (a b : Graph) → IsGraph width a → IsWeak width a → (image : IsImage width a b) → (q : ℕ) → q < length a.colours
        → AcceptAlike width a b q (image.place q) }
    ensures by_rank { (width : ℕ) (a b : Graph) → IsGraph width a → IsWeak width a → IsByRank width a → IsImage width a b → IsByRank width b }
{}

/// The graph of pairs of two weak graphs is weak, and accepts by the truth function of what the operands accept.
pub fn pairs_accept_by_truth()
    ensures weak { (width : ℕ) (p : Graph) (left right : Side) (op : Bool → Bool → Bool) → IsGraph width p → IsWeak left.width left.graph
        → IsWeak right.width right.graph → IsPairGraph width p left right op → IsWeak width p }
    ensures accepts { (width : ℕ) (p : Graph) (left right : Side) (op : Bool → Bool → Bool) → IsGraph width p → IsGraph left.width left.graph
        → IsGraph right.width right.graph → IsWeak left.width left.graph → IsWeak right.width right.graph
        → (pairs : IsPairGraph width p left right op) (q : ℕ) (stem cycle : List ℕ) → q < length p.colours → IsWord width stem → IsWord width cycle
        → 0 < length cycle → accepts_from width p q stem cycle ≡ op
        (accepts_from left.width left.graph (pairs.over_left.place q) (map left.read stem) (map left.read cycle))
        (accepts_from right.width right.graph (pairs.over_right.place q) (map right.read stem) (map right.read cycle)) }
{}
