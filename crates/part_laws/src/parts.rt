//! Laws of numbers of parts.

ghost use Rattle.std.specs.Prelude.{ℕ, ◌<◌, ◌≡◌, List, length, slice_index};
ghost use Rattle.part_laws.specs.Graphs.{Graph, IsGraph, IsLooping, IsWeak};
ghost use Rattle.part_laws.specs.Ranks.{even, IsRank, IsRecolouring};
ghost use Rattle.part_laws.specs.Parts.{ArePartNumbers, StepsInside, AreRanks, AreOneColoured};

/// A state lies on a loop exactly if a step stays in its part, and the graph is weak exactly if such parts have one colour.
pub fn parts_tell_weakness()
    ensures looping { (width : ℕ) (g : Graph) (parts : List ℕ) → IsGraph width g → ArePartNumbers g.rows width (length g.colours) parts → (q : ℕ)
        → q < length g.colours → StepsInside g.rows width (length g.colours) parts q → IsLooping g.rows width q }
    ensures inside { (width : ℕ) (g : Graph) (parts : List ℕ) → IsGraph width g → ArePartNumbers g.rows width (length g.colours) parts → (q : ℕ)
        → q < length g.colours → IsLooping g.rows width q → StepsInside g.rows width (length g.colours) parts q }
    ensures weak { (width : ℕ) (g : Graph) (parts : List ℕ) → IsGraph width g → ArePartNumbers g.rows width (length g.colours) parts
        → AreOneColoured width g parts → IsWeak width g }
    ensures coloured { (width : ℕ) (g : Graph) (parts : List ℕ) → IsGraph width g → ArePartNumbers g.rows width (length g.colours) parts → IsWeak width g
        → AreOneColoured width g parts }
{}

/// Numbers that are reckoned part by part are the ranks, and their parities are the colours by rank.
pub fn ranks_are_reckoned_by_parts()
    ensures ranks { (width : ℕ) (g : Graph) (parts ranks : List ℕ) → IsGraph width g → ArePartNumbers g.rows width (length g.colours) parts
        → AreRanks width g parts ranks → (q : ℕ) → q < length g.colours → IsRank width g q (slice_index ranks q) }
    ensures recolouring { (width : ℕ) (g : Graph) (parts ranks colours : List ℕ) → IsGraph width g → ArePartNumbers g.rows width (length g.colours) parts
        → AreRanks width g parts ranks → length colours ≡ length g.colours
        → ((q : ℕ) → q < length g.colours → slice_index colours q ≡ even (slice_index ranks q)) → IsRecolouring width g colours }
{}
