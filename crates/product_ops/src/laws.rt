//! Laws of products.

ghost use Rattle.std.specs.Prelude.{ℕ};
ghost use Rattle.graph_laws.specs.Exploring.{IsHeavy, IsHeavyInTwo};
ghost use Rattle.lash_model.specs.Tables.{Table};
ghost use Rattle.product_ops.specs.FractionPairs.{outs_of, fraction_pairs, IsPairTableInTwo};
ghost use Rattle.product_ops.specs.Pairs.{Operand, IsOperand, pairs, IsPairTable, ReadsPicked};
ghost use Rattle.product_ops.specs.ReadLassos.{ReadsPickedLassos};
ghost use Rattle.product_ops.specs.declared.operation.Op.{Op};
ghost use Rattle.product_ops.specs.Tracks.{TrackLists};

/// What an operand reads of a sign vector and a word of the result is a sign vector and a word of its own, which spell the values at
/// its places.
pub fn operands_read_words()
    ensures { (o : Operand) → IsOperand o → ReadsPicked o }
{}

/// What an operand reads of a lasso of the result is a lasso of its own, which spells the numerators at its places over the same
/// denominator.
pub fn operands_read_lassos()
    ensures { (o : Operand) → IsOperand o → ReadsPickedLassos o }
{}

/// Pairs that are too heavy for the limit and a table of the pairs within the limit exclude each other.
pub fn heavy_or_pairs()
    ensures { (op : Op) (a b : Table) (m : TrackLists) (limit : ℕ) (t : Table) → IsHeavy (pairs a b m) limit → IsPairTable op a b m limit t → ⊥ }
{}

/// Pairs of both parts that are too heavy for the limit and a table of the pairs of both parts within the limit exclude each other.
pub fn heavy_or_mixed_pairs()
    ensures { (op : Op) (a b : Table) (m : TrackLists) (limit : ℕ) (t : Table)
        → IsHeavyInTwo (pairs a b m) (outs_of a b) (fraction_pairs a b m) limit → IsPairTableInTwo op a b m limit t → ⊥ }
{}
