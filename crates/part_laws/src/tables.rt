//! Laws of tables that are made of others.

ghost use Rattle.std.specs.Prelude.{◌≡◌, ℕ, ◌<◌, ◌^◌, Bool, IsTrue, List, length};
ghost use Rattle.graph_laws.specs.Exploring.{KeyTable};
ghost use Rattle.lash_model.specs.Lassos.{Lasso, IsLasso};
ghost use Rattle.lash_model.specs.Tables.{Table, letters, ints, fracs, IsTable};
ghost use Rattle.lash_model.specs.Acceptance.{accepts_lasso};
ghost use Rattle.canonical_laws.specs.Canonical.{IsNumbered};
ghost use Rattle.part_laws.specs.Graphs.{IsWeak};
ghost use Rattle.part_laws.specs.Ranks.{IsByRank, IsRecolouring};
ghost use Rattle.part_laws.specs.CanonicalMixed.{fraction_graph, IsCanonicalMixed, AcceptSameLassos};
ghost use Rattle.part_laws.specs.Matchings.{IsTableMatching, IsLeastMatching};
ghost use Rattle.part_laws.specs.ClassTables.{ClassNames, IsClassTable, AreExploredClasses, explored_table};
ghost use Rattle.part_laws.specs.Opposites.{with_colours, opposite, AcceptOtherLassos};
ghost use Rattle.part_laws.specs.MixedPairs.{MixedSide, read_lasso, IsMixedPairTable, AreExploredPairs, explored_pairs};

/// A table with the colours of its ranks accepts the same lassos.
pub fn recoloured_tables_accept_the_same()
    ensures { (t : Table) → IsTable t → 0 < fracs t → (colours : List ℕ) → IsRecolouring (letters t) (fraction_graph t) colours
        → AcceptSameLassos t (with_colours t colours) }
{}

/// A table that is matched with one whose fraction part is weak accepts the same lassos. If the colours are by rank, states that behave
/// alike have one match, and the states are numbered, it is canonical.
pub fn matched_tables_are_canonical()
    ensures lassos { (int_match fraction_match : ℕ → ℕ → Bool) (t u : Table) → IsTable t → IsWeak (letters t) (fraction_graph t)
        → IsTableMatching (λ p q. IsTrue (int_match p q)) (λ p q. IsTrue (fraction_match p q)) t u → AcceptSameLassos t u }
    ensures canonical { (int_match fraction_match : ℕ → ℕ → Bool) (t u : Table) → IsTable t → IsWeak (letters t) (fraction_graph t)
        → IsByRank (letters t) (fraction_graph t)
        → IsTableMatching (λ p q. IsTrue (int_match p q)) (λ p q. IsTrue (fraction_match p q)) t u
        → IsLeastMatching (λ p q. IsTrue (int_match p q)) (λ p q. IsTrue (fraction_match p q)) t u → IsTable u → 0 < fracs u
        → IsNumbered u.roots u.rows (letters u) (ints u)
        → IsNumbered u.outs u.frac_rows (letters u) (fracs u) → IsCanonicalMixed u }
{}

/// The table of classes of states that behave alike accepts the same lassos as a table whose fraction part is weak. If the colours are
/// by rank, and the states are numbered, it is canonical.
pub fn class_tables_are_canonical()
    ensures lassos { (int_classes fraction_classes : ClassNames) (t u : Table) → IsTable t → IsTable u → 0 < fracs t → 0 < fracs u
        → IsWeak (letters t) (fraction_graph t)
        → IsClassTable int_classes fraction_classes t u → AcceptSameLassos t u }
    ensures canonical { (int_classes fraction_classes : ClassNames) (t u : Table) → IsTable t → IsTable u → 0 < fracs t → 0 < fracs u
        → IsWeak (letters t) (fraction_graph t)
        → IsByRank (letters t) (fraction_graph t) → IsClassTable int_classes fraction_classes t u → IsNumbered u.roots u.rows (letters u) (ints u)
        → IsNumbered u.outs u.frac_rows (letters u) (fracs u) → IsCanonicalMixed u }
{}

/// What is explored of the classes of a table gives a table that accepts the same lassos, and is canonical if the colours are by rank.
pub fn explored_classes_are_canonical()
    ensures lassos { (t : Table) (int_classes fraction_classes : List ℕ) (int_keys fraction_keys : KeyTable) → IsTable t → 0 < fracs t
        → IsWeak (letters t) (fraction_graph t) → AreExploredClasses t int_classes fraction_classes int_keys fraction_keys
        → IsTable (explored_table t int_keys fraction_keys) → 0 < length fraction_keys.keys → AcceptSameLassos t (explored_table t int_keys fraction_keys) }
    ensures canonical { (t : Table) (int_classes fraction_classes : List ℕ) (int_keys fraction_keys : KeyTable) → IsTable t → 0 < fracs t
        → IsWeak (letters t) (fraction_graph t) → IsByRank (letters t) (fraction_graph t)
        → AreExploredClasses t int_classes fraction_classes int_keys fraction_keys → IsTable (explored_table t int_keys fraction_keys)
        → 0 < length fraction_keys.keys → IsCanonicalMixed (explored_table t int_keys fraction_keys) }
{}

/// With yes for no and no for yes a table stays weak, and accepts exactly the other lassos.
pub fn opposites_accept_the_others()
    ensures weak { (t : Table) → IsWeak (letters t) (fraction_graph t) → IsWeak (letters t) (fraction_graph (opposite t)) }
    ensures accepts { (t : Table) → IsTable t → 0 < fracs t → AcceptOtherLassos t (opposite t) }
{}

/// A table of pairs of states of two weak tables is weak, and accepts by the truth function of what the operands accept of what they read.
pub fn table_pairs_accept_by_truth()
    ensures weak { (t : Table) (left right : MixedSide) (op : Bool → Bool → Bool) → IsTable t → IsWeak (letters left.table) (fraction_graph left.table)
        → IsWeak (letters right.table) (fraction_graph right.table) → IsMixedPairTable t left right op → IsWeak (letters t) (fraction_graph t) }
    ensures accepts { (t : Table) (left right : MixedSide) (op : Bool → Bool → Bool) → IsTable t → 0 < fracs t → IsTable left.table → IsTable right.table
        → IsWeak (letters left.table) (fraction_graph left.table) → IsWeak (letters right.table) (fraction_graph right.table)
        → IsMixedPairTable t left right op → (x : Lasso) → IsLasso t.base t.tracks x
        → accepts_lasso t x ≡ op (accepts_lasso left.table (read_lasso left x)) (accepts_lasso right.table (read_lasso right x)) }
{}

/// What is explored of the pairs of states of two weak tables gives a table that is weak, and accepts by the truth function of what the
/// operands accept of what they read.
pub fn explored_pairs_accept_by_truth()
    ensures weak { (base tracks : ℕ) (op : Bool → Bool → Bool) (left right : MixedSide) (int_keys fraction_keys : KeyTable) → IsTable left.table
        → IsTable right.table → 0 < fracs left.table → 0 < fracs right.table → IsWeak (letters left.table) (fraction_graph left.table)
        → IsWeak (letters right.table) (fraction_graph right.table) → AreExploredPairs base tracks left right int_keys fraction_keys
        → IsTable (explored_pairs base tracks op left right int_keys fraction_keys)
        → IsWeak (base ^ tracks) (fraction_graph (explored_pairs base tracks op left right int_keys fraction_keys)) }
    ensures accepts { (base tracks : ℕ) (op : Bool → Bool → Bool) (left right : MixedSide) (int_keys fraction_keys : KeyTable) → IsTable left.table
        → IsTable right.table → 0 < fracs left.table → 0 < fracs right.table → IsWeak (letters left.table) (fraction_graph left.table)
        → IsWeak (letters right.table) (fraction_graph right.table) → AreExploredPairs base tracks left right int_keys fraction_keys
        → IsTable (explored_pairs base tracks op left right int_keys fraction_keys) → 0 < length fraction_keys.keys → (x : Lasso) → IsLasso base tracks x
        → accepts_lasso (explored_pairs base tracks op left right int_keys fraction_keys) x
        ≡ op (accepts_lasso left.table (read_lasso left x)) (accepts_lasso right.table (read_lasso right x)) }
{}
