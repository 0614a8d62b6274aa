//! Laws of pieces.

ghost use Rattle.std.specs.Prelude.{◌≡◌, ◌+◌, ◌<◌, ◌≤◌, ℕ, Bool, false, List, [], ◌++◌, ◌∷◌, length, take, drop, Some, None};
ghost use Rattle.script_pieces.specs.Cuts.{statement_length, Cut, IsCut, cut};
ghost use Rattle.script_pieces.specs.Limits.{script_bytes_limit, IsWithin, IsLongStatement, IsLongScript};

/// The first statement of bytes stays so whatever follows them, and one that ends only in what follows is longer than they are. Bytes
/// are cut into their first statement, then the statements of what follows it.
pub fn cuts_in_order()
    ensures stable { (c : Bool) (x y : List ℕ) (n : ℕ) → statement_length c x ≡ Some n → statement_length c (x ++ y) ≡ Some n }
    ensures later { (c : Bool) (x y : List ℕ) (n : ℕ) → statement_length c x ≡ None → statement_length c (x ++ y) ≡ Some n → length x < n }
    ensures within { (c : Bool) (x : List ℕ) (n : ℕ) → statement_length c x ≡ Some n → (0 < n) × (n ≤ length x) }
    ensures first { (x : List ℕ) (n : ℕ) → statement_length false x ≡ Some n → cut x ≡ record { statements = take n x ∷ (cut (drop n x)).statements; rest = (cut (drop n x)).rest } }
    ensures last { (x : List ℕ) → statement_length false x ≡ None → cut x ≡ record { statements = []; rest = x } }
{}

/// The cut of bytes whose first statement is known does not depend on how many of the bytes behind it are known.
pub fn cuts_go_on()
    ensures { (x y : List ℕ) (n : ℕ) → statement_length false x ≡ Some n → cut (x ++ y) ≡ record { statements = take n x ∷ (cut (drop n x ++ y)).statements; rest = (cut (drop n x ++ y)).rest } }
{}

/// Bytes are cut into whole statements and a rest in one way.
pub fn bytes_have_one_cut()
    ensures cut { (x : List ℕ) → IsCut x (cut x) }
    ensures unique { (x : List ℕ) (c : Cut) → IsCut x c → c ≡ cut x }
{}

/// A piece within both limits, one that passes the limit of a statement first, and one that passes the limit of the script first: each
/// is one of the three, and none is two.
pub fn refusals_exclude_each_other()
    ensures statement { (given size : ℕ) → IsLongStatement given size → IsWithin given size → ⊥ }
    ensures script { (given size : ℕ) → IsLongScript given size → IsWithin given size → ⊥ }
    ensures both { (given size : ℕ) → IsLongStatement given size → IsLongScript given size → ⊥ }
    ensures later { (given size : ℕ) → script_bytes_limit + 1 ≤ given + size → (IsLongStatement given size → ⊥) → IsLongScript given size }
    ensures neither { (given size : ℕ) → (IsLongStatement given size → ⊥) → (IsLongScript given size → ⊥) → IsWithin given size }
{}
