//! Laws of walks.

ghost use Rattle.std.specs.Prelude.{◌≡◌, ℕ, List, ◌++◌};
ghost use Rattle.graph_laws.specs.Walks.{go};

/// A walk over two words is the walk over the second from where the first leads.
pub fn walks_join()
    ensures { (rows : List ℕ) (width q : ℕ) (x y : List ℕ) → go rows width q (x ++ y) ≡ go rows width (go rows width q x) y }
{}
