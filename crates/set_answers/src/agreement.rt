//! Whether two sets agree, and whether a statement without variables is true.

ghost use Rattle.std.specs.Prelude.{◌≡◌, ◌↔◌, List, [], length, IsTrue};
ghost use Rattle.lash_model.specs.Formulas.{Sort, Formula};
ghost use Rattle.lash_model.specs.Meaning.{Solves};
ghost use Rattle.lash_model.specs.Standing.{StandsFor};
ghost use Rattle.set_answers.specs.Agreement.{Agree};

use weak_min::{Canon, same};

/// Whether two canonical tables are equal. If both are of one base and stand for sets over one list of sorts, they are equal exactly if
/// the same vectors solve the sets. Costs one look at each entry, and takes no memory.
pub fn equal(left: &Canon, right: &Canon) -> bool
    ensures table { IsTrue result ↔ (left.now.table ≡ right.now.table) }
    ensures agree { (sorts : List Sort) (f g : Formula) → left.now.table.base ≡ right.now.table.base → left.now.table.tracks ≡ length sorts → right.now.table.tracks ≡ length sorts → StandsFor left.now.table sorts f → StandsFor right.now.table sorts g → (IsTrue result ↔ Agree sorts f g) }
{
    // Both are canonical.
    let _left = left.table();
    let _right = right.table();
    same(left, right)
}

/// Whether a diagram of no tracks accepts the empty vector: whether the statement that it stands for is true. Takes no memory.
pub fn holds(canon: &Canon) -> bool
    requires { canon.now.table.tracks ≡ 0 }
    ensures { (f : Formula) → StandsFor canon.now.table [] f → (IsTrue result ↔ Solves [] f [] 1) }
{
    let table = canon.table();
    table.out(table.root(0)) == 1
}
