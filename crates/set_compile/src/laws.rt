//! Laws of compiled formulas.

ghost use Rattle.std.specs.Prelude.{◌≡◌, ℕ, List};
ghost use Rattle.lash_model.specs.Formulas.{Sort, Formula};
ghost use Rattle.lash_model.specs.Tables.{Table};
ghost use Rattle.set_compile.specs.Compiling.{IsCompiled, IsRefused};
ghost use Rattle.set_compile.specs.Steps.{IsMade};
ghost use Rattle.set_compile.specs.declared.build.Build.{Build as BuildOfModel};
ghost use Rattle.set_compile.specs.declared.errors.CompileError.{CompileError as CompileErrorOfModel};

use breakpoint_build::heavy_or_projected;
use linear_atoms::{heavy_or_real_table, heavy_or_table};
use product_ops::{heavy_or_mixed_pairs, heavy_or_pairs};
use subset_build::heavy_or_subsets;

/// A formula has one table: over its free variables, and over all that are declared.
pub fn tables_are_unique()
    ensures made { (b : BuildOfModel) (m : ℕ) (f : Formula) (t u : Table) → IsMade b m f t → IsMade b m f u → t ≡ u }
    ensures compiled { (base limit : ℕ) (sorts : List Sort) (f : Formula) (t u : Table) → IsCompiled base limit sorts f t → IsCompiled base limit sorts f u → t ≡ u }
{}

/// A refused formula has no table.
pub fn refused_or_compiled()
    ensures { (base limit : ℕ) (sorts : List Sort) (f : Formula) (e : CompileErrorOfModel) (t : Table) → IsRefused base limit sorts f e → IsCompiled base limit sorts f t → ⊥ }
{
    heavy_or_table();
    heavy_or_real_table();
    heavy_or_pairs();
    heavy_or_mixed_pairs();
    heavy_or_subsets();
    heavy_or_projected();
}

/// A formula is refused for one cause, with one list of words.
pub fn refusals_are_one()
    ensures { (base limit : ℕ) (sorts : List Sort) (f : Formula) (e k : CompileErrorOfModel) → IsRefused base limit sorts f e → IsRefused base limit sorts f k → e ≡ k }
{
    heavy_or_table();
    heavy_or_real_table();
    heavy_or_pairs();
    heavy_or_mixed_pairs();
    heavy_or_subsets();
    heavy_or_projected();
}
