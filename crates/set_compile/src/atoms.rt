//! The step of an atom: its table over its own variables, made canonical.

ghost use Rattle.std.specs.Prelude.{◌≡◌, ◌<◌, ◌≤◌, ◌^◌, [], ◌∷◌, ◌++◌, All, pos, length, unsigned_abs, IfOk, IfErr, OnOk};
ghost use Rattle.lash_model.specs.Formulas.{IsInside, IsLinear, Atom};
ghost use Rattle.lash_model.specs.Meaning.{holds};
ghost use Rattle.lash_model.specs.Tables.{letters, fracs};
ghost use Rattle.part_laws.specs.CanonicalMixed.{fraction_graph};
ghost use Rattle.part_laws.specs.Graphs.{IsWeak};
ghost use Rattle.linear_atoms.specs.Kinds.{comparison_of};
ghost use Rattle.set_compile.specs.Kinds.{IsOfMode, Stands, IsTableOfAtom, IsHeavyFor, IsShaped};
ghost use Rattle.set_compile.specs.Steps.{own, IsOfAtom};

use crate::CompileError;
use crate::build::{Build, Mode};
use crate::minimizing::minimized;
use formula_core::Linear;
use lash_io::Memory;
use linear_atoms::{AtomKind, atom_int, atom_real};
use packed_cells::Plain;
use std::alloc::Global;
use step_tables::{BuildError, Table};
use weak_min::Canon;

/// Puts a coefficient after those at lower places.
pub(crate) fn append(term: &mut Linear, place: u32, coefficient: &i128) -> Result<(), Memory>
    requires behind { All (λ t. t.0 < place) term.old.terms }
    requires some { coefficient.now ≡ pos 0 → ⊥ }
    requires small { unsigned_abs coefficient.now ≤ 2 ^ 24 }
    ensures { OnOk result (term.new ≡ record { terms = term.old.terms ++ (place, coefficient.now) ∷ []; constant = term.old.constant }) }
{
    match term.add(place, *coefficient) {
        Ok(()) => Ok(()),
        Err(Memory) => Err(Memory),
    }
}

/// The term on its own variables.
fn own_term(alloc: Global, term: &Linear) -> Result<Linear, Memory>
    requires inside { IsInside term.now }
    requires few { length term.now.terms < 2 ^ 32 }
    ensures own { IfOk result (λ a. a ≡ own term.now) }
    ensures linear { IsLinear term.now }
{
    let terms = term.terms();
    let mut made = Linear::new(alloc, term.constant());
    for (at, entry) in terms.iter().enumerate() {
        match append(&mut made, at as u32, &entry.1) {
            Ok(()) => {}
            Err(Memory) => return Err(Memory),
        }
    }
    Ok(made)
}

/// The table of an atom over so many tracks: a diagram, or one with fraction states.
fn atom_table(
    alloc: Global,
    build: &Build,
    atom: &Linear,
    tracks: u32,
    kind: AtomKind,
) -> Result<Table<Plain>, BuildError>
    requires places { All (λ t. t.0 < tracks) atom.now.terms }
    requires inside { IsInside atom.now }
    requires letters { build.now.base ^ tracks ≤ 4096 }
    requires limit { build.now.limit ≤ 16777216 }
    ensures kind { IfOk result (λ t. IsOfMode build.now.mode t.table) }
    ensures base { IfOk result (λ t. t.table.base ≡ build.now.base) }
    ensures tracks { IfOk result (λ t. t.table.tracks ≡ tracks) }
    ensures weak { IfOk result (λ t. 0 < fracs t.table → IsWeak (letters t.table) (fraction_graph t.table)) }
    ensures stands { IfOk result (λ t. Stands t.table (holds (Atom (comparison_of kind) atom.now))) }
    ensures counts { IfOk result (λ t. IsTableOfAtom build.now.mode (comparison_of kind) atom.now build.now.base tracks build.now.limit t.table) }
    ensures heavy { IfErr result (λ e. e ≡ BuildError.Heavy → IsHeavyFor build.now.mode (comparison_of kind) atom.now build.now.base tracks build.now.limit) }
{
    let Build { mode, base, limit } = *build;
    match mode {
        Mode::Whole => atom_int(alloc, base, atom, tracks, kind, limit),
        Mode::Mixed => atom_real(alloc, base, atom, tracks, kind, limit),
    }
}

/// The canonical table of an atom over its own variables. The atom is inside the limits of coefficients and constants, its letters are
/// at most 4,096, and the limit of cells is at most 16,777,216. `Heavy` comes exactly if the atom's table passes the limit.
pub fn atom_part(
    alloc: Global,
    build: &Build,
    term: &Linear,
    kind: AtomKind,
) -> Result<Canon, CompileError>
    requires inside { IsInside term.now }
    requires letters { IsLinear term.now → build.now.base ^ length term.now.terms ≤ 4096 }
    requires limit { build.now.limit ≤ 16777216 }
    ensures linear { IsLinear term.now }
    ensures shape { IfOk result (λ c. IsShaped build.now.mode build.now.base (length term.now.terms) c.table) }
    ensures made { IfOk result (λ c. IsOfAtom build.now (comparison_of kind) (own term.now) (length term.now.terms) c.table) }
    ensures stands { IfOk result (λ c. Stands c.table (holds (Atom (comparison_of kind) (own term.now)))) }
    ensures heavy { IfErr result (λ e. e ≡ CompileError.Heavy → IsHeavyFor build.now.mode (comparison_of kind) (own term.now) build.now.base (length term.now.terms) build.now.limit) }
    ensures plain { IfErr result (λ e. (e ≡ CompileError.Memory → ⊥) → e ≡ CompileError.Heavy) }
{
    let base = build.base;
    let _radix = base.radix();
    let tracks = term.terms().len() as u32;
    let own = match own_term(alloc, term) {
        Ok(own) => own,
        Err(Memory) => return Err(CompileError::Memory),
    };
    let table = match atom_table(alloc, build, &own, tracks, kind) {
        Ok(table) => table,
        Err(BuildError::Heavy) => return Err(CompileError::Heavy),
        Err(BuildError::Memory) => return Err(CompileError::Memory),
    };
    match minimized(alloc, &table) {
        Ok(made) => Ok(made),
        Err(error) => Err(error),
    }
}
