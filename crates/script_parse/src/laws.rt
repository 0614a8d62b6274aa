//! Laws of answers.

ghost use Rattle.std.specs.Prelude.{◌≡◌, ◌⊎◌, ℕ, List, ◌∷◌, ◌++◌, None, Some};
ghost use Rattle.script_pieces.specs.Cuts.{cut};
ghost use Rattle.script_pieces.specs.Taking.{Progress};
ghost use Rattle.script_tokens.specs.Tokens.{PlacedToken};
ghost use Rattle.script_names.specs.Kept.{KeptSet};
ghost use Rattle.statement_meaning.specs.Judging.{IsJudged, IsStatementWithin, statement_fault};
ghost use Rattle.script_parse.specs.Answers.{OfStatement, Spells, AreRefused, IsNext};
ghost use Rattle.script_statements.specs.Statements.{StatementShape};
ghost use Rattle.script_parse.specs.declared.errors.ScriptError.TheVariants.{Memory};

use crate::errors::ScriptError;
use statement_meaning::Statement;

/// The tokens of a piece that are a statement are refused for want of memory alone, whether it is known by what the program holds of it or by its
/// names and limits; they spell one statement, and they have one refusal besides want of memory.
pub fn answers_exclude_each_other()
    ensures asked { (base : ℕ) (kept : List KeptSet) (end : ℕ) (ts : List PlacedToken) (s : Statement) (e : ScriptError) → OfStatement ts (λ shape. IsJudged base kept shape s) → AreRefused base kept end ts e → e ≡ Memory }
    ensures fit { (base : ℕ) (kept : List KeptSet) (end : ℕ) (ts : List PlacedToken) (e : ScriptError) → OfStatement ts (λ shape. (statement_fault kept shape ≡ None) × IsStatementWithin base kept shape) → AreRefused base kept end ts e → e ≡ Memory }
    ensures shape { (ts : List PlacedToken) (s t : StatementShape) → Spells ts s → Spells ts t → s ≡ t }
    ensures refused { (base : ℕ) (kept : List KeptSet) (end : ℕ) (ts : List PlacedToken) (e f : ScriptError) → AreRefused base kept end ts e → AreRefused base kept end ts f → (e ≡ f) ⊎ (e ≡ Memory) ⊎ (f ≡ Memory) }
{}

/// Where the source tells its bytes, a statement that is given is the first of their cut, and the others are still ahead. So a list of
/// calls gives the statements of the script in order, in whatever pieces the source gives its bytes.
pub fn statements_come_in_order()
    ensures { (base : ℕ) (kept : List KeptSet) (before after : Progress) (left_before left_after : List ℕ) (s : Statement) (h : IsNext base kept before after (Some left_before) (Some left_after) s) → cut (before.held ++ left_before) ≡ record { statements = h.text ∷ (cut (after.held ++ left_after)).statements; rest = (cut (after.held ++ left_after)).rest } }
{}
