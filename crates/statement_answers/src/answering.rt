//! Answering statements. A piece of one line is one `put`.

ghost use Rattle.std.specs.Prelude.{◌≡◌, ◌≤◌, ◌<◌, [], if◌then◌else◌, false, length, IfErr, OnErr, OnOk};
ghost use Rattle.formula_core.specs.Shape.{formula_of};
ghost use Rattle.formula_core.specs.Variables.{sorts_of};
ghost use Rattle.script_names.specs.Kept.{IsKept, kept_place, sets_limit};
ghost use Rattle.statement_meaning.specs.Asking.{Show, Set, Print, Solve, Test, Equal, Subset, Check, asked_of};
ghost use Rattle.statement_answers.specs.Automata.{IsGiven};
ghost use Rattle.statement_answers.specs.Keeping.{OfKept, OfTwo, grown, sets_kept};
ghost use Rattle.statement_answers.specs.Pieces.{Answered, FitsVariables, IsFit, IsSaid, KeepsSilent, takes_memory};

use crate::building::automaton;
use crate::errors::Unanswered;
use crate::library::{Held, Library};
use crate::looping::keep_loop;
use crate::settings::Settings;
use canon_text::{Header, write_text};
use formula_core::{Formula, Vars};
use fraction_codes::Ratio;
use lash_io::Sink;
use script_names::Name;
use set_answers::{WriteError, contains, equal, holds, subset, write_solution};
use statement_meaning::Statement;
use std::alloc::Global;
use step_tables::BuildError;

// Puts a line.
fn say<K: Sink>(line: &[u8], out: &mut K) -> Result<(), Unanswered>
    ensures said { IsSaid line.now (K.held out.old) (K.held out.new) (K.faults out.old) (K.faults out.new) result }
    ensures only { IfErr result (λ e. e ≡ Unanswered.Fault) }
    ensures count { K.faults out.old ≤ K.faults out.new }
{
    match out.put(line) {
        Ok(()) => Ok(()),
        Err(_) => Err(Unanswered::Fault),
    }
}

// Puts the one line or the other.
fn decide<K: Sink>(claim: bool, yes: &[u8], no: &[u8], out: &mut K) -> Result<(), Unanswered>
    ensures said { IsSaid (if claim then yes.now else no.now) (K.held out.old) (K.held out.new) (K.faults out.old) (K.faults out.new) result }
    ensures only { IfErr result (λ e. e ≡ Unanswered.Fault) }
    ensures count { K.faults out.old ≤ K.faults out.new }
{
    if claim { say(yes, out) } else { say(no, out) }
}

// Writes the text of a set's automaton.
fn show<K: Sink>(
    alloc: Global,
    settings: Settings,
    vars: Vars,
    formula: &Formula,
    out: &mut K,
) -> Result<(), Unanswered>
    requires limit { settings.cells ≤ 16777216 }
    requires given { IsGiven settings.base vars (formula_of formula.now) }
    ensures answered { Answered settings [] (Show vars (formula_of formula.now)) (K.held out.old) (K.held out.new) (K.faults out.old) (K.faults out.new) result }
    ensures count { K.faults out.old ≤ K.faults out.new }
{
    let Settings { base, cells } = settings;
    let canon = automaton(alloc, Settings { base, cells }, &vars, formula)?;
    let header = Header::new(base, vars);
    match write_text(&canon, &header, out) {
        Ok(()) => Ok(()),
        Err(_) => Err(Unanswered::Fault),
    }
}

/// Keeps a set.
pub(crate) fn keep(
    alloc: Global,
    library: &mut Library,
    name: Name,
    vars: Vars,
    formula: Formula,
) -> Result<(), Unanswered>
    requires given { IsGiven library.old.settings.base vars (formula_of formula) }
    requires inside { IsKept (record { name = name; vars = vars; formula = formula_of formula }) }
    requires fresh { kept_place (sets_kept library.old) name ≡ None }
    requires room { length (sets_kept library.old) < sets_limit }
    ensures kept { OnOk result (sets_kept library.new ≡ grown (sets_kept library.old) (Set name vars (formula_of formula))) }
    ensures stays { OnErr result (sets_kept library.new ≡ sets_kept library.old) }
    ensures settings { library.new.settings ≡ library.old.settings }
    ensures answered { KeepsSilent library.old.settings (sets_kept library.old) (Set name vars (formula_of formula)) result }
{
    let Settings { base, cells } = library.settings();
    let canon = automaton(alloc, Settings { base, cells }, &vars, &formula)?;
    let header = match vars.copy(alloc) {
        Ok(copy) => Header::new(base, copy),
        Err(_) => return Err(Unanswered::Memory),
    };
    library.put(name, vars, formula, Held { header, canon })
}

// Writes the text of a kept set's automaton.
fn print<K: Sink>(library: &Library, at: u32, out: &mut K) -> Result<(), Unanswered>
    requires { at < length (sets_kept library.now) }
    ensures answered { Answered library.now.settings (sets_kept library.now) (Print at) (K.held out.old) (K.held out.new) (K.faults out.old) (K.faults out.new) result }
    ensures only { IfErr result (λ e. e ≡ Unanswered.Fault) }
    ensures count { K.faults out.old ≤ K.faults out.new }
{
    let held = library.held(at);
    match write_text(&held.canon, &held.header, out) {
        Ok(()) => Ok(()),
        Err(_) => Err(Unanswered::Fault),
    }
}

// Writes a solution of a kept set, or that there is none.
fn solve<K: Sink>(alloc: Global, library: &Library, at: u32, out: &mut K) -> Result<(), Unanswered>
    requires { at < length (sets_kept library.now) }
    ensures answered { Answered library.now.settings (sets_kept library.now) (Solve at) (K.held out.old) (K.held out.new) (K.faults out.old) (K.faults out.new) result }
    ensures count { K.faults out.old ≤ K.faults out.new }
{
    let held = library.held(at);
    match write_solution(alloc, &held.canon, &held.header, out) {
        Ok(()) => Ok(()),
        Err(WriteError::Fault) => Err(Unanswered::Fault),
        Err(WriteError::Memory) => Err(Unanswered::Memory),
    }
}

// Writes whether the values are in a kept set.
fn test<K: Sink>(
    alloc: Global,
    library: &Library,
    at: u32,
    values: &[Ratio],
    out: &mut K,
) -> Result<(), Unanswered>
    requires { OfKept (sets_kept library.now) at (λ k. FitsVariables k values.now) }
    ensures answered { Answered library.now.settings (sets_kept library.now) (Test at values.now) (K.held out.old) (K.held out.new) (K.faults out.old) (K.faults out.new) result }
    ensures count { K.faults out.old ≤ K.faults out.new }
{
    let held = library.held(at);
    match contains(alloc, &held.canon, values) {
        Ok(inside) => decide(inside, b"in\n", b"out\n", out),
        Err(_) => Err(Unanswered::Memory),
    }
}

// Writes whether two kept sets have the same solutions.
fn compare<K: Sink>(library: &Library, left: u32, right: u32, out: &mut K) -> Result<(), Unanswered>
    requires { OfTwo (sets_kept library.now) left right (λ k l. sorts_of k.vars ≡ sorts_of l.vars) }
    ensures answered { Answered library.now.settings (sets_kept library.now) (Equal left right) (K.held out.old) (K.held out.new) (K.faults out.old) (K.faults out.new) result }
    ensures only { IfErr result (λ e. e ≡ Unanswered.Fault) }
    ensures count { K.faults out.old ≤ K.faults out.new }
{
    let agree = equal(&library.held(left).canon, &library.held(right).canon);
    decide(agree, b"yes\n", b"no\n", out)
}

// Writes whether each solution of a kept set is one of another.
fn include<K: Sink>(
    alloc: Global,
    library: &Library,
    left: u32,
    right: u32,
    out: &mut K,
) -> Result<(), Unanswered>
    requires { OfTwo (sets_kept library.now) left right (λ k l. sorts_of k.vars ≡ sorts_of l.vars) }
    ensures answered { Answered library.now.settings (sets_kept library.now) (Subset left right) (K.held out.old) (K.held out.new) (K.faults out.old) (K.faults out.new) result }
    ensures count { K.faults out.old ≤ K.faults out.new }
{
    match subset(
        alloc,
        &library.held(left).canon,
        &library.held(right).canon,
        library.settings().cells,
    ) {
        Ok(includes) => decide(includes, b"yes\n", b"no\n", out),
        Err(BuildError::Heavy) => Err(Unanswered::Heavy),
        Err(BuildError::Memory) => Err(Unanswered::Memory),
    }
}

// Writes whether a formula without free variables holds.
fn check<K: Sink>(
    alloc: Global,
    settings: Settings,
    formula: &Formula,
    out: &mut K,
) -> Result<(), Unanswered>
    requires limit { settings.cells ≤ 16777216 }
    requires given { IsGiven settings.base [] (formula_of formula.now) }
    ensures answered { Answered settings [] (Check (formula_of formula.now)) (K.held out.old) (K.held out.new) (K.faults out.old) (K.faults out.new) result }
    ensures count { K.faults out.old ≤ K.faults out.new }
{
    let canon = automaton(alloc, settings, &Vars::new(alloc), formula)?;
    decide(holds(&canon), b"true\n", b"false\n", out)
}

/// Answers a statement, where these sets are kept, under the settings of the library: writes its piece to the sink, or keeps its set.
/// As conditions, its names are right and it passes no limit.
///
/// # Errors
/// `NoPower` if no power of a loop's matrix comes again, and `Closure` if its closure passes a limit, the first in the order of the
/// variant; `Heavy` if a construction has more cells than the settings allow, and `NotWeak` if no weak automaton has the set of a formula
/// that binds a variable, whichever construction is refused first; `KeptCells` if the kept sets would have more than 67,108,864 cells
/// together; nothing is written then. `Fault` if the sink counted a fault; a part of the piece is written. `Memory` if the program is
/// out of memory, before a byte of the piece is written; `print` and `equal` take none. Each leaves the kept sets as they were.
pub fn answer<K: Sink>(
    alloc: Global,
    library: &mut Library,
    statement: Statement,
    out: &mut K,
) -> Result<(), Unanswered>
    requires { IsFit library.old.settings (sets_kept library.old) (asked_of statement) }
    ensures answered { Answered library.old.settings (sets_kept library.old) (asked_of statement) (K.held out.old) (K.held out.new) (K.faults out.old) (K.faults out.new) result }
    ensures kept { OnOk result (sets_kept library.new ≡ grown (sets_kept library.old) (asked_of statement)) }
    ensures stays { OnErr result (sets_kept library.new ≡ sets_kept library.old) }
    ensures settings { library.new.settings ≡ library.old.settings }
    ensures memory { takes_memory (asked_of statement) ≡ false → IfErr result (λ e. e ≡ Unanswered.Memory → ⊥) }
    ensures count { K.faults out.old ≤ K.faults out.new }
{
    match statement {
        Statement::Show { vars, formula } => show(alloc, library.settings(), vars, &formula, out),
        Statement::Set {
            name,
            vars,
            formula,
        } => keep(alloc, library, name, vars, formula),
        Statement::Print { at } => print(library, at, out),
        Statement::Solve { at } => solve(alloc, library, at, out),
        Statement::Test { at, values } => test(alloc, library, at, values.ratios(), out),
        Statement::Equal { left, right } => compare(library, left, right, out),
        Statement::Subset { left, right } => include(alloc, library, left, right, out),
        Statement::Check { formula } => check(alloc, library.settings(), &formula, out),
        Statement::Loop { name, vars, body } => keep_loop(alloc, library, name, vars, body),
    }
}
