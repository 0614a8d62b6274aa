//! Tables of automata on digits: for each state and letter a target, in flat lists of cells. Reading or changing an entry takes
//! one access. A table without fraction states is a Number Decision Diagram, any other a Real Vector Automaton.

ghost use Rattle.std.specs.Prelude.{◌≡◌, ℕ, ◌+◌, ◌*◌, ◌<◌, ◌≤◌, ◌^◌, List, All, length, slice_index, slice_set, nat_eq, if◌then◌else◌, IsTrue, IfOk, IfSome};
ghost use Rattle.graph_laws.specs.Walks.{go, copies};
ghost use Rattle.lash_model.specs.Acceptance.{accepts_word, accepts_lasso};
ghost use Rattle.lash_model.specs.Lassos.{IsLasso};
ghost use Rattle.lash_model.specs.Tables.{IsShape, IsTable, IsDiagram, letters, ints, fracs, out_bound};
ghost use Rattle.digit_codes.specs.Reading.{lasso_of};
ghost use Rattle.step_tables.specs.Kept.{plain, zeros, answered, laid, laid_in_two};

mod packing;

use crate::Explored;
use crate::answers::{Answers, bits_of};
use crate::entries::entry_at;
use digit_codes::{Base, Lasso};
use lash_io::Memory;
use packed_cells::{Cells, Plain};
pub use packing::pack;
use std::alloc::Global;
use std::marker::Model;

/// An automaton that reads the letters of so many tracks. The integer part has a root for each sign vector, and a row of targets
/// and an output for each state; the fraction part has a row of targets and a colour for each state. Outputs are fraction states
/// or, where there are none, 1 for yes and 0 for no. All entries are in range.
#[derive(Drop)]
pub struct Table<C: Cells> {
    base: Base,
    tracks: u32,
    letters: u32,
    ints: u32,
    fracs: u32,
    roots: C,
    rows: C,
    outs: C,
    frac_rows: C,
    colours: C,
}

impl<C: Cells> Model for Table<C> {
    ghost use Rattle.step_tables.specs.Kept.{Kept, IsCounted};

    ghost Value = { Kept };

    ghost view = { λ t. record { table = record { base = t.base; tracks = t.tracks; roots = C.items t.roots; rows = C.items t.rows; outs = C.items t.outs; frac_rows = C.items t.frac_rows; colours = C.items t.colours }; bounds = record { roots = C.limit t.roots; rows = C.limit t.rows; outs = C.limit t.outs; frac_rows = C.limit t.frac_rows; colours = C.limit t.colours } } };

    ghost invariant = { λ t. IsCounted (record { table = record { base = t.base; tracks = t.tracks; roots = C.items t.roots; rows = C.items t.rows; outs = C.items t.outs; frac_rows = C.items t.frac_rows; colours = C.items t.colours }; bounds = record { roots = C.limit t.roots; rows = C.limit t.rows; outs = C.limit t.outs; frac_rows = C.limit t.frac_rows; colours = C.limit t.colours } }) t.letters t.ints t.fracs };
}

impl Table<Plain> {
    /// The table of zeros. The base to the number of tracks is at most 4,096, there is an integer state, and the cells, one more
    /// than the letters for each state, are at most 16,777,216. Without fraction states it is a diagram.
    pub fn blank(
        alloc: Global,
        base: Base,
        tracks: u32,
        ints: u32,
        fracs: u32,
    ) -> Result<Table<Plain>, Memory>
        requires shape { IsShape base tracks ints fracs }
        ensures blank { IfOk result (λ t. t ≡ plain (zeros base tracks ints fracs)) }
        ensures table { IfOk result (λ t. IsTable t.table) }
    {
        let letters = base.radix().pow(tracks);
        let roots = Plain::new(alloc, 2usize.pow(tracks))?;
        let rows = Plain::new(alloc, ints as usize * letters as usize)?;
        let outs = Plain::new(alloc, ints as usize)?;
        let frac_rows = Plain::new(alloc, fracs as usize * letters as usize)?;
        let colours = Plain::new(alloc, fracs as usize)?;
        Ok(Table {
            base,
            tracks,
            letters,
            ints,
            fracs,
            roots,
            rows,
            outs,
            frac_rows,
            colours,
        })
    }

    /// The table of lists that are in range.
    fn of_lists(
        base: Base,
        tracks: u32,
        roots: Plain,
        rows: Plain,
        outs: Plain,
        frac_rows: Plain,
        colours: Plain,
    ) -> Table<Plain>
        requires { IsTable (record { base = base; tracks = tracks; roots = roots; rows = rows; outs = outs; frac_rows = frac_rows; colours = colours }) }
        ensures { result ≡ plain (record { base = base; tracks = tracks; roots = roots; rows = rows; outs = outs; frac_rows = frac_rows; colours = colours }) }
    {
        Table {
            base,
            tracks,
            letters: base.radix().pow(tracks),
            ints: outs.len() as u32,
            fracs: colours.len() as u32,
            roots,
            rows,
            outs,
            frac_rows,
            colours,
        }
    }

    /// The diagram of what was explored: a root for each start, a state for each key, the rows as they were found, and the keys' answers
    /// as outputs. The base to the number of tracks is at most 4,096, which is the number of letters, there is a start for each sign
    /// vector, and the cells are at most 16,777,216.
    pub fn of_explored<A: Answers>(
        alloc: Global,
        base: Base,
        tracks: u32,
        found: &Explored,
        outputs: &A,
    ) -> Result<Table<Plain>, Memory>
        requires few { base ^ tracks ≤ 4096 }
        requires width { found.now.width ≡ base ^ tracks }
        requires starts { length found.now.starts ≡ 2 ^ tracks }
        requires cells { found.now.cells ≤ 16777216 }
        requires proper { All (λ k. IsTrue (A.is_proper outputs.now k)) found.now.keys }
        ensures laid { IfOk result (λ t. t ≡ plain (laid base tracks found.now (answered (A.says_yes outputs.now) found.now.keys))) }
        ensures table { IfOk result (λ t. IsTable t.table) }
    {
        let _radix = base.radix();
        let roots = Plain::copied(alloc, found.starts())?;
        let rows = Plain::copied(alloc, found.rows())?;
        let outs = Plain::of(bits_of(alloc, outputs, found)?);
        let frac_rows = Plain::new(alloc, 0)?;
        let colours = Plain::new(alloc, 0)?;
        Ok(Table::of_lists(base, tracks, roots, rows, outs, frac_rows, colours))
    }

    /// The automaton of two explorations, of which the second starts in what each key of the first leads to, in order: the first gives
    /// the roots and the integer states, the starts of the second are the outputs, and its keys are the fraction states, with their
    /// answers as colours. The base to the number of tracks is at most 4,096, which is both numbers of letters, the first has a start
    /// for each sign vector, and the cells of both are at most 16,777,216.
    pub fn of_two_explored<A: Answers>(
        alloc: Global,
        base: Base,
        tracks: u32,
        whole: &Explored,
        fraction: &Explored,
        colours: &A,
    ) -> Result<Table<Plain>, Memory>
        requires few { base ^ tracks ≤ 4096 }
        requires width { whole.now.width ≡ base ^ tracks }
        requires fraction_width { fraction.now.width ≡ base ^ tracks }
        requires starts { length whole.now.starts ≡ 2 ^ tracks }
        requires outs { length fraction.now.starts ≡ length whole.now.keys }
        requires cells { whole.now.cells + fraction.now.cells ≤ 16777216 }
        requires proper { All (λ k. IsTrue (A.is_proper colours.now k)) fraction.now.keys }
        ensures laid { IfOk result (λ t. t ≡ plain (laid_in_two base tracks whole.now fraction.now (answered (A.says_yes colours.now) fraction.now.keys))) }
        ensures table { IfOk result (λ t. IsTable t.table) }
    {
        let _radix = base.radix();
        let roots = Plain::copied(alloc, whole.starts())?;
        let rows = Plain::copied(alloc, whole.rows())?;
        let outs = Plain::copied(alloc, fraction.starts())?;
        let frac_rows = Plain::copied(alloc, fraction.rows())?;
        let colours = Plain::of(bits_of(alloc, colours, fraction)?);
        Ok(Table::of_lists(base, tracks, roots, rows, outs, frac_rows, colours))
    }
}

impl<C: Cells> Table<C> {
    /// The base.
    pub fn base(&self) -> Base
        ensures { result ≡ self.now.table.base }
    {
        self.base
    }

    /// The number of tracks.
    pub fn tracks(&self) -> u32
        ensures { result ≡ self.now.table.tracks }
    {
        self.tracks
    }

    /// The number of letters, the base to the number of tracks.
    pub fn letters(&self) -> u32
        ensures value { result ≡ letters self.now.table }
        ensures table { IsTable self.now.table }
        ensures answers { 2 ≤ self.now.bounds.outs }
    {
        self.letters
    }

    /// The number of integer states.
    pub fn ints(&self) -> u32
        ensures { result ≡ ints self.now.table }
    {
        self.ints
    }

    /// The number of fraction states.
    pub fn fracs(&self) -> u32
        ensures { result ≡ fracs self.now.table }
    {
        self.fracs
    }

    /// The integer state from which numbers of these signs are read.
    pub fn root(&self, sign: u32) -> u32
        requires { sign < 2 ^ self.now.table.tracks }
        ensures value { result ≡ slice_index self.now.table.roots sign }
        ensures below { result < ints self.now.table }
    {
        self.roots.get(sign as usize)
    }

    /// The integer state behind a letter.
    pub fn int_step(&self, state: u32, letter: u32) -> u32
        requires state { state < ints self.now.table }
        requires letter { letter < letters self.now.table }
        ensures value { result ≡ slice_index self.now.table.rows (state * letters self.now.table + letter) }
        ensures below { result < ints self.now.table }
    {
        self.rows.get(entry_at(state, self.letters, letter))
    }

    /// The output of an integer state.
    pub fn out(&self, state: u32) -> u32
        requires { state < ints self.now.table }
        ensures value { result ≡ slice_index self.now.table.outs state }
        ensures below { result < out_bound (fracs self.now.table) }
    {
        self.outs.get(state as usize)
    }

    /// The rows of the integer states.
    pub fn rows(&self) -> &C
        ensures { C.items result.now ≡ self.now.table.rows }
    {
        &self.rows
    }

    /// The rows of the integer states, where they stand as they are.
    pub fn lent_rows(&self) -> Option<&[u32]>
        ensures { IfSome result (λ s. s.now ≡ self.now.table.rows) }
    {
        self.rows.lent()
    }

    /// The outputs of the integer states, where they stand as they are.
    pub fn lent_outs(&self) -> Option<&[u32]>
        ensures { IfSome result (λ s. s.now ≡ self.now.table.outs) }
    {
        self.outs.lent()
    }

    /// The fraction state behind a letter.
    pub fn frac_step(&self, state: u32, letter: u32) -> u32
        requires state { state < fracs self.now.table }
        requires letter { letter < letters self.now.table }
        ensures value { result ≡ slice_index self.now.table.frac_rows (state * letters self.now.table + letter) }
        ensures below { result < fracs self.now.table }
    {
        self.frac_rows.get(entry_at(state, self.letters, letter))
    }

    /// Whether a fraction state has the colour yes.
    pub fn colour(&self, state: u32) -> bool
        requires { state < fracs self.now.table }
        ensures { result ≡ nat_eq (slice_index self.now.table.colours state) 1 }
    {
        self.colours.get(state as usize) == 1
    }

    /// Changes the root of a sign vector.
    pub fn set_root(&mut self, sign: u32, to: u32)
        requires sign { sign < 2 ^ self.old.table.tracks }
        requires to { to < ints self.old.table }
        requires bound { to < self.old.bounds.roots }
        ensures changed { self.new ≡ record self.old { table = record self.old.table { roots = slice_set self.old.table.roots sign to } } }
        ensures table { IsTable self.new.table }
    {
        self.roots.set(sign as usize, to);
    }

    /// Changes the target of an integer state and a letter.
    pub fn set_int(&mut self, state: u32, letter: u32, to: u32)
        requires state { state < ints self.old.table }
        requires letter { letter < letters self.old.table }
        requires to { to < ints self.old.table }
        requires bound { to < self.old.bounds.rows }
        ensures changed { self.new ≡ record self.old { table = record self.old.table { rows = slice_set self.old.table.rows (state * letters self.old.table + letter) to } } }
        ensures table { IsTable self.new.table }
    {
        self.rows.set(entry_at(state, self.letters, letter), to);
    }

    /// Changes the output of an integer state.
    pub fn set_out(&mut self, state: u32, to: u32)
        requires state { state < ints self.old.table }
        requires to { to < out_bound (fracs self.old.table) }
        requires bound { to < self.old.bounds.outs }
        ensures changed { self.new ≡ record self.old { table = record self.old.table { outs = slice_set self.old.table.outs state to } } }
        ensures table { IsTable self.new.table }
    {
        self.outs.set(state as usize, to);
    }

    /// Changes the target of a fraction state and a letter.
    pub fn set_frac(&mut self, state: u32, letter: u32, to: u32)
        requires state { state < fracs self.old.table }
        requires letter { letter < letters self.old.table }
        requires to { to < fracs self.old.table }
        requires bound { to < self.old.bounds.frac_rows }
        ensures changed { self.new ≡ record self.old { table = record self.old.table { frac_rows = slice_set self.old.table.frac_rows (state * letters self.old.table + letter) to } } }
        ensures table { IsTable self.new.table }
    {
        self.frac_rows
            .set(entry_at(state, self.letters, letter), to);
    }

    /// Changes the colour of a fraction state.
    pub fn set_colour(&mut self, state: u32, yes: bool)
        requires { state < fracs self.old.table }
        ensures changed { self.new ≡ record self.old { table = record self.old.table { colours = slice_set self.old.table.colours state (if yes then 1 else 0) } } }
        ensures table { IsTable self.new.table }
    {
        self.colours.set(state as usize, if yes { 1 } else { 0 });
    }

    /// The integer state behind a word, read from an integer state.
    pub fn run_word(&self, state: u32, word: &[u32]) -> u32
        requires state { state < ints self.now.table }
        requires letters { All (λ l. l < letters self.now.table) word.now }
        ensures value { result ≡ go self.now.table.rows (letters self.now.table) state word.now }
        ensures below { result < ints self.now.table }
    {
        let mut at = state;
        for letter in word {
            at = self.int_step(at, *letter);
        }
        at
    }

    /// The fraction state behind a word, read from a fraction state.
    pub fn run_frac(&self, state: u32, word: &[u32]) -> u32
        requires state { state < fracs self.now.table }
        requires letters { All (λ l. l < letters self.now.table) word.now }
        ensures value { result ≡ go self.now.table.frac_rows (letters self.now.table) state word.now }
        ensures below { result < fracs self.now.table }
    {
        let mut at = state;
        for letter in word {
            at = self.frac_step(at, *letter);
        }
        at
    }

    /// The fraction state behind as many turns of a cycle as there are fraction states.
    fn run_turns(&self, state: u32, cycle: &[u32]) -> u32
        requires state { state < fracs self.now.table }
        requires letters { All (λ l. l < letters self.now.table) cycle.now }
        ensures value { result ≡ go self.now.table.frac_rows (letters self.now.table) state (copies (fracs self.now.table) cycle.now) }
        ensures below { result < fracs self.now.table }
    {
        let mut at = state;
        for _turn in 0..self.fracs {
            at = self.run_frac(at, cycle);
        }
        at
    }

    /// Whether the automaton accepts a lasso. A diagram looks at the sign and the whole word alone; with fraction states it is the
    /// colour behind the whole word, the output, the stem, and as many turns of the cycle as there are fraction states.
    pub fn accepts(&self, lasso: &Lasso) -> bool
        requires { IsLasso self.now.table.base self.now.table.tracks (lasso_of lasso.now) }
        ensures diagram { IsDiagram self.now.table → result ≡ accepts_word self.now.table lasso.now.sign lasso.now.whole }
        ensures fractions { 0 < fracs self.now.table → result ≡ accepts_lasso self.now.table (lasso_of lasso.now) }
    {
        let state = self.run_word(self.root(lasso.sign), lasso.whole.letters());
        let out = self.out(state);
        if self.fracs == 0 {
            return out == 1;
        }
        let behind_stem = self.run_frac(out, lasso.stem.letters());
        self.colour(self.run_turns(behind_stem, lasso.cycle.letters()))
    }
}
