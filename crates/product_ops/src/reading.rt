//! What an operand reads of a result's letters and sign vectors. It is computed once for each, so that a step of the product takes one
//! look-up.

ghost use Rattle.std.specs.Prelude.{◌≡◌, ◌+◌, ◌*◌, ◌^◌, ◌<◌, ◌≤◌, ℕ, length, slice_index, IfOk};
ghost use Rattle.lash_model.specs.Tables.{letters, ints, fracs};
ghost use Rattle.product_ops.specs.FractionPairs.{fraction_step_by};
ghost use Rattle.product_ops.specs.Pairs.{IsOperand, root_by, step_by};
ghost use Rattle.product_ops.specs.Tracks.{AreTracks, read_by, AreRead};

use digit_codes::{Base, letter_digit};
use lash_io::Memory;
use packed_cells::Cells;
use std::alloc::Global;
use std::marker::Model;
use step_tables::Table;

/// The letter whose digits are a letter's digits at the places.
fn read_letter(base: Base, tracks: u32, places: &[u32], letter: u32) -> u32
    requires places { AreTracks tracks places.now }
    requires letter { letter < base ^ tracks }
    requires few { base ^ tracks ≤ 4096 }
    requires fits { base ^ length places.now ≤ 4096 }
    ensures { result ≡ read_by base tracks places.now letter }
{
    let radix = base.radix();
    let mut read = 0;
    for place in places {
        read = read * radix + letter_digit(base, tracks, letter, *place);
    }
    read
}

/// What is read of each letter, rising.
fn read_letters(alloc: Global, base: Base, tracks: u32, places: &[u32]) -> Result<Vec<u32>, Memory>
    requires places { AreTracks tracks places.now }
    requires few { base ^ tracks ≤ 4096 }
    requires fits { base ^ length places.now ≤ 4096 }
    ensures { IfOk result (λ v. AreRead base tracks places.now (base ^ tracks) v.items) }
{
    let mut readings = Vec::new(alloc);
    for letter in 0..base.radix().pow(tracks) {
        match readings.push(read_letter(base, tracks, places, letter)) {
            Ok(()) => {}
            Err(_) => return Err(Memory),
        }
    }
    Ok(readings)
}

/// The base in which a sign vector is a letter.
fn sign_base() -> Base
    ensures { result ≡ 2 }
{
    match Base::new(2) {
        Some(two) => two,
        None => unreachable!(),
    }
}

/// An automaton that reads some of a result's tracks.
#[derive(Drop)]
pub struct Reader<'a, C: Cells> {
    table: &'a Table<C>,
    tracks: u32,
    places: &'a [u32],
    letters: Vec<u32>,
    signs: Vec<u32>,
}

impl<'a, C: Cells> Model for Reader<'a, C> {
    ghost use Rattle.product_ops.specs.Pairs.{Operand, IsReading};

    ghost Value = { Operand };

    ghost view = { λ r. record { table = r.table.now.table; tracks = r.tracks; places = r.places.now } };

    ghost invariant = { λ r. IsReading (record { table = r.table.now.table; tracks = r.tracks; places = r.places.now }) r.letters.items r.signs.items };
}

impl<'a, C: Cells> Reader<'a, C> {
    /// An automaton that reads distinct tracks, as many as it has, out of so many.
    pub fn new(
        alloc: Global,
        table: &'a Table<C>,
        tracks: u32,
        places: &'a [u32],
    ) -> Result<Self, Memory>
        requires places { AreTracks tracks places.now }
        requires count { length places.now ≡ table.now.table.tracks }
        requires few { table.now.table.base ^ tracks ≤ 4096 }
        ensures value { IfOk result (λ r. r ≡ record { table = table.now.table; tracks = tracks; places = places.now }) }
        ensures operand { IfOk result (λ r. IsOperand r) }
    {
        let _letters = table.letters();
        let letters = read_letters(alloc, table.base(), tracks, places)?;
        let signs = read_letters(alloc, sign_base(), tracks, places)?;
        Ok(Reader {
            table,
            tracks,
            places,
            letters,
            signs,
        })
    }

    /// The number of the result's letters.
    pub fn letters(&self) -> u32
        ensures { result ≡ self.now.table.base ^ self.now.tracks }
    {
        self.letters.len() as u32
    }

    /// The number of the result's sign vectors.
    pub fn signs(&self) -> usize
        ensures { result ≡ 2 ^ self.now.tracks }
    {
        self.signs.len()
    }

    /// The number of integer states.
    pub fn states(&self) -> u32 {
        self.table.ints()
    }

    /// The number of fraction states.
    pub fn fraction_states(&self) -> u32 {
        self.table.fracs()
    }

    /// The root for a sign vector of the result.
    pub fn root(&self, sign: usize) -> u32
        requires { sign < 2 ^ self.now.tracks }
        ensures value { result ≡ root_by self.now sign }
        ensures below { result < ints self.now.table }
    {
        self.table.root(self.signs[sign])
    }

    /// The integer state to which a letter of the result leads from one.
    pub fn step(&self, state: u32, letter: u32) -> u32
        requires state { state < ints self.now.table }
        requires letter { letter < self.now.table.base ^ self.now.tracks }
        ensures value { result ≡ step_by self.now state letter }
        ensures below { result < ints self.now.table }
    {
        self.table.int_step(state, self.letters[letter as usize])
    }

    /// The output of an integer state, if it is a fraction state.
    pub fn out(&self, state: u32) -> u32
        requires state { state < ints self.now.table }
        requires fractions { 0 < fracs self.now.table }
        ensures value { result ≡ slice_index self.now.table.outs state }
        ensures below { result < fracs self.now.table }
    {
        self.table.out(state)
    }

    /// The fraction state to which a letter of the result leads from one.
    pub fn fraction_step(&self, state: u32, letter: u32) -> u32
        requires state { state < fracs self.now.table }
        requires letter { letter < self.now.table.base ^ self.now.tracks }
        ensures value { result ≡ fraction_step_by self.now state letter }
        ensures below { result < fracs self.now.table }
    {
        self.table.frac_step(state, self.letters[letter as usize])
    }
}
