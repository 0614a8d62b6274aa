//! The quotient of one part of a table by classes of states that behave alike (Myhill and Nerode), explored breadth first from its
//! starts, so that each state is reached and numbered by its least path. Costs a look-up for each class and letter.

ghost use Rattle.std.specs.Prelude.{◌≡◌, ◌<◌, ◌+◌, ◌*◌, [], ◌∷◌, length, slice_index, IfOk, OnOk};
ghost use Rattle.graph_laws.specs.Exploring.{IsExplored};
ghost use Rattle.weak_min.specs.Quotients.{quotient, all_cells, IsClassing};

use lash_io::Memory;
use std::alloc::Global;
use std::marker::Model;
use step_tables::{ExploreError, Explored, Key, Machine, explore};

/// One part of a table and the classes of its states, as a machine: a class is named by its least state, and goes where that goes.
#[derive(Drop)]
pub(crate) struct Quotient<'a> {
    width: u32,
    rows: &'a [u32],
    classes: &'a [u32],
    starts: &'a [u32],
}

impl<'a> Model for Quotient<'a> {
    ghost use Rattle.weak_min.specs.Quotients.{Classing, IsClassing};

    ghost Value = { Classing };

    ghost view = { λ m. record { width = m.width; rows = m.rows.now; classes = m.classes.now; starts = m.starts.now } };

    ghost invariant = { λ m. IsClassing (record { width = m.width; rows = m.rows.now; classes = m.classes.now; starts = m.starts.now }) };
}

/// Writes the key of a class.
fn write_class(class: u32, into: &mut Key) -> Result<(), Memory>
    ensures { OnOk result (into.new.items ≡ class ∷ []) }
{
    if into.len() == 1 {
        into.as_mut_slice()[0] = class;
        return Ok(());
    }
    into.clear();
    match into.extend_from_slice(&[class]) {
        Ok(()) => Ok(()),
        Err(_) => Err(Memory),
    }
}

impl<'a> Quotient<'a> {
    fn new(width: u32, rows: &'a [u32], classes: &'a [u32], starts: &'a [u32]) -> Self
        requires { IsClassing (record { width = width; rows = rows.now; classes = classes.now; starts = starts.now }) }
        ensures { result ≡ record { width = width; rows = rows.now; classes = classes.now; starts = starts.now } }
    {
        Quotient {
            width,
            rows,
            classes,
            starts,
        }
    }

    /// The class of a start.
    fn begin(&self, at: usize) -> u32
        requires { at < length self.now.starts }
        ensures value { result ≡ slice_index self.now.classes (slice_index self.now.starts at) }
        ensures below { result < length self.now.classes }
    {
        let starts = self.starts;
        self.classes[starts[at] as usize]
    }

    /// The class of a target.
    fn target(&self, state: u32, letter: u32) -> u32
        requires state { state < length self.now.classes }
        requires letter { letter < self.now.width }
        ensures value { result ≡ slice_index self.now.classes (slice_index self.now.rows (state * self.now.width + letter)) }
        ensures below { result < length self.now.classes }
    {
        let at = state as usize * self.width as usize + letter as usize;
        self.classes[self.rows[at] as usize]
    }
}

impl Machine for Quotient<'_> {
    ghost use Rattle.weak_min.specs.Quotients.{quotient};

    ghost meaning = { quotient };

    fn letters(&self) -> u32 {
        self.width
    }

    fn starts(&self) -> usize {
        self.starts.len()
    }

    fn start(&mut self, at: usize, into: &mut Key) -> Result<(), Memory> {
        write_class(self.begin(at), into)
    }

    fn step(&mut self, from: &Key, letter: u32, into: &mut Key) -> Result<(), Memory> {
        write_class(self.target(from.as_slice()[0], letter), into)
    }

    fn numbers(&self) -> u64 {
        self.classes.len() as u64
    }

    fn radix(&self) -> u32 {
        0
    }

    fn number_behind(&self, from: &Key, letter: u32) -> u64 {
        u64::from(self.target(from.as_slice()[0], letter))
    }

    fn is_behind(&self, from: &Key, letter: u32, key: &[u32]) -> bool {
        key.len() == 1 && key[0] == self.target(from.as_slice()[0], letter)
    }

    fn weight(&self, _key: &Key) -> u64 {
        0
    }
}

/// The classes that are reached from the starts, numbered by their least paths. Fails only if memory runs out: their cells are no
/// more than those of all states.
pub(crate) fn explored(
    alloc: Global,
    width: u32,
    rows: &[u32],
    classes: &[u32],
    starts: &[u32],
) -> Result<Explored, Memory>
    requires { IsClassing (record { width = width; rows = rows.now; classes = classes.now; starts = starts.now }) }
    ensures { IfOk result (λ k. IsExplored (quotient (record { width = width; rows = rows.now; classes = classes.now; starts = starts.now })) (all_cells (record { width = width; rows = rows.now; classes = classes.now; starts = starts.now })) k) }
{
    let limit = classes.len() as u64 * (u64::from(width) + 1);
    match explore(
        alloc,
        &mut Quotient::new(width, rows, classes, starts),
        limit,
    ) {
        Ok(found) => Ok(found),
        Err(ExploreError::Memory) => Err(Memory),
        Err(ExploreError::Heavy) => unreachable!(),
    }
}
