//! The states of a graph in the order of their least paths: breadth-first search. The states that were found are their own queue, and each
//! state has a place in which its position is noted. Costs one look for each state and letter, and has no limit of cells.

ghost use Rattle.std.specs.Prelude.{◌≡◌, ◌+◌, ◌*◌, ◌<◌, ◌≤◌, ◌^◌, ℕ, [], All, length, slice_index, IfOk, IfNone, IfSome, OnOk};
ghost use Rattle.graph_laws.specs.Exploring.{IsExplored};
ghost use Rattle.least_paths.specs.Nets.{Net, IsClosed};
ghost use Rattle.least_paths.specs.Searches.{row_steps};
ghost use Rattle.weak_forms.specs.Finding.{keyed, HavePlaces, Meets, AreBegun, AreFollowed, IsRead};

use lash_io::Memory;
use least_paths::Graph;
use std::alloc::Global;
use std::marker::Model;

/// A graph that is given by its starts and, in flat rows, by its targets.
#[derive(Drop)]
pub(crate) struct Drawn<'a> {
    starts: &'a [u32],
    rows: &'a [u32],
    width: u32,
    states: u32,
}

impl<'a> Model for Drawn<'a> {
    ghost use Rattle.std.specs.Prelude.{◌≡◌, ◌*◌, ◌<◌, ◌^◌, length};
    ghost use Rattle.least_paths.specs.Nets.{Net};

    ghost Value = { Net };

    ghost view = { λ g. record { starts = g.starts.now; rows = g.rows.now; width = g.width; states = g.states } };

    ghost invariant = { λ g. (length g.rows.now ≡ g.states * g.width) × (length g.starts.now < 2 ^ 32) };
}

impl<'a> Drawn<'a> {
    /// The graph of these starts and rows.
    pub(crate) fn new(starts: &'a [u32], rows: &'a [u32], width: u32, states: u32) -> Self
        requires rows { length rows.now ≡ states * width }
        requires starts { All (λ q. q < states) starts.now }
        requires targets { All (λ q. q < states) rows.now }
        requires few { length starts.now < 2 ^ 32 }
        ensures closed { IsClosed result }
        ensures value { result ≡ record { starts = starts.now; rows = rows.now; width = width; states = states } }
    {
        Drawn {
            starts,
            rows,
            width,
            states,
        }
    }
}

impl Graph for Drawn<'_> {
    ghost use Rattle.least_paths.specs.Nets.{Net};

    ghost net = { λ (g : Net). g };

    fn start_count(&self) -> u32 {
        self.starts.len() as u32
    }

    fn width(&self) -> u32 {
        self.width
    }

    fn states(&self) -> u32 {
        self.states
    }

    fn begin(&self, at: u32) -> u32 {
        let starts = self.starts;
        starts[at as usize]
    }

    fn follow(&self, state: u32, letter: u32) -> u32 {
        let rows = self.rows;
        rows[state as usize * self.width as usize + letter as usize]
    }
}

/// What was found: the states in order, the positions of the starts, and in flat rows the positions to which states and letters lead.
#[derive(Drop)]
pub(crate) struct Found {
    width: u32,
    order: Vec<u32>,
    starts: Vec<u32>,
    rows: Vec<u32>,
}

impl Model for Found {
    ghost use Rattle.weak_forms.specs.Finding.{Placement};

    ghost Value = { Placement };

    ghost view = { λ f. record { width = f.width; order = f.order.items; starts = f.starts.items; rows = f.rows.items } };
}

impl Found {
    /// The number of states that were found.
    pub(crate) fn len(&self) -> usize
        ensures { result ≡ length self.now.order }
    {
        self.order.len()
    }

    /// The state at a position.
    pub(crate) fn state(&self, at: usize) -> u32
        requires { at < length self.now.order }
        ensures { result ≡ slice_index self.now.order at }
    {
        self.order[at]
    }
}

/// What was found, as a graph of positions.
#[derive(Drop)]
pub(crate) struct Reached<'a> {
    found: &'a Found,
}

impl<'a> Model for Reached<'a> {
    ghost use Rattle.graph_laws.specs.Exploring.{KeyTable};
    ghost use Rattle.weak_forms.specs.Finding.{keyed, IsRead};

    ghost Value = { KeyTable };

    ghost view = { λ r. keyed r.found.now };

    ghost invariant = { λ r. IsRead r.found.now };
}

impl<'a> Reached<'a> {
    /// The graph of what was found.
    pub(crate) fn new(found: &'a Found) -> Self
        requires { IsRead found.now }
        ensures { result ≡ keyed found.now }
    {
        Reached { found }
    }
}

impl Graph for Reached<'_> {
    ghost use Rattle.least_paths.specs.Nets.{found_net};

    ghost net = { found_net };

    fn start_count(&self) -> u32 {
        let found = self.found;
        found.starts.len() as u32
    }

    fn width(&self) -> u32 {
        let found = self.found;
        found.width
    }

    fn states(&self) -> u32 {
        let found = self.found;
        found.order.len() as u32
    }

    fn begin(&self, at: u32) -> u32 {
        let found = self.found;
        found.starts[at as usize]
    }

    fn follow(&self, state: u32, letter: u32) -> u32 {
        let found = self.found;
        found.rows[state as usize * found.width as usize + letter as usize]
    }
}

/// The position of a state, if it was found.
fn position_of(found: &Found, places: &[u32], state: u32) -> Option<u32>
    requires places { HavePlaces found.now.order places.now }
    requires state { state < length places.now }
    ensures none { IfNone result ((i : ℕ) → i < length found.now.order → slice_index found.now.order i ≡ state → ⊥) }
    ensures inside { IfSome result (λ p. p < length found.now.order) }
    ensures here { IfSome result (λ p. slice_index found.now.order p ≡ state) }
{
    let place = places[state as usize];
    if (place as usize) < found.order.len() && found.order[place as usize] == state {
        return Some(place);
    }
    None
}

/// Meets a state, and gives its position. A state that is new goes last.
fn meet(found: &mut Found, places: &mut Vec<u32>, state: u32) -> Result<u32, Memory>
    requires places { HavePlaces found.old.order places.old.items }
    requires state { state < length places.old.items }
    ensures places { OnOk result (HavePlaces found.new.order places.new.items) }
    ensures met { IfOk result (λ p. Meets found.old found.new state p) }
    ensures states { OnOk result (length places.new.items ≡ length places.old.items) }
    ensures longer { OnOk result (length found.old.order ≤ length found.new.order) }
{
    match position_of(&*found, places.as_slice(), state) {
        Some(place) => return Ok(place),
        None => {}
    }
    let place = found.order.len() as u32;
    match found.order.push(state) {
        Ok(()) => {}
        Err(_) => return Err(Memory),
    }
    places[state as usize] = place;
    Ok(place)
}

/// Meets a start.
fn begin<G: Graph>(
    graph: &G,
    found: &mut Found,
    places: &mut Vec<u32>,
    at: u32,
) -> Result<(), Memory>
    requires closed { IsClosed (G.net graph.now) }
    requires at { at < length (G.net graph.now).starts }
    requires states { length places.old.items ≡ (G.net graph.now).states }
    requires places { HavePlaces found.old.order places.old.items }
    requires begun { AreBegun (G.net graph.now) at found.old }
    ensures states { OnOk result (length places.new.items ≡ (G.net graph.now).states) }
    ensures places { OnOk result (HavePlaces found.new.order places.new.items) }
    ensures begun { OnOk result (AreBegun (G.net graph.now) (at + 1) found.new) }
{
    let place = match meet(found, places, graph.begin(at)) {
        Ok(place) => place,
        Err(Memory) => return Err(Memory),
    };
    match found.starts.push(place) {
        Ok(()) => {}
        Err(_) => return Err(Memory),
    }
    Ok(())
}

/// Meets all starts.
fn begin_all<G: Graph>(graph: &G, found: &mut Found, places: &mut Vec<u32>) -> Result<(), Memory>
    requires closed { IsClosed (G.net graph.now) }
    requires states { length places.old.items ≡ (G.net graph.now).states }
    requires places { HavePlaces found.old.order places.old.items }
    requires begun { AreBegun (G.net graph.now) 0 found.old }
    ensures states { OnOk result (length places.new.items ≡ (G.net graph.now).states) }
    ensures places { OnOk result (HavePlaces found.new.order places.new.items) }
    ensures begun { OnOk result (AreBegun (G.net graph.now) (length (G.net graph.now).starts) found.new) }
{
    for at in 0..graph.start_count() {
        match begin(graph, found, places, at) {
            Ok(()) => {}
            Err(Memory) => return Err(Memory),
        }
    }
    Ok(())
}

/// Meets the state to which a letter leads from the state at a position.
fn follow<G: Graph>(
    graph: &G,
    found: &mut Found,
    places: &mut Vec<u32>,
    at: usize,
    letter: u32,
) -> Result<(), Memory>
    requires at { at < length found.old.order }
    requires letter { letter < (G.net graph.now).width }
    requires closed { IsClosed (G.net graph.now) }
    requires states { length places.old.items ≡ (G.net graph.now).states }
    requires places { HavePlaces found.old.order places.old.items }
    requires followed { AreFollowed (G.net graph.now) at letter found.old }
    ensures states { OnOk result (length places.new.items ≡ (G.net graph.now).states) }
    ensures places { OnOk result (HavePlaces found.new.order places.new.items) }
    ensures followed { OnOk result (AreFollowed (G.net graph.now) at (letter + 1) found.new) }
    ensures longer { OnOk result (length found.old.order ≤ length found.new.order) }
{
    let state = found.state(at);
    let place = match meet(found, places, graph.follow(state, letter)) {
        Ok(place) => place,
        Err(Memory) => return Err(Memory),
    };
    match found.rows.push(place) {
        Ok(()) => {}
        Err(_) => return Err(Memory),
    }
    Ok(())
}

/// Meets the states to which all letters lead from the state at a position.
fn follow_row<G: Graph>(
    graph: &G,
    found: &mut Found,
    places: &mut Vec<u32>,
    at: usize,
) -> Result<(), Memory>
    requires at { at < length found.old.order }
    requires closed { IsClosed (G.net graph.now) }
    requires states { length places.old.items ≡ (G.net graph.now).states }
    requires places { HavePlaces found.old.order places.old.items }
    requires followed { AreFollowed (G.net graph.now) at 0 found.old }
    ensures states { OnOk result (length places.new.items ≡ (G.net graph.now).states) }
    ensures places { OnOk result (HavePlaces found.new.order places.new.items) }
    ensures followed { OnOk result (AreFollowed (G.net graph.now) (at + 1) 0 found.new) }
{
    for letter in 0..graph.width() {
        match follow(graph, found, places, at, letter) {
            Ok(()) => {}
            Err(Memory) => return Err(Memory),
        }
    }
    Ok(())
}

/// Follows each state that is met, until all have been followed.
fn follow_all<G: Graph>(graph: &G, found: &mut Found, places: &mut Vec<u32>) -> Result<(), Memory>
    requires closed { IsClosed (G.net graph.now) }
    requires states { length places.old.items ≡ (G.net graph.now).states }
    requires places { HavePlaces found.old.order places.old.items }
    requires followed { AreFollowed (G.net graph.now) 0 0 found.old }
    ensures places { OnOk result (HavePlaces found.new.order places.new.items) }
    ensures states { OnOk result (length places.new.items ≡ (G.net graph.now).states) }
    ensures followed { OnOk result (AreFollowed (G.net graph.now) (length found.new.order) 0 found.new) }
{
    let mut at = 0;
    while at < found.order.len() {
        match follow_row(graph, found, places, at) {
            Ok(()) => {}
            Err(Memory) => return Err(Memory),
        }
        at += 1;
    }
    Ok(())
}

/// The states that are reached from the starts, in the order of their least paths. The one error is Memory: out of memory.
pub(crate) fn find<G: Graph>(alloc: Global, graph: &G) -> Result<Found, Memory>
    requires { IsClosed (G.net graph.now) }
    ensures found { IfOk result (λ f. IsExplored (row_steps (G.net graph.now)) (length f.order * (f.width + 1)) (keyed f)) }
    ensures states { IfOk result (λ f. All (λ q. q < (G.net graph.now).states) f.order) }
    ensures read { IfOk result (λ f. IsRead f) }
{
    // 32 bits tell the starts apart.
    let _starts = graph.start_count();
    let mut places = match Vec::from_elem(alloc, 0, graph.states() as usize) {
        Ok(places) => places,
        Err(_) => return Err(Memory),
    };
    let mut found = Found {
        width: graph.width(),
        order: Vec::new(alloc),
        starts: Vec::new(alloc),
        rows: Vec::new(alloc),
    };
    match begin_all(graph, &mut found, &mut places) {
        Ok(()) => {}
        Err(Memory) => return Err(Memory),
    }
    match follow_all(graph, &mut found, &mut places) {
        Ok(()) => Ok(found),
        Err(Memory) => Err(Memory),
    }
}
