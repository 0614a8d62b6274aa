//! Ranks in a weak graph, whose parts have looping states of one colour each: the rank of a state is the greatest number of a chain
//! of loops, each reached from the one before and of the other colour, that begins at the state.

ghost use Rattle.std.specs.Prelude.{◌≡◌, ◌+◌, ◌*◌, ◌<◌, ◌≤◌, ◌^◌, ℕ, true, false, length, slice_index, All, IfOk};
ghost use Rattle.part_laws.specs.Graphs.{IsWeak};
ghost use Rattle.part_laws.specs.Ranks.{IsRank, IsRecolouring};
ghost use Rattle.part_laws.specs.Parts.{AreRanks};
ghost use Rattle.components.specs.Partings.{AreParts, AreInOrder};
ghost use Rattle.components.specs.Rankings.{lift, DecidesWeak, DoAgree, IsGreater, IsRisen, AreLifted, AreParities};

use crate::parts::Parts;
use lash_io::Memory;
use std::alloc::Global;

// A rank, or one more if the part loops and has another colour than the rank.
fn lifted(loops: bool, colour: u32, rank: u32) -> u32
    requires { rank + 1 < 2 ^ 32 }
    ensures { result ≡ lift loops colour rank }
{
    let even = 1 - rank % 2;
    if loops && even != colour {
        rank + 1
    } else {
        rank
    }
}

// The greater of two numbers.
fn greater(one: u32, other: u32) -> u32
    ensures { IsGreater one other result }
{
    if one < other { other } else { one }
}

// The greatest of the rank of a state's part so far, and of what the state gives: its part reaches the parts to which its letters lead,
// and if it loops it has its own colour.
fn risen(
    rows: &[u32],
    letters: u32,
    colours: &[u32],
    parts: &Parts,
    ranks: &[u32],
    state: u32,
) -> u32
    requires parts { AreParts rows.now letters (length colours.now) parts.now }
    requires rows { length rows.now ≡ length colours.now * letters }
    requires targets { All (λ q. q < length colours.now) rows.now }
    requires few { length parts.now.looping < 2 ^ 32 }
    requires state { state < length colours.now }
    requires ranks { length ranks.now ≡ length parts.now.looping }
    requires small { (k : ℕ) → slice_index ranks.now k ≤ k + 1 }
    ensures { IsRisen rows.now letters colours.now parts.now ranks.now state letters result }
{
    let part = parts.part_of(state);
    let loops = parts.loops(part);
    let colour = colours[state as usize];
    let mut best = greater(ranks[part as usize], lifted(loops, colour, 0));
    for letter in 0..letters {
        let below = parts.part_of(rows[state as usize * letters as usize + letter as usize]);
        if below < part {
            best = greater(best, lifted(loops, colour, ranks[below as usize]));
        }
    }
    best
}

// The ranks of the parts, in the order of their numbers.
fn lifted_parts(
    alloc: Global,
    rows: &[u32],
    letters: u32,
    colours: &[u32],
    parts: &Parts,
) -> Result<Vec<u32>, Memory>
    requires parts { AreParts rows.now letters (length colours.now) parts.now }
    requires rows { length rows.now ≡ length colours.now * letters }
    requires targets { All (λ q. q < length colours.now) rows.now }
    ensures { IfOk result (λ ranks. AreLifted (length colours.now) rows.now letters colours.now parts.now ranks.items) }
{
    let mut ranks = match Vec::from_elem(alloc, 0, parts.count() as usize) {
        Ok(ranks) => ranks,
        Err(_) => return Err(Memory),
    };
    for state in parts.states() {
        let rank = risen(rows, letters, colours, parts, ranks.as_slice(), *state);
        let part = parts.part_of(*state);
        ranks[part as usize] = rank;
    }
    Ok(ranks)
}

// The rank of each state, in the form that is reckoned part by part.
fn ranks_by_parts(
    alloc: Global,
    rows: &[u32],
    letters: u32,
    colours: &[u32],
    parts: &Parts,
) -> Result<Vec<u32>, Memory>
    requires parts { AreParts rows.now letters (length colours.now) parts.now }
    requires rows { length rows.now ≡ length colours.now * letters }
    requires targets { All (λ q. q < length colours.now) rows.now }
    requires letters { 0 < letters }
    requires few { length colours.now < 2 ^ 32 }
    requires colours { All (λ c. c < 2) colours.now }
    requires weak { IsWeak letters (record { rows = rows.now; colours = colours.now }) }
    ensures { IfOk result (λ ranks. AreRanks letters (record { rows = rows.now; colours = colours.now }) parts.now.numbers ranks.items) }
{
    let by_part = lifted_parts(alloc, rows, letters, colours, parts)?;
    let mut ranks = match Vec::with_capacity(alloc, colours.len()) {
        Ok(ranks) => ranks,
        Err(_) => return Err(Memory),
    };
    for state in 0..colours.len() as u32 {
        let part = parts.part_of(state);
        match ranks.push(by_part[part as usize]) {
            Ok(()) => {}
            Err(_) => return Err(Memory),
        }
    }
    Ok(ranks)
}

/// The rank of each state of a weak graph: the greatest number of a chain of loops of alternating colours that begins at it. The parts
/// are those of the graph, as `parts_of` finds them; `letters` is at least 1, targets are states, and colours are 0 for no and 1 for
/// yes. The one error is Memory: out of memory. (Ranks of weak automata: Löding 2001.)
pub fn ranks_of(
    alloc: Global,
    rows: &[u32],
    letters: u32,
    colours: &[u32],
    parts: &Parts,
) -> Result<Vec<u32>, Memory>
    requires parts { AreParts rows.now letters (length colours.now) parts.now }
    requires rows { length rows.now ≡ length colours.now * letters }
    requires targets { All (λ q. q < length colours.now) rows.now }
    requires letters { 0 < letters }
    requires few { length colours.now < 2 ^ 32 }
    requires colours { All (λ c. c < 2) colours.now }
    requires weak { IsWeak letters (record { rows = rows.now; colours = colours.now }) }
    ensures count { IfOk result (λ ranks. length ranks.items ≡ length colours.now) }
    ensures each { IfOk result (λ ranks. (q : ℕ) → q < length colours.now
        → IsRank letters (record { rows = rows.now; colours = colours.now }) q (slice_index ranks.items q)) }
{
    ranks_by_parts(alloc, rows, letters, colours, parts)
}

// Puts 1 for each even number, and 0 for each odd one.
fn put_parities(ranks: &mut Vec<u32>)
    ensures { AreParities ranks.old.items ranks.new.items }
{
    for at in 0..ranks.len() {
        ranks[at] = 1 - ranks[at] % 2;
    }
}

/// For each state of a weak graph the colour of its rank: yes if the rank is even, no if it is odd. What is asked of the arguments is
/// as for `ranks_of`. The one error is Memory: out of memory. (The colours of the canonical weak automaton: Löding 2001.)
pub fn rank_colours(
    alloc: Global,
    rows: &[u32],
    letters: u32,
    colours: &[u32],
    parts: &Parts,
) -> Result<Vec<u32>, Memory>
    requires parts { AreParts rows.now letters (length colours.now) parts.now }
    requires rows { length rows.now ≡ length colours.now * letters }
    requires targets { All (λ q. q < length colours.now) rows.now }
    requires letters { 0 < letters }
    requires few { length colours.now < 2 ^ 32 }
    requires colours { All (λ c. c < 2) colours.now }
    requires weak { IsWeak letters (record { rows = rows.now; colours = colours.now }) }
    ensures { IfOk result (λ c. IsRecolouring letters (record { rows = rows.now; colours = colours.now }) c.items) }
{
    let mut ranks = ranks_by_parts(alloc, rows, letters, colours, parts)?;
    put_parities(&mut ranks);
    Ok(ranks)
}

// Whether two states have one colour, if they are in one part that loops.
fn agree(colours: &[u32], parts: &Parts, one: u32, other: u32) -> bool
    requires states { length parts.now.numbers ≡ length colours.now }
    requires numbers { (q : ℕ) → q < length colours.now → slice_index parts.now.numbers q < length parts.now.looping }
    requires one { one < length colours.now }
    requires other { other < length colours.now }
    ensures agree { result ≡ true → DoAgree colours.now parts.now one other }
    ensures differ { result ≡ false → DoAgree colours.now parts.now one other → ⊥ }
{
    let part = parts.part_of(one);
    if part != parts.part_of(other) {
        return true;
    }
    if parts.loops(part) {
        colours[one as usize] == colours[other as usize]
    } else {
        true
    }
}

/// Whether a graph with these parts and colours is weak: whether the looping states of each part have one colour. The parts are of as
/// many states as there are colours. It needs no memory and cannot fail. (Weak automata: Muller, Saoudi, Schupp 1986.)
pub fn is_weak(colours: &[u32], parts: &Parts) -> bool
    requires states { length parts.now.numbers ≡ length colours.now }
    requires numbers { (q : ℕ) → q < length colours.now → slice_index parts.now.numbers q < length parts.now.looping }
    requires order { AreInOrder (length colours.now) parts.now.numbers parts.now.order }
    ensures { DecidesWeak colours.now parts.now result }
{
    let states = parts.states();
    for at in 1..states.len() {
        if !agree(colours, parts, states[at - 1], states[at]) {
            return false;
        }
    }
    true
}
