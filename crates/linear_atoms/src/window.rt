//! The window of an atom over the fractions: which bounds can still be met, and the fraction state of each bound (own).

ghost use Rattle.std.specs.Prelude.{◌≡◌, ℕ, ℤ, pos, ◌+◌, ◌*◌, ◌^◌, ◌<◌, ◌≤◌, ◌+ℤ◌, ◌-ℤ◌, ◌*ℤ◌, nat_lt, unsigned_abs};
ghost use Rattle.lash_model.specs.Formulas.{coefficient_sum};
ghost use Rattle.lasso_laws.specs.Windows.{negative_part, lowest, window, window_end};
ghost use Rattle.lasso_laws.specs.RealAtoms.{bound_states, bound_state};
ghost use Rattle.linear_atoms.specs.Closing.{IsSmallTotal};
ghost use Rattle.linear_atoms.specs.Kinds.{comparison_of};
ghost use Rattle.linear_atoms.specs.Bounds.{IsWindow, bound_target};

use crate::kind::AtomKind;
use formula_core::Linear;

/// The window of an atom: the sum of the coefficients below 0, and the sum of the magnitudes of all coefficients.
#[derive(Clone, Copy)]
pub struct Window<'a> {
    pub kind: AtomKind,
    pub atom: &'a Linear,
    pub lowest: i128,
    pub sum: u32,
}

/// A sum with a coefficient more, if the coefficient is below 0.
fn with_negative(sum: &i128, coefficient: &i128) -> i128
    requires sum { unsigned_abs sum.now ≤ 2 ^ 24 }
    requires coefficient { unsigned_abs coefficient.now ≤ 2 ^ 24 }
    ensures { result ≡ sum.now +ℤ negative_part coefficient.now }
{
    if *coefficient < 0 {
        *sum + *coefficient
    } else {
        *sum
    }
}

/// The sum of the coefficients below 0.
fn lowest_of(atom: &Linear) -> i128
    requires { coefficient_sum atom.now.terms ≤ 2 ^ 24 }
    ensures value { result ≡ lowest atom.now.terms }
    ensures small { unsigned_abs result ≤ 2 ^ 24 }
{
    let mut sum = 0;
    for term in atom.terms() {
        sum = with_negative(&sum, &term.1);
    }
    sum
}

/// The magnitude of a coefficient.
fn magnitude(coefficient: &i128) -> u32
    requires { unsigned_abs coefficient.now ≤ 2 ^ 24 }
    ensures { result ≡ unsigned_abs coefficient.now }
{
    coefficient.unsigned_abs() as u32
}

/// The sum of the magnitudes of the coefficients.
fn sum_of(atom: &Linear) -> u32
    requires { coefficient_sum atom.now.terms ≤ 2 ^ 24 }
    ensures { result ≡ coefficient_sum atom.now.terms }
{
    let mut sum = 0u32;
    for term in atom.terms() {
        sum += magnitude(&term.1);
    }
    sum
}

impl<'a> Window<'a> {
    /// The window of an atom.
    pub fn new(kind: AtomKind, atom: &'a Linear) -> Window<'a>
        requires { coefficient_sum atom.now.terms ≤ 2 ^ 24 }
        ensures window { IsWindow result.atom.now.terms result.lowest result.sum }
        ensures kind { result.kind ≡ kind }
        ensures atom { result.atom.now ≡ atom.now }
    {
        Window {
            kind,
            atom,
            lowest: lowest_of(atom),
            sum: sum_of(atom),
        }
    }

    /// How many bounds it has.
    pub fn size(&self) -> u32
        requires { IsWindow self.now.atom.now.terms self.now.lowest self.now.sum }
        ensures { result ≡ window (comparison_of self.now.kind) self.now.atom.now.terms }
    {
        match self.kind {
            AtomKind::Le => self.sum,
            AtomKind::Eq => self.sum + 1,
        }
    }

    /// The number of fraction states: one for each bound of the window, and those for all others.
    pub fn states(&self) -> u32
        requires { IsWindow self.now.atom.now.terms self.now.lowest self.now.sum }
        ensures { result ≡ bound_states self.now.atom.now.terms }
    {
        self.sum + 2
    }

    /// The state of a bound.
    pub fn state_of(&self, bound: &i128) -> u32
        requires window { IsWindow self.now.atom.now.terms self.now.lowest self.now.sum }
        requires small { unsigned_abs bound.now ≤ 2 ^ 42 }
        ensures value { result ≡ bound_state (comparison_of self.now.kind) self.now.atom.now.terms bound.now }
        ensures within { result < bound_states self.now.atom.now.terms }
    {
        if *bound < self.lowest {
            return self.sum + 1;
        }
        let size = self.size();
        let far = *bound - self.lowest;
        if far < i128::from(size) {
            far as u32
        } else {
            size
        }
    }

    /// The bound of a state inside the window.
    fn bound_of(&self, state: u32) -> i128
        requires window { IsWindow self.now.atom.now.terms self.now.lowest self.now.sum }
        requires state { state < window (comparison_of self.now.kind) self.now.atom.now.terms }
        ensures value { result ≡ lowest self.now.atom.now.terms +ℤ pos state }
        ensures small { unsigned_abs result ≤ 2 ^ 26 }
    {
        self.lowest + i128::from(state)
    }

    /// The first bound above the window.
    pub fn end(&self) -> i128
        requires { IsWindow self.now.atom.now.terms self.now.lowest self.now.sum }
        ensures value { result ≡ window_end (comparison_of self.now.kind) self.now.atom.now.terms }
        ensures small { unsigned_abs result ≤ 2 ^ 26 }
    {
        self.lowest + i128::from(self.size())
    }

    /// The bound that is left of a constant after a value.
    pub fn bound_left(&self, value: &i128) -> i128
        requires window { unsigned_abs self.now.atom.now.constant ≤ 2 ^ 40 }
        requires value { unsigned_abs value.now ≤ 2 ^ 40 + 2 ^ 24 + 2 }
        ensures value { result ≡ self.now.atom.now.constant -ℤ value.now }
        ensures small { unsigned_abs result ≤ 2 ^ 42 }
    {
        self.atom.constant() - *value
    }

    /// The state to which a letter of the total leads from a state.
    pub fn target(&self, base: u32, total: &i128, state: u32) -> u32
        requires window { IsWindow self.now.atom.now.terms self.now.lowest self.now.sum }
        requires base { base ≤ 16 }
        requires total { IsSmallTotal base total.now }
        requires state { state < bound_states self.now.atom.now.terms }
        ensures value { result ≡ bound_target (comparison_of self.now.kind) self.now.atom.now.terms base state total.now }
        ensures within { result < bound_states self.now.atom.now.terms }
    {
        if state < self.size() {
            let bound = self.bound_of(state);
            self.state_of(&bound_after(base, &bound, total))
        } else {
            state
        }
    }

    /// Whether the state has colour yes.
    pub fn is_yes(&self, state: u32) -> bool
        requires { IsWindow self.now.atom.now.terms self.now.lowest self.now.sum }
        ensures { result ≡ nat_lt state (coefficient_sum self.now.atom.now.terms + 1) }
    {
        state < self.sum + 1
    }
}

/// The bound that is left after a letter of the total.
fn bound_after(base: u32, bound: &i128, total: &i128) -> i128
    requires base { base ≤ 16 }
    requires bound { unsigned_abs bound.now ≤ 2 ^ 26 }
    requires total { IsSmallTotal base total.now }
    ensures value { result ≡ (pos base *ℤ bound.now) -ℤ total.now }
    ensures small { unsigned_abs result ≤ 2 ^ 42 }
{
    i128::from(base) * *bound - *total
}
