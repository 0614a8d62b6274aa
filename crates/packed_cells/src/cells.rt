//! Lists of small numbers, whatever the cells that keep them. Own.

ghost use Rattle.std.specs.Prelude.{◌≡◌, ℕ, ◌<◌, ◌≤◌, ◌^◌, List, length, slice_index, slice_set, IfSome};

/// A list of numbers, each below a bound that is at least 2 and at most 2^32. Neither the length nor the bound changes.
pub trait Cells {
    ghost items: { Self → List ℕ };

    ghost limit: { Self → ℕ };

    fn len(&self) -> usize
        ensures { result ≡ length (items self.now) };

    fn bound(&self) -> u64
        ensures value { result ≡ limit self.now }
        ensures low { 2 ≤ limit self.now }
        ensures high { limit self.now ≤ 2 ^ 32 };

    fn get(&self, at: usize) -> u32
        requires { at < length (items self.now) }
        ensures value { result ≡ slice_index (items self.now) at }
        ensures below { result < limit self.now };

    /// The list itself, where the numbers stand in it as they are.
    fn lent(&self) -> Option<&[u32]>
        ensures { IfSome result (λ s. s.now ≡ items self.now) };

    fn set(&mut self, at: usize, value: u32)
        requires place { at < length (items self.old) }
        requires value { value < limit self.old }
        ensures items { items self.new ≡ slice_set (items self.old) at value }
        ensures limit { limit self.new ≡ limit self.old };
}
