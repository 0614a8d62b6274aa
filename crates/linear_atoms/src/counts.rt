//! States as counts of thresholds below a value.

ghost use Rattle.std.specs.Prelude.{◌≡◌, ℕ, ℤ, pos, ◌+◌, ◌-◌, ◌*◌, ◌^◌, ◌<◌, ◌≤◌, ◌+ℤ◌, ◌*ℤ◌, ◌<ℤ◌, int_lt, IsTrue, List, length, All, unsigned_abs};
ghost use Rattle.std.specs.List.{AllPairs};
ghost use Rattle.threshold_laws.specs.Thresholds.{below, representative};
ghost use Rattle.linear_atoms.specs.Closing.{entry, IsSmall, IsSmallTotal};
ghost use Rattle.linear_atoms.specs.Filling.{IsCountedUpTo};

/// How many of the rising thresholds are below a value.
pub fn count_below(thresholds: &[i128], value: &i128) -> u32
    requires rising { AllPairs (λ x y. x <ℤ y) thresholds.now }
    requires few { length thresholds.now < 2 ^ 31 }
    ensures value { result ≡ below thresholds.now value.now }
    ensures within { result < length thresholds.now + 1 }
{
    thresholds.partition_point(|threshold| *threshold < *value) as u32
}

/// Whether the threshold at a place is below a value.
fn is_below(thresholds: &[i128], at: usize, value: &i128) -> bool
    requires { at < length thresholds.now }
    ensures { result ≡ int_lt (entry thresholds.now at) value.now }
{
    thresholds[at] < *value
}

/// Whether the thresholds before a place are below a value.
fn are_below(thresholds: &[i128], count: usize, value: &i128) -> bool
    ensures { IsTrue result → IsCountedUpTo thresholds.now value.now count }
{
    count == 0 || (count <= thresholds.len() && is_below(thresholds, count - 1, value))
}

/// How many of the rising thresholds are below a value, looked for from a count on that is at most the right one; from any other, by
/// halves.
pub fn count_from(thresholds: &[i128], value: &i128, from: u32) -> u32
    requires rising { AllPairs (λ x y. x <ℤ y) thresholds.now }
    requires few { length thresholds.now < 2 ^ 31 }
    ensures value { result ≡ below thresholds.now value.now }
    ensures within { result < length thresholds.now + 1 }
{
    if !are_below(thresholds, from as usize, value) {
        return count_below(thresholds, value);
    }
    let mut count = from as usize;
    while count < thresholds.len() {
        if !is_below(thresholds, count, value) {
            return count as u32;
        }
        count += 1;
    }
    count as u32
}

/// A value with so many of the thresholds below it: the next threshold, or one more than the last.
pub fn value_of_count(thresholds: &[i128], count: u32) -> i128
    requires some { 0 < length thresholds.now }
    requires small { All IsSmall thresholds.now }
    ensures value { result ≡ representative thresholds.now count }
    ensures small { unsigned_abs result ≤ 2 ^ 40 + 2 ^ 24 + 2 }
{
    if (count as usize) < thresholds.len() {
        thresholds[count as usize]
    } else {
        thresholds[thresholds.len() - 1] + 1
    }
}

/// The value after a letter of the total.
pub fn next_value(base: u32, value: &i128, total: &i128) -> i128
    requires base { base ≤ 16 }
    requires value { unsigned_abs value.now ≤ 2 ^ 40 + 2 ^ 24 + 2 }
    requires total { IsSmallTotal base total.now }
    ensures { result ≡ (pos base *ℤ value.now) +ℤ total.now }
{
    i128::from(base) * *value + *total
}
