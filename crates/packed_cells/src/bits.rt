//! Cells of a few bits in words of 64, each word above the one before it: together they are one number, and a cell is a few of its
//! binary digits. Own. Reading and writing a cell takes one or two words, and no loop.

ghost use Rattle.std.specs.Prelude.{◌≡◌, ℕ, ◌+◌, ◌*◌, ◌/◌, ◌%◌, ◌^◌, ◌<◌, ◌≤◌, length, slice_index};
ghost use Rattle.packed_cells.specs.Digits.{number_of};
ghost use Rattle.packed_cells.specs.Cells.{pair_of};

/// A word and, if bits up to `end` from its lowest on go past it, the next word above it.
fn pair_at(words: &[u64], word: usize, end: u32) -> u128
    requires first { word < length words.now }
    requires second { 64 < end → word + 1 < length words.now }
    ensures pair { result ≡ pair_of words.now word end }
    ensures words { (at : ℕ) → slice_index words.now at < 2 ^ 64 }
{
    let low = u128::from(words[word]);
    if end <= 64 {
        low
    } else {
        low + (u128::from(words[word + 1]) << 64)
    }
}

/// The number in so many bits from a place on.
fn field(pair: u128, shift: u32, bits: u32) -> u32
    requires shift { shift < 64 }
    requires bits { bits ≤ 32 }
    ensures { result ≡ pair / 2 ^ shift % 2 ^ bits }
{
    ((pair >> shift) & ((1 << bits) - 1)) as u32
}

/// The number that has a value in so many bits from a place on, and the same bits otherwise.
fn with_field(pair: u128, shift: u32, bits: u32, value: u32) -> u128
    requires shift { shift < 64 }
    requires bits { bits ≤ 32 }
    requires value { value < 2 ^ bits }
    ensures changed { result + pair / 2 ^ shift % 2 ^ bits * 2 ^ shift ≡ pair + value * 2 ^ shift }
    ensures low { pair < 2 ^ 64 → shift + bits ≤ 64 → result < 2 ^ 64 }
{
    let old = u128::from(field(pair, shift, bits));
    pair - (old << shift) + (u128::from(value) << shift)
}

/// The number in the bits from a place on, 1 to 32 of them.
pub(crate) fn read_bits(words: &[u64], place: usize, bits: u32) -> u32
    requires few { bits ≤ 32 }
    requires some { 1 ≤ bits }
    requires within { place + bits ≤ length words.now * 64 }
    ensures { result ≡ number_of (2 ^ 64) words.now / 2 ^ place % 2 ^ bits }
{
    let shift = (place % 64) as u32;
    field(pair_at(words, place / 64, shift + bits), shift, bits)
}

/// Changes the bits from a place on, 1 to 32 of them, to a number. All other bits stay.
pub(crate) fn write_bits(words: &mut [u64], place: usize, bits: u32, value: u32)
    requires few { bits ≤ 32 }
    requires some { 1 ≤ bits }
    requires within { place + bits ≤ length words.old * 64 }
    requires value { value < 2 ^ bits }
    ensures count { length words.new ≡ length words.old }
    ensures changed { number_of (2 ^ 64) words.new + number_of (2 ^ 64) words.old / 2 ^ place % 2 ^ bits * 2 ^ place ≡ number_of (2 ^ 64) words.old + value * 2 ^ place }
{
    let word = place / 64;
    let shift = (place % 64) as u32;
    let pair = with_field(pair_at(words, word, shift + bits), shift, bits, value);
    words[word] = (pair % (1 << 64)) as u64;
    if shift + bits > 64 {
        words[word + 1] = (pair >> 64) as u64;
    }
}
