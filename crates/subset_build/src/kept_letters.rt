//! Letters of all tracks over a letter of the kept ones. A sign vector is a letter in base 2.

ghost use Rattle.std.specs.Prelude.{◌≡◌, ◌+◌, ◌*◌, ◌^◌, ◌<◌, ◌≤◌};
ghost use Rattle.lash_model.specs.Letters.{sign_letter as letter_of_signs};
ghost use Rattle.subset_build.specs.Closing.{AreOver};

use digit_codes::{Base, letter_digit};

/// The letters over a kept letter, by rising digit on the track that is put in: the letter for the digit 0, and what each further
/// digit adds.
#[derive(Clone, Copy, Debug)]
pub struct Span {
    pub first: u32,
    pub stride: u32,
}

impl Span {
    /// The letter for a digit.
    pub fn letter(self, digit: u32) -> u32
        requires { self.first + digit * self.stride < 4096 }
        ensures { result ≡ self.first + digit * self.stride }
    {
        self.first + digit * self.stride
    }
}

/// The letters over a letter of so many kept tracks, where a track is put in at a place.
pub fn letters_over(base: Base, kept: u32, track: u32, letter: u32) -> Span
    requires track { track ≤ kept }
    requires letter { letter < base ^ kept }
    requires few { base ^ (kept + 1) ≤ 4096 }
    ensures { AreOver base kept track letter result.first result.stride }
{
    let radix = base.radix();
    let stride = radix.pow(kept - track);
    let high = letter / stride * (stride * radix);
    Span {
        first: high + letter % stride,
        stride,
    }
}

/// The base in which a sign vector is a letter.
pub fn sign_base() -> Base
    ensures { result ≡ 2 }
{
    match Base::new(2) {
        Some(two) => two,
        None => unreachable!(),
    }
}

/// The letter of the sign digits of a sign vector.
pub fn sign_letter(base: Base, tracks: u32, sign: u32) -> u32
    requires sign { sign < 2 ^ tracks }
    requires few { base ^ tracks ≤ 4096 }
    ensures value { result ≡ letter_of_signs base tracks sign }
    ensures below { result < base ^ tracks }
{
    let two = sign_base();
    let radix = base.radix();
    let mut letter = 0;
    for track in 0..tracks {
        let bit = letter_digit(two, tracks, sign, track);
        letter = letter * radix + bit * (radix - 1);
    }
    letter
}
