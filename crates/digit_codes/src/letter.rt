//! The digits of letters.

ghost use Rattle.std.specs.Prelude.{◌≡◌, ◌<◌, ◌≤◌, ◌^◌};
ghost use Rattle.lash_model.specs.Letters.{digit};

use crate::Base;

/// The digit of a track, of a letter over so many tracks; the first track's digit is the highest. The track is one of the tracks,
/// and the letter is one of at most 4,096.
pub fn letter_digit(base: Base, tracks: u32, letter: u32, track: u32) -> u32
    requires track { track < tracks }
    requires letter { letter < base ^ tracks }
    requires few { base ^ tracks ≤ 4096 }
    ensures { result ≡ digit base tracks track letter }
{
    letter / base.radix().pow(tracks - (track + 1)) % base.radix()
}
