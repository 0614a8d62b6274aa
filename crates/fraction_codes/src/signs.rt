//! Signs: the bits of sign vectors, and magnitudes under a sign.

ghost use Rattle.std.specs.Prelude.{◌≡◌, ◌<◌, ◌≤◌, ◌^◌};
ghost use Rattle.lash_model.specs.Letters.{sign_bit};
ghost use Rattle.fraction_codes.specs.Steps.{signed};

/// The bit of a track, of a sign vector over so many tracks, which are at most 12.
pub(crate) fn sign_digit(sign: u32, tracks: u32, track: u32) -> u32
    requires track { track < tracks }
    requires few { 2 ^ tracks ≤ 4096 }
    requires sign { sign < 2 ^ tracks }
    ensures value { result ≡ sign_bit tracks track sign }
    ensures below { result < 2 }
{
    sign / 2u32.pow(tracks - (track + 1)) % 2
}

/// A magnitude under a sign.
pub(crate) fn signed(negative: bool, magnitude: u128) -> i128
    requires { magnitude ≤ 2 ^ 100 }
    ensures { result ≡ signed negative magnitude }
{
    let number = magnitude as i128;
    if negative { -number } else { number }
}
