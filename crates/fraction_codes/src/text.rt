//! The text of a track's digits, through one block of fixed size. Own.

ghost use Rattle.std.specs.Prelude.{◌≡◌, ◌*◌, ◌^◌, ◌<◌, ◌≤◌, [], ◌∷◌, All, OnErr};
ghost use Rattle.lash_io.specs.Faults.{IsFaultCounted};
ghost use Rattle.lash_model.specs.Lassos.{IsLasso};
ghost use Rattle.lash_io.specs.Sinks.{Puts};
ghost use Rattle.lash_io.specs.Blocks.{Passes};
ghost use Rattle.digit_codes.specs.Reading.{lasso_of};
ghost use Rattle.fraction_codes.specs.DigitText.{digit_code, letter_text, sign_text, word_text, whole_text, fraction_text, track_text};
ghost use Rattle.fraction_codes.specs.Steps.{IsTrack};

use crate::signs::sign_digit;
use digit_codes::{Base, Lasso, letter_digit};
use lash_io::{Block, Failed, Sink};

/// One of the tracks of words in a base.
#[derive(Drop)]
struct Track {
    base: Base,
    radix: u32,
    tracks: u32,
    track: u32,
}

/// Writes the digits of a track: that of its sign, a colon and the whole digits; with `fraction` then a point, the digits of the
/// stem, and those of the cycle in brackets. Digits above 9 are a to f. The lasso is one over the tracks, and the base to their
/// number is at most 4,096. It takes no memory.
///
/// Fails only at a fault of the sink, which then holds a prefix of the text.
pub fn digits_text<K: Sink>(
    base: Base,
    tracks: u32,
    lasso: &Lasso,
    track: u32,
    fraction: bool,
    sink: &mut K,
) -> Result<(), Failed>
    requires track { track < tracks }
    requires few { base ^ tracks ≤ 4096 }
    requires lasso { IsLasso base tracks (lasso_of lasso.now) }
    ensures text { Puts (K.held sink.old) (K.held sink.new) result (track_text base tracks track (lasso_of lasso.now) fraction) }
    ensures count { K.faults sink.old ≤ K.faults sink.new }
    ensures cause { OnErr result (IsFaultCounted (K.faults sink.old) (K.faults sink.new)) }
{
    let radix = base.radix();
    let place = Track {
        base,
        radix,
        tracks,
        track,
    };
    let mut block = Block::new();
    put_track(&mut block, sink, &place, lasso, fraction)?;
    block.flush(sink)
}

/// Puts the digits of a track, with or without those of the fraction.
fn put_track<K: Sink>(
    block: &mut Block,
    sink: &mut K,
    place: &Track,
    lasso: &Lasso,
    fraction: bool,
) -> Result<(), Failed>
    requires place { IsTrack place.now }
    requires lasso { IsLasso place.now.base place.now.tracks (lasso_of lasso.now) }
    ensures bytes { Passes (K.held sink.old) block.old (K.held sink.new) block.new result (track_text place.now.base place.now.tracks place.now.track (lasso_of lasso.now) fraction) }
    ensures count { K.faults sink.old ≤ K.faults sink.new }
    ensures cause { OnErr result (IsFaultCounted (K.faults sink.old) (K.faults sink.new)) }
{
    put_whole(block, sink, place, lasso)?;
    if fraction {
        put_fraction(block, sink, place, lasso)
    } else {
        Ok(())
    }
}

/// Puts the digit of the sign, a colon and the whole digits.
fn put_whole<K: Sink>(
    block: &mut Block,
    sink: &mut K,
    place: &Track,
    lasso: &Lasso,
) -> Result<(), Failed>
    requires place { IsTrack place.now }
    requires lasso { IsLasso place.now.base place.now.tracks (lasso_of lasso.now) }
    ensures bytes { Passes (K.held sink.old) block.old (K.held sink.new) block.new result (whole_text place.now.base place.now.tracks place.now.track (lasso_of lasso.now)) }
    ensures count { K.faults sink.old ≤ K.faults sink.new }
    ensures cause { OnErr result (IsFaultCounted (K.faults sink.old) (K.faults sink.new)) }
{
    put_sign(block, sink, place, lasso.sign)?;
    block.put(sink, b":")?;
    put_word(block, sink, place, lasso.whole.letters())
}

/// Puts a point, the digits of the stem, and those of the cycle in brackets.
fn put_fraction<K: Sink>(
    block: &mut Block,
    sink: &mut K,
    place: &Track,
    lasso: &Lasso,
) -> Result<(), Failed>
    requires place { IsTrack place.now }
    requires lasso { IsLasso place.now.base place.now.tracks (lasso_of lasso.now) }
    ensures bytes { Passes (K.held sink.old) block.old (K.held sink.new) block.new result (fraction_text place.now.base place.now.tracks place.now.track (lasso_of lasso.now)) }
    ensures count { K.faults sink.old ≤ K.faults sink.new }
    ensures cause { OnErr result (IsFaultCounted (K.faults sink.old) (K.faults sink.new)) }
{
    block.put(sink, b".")?;
    put_word(block, sink, place, lasso.stem.letters())?;
    block.put(sink, b"(")?;
    put_word(block, sink, place, lasso.cycle.letters())?;
    block.put(sink, b")")
}

/// Puts the digit of the track's sign: 0, or the highest digit where the number is negative.
fn put_sign<K: Sink>(
    block: &mut Block,
    sink: &mut K,
    place: &Track,
    sign: u32,
) -> Result<(), Failed>
    requires place { IsTrack place.now }
    requires sign { sign < 2 ^ place.now.tracks }
    ensures bytes { Passes (K.held sink.old) block.old (K.held sink.new) block.new result (sign_text place.now.base place.now.tracks place.now.track sign) }
    ensures count { K.faults sink.old ≤ K.faults sink.new }
    ensures cause { OnErr result (IsFaultCounted (K.faults sink.old) (K.faults sink.new)) }
{
    let bit = sign_digit(sign, place.tracks, place.track);
    put_digit(block, sink, bit * (place.radix - 1))
}

/// Puts the digits of the track in a word.
fn put_word<K: Sink>(
    block: &mut Block,
    sink: &mut K,
    place: &Track,
    word: &[u32],
) -> Result<(), Failed>
    requires place { IsTrack place.now }
    requires letters { All (λ l. l < place.now.base ^ place.now.tracks) word.now }
    ensures bytes { Passes (K.held sink.old) block.old (K.held sink.new) block.new result (word_text place.now.base place.now.tracks place.now.track word.now) }
    ensures count { K.faults sink.old ≤ K.faults sink.new }
    ensures cause { OnErr result (IsFaultCounted (K.faults sink.old) (K.faults sink.new)) }
{
    for letter in word {
        put_letter(block, sink, place, *letter)?;
    }
    Ok(())
}

/// Puts the digit of the track in a letter.
fn put_letter<K: Sink>(
    block: &mut Block,
    sink: &mut K,
    place: &Track,
    letter: u32,
) -> Result<(), Failed>
    requires place { IsTrack place.now }
    requires letter { letter < place.now.base ^ place.now.tracks }
    ensures bytes { Passes (K.held sink.old) block.old (K.held sink.new) block.new result (letter_text place.now.base place.now.tracks place.now.track letter) }
    ensures count { K.faults sink.old ≤ K.faults sink.new }
    ensures cause { OnErr result (IsFaultCounted (K.faults sink.old) (K.faults sink.new)) }
{
    put_digit(
        block,
        sink,
        letter_digit(place.base, place.tracks, letter, place.track),
    )
}

/// Puts a digit below 16.
fn put_digit<K: Sink>(block: &mut Block, sink: &mut K, digit: u32) -> Result<(), Failed>
    requires { digit < 16 }
    ensures bytes { Passes (K.held sink.old) block.old (K.held sink.new) block.new result (digit_code digit ∷ []) }
    ensures count { K.faults sink.old ≤ K.faults sink.new }
    ensures cause { OnErr result (IsFaultCounted (K.faults sink.old) (K.faults sink.new)) }
{
    let first = if digit < 10 { b'0' } else { b'a' - 10 };
    block.put(sink, &[first + digit as u8])
}
