//! Numbers as decimal text. The digits are those of the crate `itoa`, made in a fixed buffer, so
//! that no memory is taken.
ghost use Rattle.std.specs.Prelude.{◌≤◌, OnErr};
ghost use Rattle.std.specs.Fmt.{signed_decimal};
ghost use Rattle.lash_io.specs.Faults.{IsFaultCounted};
ghost use Rattle.lash_io.specs.Sinks.{Puts};

use crate::ends::{Failed, Sink};
use itoa::Buffer;

/// Puts the decimal text of `number`, with a leading `-` where it is negative and no leading zero,
/// in one call. Takes no memory.
///
/// Fails only at a fault of the sink, which then holds a prefix of the text.
pub fn put_number<K: Sink>(sink: &mut K, number: i128) -> Result<(), Failed>
    ensures bytes { Puts (K.held sink.old) (K.held sink.new) result (signed_decimal number) }
    ensures count { K.faults sink.old ≤ K.faults sink.new }
    ensures cause { OnErr result (IsFaultCounted (K.faults sink.old) (K.faults sink.new)) }
{
    let mut buffer = Buffer::new();
    sink.put(buffer.format(number).as_bytes())
}
