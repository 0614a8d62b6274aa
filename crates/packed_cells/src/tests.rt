//! Zeros in cells of 32 and of 3 bits, the last of five cells of 13 bits, which lies across two words, changed, and lists in the least
//! cells.

ghost use Rattle.std.specs.Prelude.{◌≤◌, ◌*◌, ◌^◌};

use super::*;
use std::alloc::Global;
use std::process::Abort;
use std::test::Fail;

#[test]
fn zeros_and_a_cell_across_two_words(rt: HostRuntime) -> Result<(), Fail> {
    let alloc = rt.alloc();
    let plain = Plain::new(alloc, 5)?;
    assert_eq!(rt; (plain.len(), plain.bound()), (5, 1 << 32));
    are_zeros(&rt, &plain);
    are_zeros(&rt, &Plain::copied(alloc, &[0, 0])?);
    packed_zeros(&rt, alloc, 5, 1)?;
    packed_zeros(&rt, alloc, 22, 2)?;
    last_of_five(&rt, alloc)?;
    least_cells(&rt, alloc)
}

fn are_zeros<C: Cells>(rt: &impl Abort, cells: &C) {
    for at in 0..cells.len() {
        assert_eq!(rt; cells.get(at), 0);
    }
}

// So many zeros of 3 bits take so many words.
fn packed_zeros(rt: &impl Abort, alloc: Global, len: usize, words: usize) -> Result<(), Fail>
    requires { len ≤ 100 }
{
    let packed = Packed::new(alloc, len, 3)?;
    assert_eq!(rt;
        (packed.len(), packed.bound(), packed.word_count()),
        (len, 8, words)
    );
    assert!(rt; packed.lent().is_none());
    are_zeros(rt, &packed);
    Ok(())
}

fn last_of_five(rt: &impl Abort, alloc: Global) -> Result<(), Fail> {
    let mut packed = Packed::new(alloc, 5, 13)?;
    packed.set(4, 8191);
    assert_eq!(rt; packed.word_count(), 2);
    for at in 0..4 {
        assert_eq!(rt; packed.get(at), 0);
    }
    assert_eq!(rt; packed.get(4), 8191);
    packed.set(3, 5);
    packed.set(4, 4097);
    assert_eq!(rt; (packed.get(3), packed.get(4)), (5, 4097));
    Ok(())
}

// The largest number 7 takes 3 bits, and zeros take 1.
fn least_cells(rt: &impl Abort, alloc: Global) -> Result<(), Fail> {
    let packed = Packed::of_cells(alloc, &Plain::copied(alloc, &[0, 7, 2])?)?;
    assert_eq!(rt; (packed.len(), packed.bound()), (3, 8));
    assert_eq!(rt; (packed.get(0), packed.get(1), packed.get(2)), (0, 7, 2));
    assert_eq!(rt; Packed::of_cells(alloc, &packed)?.bound(), 8);
    assert_eq!(rt; Packed::of_cells(alloc, &Plain::new(alloc, 2)?)?.bound(), 2);
    Ok(())
}
