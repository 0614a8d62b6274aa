use super::*;
use std::test::Fail;

// The digits of 905 over three tracks in base 10, the word of one letter, and the ends of the range of bases.
#[test]
fn codes(rt: HostRuntime) -> Result<(), Fail> {
    assert!(rt; Base::new(1).is_none());
    assert!(rt; Base::new(17).is_none());
    let ten = Base::new(10).ok_or("10 is a base")?;
    assert_eq!(rt; ten.radix(), 10);
    assert_eq!(rt; letter_digit(ten, 3, 905, 0), 9);
    assert_eq!(rt; letter_digit(ten, 3, 905, 1), 0);
    assert_eq!(rt; letter_digit(ten, 3, 905, 2), 5);
    let mut word = Word::empty(rt.alloc());
    assert!(rt; word.push(3).is_ok());
    assert_eq!(rt; word.letters(), [3].as_slice());
    Ok(())
}
