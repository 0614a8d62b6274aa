ghost use Rattle.std.specs.Prelude.{◌≡◌, ◌^◌, ◌≤◌, ◌<◌, length, All};
ghost use Rattle.digit_codes.specs.Reading.{lasso_of};
ghost use Rattle.lash_model.specs.Lassos.{IsLasso};
ghost use Rattle.fraction_codes.specs.Fractions.{IsSmall};

use super::*;
use digit_codes::{Base, Lasso};
use lash_io::MemSink;
use std::alloc::Global;
use std::process::Abort;
use std::test::Fail;

/// What a lasso is to be.
#[derive(Drop)]
struct Row<'a> {
    sign: u32,
    whole: &'a [u32],
    stem: &'a [u32],
    cycle: &'a [u32],
}

fn is_row(rt: &impl Abort, lasso: &Lasso, row: &Row<'_>) {
    assert_eq!(rt; lasso.sign, row.sign);
    assert_eq!(rt; lasso.whole.letters(), row.whole);
    assert_eq!(rt; lasso.stem.letters(), row.stem);
    assert_eq!(rt; lasso.cycle.letters(), row.cycle);
}

fn check_code(
    rt: &impl Abort,
    alloc: Global,
    base: Base,
    values: &[Ratio],
    row: &Row<'_>,
) -> Result<(), Fail>
    requires few { base ^ length values.now ≤ 4096 }
    requires small { All IsSmall values.now }
{
    let lasso = encode(alloc, base, values)?;
    is_row(rt, &lasso, row);
    Ok(())
}

// A third in base 10.
fn check_third(rt: &impl Abort, alloc: Global, base: Base) -> Result<(), Fail>
    requires { base ≡ 10 }
{
    let values = [Ratio { num: 1, den: 3 }];
    let row = Row {
        sign: 0,
        whole: &[],
        stem: &[],
        cycle: &[3],
    };
    check_code(rt, alloc, base, &values, &row)
}

// Minus five quarters in base 2.
fn check_quarters(rt: &impl Abort, alloc: Global, base: Base) -> Result<(), Fail>
    requires { base ≡ 2 }
{
    let values = [Ratio { num: -5, den: 4 }];
    let row = Row {
        sign: 1,
        whole: &[0],
        stem: &[1, 1],
        cycle: &[0],
    };
    check_code(rt, alloc, base, &values, &row)
}

// Two quarters, minus seven sixths and five in base 3.
fn check_three(rt: &impl Abort, alloc: Global, base: Base) -> Result<(), Fail>
    requires { base ≡ 3 }
{
    let values = [
        Ratio { num: 2, den: 4 },
        Ratio { num: -7, den: 6 },
        Ratio { num: 5, den: 1 },
    ];
    let row = Row {
        sign: 2,
        whole: &[7, 5],
        stem: &[15],
        cycle: &[12],
    };
    check_code(rt, alloc, base, &values, &row)
}

// The first denominator that is too great.
fn check_fine(rt: &impl Abort, alloc: Global, base: Base) -> Result<(), Fail>
    requires { base ≡ 10 }
{
    let values = [Ratio {
        num: 1,
        den: 65_537,
    }];
    let code = encode(alloc, base, &values);
    assert!(rt; matches!(&code, Err(CodeError::Denominator)));
    Ok(())
}

fn check_value(rt: &impl Abort, lasso: &Lasso, base: Base)
    requires base { base ≡ 10 }
    requires lasso { IsLasso base 2 (lasso_of lasso.now) }
{
    let first = Ratio { num: -1, den: 12 };
    assert_eq!(rt; value(lasso, base, 2, 0), Some(first));
    let second = Ratio { num: -10, den: 1 };
    assert_eq!(rt; value(lasso, base, 2, 1), Some(second));
}

fn check_text(rt: &impl Abort, alloc: Global, lasso: &Lasso, base: Base) -> Result<(), Fail>
    requires base { base ≡ 10 }
    requires lasso { IsLasso base 2 (lasso_of lasso.now) }
{
    let mut sink = MemSink::new(alloc, 20, Vec::new(alloc))?;
    digits_text(base, 2, lasso, 0, true, &mut sink)?;
    digits_text(base, 2, lasso, 1, false, &mut sink)?;
    assert_eq!(rt; sink.bytes(), b"9:9.91(6)9:0".as_slice());
    Ok(())
}

// Minus a twelfth and minus ten, read back and as text.
fn check_back(rt: &impl Abort, alloc: Global, base: Base) -> Result<(), Fail>
    requires { base ≡ 10 }
{
    let values = [Ratio { num: -1, den: 12 }, Ratio { num: -10, den: 1 }];
    let lasso = encode(alloc, base, &values)?;
    check_value(rt, &lasso, base);
    check_text(rt, alloc, &lasso, base)
}

#[test]
fn codes(rt: HostRuntime) -> Result<(), Fail> {
    let alloc = rt.alloc();
    check_third(&rt, alloc, Base::new(10).ok_or("10 is a base")?)?;
    check_quarters(&rt, alloc, Base::new(2).ok_or("2 is a base")?)?;
    check_three(&rt, alloc, Base::new(3).ok_or("3 is a base")?)
}

#[test]
fn too_fine(rt: HostRuntime) -> Result<(), Fail> {
    check_fine(&rt, rt.alloc(), Base::new(10).ok_or("10 is a base")?)
}

#[test]
fn read_back(rt: HostRuntime) -> Result<(), Fail> {
    check_back(&rt, rt.alloc(), Base::new(10).ok_or("10 is a base")?)
}
