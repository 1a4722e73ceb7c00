use mpc_frac::{Frac, FracError, NoMemory, Wide};
use std::alloc::Global;
use std::cmp::Ordering;
use std::process::Abort;
use std::test::Fail;

const LARGEST: i128 = i128::MAX;

/// The text of a fraction, which differs where the fraction does.
fn text(alloc: Global, fraction: &Frac) -> Result<Vec<u8>, NoMemory> {
    let mut out = Vec::new(alloc);
    fraction.write(&mut out)?;
    Ok(out)
}

fn made(rt: &impl Abort, num: i128, den: i128) -> Frac {
    match Frac::new(num, den) {
        Ok(fraction) => fraction,
        Err(_) => panic!(rt; "{num}/{den} is refused"),
    }
}

fn found(rt: &impl Abort, computed: Result<Frac, Wide>) -> Frac {
    match computed {
        Ok(fraction) => fraction,
        Err(Wide) => panic!(rt; "an operation is wide"),
    }
}

#[test]
fn makes_fractions(rt: HostRuntime) -> Result<(), Fail> {
    let rows = [
        (2, -4, -1, 2),
        (i128::MIN, 2, -(1i128 << 126), 1),
        (0, -7, 0, 1),
        (6, 3, 2, 1),
        (LARGEST, LARGEST, 1, 1),
    ];
    for (num, den, reduced_num, reduced_den) in rows {
        let fraction = made(&rt, num, den);
        assert_eq!(rt; fraction.num(), reduced_num);
        assert_eq!(rt; fraction.den(), reduced_den);
    }
    assert!(rt; matches!(Frac::new(1, 0), Err(FracError::ZeroDenominator)));
    assert!(rt; matches!(Frac::new(i128::MIN, 1), Err(FracError::Wide)));
    assert!(rt; matches!(Frac::new(1, i128::MIN), Err(FracError::Wide)));
    Ok(())
}

/// Whether an operation gave the fraction of this text.
fn is_text(
    rt: &impl Abort,
    alloc: Global,
    computed: Result<Frac, Wide>,
    wanted: &[u8],
) -> Result<bool, NoMemory> {
    let fraction = found(rt, computed);
    let written = text(alloc, &fraction)?;
    Ok(written.as_slice() == wanted)
}

#[test]
fn computes(rt: HostRuntime) -> Result<(), Fail> {
    let (half, third) = (made(&rt, 1, 2), made(&rt, 1, 3));
    let (largest, least) = (made(&rt, LARGEST, 1), made(&rt, 1, LARGEST));
    assert!(rt; !third.is_zero());
    for (computed, wanted) in [
        (half.add(&third), b"5/6".as_slice()),
        (third.sub(&half), b"-1/6"),
        (half.mul(&third.neg()), b"-1/6"),
        (largest.mul(&least), b"1"),
        (half.div(&third), b"3/2"),
    ] {
        assert!(rt; is_text(&rt, rt.alloc(), computed, wanted)?);
    }
    for computed in [
        largest.add(&Frac::whole(1)),
        least.add(&half),
        largest.mul(&largest),
    ] {
        assert!(rt; computed.is_err());
    }
    Ok(())
}

#[test]
fn compares(rt: HostRuntime) {
    let largest = made(&rt, LARGEST, LARGEST - 1);
    let next = made(&rt, LARGEST - 1, LARGEST - 2);
    let (zero, low) = (Frac::whole(0), Frac::whole(-3));
    for (left, right, order) in [
        (largest, next, Ordering::Less),
        (largest.neg(), next, Ordering::Less),
        (next, Frac::whole(1), Ordering::Greater),
        (low, made(&rt, -6, 2), Ordering::Equal),
    ] {
        assert_eq!(rt; left.cmp(&right), order);
    }
    for (fraction, sign) in [(low, -1), (zero, 0), (next, 1)] {
        assert_eq!(rt; fraction.sign(), sign);
    }
    assert!(rt; zero.is_zero());
    assert!(rt; Frac::whole(7).is_whole() && !next.is_whole());
}
