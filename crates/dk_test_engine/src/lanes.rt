// The scans beside plain loops, at each length from 0 to 40 and with both ends of 64 bits.
use dk_lanes::*;
use std::alloc::{AllocError, Global};
use std::test::Fail;

const RELATIONS: [Rel; 5] = [Rel::Eq, Rel::Lt, Rel::Le, Rel::Gt, Rel::Ge];

const LENGTHS: usize = 41;

fn holds(rel: Rel, x: i64, y: i64) -> bool {
    match rel {
        Rel::Eq => x == y,
        Rel::Lt => x < y,
        Rel::Le => x <= y,
        Rel::Gt => x > y,
        Rel::Ge => x >= y,
    }
}

fn plain_all(rel: Rel, s: &[i64], k: i64) -> bool {
    for x in s {
        if !holds(rel, *x, k) {
            return false;
        }
    }
    true
}

fn plain_sorted(rel: Rel, s: &[i64]) -> bool {
    for i in 1..s.len() {
        if !holds(rel, s[i - 1], s[i]) {
            return false;
        }
    }
    true
}

fn plain_pairwise(rel: Rel, s: &[i64], t: &[i64]) -> bool {
    if s.len() != t.len() {
        return false;
    }
    for i in 0..s.len() {
        if i < t.len() && !holds(rel, s[i], t[i]) {
            return false;
        }
    }
    true
}

// n numbers from the first on.
fn rising_numbers(alloc: Global, first: i64, n: usize) -> Result<Vec<i64>, AllocError> {
    let mut numbers = Vec::new(alloc);
    let mut next = first;
    for _ in 0..n {
        numbers.push(next)?;
        next = next.wrapping_add(1);
    }
    Ok(numbers)
}

// n numbers that are the greatest, but for the least at one place.
fn one_least(alloc: Global, place: usize, n: usize) -> Result<Vec<i64>, AllocError> {
    let mut numbers = Vec::new(alloc);
    for i in 0..n {
        numbers.push(if i == place { i64::MIN } else { i64::MAX })?;
    }
    Ok(numbers)
}

#[test]
fn sorts_rising_numbers(rt: HostRuntime) -> Result<(), Fail> {
    for n in 0..LENGTHS {
        let mut s = rising_numbers(rt.alloc(), 1, n)?;
        let t = rising_numbers(rt.alloc(), 4, n)?;
        assert!(rt; sorted(Rel::Lt, &s) && sorted(Rel::Le, &s));
        let shift = if n == 0 {
            Shift::Empty
        } else {
            Shift::Const(3)
        };
        assert!(rt; offset(&s, &t) == shift);
        if s.pop().is_some() {
            s.push(0)?;
        }
        assert!(rt; sorted(Rel::Lt, &s) == (n < 2));
    }
    Ok(())
}

#[test]
fn sees_each_place(rt: HostRuntime) -> Result<(), Fail> {
    for n in 0..LENGTHS {
        let t = one_least(rt.alloc(), n, n)?;
        for place in 0..n + 1 {
            let s = one_least(rt.alloc(), place, n)?;
            for rel in RELATIONS {
                assert!(rt; all(rel, &s, i64::MAX) == plain_all(rel, &s, i64::MAX));
                assert!(rt; sorted(rel, &s) == plain_sorted(rel, &s));
                assert!(rt; pairwise(rel, &s, &t) == plain_pairwise(rel, &s, &t));
            }
            assert!(rt; member(&s, i64::MIN) == (place < n));
            let least = if place < n { i64::MIN } else { i64::MAX };
            let greatest = if n == 1 { least } else { i64::MAX };
            assert!(rt;
                bounds(&s)
                    == if n == 0 {
                        None
                    } else {
                        Some((least, greatest))
                    }
            );
            assert!(rt; place == n || offset(&s, &t) == Shift::Unequal || n == 1);
        }
    }
    Ok(())
}

#[test]
fn takes_both_ends(rt: HostRuntime) {
    assert!(rt; bounds(&[i64::MAX, i64::MIN]) == Some((i64::MIN, i64::MAX)));
    assert!(rt; bounds(&[]) == None);
    assert!(rt; !pairwise(Rel::Le, &[1, 2], &[1]) && !member(&[], 0));
    assert!(rt; offset(&[0, i64::MIN], &[-1, i64::MAX]) == Shift::Unequal);
    assert!(rt; offset(&[i64::MIN], &[i64::MAX]) == Shift::Const((1 << 64) - 1));
    assert!(rt; offset(&[1], &[]) == Shift::Unequal && offset(&[], &[]) == Shift::Empty);
}
