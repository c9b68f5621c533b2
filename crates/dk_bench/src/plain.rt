// A plain loop of comparisons, which other times are printed beside.
use crate::noise::Noise;
use std::io;
use std::time::{Clock, Duration, Instant};

// How many pairs there are, how often they are gone over in a round, and how many rounds there are; the shortest counts.
const PAIRS: u8 = 200;

const TURNS: u32 = 128;

const ROUNDS: usize = 60;

// Whether the first of two numbers is at most the second, of all pairs, so often.
#[inline(never)]
fn plain(a: &[i64; 16], b: &[i64; 16], pairs: &[[u8; 2]]) -> u64 {
    let mut found = 0u64;
    let mut noise = Noise::new();
    for _ in 0..TURNS {
        let numbers = if noise.below(2) == 0 { a } else { b };
        let ascend = pairs.iter().all(|[v, w]| numbers[*v as usize % 16]
            <= numbers[*w as usize % 16]);
        found = found.wrapping_add(ascend as u64);
    }
    found
}

// The time of the shortest round. All rounds find the same, so that none of the work is left out.
fn shortest(clock: &impl Clock, pairs: &[[u8; 2]]) -> io::Result<Duration> {
    let a = [0, 1, 2, 3, 4, 5, 6, 7, 8, 9, 10, 11, 12, 13, 14, 15];
    let b = [1, 3, 4, 5, 6, 7, 8, 9, 10, 11, 12, 13, 14, 15, 16, 17];
    let expected = plain(&a, &b, pairs);
    let mut best = Duration::MAX;
    for _ in 0..ROUNDS {
        let start = Instant::now(clock)?;
        let found = plain(&a, &b, pairs);
        let time = start.elapsed(clock)?;
        if found == expected {
            best = best.min(time);
        }
    }
    Ok(best)
}

/// The nanoseconds for each pair of the plain loop.
pub fn plain_nanos(rt: &(impl Clock + AllocGlobal)) -> io::Result<f64> {
    let mut pairs = Vec::new(rt.alloc());
    for n in 0..PAIRS {
        pairs.push([n % 10, (n % 10).max(n / 10 % 10)])?;
    }
    let seconds = shortest(rt, &pairs)?.as_secs_f64();
    Ok(seconds * 1e9 / (f64::from(PAIRS) * f64::from(TURNS)))
}
