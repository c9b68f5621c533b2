// Scans for one relation: a block at a step, and then number by number for what is left.
ghost use Rattle.std.specs.Prelude.{◌≡◌, length, replicate, zip};
ghost use Rattle.std.specs.List.{list_all, list_any};
ghost use Rattle.std.specs.Ordering.{int_eq};
ghost use Rattle.dk_lanes.specs.Lanes.{all_relate, is_member, is_pairwise, is_sorted, partners_relate};

use crate::blocks::{BLOCK, block_has};
use crate::relation::{AtMost, Below, Equal, Flipped, Rel, Relation};

#[inline(always)]
fn blocks_hold<R: Relation>(blocks: &[[i64; BLOCK]], k: i64) -> bool
    ensures { result ≡ list_all (λ block. list_all (λ p. R.related p.0 p.1) (zip block (replicate BLOCK k))) blocks.now }
{
    let ks = [k; BLOCK];
    blocks.iter().all(|block| R::block_holds(block, &ks))
}

#[inline(always)]
fn rest_holds<R: Relation>(rest: &[i64], k: i64) -> bool
    ensures { result ≡ list_all (λ x. R.related x k) rest.now }
{
    rest.iter().all(|x| R::holds(*x, k))
}

// Whether the relation holds of each number and k.
#[inline(always)]
fn all_hold<R: Relation>(s: &[i64], k: i64) -> bool
    ensures { result ≡ list_all (λ x. R.related x k) s.now }
{
    if s.len() < BLOCK {
        return rest_holds::<R>(s, k);
    }
    let (blocks, rest) = s.as_chunks::<BLOCK>();
    blocks_hold::<R>(blocks, k) && rest_holds::<R>(rest, k)
}

/// Whether each element is in the relation with `k`.
pub fn all(rel: Rel, s: &[i64], k: i64) -> bool
    ensures { result ≡ all_relate rel s.now k }
{
    match rel {
        Rel::Eq => all_hold::<Equal>(s, k),
        Rel::Lt => all_hold::<Below>(s, k),
        Rel::Le => all_hold::<AtMost>(s, k),
        Rel::Gt => all_hold::<Flipped<Below>>(s, k),
        Rel::Ge => all_hold::<Flipped<AtMost>>(s, k),
    }
}

// Two blocks with one branch.
#[inline(always)]
fn two_hold<R: Relation>(left: &[[i64; BLOCK]; 2], right: &[[i64; BLOCK]; 2]) -> bool
    ensures { result ≡ list_all (λ b. list_all (λ p. R.related p.0 p.1) (zip b.0 b.1)) (zip left.now right.now) }
{
    let [a, b] = left;
    let [c, d] = right;
    R::block_holds(a, c) & R::block_holds(b, d)
}

#[inline(always)]
fn twos_hold<R: Relation>(twos: &[[[i64; BLOCK]; 2]], others: &[[[i64; BLOCK]; 2]]) -> bool
    ensures { result ≡ list_all (λ w. list_all (λ b. list_all (λ p. R.related p.0 p.1) (zip b.0 b.1)) (zip w.0 w.1)) (zip twos.now others.now) }
{
    twos.iter()
        .zip(others)
        .all(|(left, right)| two_hold::<R>(left, right))
}

#[inline(always)]
fn last_holds<R: Relation>(last: &[[i64; BLOCK]], other: &[[i64; BLOCK]]) -> bool
    ensures { result ≡ list_all (λ b. list_all (λ p. R.related p.0 p.1) (zip b.0 b.1)) (zip last.now other.now) }
{
    last.iter()
        .zip(other)
        .all(|(left, right)| R::block_holds(left, right))
}

#[inline(always)]
fn partner_blocks_hold<R: Relation>(blocks: &[[i64; BLOCK]], others: &[[i64; BLOCK]]) -> bool
    requires { length blocks.now ≡ length others.now }
    ensures { result ≡ list_all (λ b. list_all (λ p. R.related p.0 p.1) (zip b.0 b.1)) (zip blocks.now others.now) }
{
    let (twos, last) = blocks.as_chunks::<2>();
    let (other_twos, other_last) = others.as_chunks::<2>();
    twos_hold::<R>(twos, other_twos) && last_holds::<R>(last, other_last)
}

#[inline(always)]
fn partner_rest_holds<R: Relation>(rest: &[i64], other: &[i64]) -> bool
    ensures { result ≡ list_all (λ p. R.related p.0 p.1) (zip rest.now other.now) }
{
    rest.iter().zip(other).all(|(x, y)| R::holds(*x, *y))
}

// Whether the relation holds of each number and its partner.
#[inline(always)]
fn partners_hold<R: Relation>(s: &[i64], t: &[i64]) -> bool
    requires { length s.now ≡ length t.now }
    ensures { result ≡ list_all (λ p. R.related p.0 p.1) (zip s.now t.now) }
{
    if s.len() < BLOCK {
        return partner_rest_holds::<R>(s, t);
    }
    let (blocks, rest) = s.as_chunks::<BLOCK>();
    let (others, other) = t.as_chunks::<BLOCK>();
    partner_blocks_hold::<R>(blocks, others) && partner_rest_holds::<R>(rest, other)
}

// Whether each number is in the relation with its partner.
#[inline(always)]
fn partners(rel: Rel, s: &[i64], t: &[i64]) -> bool
    requires { length s.now ≡ length t.now }
    ensures { result ≡ partners_relate rel s.now t.now }
{
    match rel {
        Rel::Eq => partners_hold::<Equal>(s, t),
        Rel::Lt => partners_hold::<Below>(s, t),
        Rel::Le => partners_hold::<AtMost>(s, t),
        Rel::Gt => partners_hold::<Flipped<Below>>(s, t),
        Rel::Ge => partners_hold::<Flipped<AtMost>>(s, t),
    }
}

/// Whether the sequences are of one length, and each element of `s` is in the relation with the element of `t` at its place.
pub fn pairwise(rel: Rel, s: &[i64], t: &[i64]) -> bool
    ensures { result ≡ is_pairwise rel s.now t.now }
{
    s.len() == t.len() && partners(rel, s, t)
}

/// Whether each element but the last is in the relation with the next.
pub fn sorted(rel: Rel, s: &[i64]) -> bool
    ensures { result ≡ is_sorted rel s.now }
{
    match s {
        [] => true,
        [_, rest @ ..] => partners(rel, &s[..rest.len()], rest),
    }
}

#[inline(always)]
fn blocks_have(blocks: &[[i64; BLOCK]], k: i64) -> bool
    ensures { result ≡ list_any (λ block. is_member block k) blocks.now }
{
    blocks.iter().any(|block| block_has(block, k))
}

#[inline(always)]
fn rest_has(rest: &[i64], k: i64) -> bool
    ensures { result ≡ is_member rest.now k }
{
    rest.iter().any(|x| *x == k)
}

/// Whether `k` is an element.
pub fn member(s: &[i64], k: i64) -> bool
    ensures { result ≡ is_member s.now k }
{
    if s.len() < BLOCK {
        return rest_has(s, k);
    }
    let (blocks, rest) = s.as_chunks::<BLOCK>();
    blocks_have(blocks, k) || rest_has(rest, k)
}
