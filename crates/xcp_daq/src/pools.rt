//! Flat pools, cut into parts by counts.
ghost use Rattle.std.specs.Prelude.{◌≡◌, ◌≤◌, ◌<◌, ◌+◌, ◌-◌, ◌^◌, None, IfOk, length, take, drop, ◌++◌, replicate, slice_index, vec_len, vec_capacity};
ghost use Rattle.xcp_daq.specs.private.SplicedPools.{spliced, total};

use crate::Element;
use std::alloc::{AllocError, Global};

/// Puts an element in at a place, n times. What stands behind is shifted once.
pub(crate) fn put_in<T: Copy + Drop>(pool: &mut Vec<T>, at: usize, n: usize, x: T)
    requires place { at ≤ vec_len pool.old }
    requires room { vec_len pool.old + n ≤ vec_capacity pool.old }
    ensures items { pool.new.items ≡ spliced pool.old.items at (replicate n x) }
    ensures len { vec_len pool.new ≡ vec_len pool.old + n }
    ensures capacity { vec_capacity pool.new ≡ vec_capacity pool.old }
{
    put_behind(pool, n, x);
    turn(pool, at, n);
}

/// Puts an element behind the others, n times.
fn put_behind<T: Copy + Drop>(pool: &mut Vec<T>, n: usize, x: T)
    requires { vec_len pool.old + n ≤ vec_capacity pool.old }
    ensures items { pool.new.items ≡ pool.old.items ++ replicate n x }
    ensures capacity { vec_capacity pool.new ≡ vec_capacity pool.old }
{
    for _ in 0..n {
        pool.push_reserved(x);
    }
}

/// Brings the last n elements to a place.
fn turn<T: Copy + Drop>(pool: &mut [T], at: usize, n: usize)
    requires { at + n ≤ length pool.old }
    ensures { pool.new ≡ take at pool.old ++ (drop (length pool.old - at - n) (drop at pool.old) ++ take (length pool.old - at - n) (drop at pool.old)) }
{
    pool[at..].rotate_right(n);
}

/// The sum of the first counts.
#[tactic(auto, using(crate::proofs::PoolPartLemmas::sums))]
pub(crate) fn sum_before(counts: &[u16], i: usize) -> usize
    requires bound { total counts.now < 2 ^ 32 }
    requires place { i ≤ length counts.now }
    ensures value { result ≡ total (take i counts.now) }
    ensures bound { result ≤ total counts.now }
{
    let mut sum = 0;
    for k in 0..i {
        sum += counts[k] as usize;
    }
    sum
}

/// The place behind part i.
#[tactic(auto, using(crate::proofs::PoolPartLemmas::sums))]
pub(crate) fn end_of(counts: &[u16], i: usize) -> usize
    requires bound { total counts.now < 2 ^ 32 }
    requires place { i < length counts.now }
    ensures value { result ≡ total (take i counts.now) + slice_index counts.now i }
    ensures bound { result ≤ total counts.now }
    ensures count { slice_index counts.now i ≤ total counts.now }
{
    sum_before(counts, i) + counts[i] as usize
}

/// The place of element j of part i.
#[tactic(auto, using(crate::proofs::PoolPartLemmas::sums))]
pub(crate) fn place_of(counts: &[u16], i: usize, j: usize) -> usize
    requires bound { total counts.now < 2 ^ 32 }
    requires part { i < length counts.now }
    requires place { j < slice_index counts.now i }
    ensures value { result ≡ total (take i counts.now) + j }
    ensures inside { result < total counts.now }
{
    let _count = counts[i];
    sum_before(counts, i) + j
}

/// Makes the elements from one place to another unwritten.
pub(crate) fn blank(pool: &mut [Option<Element>], from: usize, to: usize)
    requires order { from ≤ to }
    requires inside { to ≤ length pool.old }
    ensures { pool.new ≡ take from pool.old ++ replicate (to - from) None ++ drop to pool.old }
{
    pool[from..to].fill(None);
}

/// The n elements from a place on.
pub(crate) fn cut<T: Copy>(xs: &[T], at: usize, n: usize) -> &[T]
    requires { at + n ≤ length xs.now }
    ensures { result.now ≡ take n (drop at xs.now) }
{
    &xs[at..at + n]
}

/// The elements from a place on.
pub(crate) fn rest<T: Copy>(xs: &[T], at: usize) -> &[T]
    requires { at ≤ length xs.now }
    ensures { result.now ≡ drop at xs.now }
{
    &xs[at..]
}

/// Equal elements, in a pool with room for so many.
pub(crate) fn copied<T: Copy + Drop>(
    alloc: Global,
    pool: &[T],
    room: usize,
) -> Result<Vec<T>, AllocError>
    ensures items { IfOk result (λ copy. copy.items ≡ pool.now) }
    ensures room { IfOk result (λ copy. room ≤ vec_capacity copy) }
{
    let mut copy = Vec::with_capacity(alloc, room)?;
    copy.extend_from_slice(pool)?;
    Ok(copy)
}
