//! Min-plus products of square tiles of weights, in lanes and by the plain loop.
//!
//! A tile is a slice of `side` rows of `side` weights, one row after the other. A weight is the length of a walk, at least
//! 0, or `NONE`. Nothing here takes memory or refuses a call.
#![tactic(auto)]

ghost use Rattle.std.specs.Prelude.{◌≡◌, ◌<◌, ◌≤◌, ◌≤ℤ◌, ◌+◌, ◌*◌, ℕ, pos, length};
ghost use Rattle.lane_kernels.specs.MinPlus.{AllWeights, IsNonNegative, IsWeight, CellWeights, ColumnsOver, RowUpdated, cell, closed, min_plus_of, plus};

use std::simd::prelude::*;

#[cfg(test)]
mod tests;

/// Stands for no walk: greater than each walk's weight.
pub const NONE: i64 = i64::MAX;

// Added to one operand of each sum and to the running least, so that a sum of two weights never overflows.
const TOP: i64 = i64::MIN;

/// The weight of two walks, one after the other: the lesser of `x + y` and `NONE`, so `NONE` where either is.
pub fn plus(x: i64, y: i64) -> i64
    requires first { pos 0 ≤ℤ x }
    requires second { pos 0 ≤ℤ y }
    ensures { result ≡ plus x y }
{
    x.saturating_add(y)
}

/// Sets each `out[i][j]` to the least of its old value and of all `plus(a[i][k], b[k][j])`, in lanes. All three are tiles.
pub fn min_plus(out: &mut [i64], a: &[i64], b: &[i64], side: usize)
    requires from_one { 1 ≤ side }
    requires to_32 { side ≤ 32 }
    requires square { length out.old ≡ side * side }
    requires left { length a.now ≡ side * side }
    requires right { length b.now ≡ side * side }
    requires old { IsNonNegative out.old }
    requires first { IsNonNegative a.now }
    requires second { IsNonNegative b.now }
    ensures { out.new ≡ min_plus_of side out.old a.now b.now }
{
    bounded(out);
    bounded(a);
    bounded(b);
    for i in 0..side {
        lane_row(out, a, b, side, i);
    }
}

/// What `min_plus` does, one weight after the other.
pub fn min_plus_plain(out: &mut [i64], a: &[i64], b: &[i64], side: usize)
    requires from_one { 1 ≤ side }
    requires to_32 { side ≤ 32 }
    requires square { length out.old ≡ side * side }
    requires left { length a.now ≡ side * side }
    requires right { length b.now ≡ side * side }
    requires old { IsNonNegative out.old }
    requires first { IsNonNegative a.now }
    requires second { IsNonNegative b.now }
    ensures { out.new ≡ min_plus_of side out.old a.now b.now }
{
    bounded(out);
    bounded(a);
    bounded(b);
    for i in 0..side {
        plain_row(out, a, b, side, i, 0);
    }
}

/// Floyd-Warshall inside one tile, with its own vertices in order: where `out[i][j]` are the weights of edges, these become
/// the least weights of walks from i to j.
pub fn close_tile(out: &mut [i64], side: usize)
    requires from_one { 1 ≤ side }
    requires to_32 { side ≤ 32 }
    requires square { length out.old ≡ side * side }
    requires old { IsNonNegative out.old }
    ensures { out.new ≡ closed side out.old }
{
    bounded(out);
    for k in 0..side {
        over_vertex(out, side, k);
    }
}

// All ways over k: vectors while they fit, and single lanes for the rest.
fn over_vertex(out: &mut [i64], side: usize, k: usize)
    requires square { length out.old ≡ side * side }
    requires small { side ≤ 32 }
    requires vertex { k < side }
    requires old { CellWeights out.old side }
    ensures { ColumnsOver out.old out.new side k 0 side }
{
    let mut j = 0;
    while side - j >= 16 {
        over_strip::<16>(out, side, k, j);
        j += 16;
    }
    while side - j >= 4 {
        over_strip::<4>(out, side, k, j);
        j += 4;
    }
    while side - j >= 1 {
        over_strip::<1>(out, side, k, j);
        j += 1;
    }
}

// The ways over k in lanes j to j + N of every row. Row k does not change, so it is loaded once.
fn over_strip<const N: usize>(out: &mut [i64], side: usize, k: usize, j: usize)
    requires square { length out.old ≡ side * side }
    requires small { side ≤ 32 }
    requires vertex { k < side }
    requires room { j + N ≤ side }
    requires old { CellWeights out.old side }
    ensures { ColumnsOver out.old out.new side k j (j + N) }
{
    let top = Simd::<i64, N>::splat(TOP);
    let onward = Simd::<i64, N>::from_slice(&out[k * side + j..]);
    for i in 0..side {
        let way = Simd::<i64, N>::splat(out[i * side + k].wrapping_add(TOP));
        let lanes = Simd::<i64, N>::from_slice(&out[i * side + j..]) + top;
        let least = (way + onward).simd_min(lanes);
        (least + top).copy_to_slice(&mut out[i * side + j..]);
    }
}

// Row i: vectors while they fit, and the plain loop for the rest.
fn lane_row(out: &mut [i64], a: &[i64], b: &[i64], side: usize, i: usize)
    requires square { length out.old ≡ side * side }
    requires left { length a.now ≡ side * side }
    requires right { length b.now ≡ side * side }
    requires small { side ≤ 32 }
    requires row { i < side }
    requires old { (c : ℕ) → c < side → IsWeight (cell out.old side i c) }
    requires first { AllWeights a.now }
    requires second { AllWeights b.now }
    ensures { RowUpdated out.old a.now b.now out.new side i 0 side }
{
    let mut j = 0;
    while side - j >= 16 {
        strip::<16>(out, a, b, side, i, j);
        j += 16;
    }
    while side - j >= 4 {
        strip::<4>(out, a, b, side, i, j);
        j += 4;
    }
    plain_row(out, a, b, side, i, j);
}

// Row i from column `from` on, by the plain loop.
fn plain_row(out: &mut [i64], a: &[i64], b: &[i64], side: usize, i: usize, from: usize)
    requires square { length out.old ≡ side * side }
    requires left { length a.now ≡ side * side }
    requires right { length b.now ≡ side * side }
    requires small { side ≤ 32 }
    requires row { i < side }
    requires column { from ≤ side }
    requires old { (c : ℕ) → from ≤ c → c < side → IsWeight (cell out.old side i c) }
    requires first { AllWeights a.now }
    requires second { AllWeights b.now }
    ensures { RowUpdated out.old a.now b.now out.new side i from side }
{
    for j in from..side {
        let mut weight = out[i * side + j];
        for k in 0..side {
            let way = plus(a[i * side + k], b[k * side + j]);
            weight = weight.min(way);
        }
        out[i * side + j] = weight;
    }
}

// Each number of an i64 slice is at most NONE. A load into lanes does not say so, and a read does: so each is read, by a
// loop with no effect, which the compiler drops.
fn bounded(xs: &[i64])
    requires { IsNonNegative xs.now }
    ensures { AllWeights xs.now }
{
    for i in 0..xs.len() {
        let _number = xs[i];
    }
}

// Lanes j to j + N of row i.
fn strip<const N: usize>(out: &mut [i64], a: &[i64], b: &[i64], side: usize, i: usize, j: usize)
    requires square { length out.old ≡ side * side }
    requires left { length a.now ≡ side * side }
    requires right { length b.now ≡ side * side }
    requires small { side ≤ 32 }
    requires row { i < side }
    requires room { j + N ≤ side }
    requires old { (q : ℕ) → q < N → IsWeight (cell out.old side i (j + q)) }
    requires first { AllWeights a.now }
    requires second { AllWeights b.now }
    ensures { RowUpdated out.old a.now b.now out.new side i j (j + N) }
{
    let top = Simd::<i64, N>::splat(TOP);
    let mut lanes = Simd::<i64, N>::from_slice(&out[i * side + j..]) + top;
    for k in 0..side {
        let way = Simd::<i64, N>::splat(a[i * side + k].wrapping_add(TOP));
        let sums = way + Simd::<i64, N>::from_slice(&b[k * side + j..]);
        lanes = sums.simd_min(lanes);
    }
    (lanes + top).copy_to_slice(&mut out[i * side + j..]);
}
