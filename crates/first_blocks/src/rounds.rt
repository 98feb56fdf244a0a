// Rounds of ChaCha on four states at once. A vector holds one word of each, so what is done to it is done in each of its lanes.

ghost use Rattle.std.specs.Prelude.{◌≡◌, ◌<◌, ℕ, slice_index};
ghost use Rattle.rand_chacha.specs.Block.{add32, xor_rotate, quarter_round, column_round, diagonal_round};
ghost use Rattle.rand_chacha.specs.Lanes.{lane};

use std::simd::u32x4;

// The sums, without their carries.
#[inline(always)]
pub fn sum(a: u32x4, b: u32x4) -> u32x4
    ensures { (j : ℕ) → j < 4 → slice_index result j ≡ add32 (slice_index a j) (slice_index b j) }
{
    a + b
}

// Which bits differ, turned left by some places.
#[inline(always)]
fn turned(a: u32x4, b: u32x4, places: u32) -> u32x4
    requires some { 0 < places }
    requires few { places < 32 }
    ensures { (j : ℕ) → j < 4 → slice_index result j ≡ xor_rotate (slice_index a j) (slice_index b j) places }
{
    let differ = a ^ b;
    (differ << u32x4::splat(places)) | (differ >> u32x4::splat(32 - places))
}

#[inline(always)]
fn quarter_round(a: u32x4, b: u32x4, c: u32x4, d: u32x4) -> (u32x4, u32x4, u32x4, u32x4)
    ensures { (j : ℕ) → j < 4 →
        (slice_index result.0 j, slice_index result.1 j, slice_index result.2 j, slice_index result.3 j)
        ≡ quarter_round (slice_index a j) (slice_index b j) (slice_index c j) (slice_index d j) }
{
    let a = sum(a, b);
    let d = turned(d, a, 16);
    let c = sum(c, d);
    let b = turned(b, c, 12);
    let a = sum(a, b);
    let d = turned(d, a, 8);
    let c = sum(c, d);
    let b = turned(b, c, 7);
    (a, b, c, d)
}

// A round on the columns of four rows, and one on their diagonals.
#[inline(always)]
pub fn double_round(x: &[u32x4; 16]) -> [u32x4; 16]
    ensures { (j : ℕ) → j < 4 → lane j result ≡ diagonal_round (column_round (lane j x.now)) }
{
    let (a0, b0, c0, d0) = quarter_round(x[0], x[4], x[8], x[12]);
    let (a1, b1, c1, d1) = quarter_round(x[1], x[5], x[9], x[13]);
    let (a2, b2, c2, d2) = quarter_round(x[2], x[6], x[10], x[14]);
    let (a3, b3, c3, d3) = quarter_round(x[3], x[7], x[11], x[15]);
    let (a0, b1, c2, d3) = quarter_round(a0, b1, c2, d3);
    let (a1, b2, c3, d0) = quarter_round(a1, b2, c3, d0);
    let (a2, b3, c0, d1) = quarter_round(a2, b3, c0, d1);
    let (a3, b0, c1, d2) = quarter_round(a3, b0, c1, d2);
    [
        a0, a1, a2, a3, b0, b1, b2, b3, c0, c1, c2, c3, d0, d1, d2, d3,
    ]
}
