// Blocks from their start to their end.

ghost use Rattle.std.specs.Prelude.{◌≡◌, ◌%◌, ◌/◌, ◌^◌, ◌<◌, ℕ, slice_index};
ghost use Rattle.rand_chacha.specs.Block.{initial_state};
ghost use Rattle.rand_chacha.specs.ChaCha.{key_of, word_at};
ghost use Rattle.rand_chacha.specs.Lanes.{lane, lane_at};

use crate::rounds::{double_round, sum};
use rand_core::utils::read_u32;
use std::simd::u32x4;

#[inline(always)]
fn low_half(number: u64) -> u32
    ensures { result ≡ number % 2 ^ 32 }
{
    (number & 0xffff_ffff) as u32
}

#[inline(always)]
fn high_half(number: u64) -> u32
    ensures { result ≡ number / 2 ^ 32 }
{
    (number >> 32) as u32
}

#[inline(always)]
fn key_of(seed: &[u8; 32]) -> [u32; 8]
    ensures { result ≡ key_of seed.now }
{
    [
        read_u32(seed, 0),
        read_u32(seed, 1),
        read_u32(seed, 2),
        read_u32(seed, 3),
        read_u32(seed, 4),
        read_u32(seed, 5),
        read_u32(seed, 6),
        read_u32(seed, 7),
    ]
}

// What the rounds of the first blocks begin with: four words that say "expand 32-byte k", the key, a counter of 0, and the number
// of the stream.
#[inline(always)]
fn beginnings(key: &[u32; 8], streams: &[u64; 4]) -> [u32x4; 16]
    ensures { (j : ℕ) → j < 4 → lane j result ≡ initial_state key.now 0 (slice_index streams.now j) }
{
    let [s0, s1, s2, s3] = *streams;
    [
        u32x4::splat(0x6170_7865),
        u32x4::splat(0x3320_646e),
        u32x4::splat(0x7962_2d32),
        u32x4::splat(0x6b20_6574),
        u32x4::splat(key[0]),
        u32x4::splat(key[1]),
        u32x4::splat(key[2]),
        u32x4::splat(key[3]),
        u32x4::splat(key[4]),
        u32x4::splat(key[5]),
        u32x4::splat(key[6]),
        u32x4::splat(key[7]),
        u32x4::splat(0),
        u32x4::splat(0),
        u32x4::from_array([low_half(s0), low_half(s1), low_half(s2), low_half(s3)]),
        u32x4::from_array([high_half(s0), high_half(s1), high_half(s2), high_half(s3)]),
    ]
}

/// Writes the first 16 words of four streams of a seed: into row k the word number k of each.
pub fn first_blocks(seed: &[u8; 32], streams: &[u64; 4], words: &mut [[u32; 4]; 16])
    ensures { (j k : ℕ) → j < 4 → k < 16 →
        lane_at words.new k j ≡ word_at 10 (key_of seed.now) (slice_index streams.now j) k }
{
    let first = beginnings(&key_of(seed), streams);
    let mut x = first;
    'rounds: for _done in 0..10u32 {
        x = double_round(&x);
    }
    'rows: for k in 0..16 {
        words[k] = sum(x[k], first[k]).to_array();
    }
}
