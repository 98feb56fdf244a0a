//! Ranges of the streams of seed 0.

ghost use Rattle.std.specs.Prelude.{◌≡◌};

use stream_runs::SeedRange;

/// A stream far from the first, 2^57. By words that RFC 8439 publishes, it begins with the bits 001, and stream 0 with the bits
/// 101.
pub const FAR: u64 = 0x0200000000000000;

/// Streams of seed 0, from `from` up to but not including `to`.
pub fn streams(from: u64, to: u64, budget: u64, workers: u32) -> SeedRange
    ensures { result ≡ record { seed = 0; from = from; to = to; budget = budget; workers = workers } }
{
    SeedRange {
        seed: 0,
        from,
        to,
        budget,
        workers,
    }
}
