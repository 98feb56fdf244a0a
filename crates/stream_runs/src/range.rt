// Ranges of streams, and their blocks.

/// The most streams of a range.
pub const MOST_STREAMS: u64 = 1 << 40;
/// The most threads that run them.
pub const MOST_WORKERS: u32 = 64;
/// How many streams a block has. The last block may be shorter.
pub const STREAMS_OF_A_BLOCK: u64 = 64;

/// The streams from `from` up to but not including `to` of a seed, the first `budget` bits of each, and by how many threads they
/// are run. It can be gone through where `from` is at most `to`, there are at most [`MOST_STREAMS`] streams, the budget is at
/// most [`zar_io::MOST_BUDGET`], and there are 1 to [`MOST_WORKERS`] threads.
#[derive(Clone, Copy, PartialEq, Eq, Debug)]
pub struct SeedRange {
    pub seed: u64,
    pub from: u64,
    pub to: u64,
    pub budget: u64,
    pub workers: u32,
}

impl SeedRange {
    ghost use Rattle.std.specs.Prelude.{◌≡◌, ◌+◌, ◌<◌, ◌≤◌, min};
    ghost use Rattle.stream_runs.specs.Blocks.{first_in_block, blocks_over};

    /// How many blocks of [`STREAMS_OF_A_BLOCK`] streams there are, the last of which may be shorter.
    pub fn blocks(&self) -> u64
        requires order { self.now.from ≤ self.now.to }
        ensures { result ≡ blocks_over self.now.from self.now.to }
    {
        (self.to - self.from).div_ceil(STREAMS_OF_A_BLOCK)
    }

    /// The first stream of the block of this number, from 0.
    pub fn first_stream(&self, block: u64) -> u64
        requires order { self.now.from ≤ self.now.to }
        requires block { block < blocks_over self.now.from self.now.to }
        ensures first { result ≡ first_in_block self.now.from block }
        ensures inside { result < self.now.to }
    {
        self.from + STREAMS_OF_A_BLOCK * block
    }

    /// The end of the block that begins with this stream: the streams of the block are those below it.
    pub fn end_of_block(&self, first: u64) -> u64
        requires order { first ≤ self.now.to }
        ensures { result ≡ min (first + STREAMS_OF_A_BLOCK) self.now.to }
    {
        first + (self.to - first).min(STREAMS_OF_A_BLOCK)
    }
}
