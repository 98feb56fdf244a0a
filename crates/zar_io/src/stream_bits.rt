//! The bits of a seeded stream.
ghost use Rattle.std.specs.Prelude.{◌≡◌, ◌≢◌, ◌==◌, ◌+◌, ◌-◌, ◌/◌, ◌%◌, ◌^◌, ◌*◌, ◌<◌, ◌≤◌, min, [], false, IsTrue};
ghost use Rattle.zar_io.specs.FileBits.{low_bits};
ghost use Rattle.zar_io.specs.StreamBits.{seed_bytes, stream_bits, stream_word, word_bits};
ghost use Rattle.zar_io.specs.Trace.{World};
ghost use Rattle.zar_io.specs.inner.Fronts.{AreFronts, stream_at};
ghost use Rattle.zar_io.specs.declared.stream_bits.TheConstants.{BLOCK_WORDS, MOST_BUDGET, STREAMS_ABREAST};

use crate::{Bits, Failed, Ready};
use first_blocks::first_blocks;
use rand_chacha::ChaCha20Rng;
use rand_core::SeedableRng;
use rand_core::utils::NextWord;

/// The most bits that are read of a stream.
pub const MOST_BUDGET: u64 = 1_000_000_000;

// How many streams that follow one another have their first blocks computed side by side.
const STREAMS_ABREAST: u64 = 4;

// How many words a block has.
const BLOCK_WORDS: u64 = 16;

/// The first bits of the stream that a seed and a number name, as many as the budget says. Nothing
/// lies behind them, and no call fails.
#[derive(Drop)]
pub struct StreamBits {
    seed: u64,
    stream: u64,
    // The first blocks of the streams that are computed abreast with this one: a row for each word.
    fronts: [[u32; 4]; 16],
    // The stream behind its first block, once one of its words was drawn.
    behind: ChaCha20Rng,
    // How many words were drawn.
    drawn: u64,
    // The word that was drawn last.
    word: u32,
    // How many of its bits, the lowest, were not given yet.
    waiting: u32,
    // How many bits are left.
    left: u64,
    ended: bool,
    ghost few: { 32 * drawn + left ≤ waiting + MOST_BUDGET },
    ghost in_word: { waiting ≤ 32 },
    ghost some: { waiting ≤ 32 * drawn },
    ghost abreast: { AreFronts seed (stream / STREAMS_ABREAST) fronts },
    ghost further: { BLOCK_WORDS < drawn → behind ≡ stream_at seed stream drawn },
    ghost held: { 0 < waiting → word ≡ stream_word seed stream (drawn - 1) },
    ghost none_once_ended: { IsTrue ended → left ≡ 0 },
}

// The seed as `rand_chacha` takes it.
fn seed_bytes(seed: u64) -> [u8; 32]
    ensures { result ≡ seed_bytes seed }
{
    let mut bytes = [0; 32];
    bytes[..8].copy_from_slice(&seed.to_le_bytes());
    bytes
}

// Writes the first blocks of the streams that are computed abreast, as the group of this number.
fn write_fronts(fronts: &mut [[u32; 4]; 16], seed: u64, group: u64)
    requires { group < 2 ^ 62 }
    ensures { AreFronts seed group fronts.new }
{
    let first = STREAMS_ABREAST * group;
    first_blocks(
        &seed_bytes(seed),
        &[first, first + 1, first + 2, first + 3],
        fronts,
    );
}

// A stream behind its first block.
fn behind_front(seed: u64, stream: u64) -> ChaCha20Rng
    ensures { result ≡ stream_at seed stream BLOCK_WORDS }
{
    let mut words = ChaCha20Rng::from_seed(seed_bytes(seed));
    words.set_word_pos(u128::from(BLOCK_WORDS));
    words.set_stream(stream);
    words
}

// Draws a word behind the first block.
fn draw_behind(words: &mut ChaCha20Rng, seed: u64, stream: u64, place: u64) -> u32
    requires behind { BLOCK_WORDS ≤ place }
    requires near { place ≤ MOST_BUDGET }
    requires stands { BLOCK_WORDS < place → words.old ≡ stream_at seed stream place }
    ensures word { result ≡ stream_word seed stream place }
    ensures stands { words.new ≡ stream_at seed stream (place + 1) }
{
    if place == BLOCK_WORDS {
        *words = behind_front(seed, stream);
    }
    words.next_word()
}

impl StreamBits {
    /// The first `budget` bits of this stream of this seed.
    pub fn new(seed: u64, stream: u64, budget: u64) -> StreamBits
        requires { budget ≤ MOST_BUDGET }
        ensures left { (file : World) → ⟦<StreamBits as Bits>⟧.left result file ≡ stream_bits seed stream budget }
        ensures answered { ⟦<StreamBits as Bits>⟧.answered result ≡ [] }
        ensures ended { ⟦<StreamBits as Bits>⟧.ended result ≡ false }
        ensures broken { ⟦<StreamBits as Bits>⟧.broken result ≡ false }
    {
        let mut fronts = [[0; 4]; 16];
        write_fronts(&mut fronts, seed, stream / STREAMS_ABREAST);
        StreamBits {
            seed,
            stream,
            fronts,
            behind: behind_front(seed, stream),
            drawn: 0,
            word: 0,
            waiting: 0,
            left: budget,
            ended: false,
        }
    }

    /// Takes the first `budget` bits of this stream of this seed in place of what was there. This is quick where the stream is a
    /// neighbour of the one before.
    pub fn begin(&mut self, seed: u64, stream: u64, budget: u64)
        requires { budget ≤ MOST_BUDGET }
        ensures left { (file : World) → ⟦<StreamBits as Bits>⟧.left self.new file ≡ stream_bits seed stream budget }
        ensures answered { ⟦<StreamBits as Bits>⟧.answered self.new ≡ [] }
        ensures ended { ⟦<StreamBits as Bits>⟧.ended self.new ≡ false }
        ensures broken { ⟦<StreamBits as Bits>⟧.broken self.new ≡ false }
    {
        let group = stream / STREAMS_ABREAST;
        if seed != self.seed || group != self.stream / STREAMS_ABREAST {
            write_fronts(&mut self.fronts, seed, group);
        }
        self.seed = seed;
        self.stream = stream;
        self.drawn = 0;
        self.waiting = 0;
        self.left = budget;
        self.ended = false;
    }
}

// The bit at a place of a word, the least significant of which is at 0.
fn bit_at(word: u32, place: u32) -> bool
    requires { place ≤ 31 }
    ensures { result ≡ (word / 2 ^ place % 2 == 1) }
{
    (word >> place) % 2 == 1
}

impl StreamBits {
    // Draws the next word, where all bits of the last one were given.
    #[inline]
    fn draw_word(&mut self)
        requires { 0 < self.old.left }
        ensures waits { 0 < self.new.waiting }
        ensures seed { self.new.seed ≡ self.old.seed }
        ensures stream { self.new.stream ≡ self.old.stream }
        ensures at { 32 * self.new.drawn - self.new.waiting ≡ 32 * self.old.drawn - self.old.waiting }
        ensures left { self.new.left ≡ self.old.left }
        ensures ended { self.new.ended ≡ self.old.ended }
    {
        if self.waiting == 0 {
            self.word = if self.drawn < BLOCK_WORDS {
                self.fronts[self.drawn as usize][(self.stream % STREAMS_ABREAST) as usize]
            } else {
                draw_behind(&mut self.behind, self.seed, self.stream, self.drawn)
            };
            self.drawn += 1;
            self.waiting = 32;
        }
    }
}

impl Bits for StreamBits {
    ghost answered = { λ s. [] };

    ghost left = { λ s file. word_bits (stream_word s.seed s.stream) (32 * s.drawn - s.waiting) s.left };

    ghost ended = { λ s. s.ended };

    ghost broken = { λ s. false };

    ghost source = { λ s. 0 };

    ghost ready = { λ s. min s.waiting s.left };

    #[inline]
    #[tactic(auto, using(crate::proofs::StreamBitsLemmas::none_left, crate::proofs::TraceLemmas::gone_on))]
    fn next(&mut self) -> Result<Option<bool>, Failed> {
        if self.left == 0 {
            self.ended = true;
            return Ok(None);
        }
        self.draw_word();
        self.waiting -= 1;
        self.left -= 1;
        Ok(Some(bit_at(self.word, self.waiting)))
    }

    #[inline]
    fn peek(&mut self) -> Ready {
        if self.left == 0 {
            return Ready { word: 0, count: 0 };
        }
        self.draw_word();
        let count = self.waiting.min(self.left as u32);
        Ready {
            word: u64::from(self.word >> (self.waiting - count)),
            count,
        }
    }

    #[inline]
    fn take(&mut self, count: u32) {
        self.waiting -= count;
        self.left -= u64::from(count);
    }
}

/// It does nothing: its clauses say that the first words of four blocks are those that RFC 8439 publishes (appendix
/// A.1, test vectors 1, 2, 4 and 5), and that the bits of the first are read from its most significant on.
pub fn streams_begin_as_published()
    ensures first_block { stream_word 0 0 0 ≡ 0xade0b876 }
    ensures next_block { stream_word 0 0 16 ≡ 0xbee7079f }
    ensures other_seed { stream_word 0xff00 0 32 ≡ 0xfb4dd572 }
    ensures other_stream { stream_word 0 0x0200000000000000 0 ≡ 0x374dc6c2 }
    ensures bits { stream_bits 0 0 32 ≡ low_bits 32 0xade0b876 }
{}
