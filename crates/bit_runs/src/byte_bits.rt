// The bits of bytes in memory.

ghost use Rattle.std.specs.Prelude.{◌≡◌, ◌<◌, ◌≤◌, [], false, drop, length, IsTrue, IsFalse};
ghost use Rattle.zar_io.specs.FileBits.{bits_left, file_bits};
ghost use Rattle.zar_io.specs.Trace.{World};
ghost use Rattle.bit_runs.specs.ByteBits.{bits_to_come};

use zar_io::{Bits, Failed, Ready};

/// The bits of bytes, each byte's most significant bit first. Nothing lies behind them, and no call fails.
#[derive(Drop)]
pub struct ByteBits<'a> {
    bytes: &'a [u8],
    // The bytes from `next` on are still to come.
    next: usize,
    // So are the lowest `waiting` bits of `byte`, before them.
    byte: u8,
    waiting: u32,
    ended: bool,
    ghost in_bytes: { next ≤ length bytes.now },
    ghost in_byte: { waiting ≤ 8 },
    ghost used_up_once_ended: { IsTrue ended → next ≡ length bytes.now },
    ghost none_once_ended: { IsTrue ended → waiting ≡ 0 },
}

#[tactic(auto, using(crate::proofs::GivenBytes::bytes_kept))]
impl<'a> ByteBits<'a> {
    /// All bits of these bytes.
    pub fn new(bytes: &'a [u8]) -> ByteBits<'a>
        ensures left { (file : World) → ⟦<ByteBits<'a> as Bits>⟧.left result file ≡ file_bits bytes.now }
        ensures answered { ⟦<ByteBits<'a> as Bits>⟧.answered result ≡ [] }
        ensures ended { ⟦<ByteBits<'a> as Bits>⟧.ended result ≡ false }
        ensures broken { ⟦<ByteBits<'a> as Bits>⟧.broken result ≡ false }
    {
        ByteBits {
            bytes,
            next: 0,
            byte: 0,
            waiting: 0,
            ended: false,
        }
    }

    // Sees to it that a bit waits, and answers whether one does.
    fn load(&mut self) -> bool
        ensures left { bits_to_come self.new.waiting self.new.byte self.new.next self.new.bytes.now
            ≡ bits_to_come self.old.waiting self.old.byte self.old.next self.old.bytes.now }
        ensures waits { IsTrue result → 0 < self.new.waiting }
        ensures none { IsFalse result → (self.new.waiting ≡ 0) × (self.new.next ≡ length self.new.bytes.now) }
        ensures none_once_ended { IsTrue self.old.ended → result ≡ false }
        ensures ended { self.new.ended ≡ self.old.ended }
    {
        if self.waiting > 0 {
            return true;
        }
        if self.next == self.bytes.len() {
            return false;
        }
        self.byte = self.bytes[self.next];
        self.next += 1;
        self.waiting = 8;
        true
    }
}

#[tactic(auto, using(crate::proofs::GivenBytes::bytes_kept, zar_io::proofs::FileBitsLemmas::bits_kept, zar_io::proofs::TraceLemmas::gone_on))]
impl Bits for ByteBits<'_> {
    ghost answered = { λ s. [] };

    ghost left = { λ s file. bits_to_come s.waiting s.byte s.next s.bytes.now };

    ghost ended = { λ s. s.ended };

    ghost broken = { λ s. false };

    ghost source = { λ s. 0 };

    ghost ready = { λ s. s.waiting };

    fn next(&mut self) -> Result<Option<bool>, Failed> {
        if !self.load() {
            self.ended = true;
            return Ok(None);
        }
        self.waiting -= 1;
        Ok(Some((self.byte >> self.waiting) % 2 == 1))
    }

    fn peek(&mut self) -> Ready {
        self.load();
        Ready {
            word: u64::from(self.byte),
            count: self.waiting,
        }
    }

    fn take(&mut self, count: u32) {
        self.waiting -= count;
    }
}
