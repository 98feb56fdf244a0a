//! Bits of a list, with a plan of their faults.
ghost use Rattle.std.specs.Prelude.{◌≡◌, ◌≤◌, ◌↔◌, [], false, None, Ok, IfOk, OnErr, IsErr, IsTrue};
ghost use Rattle.zar_io.specs.Bits.{Took, BeginsWith, ended_after, broken_after};
ghost use Rattle.zar_io.specs.Calls.{next_number};
ghost use Rattle.zar_io.specs.Trace.{Fails};
ghost use Rattle.zar_io.specs.GoesOn.{GoesOn};
ghost use Rattle.zar_io.specs.FileBits.{low_bits};

use crate::calls::Calls;
use crate::trace::{Note, Trace};
use crate::{Bits, Failed, ListBits, Ready};
use std::alloc::{AllocError, Global};

/// Bits that a list holds, in its order, with a plan of their faults.
#[derive(Drop)]
pub struct FaultyBits {
    list: ListBits,
    calls: Calls,
    trace: Trace,
}

impl FaultyBits {
    ghost use Rattle.zar_io.specs.FaultyBits.{bits_to_come, bits_answered, has_ended, has_failed, bits_fails, bits_number};

    /// The bits of the list, for which it takes the memory here, as it does for the numbers that are to fail. Its calls of `next`
    /// are numbered from 0 on. One whose number is in `fails` fails and takes no bit, unless a call before it found none left.
    /// Each other call is answered as by [`ListBits`].
    pub fn new(alloc: Global, bits: &[bool], fails: &[u64]) -> Result<FaultyBits, AllocError>
        ensures left { IfOk result (λ source. bits_to_come source ≡ bits.now) }
        ensures answered { IfOk result (λ source. bits_answered source ≡ []) }
        ensures ended { IfOk result (λ source. has_ended source ≡ false) }
        ensures broken { IfOk result (λ source. has_failed source ≡ false) }
        ensures fails { IfOk result (λ source. bits_fails source ≡ fails.now) }
        ensures number { IfOk result (λ source. bits_number source ≡ 0) }
    {
        Ok(FaultyBits {
            list: ListBits::new(alloc, bits)?,
            calls: Calls::new(alloc, fails)?,
            trace: Trace::new(),
        })
    }
}

#[tactic(auto, using(crate::proofs::TraceLemmas::gone_on))]
impl Bits for FaultyBits {
    ghost use Rattle.zar_io.specs.FaultyBits.{bits_to_come, bits_answered, has_ended, has_failed, bits_fails, bits_number, IsToFail};

    ghost answered = { bits_answered };

    ghost left = { λ s file. bits_to_come s };

    ghost ended = { has_ended };

    ghost broken = { has_failed };

    ghost source = { λ s. 0 };

    ghost ready = { λ s. 0 };

    fn next(&mut self) -> Result<Option<bool>, Failed>
        // Those of all bits.
        ensures failures { Fails result (bits_answered self.old) (bits_answered self.new) }
        ensures goes_on { GoesOn [] (bits_answered self.old) (bits_answered self.new) }
        ensures bit { IfOk result (λ answer. Took answer (bits_to_come self.old) (bits_to_come self.new)) }
        ensures ended { has_ended self.new ≡ ended_after result (has_ended self.old) }
        ensures stays_ended { IsTrue (has_ended self.old) → result ≡ Ok None }
        ensures broken { has_failed self.new ≡ broken_after result (has_failed self.old) }

        // The plan.
        ensures fails { IsErr result ↔ IsToFail self.old }
        ensures same_bits { OnErr result (bits_to_come self.new ≡ bits_to_come self.old) }
        ensures next { bits_number self.new ≡ next_number (bits_number self.old) }
        ensures same_fails { bits_fails self.new ≡ bits_fails self.old }
    {
        if self.calls.begin() && !self.list.has_ended() {
            self.trace = self.trace.then(&Note::Failed);
            return Err(Failed);
        }
        Ok(self.list.take_first())
    }

    fn peek(&mut self) -> Ready
        // Those of all bits.
        ensures within { result.count ≤ 64 }
        ensures ready { result.count ≤ 0 }
        ensures bits { BeginsWith (low_bits result.count result.word) (bits_to_come self.new) }
        ensures none_once_ended { IsTrue (has_ended self.old) → result.count ≡ 0 }

        // No call was made.
        ensures unchanged { self.new ≡ self.old }
    {
        Ready { word: 0, count: 0 }
    }

    fn take(&mut self, _count: u32)
        requires { _count ≤ 0 }
        ensures unchanged { self.new ≡ self.old }
    {}
}
