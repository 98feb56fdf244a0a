// A line in a fixed buffer.

ghost use Rattle.std.specs.Prelude.{◌≡◌, ◌+◌, ◌≤◌, ◌++◌, [], ◌∷◌, length};
ghost use Rattle.report_text.specs.Decimals.{decimals_text};
ghost use Rattle.report_text.specs.Lines.{fraction_text};
ghost use Rattle.report_text.specs.declared.decimals.Rounding.TheVariants.{Nearest};
ghost use Rattle.report_text.specs.declared.line.TheConstants as rule;

use crate::decimals::{Decimals, Rounding};
use itoa::{Buffer, Integer};
use numbers::Frac;
use std::marker::Model;

/// The greatest length of a line: that of an outcome with two fractions and their decimals fits.
pub const LINE_BYTES: usize = 384;

/// A line of at most [`LINE_BYTES`] bytes, its line feed included. It is seen as a list of bytes.
#[derive(Drop)]
pub struct Line {
    buffer: [u8; LINE_BYTES],
    length: usize,
}

impl Model for Line {
    ghost use Rattle.std.specs.Prelude.{List, ℕ, ◌≤◌, take};
    ghost use Rattle.report_text.specs.declared.line.TheConstants as rule;

    ghost Value = { List ℕ };

    ghost view = { λ l. take l.length l.buffer };

    ghost invariant = { λ l. l.length ≤ rule.LINE_BYTES };
}

impl Line {
    /// A line with no byte. It takes no memory.
    pub fn new() -> Line
        ensures { result ≡ [] }
    {
        Line {
            buffer: [0; LINE_BYTES],
            length: 0,
        }
    }

    pub(crate) fn clear(&mut self)
        ensures { self.new ≡ [] }
    {
        self.length = 0;
    }

    pub(crate) fn of(text: &[u8]) -> Line
        requires { length text.now ≤ rule.LINE_BYTES }
        ensures { result ≡ text.now }
    {
        let mut line = Line::new();
        line.push(text);
        line
    }

    // A line of this text, and a fraction behind it with so many decimals, to the nearest.
    pub(crate) fn of_fraction(front: &[u8], f: &Frac, decimals: Decimals) -> Line
        requires { length front.now + 162 ≤ rule.LINE_BYTES }
        ensures { result ≡ front.now ++ fraction_text f.now ++ decimals_text Nearest decimals f.now ++ 10 ∷ [] }
    {
        let mut line = Line::of(front);
        line.push_fraction(f);
        line.push_decimals(f, Rounding::Nearest, decimals);
        line.push(b"\n");
        line
    }

    /// The bytes of the line. It takes no memory.
    pub fn bytes(&self) -> &[u8]
        ensures text { result.now ≡ self.now }
        ensures within { length result.now ≤ rule.LINE_BYTES }
    {
        &self.buffer[..self.length]
    }

    // Inlined, so that a text of the code takes some stores and no call.
    #[inline(always)]
    pub(crate) fn push(&mut self, text: &[u8])
        requires { length self.old + length text.now ≤ rule.LINE_BYTES }
        ensures text { self.new ≡ self.old ++ text.now }
    {
        let end = self.length + text.len();
        self.buffer[self.length..end].copy_from_slice(text);
        self.length = end;
    }

    #[inline(always)]
    pub(crate) fn push_number<I: Integer>(&mut self, n: I)
        requires { length self.old + 40 ≤ rule.LINE_BYTES }
        ensures text { self.new ≡ self.old ++ I.text n }
        ensures within { length self.new ≤ length self.old + 40 }
    {
        self.push(Buffer::new().format(n).as_bytes());
    }

    pub(crate) fn push_fraction(&mut self, f: &Frac)
        requires { length self.old + 81 ≤ rule.LINE_BYTES }
        ensures text { self.new ≡ self.old ++ fraction_text f.now }
        ensures within { length self.new ≤ length self.old + 81 }
    {
        self.push_number(f.num());
        self.push(b"/");
        self.push_number(f.den());
    }
}
