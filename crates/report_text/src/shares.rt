// The lines of shares.

ghost use Rattle.std.specs.Prelude.{◌≡◌, ◌+◌, ◌≤◌, ◌++◌, length};
ghost use Rattle.report_text.specs.Lines.{mass_text, bounds_text, bound_text, other_text, undecided_text, endless_text, cost_text, unbounded_text};
ghost use Rattle.report_text.specs.declared.line.TheConstants as rule;

use crate::decimals::{Decimals, Rounding};
use crate::line::Line;
use crate::outcomes::outcome_line;
use gcl_core::Outcome;
use numbers::Frac;

/// The line of an outcome and its mass, a fraction in lowest terms, with so many decimals. It takes no memory.
pub fn mass_line(outcome: &Outcome, mass: &Frac, decimals: Decimals) -> Line
    ensures { result ≡ mass_text decimals outcome.now mass.now }
{
    let mut line = outcome_line(outcome);
    line.push(b" mass ");
    line.push_fraction(mass);
    line.push_decimals(mass, Rounding::Nearest, decimals);
    line.push(b"\n");
    line
}

impl Line {
    // Two bounds, with which the line ends.
    fn push_bounds(&mut self, low: &Frac, high: &Frac, decimals: Decimals)
        requires { length self.old + 333 ≤ rule.LINE_BYTES }
        ensures { self.new ≡ self.old ++ bounds_text decimals low.now high.now }
    {
        self.push(b" from ");
        self.push_fraction(low);
        self.push_decimals(low, Rounding::Down, decimals);
        self.push(b" to ");
        self.push_fraction(high);
        self.push_decimals(high, Rounding::Up, decimals);
        self.push(b"\n");
    }
}

/// The line of an outcome and its two bounds, fractions in lowest terms, with so many decimals. It takes no memory.
pub fn bound_line(outcome: &Outcome, low: &Frac, high: &Frac, decimals: Decimals) -> Line
    ensures { result ≡ bound_text decimals outcome.now low.now high.now }
{
    let mut line = outcome_line(outcome);
    line.push_bounds(low, high, decimals);
    line
}

/// The line of what all other outcomes have at most, a fraction in lowest terms, with so many decimals. It takes no memory.
pub fn other_line(high: &Frac, decimals: Decimals) -> Line
    ensures { result ≡ other_text decimals high.now }
{
    let mut line = Line::of(b"other");
    line.push_bounds(&Frac::of(0, 1), high, decimals);
    line
}

/// The line of the share of the bit strings on which a run needs more, a fraction in lowest terms, with so many decimals. It takes
/// no memory.
pub fn undecided_line(share: &Frac, decimals: Decimals) -> Line
    ensures { result ≡ undecided_text decimals share.now }
{
    Line::of_fraction(b"undecided mass ", share, decimals)
}

/// The line of the mass with which a program runs for ever, a fraction in lowest terms, with so many decimals. It takes no memory.
pub fn endless_line(mass: &Frac, decimals: Decimals) -> Line
    ensures { result ≡ endless_text decimals mass.now }
{
    Line::of_fraction(b"endless mass ", mass, decimals)
}

/// The line of an expected number of bits, a fraction in lowest terms, with so many decimals. It takes no memory.
pub fn cost_line(bits: &Frac, decimals: Decimals) -> Line
    ensures { result ≡ cost_text decimals bits.now }
{
    Line::of_fraction(b"bits ", bits, decimals)
}

/// The line of an expected number of bits that has no bound. It takes no memory.
pub fn unbounded_line() -> Line
    ensures { result ≡ unbounded_text }
{
    Line::of(b"bits unbounded\n")
}
