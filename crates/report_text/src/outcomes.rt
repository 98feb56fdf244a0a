// The text of an outcome, with which most lines begin, and that of the key of a tally.

ghost use Rattle.std.specs.Prelude.{◌≡◌, ◌+◌, ◌≤◌, ◌++◌, length};
ghost use Rattle.report_text.specs.Lines.{outcome_text, key_text};
ghost use Rattle.report_text.specs.declared.line.TheConstants.{LINE_BYTES};

use crate::line::Line;
use gcl_core::{Fault, Limit, Outcome, TallyKey};

// Puts the text of an outcome behind the line.
#[inline(always)]
pub(crate) fn push_outcome(line: &mut Line, outcome: &Outcome)
    requires { length line.old + 46 ≤ LINE_BYTES }
    ensures text { line.new ≡ line.old ++ outcome_text outcome.now }
    ensures within { length line.new ≤ length line.old + 46 }
{
    match outcome {
        Outcome::Value(n) => {
            line.push(b"value ");
            line.push_number(*n);
        }
        Outcome::Fault(Fault::Overflow) => line.push(b"fault overflow"),
        Outcome::Fault(Fault::ZeroDivisor) => line.push(b"fault zero divisor"),
        Outcome::Fault(Fault::BadBound) => line.push(b"fault bad bound"),
        Outcome::Limit(Limit::Turns) => line.push(b"limit turns"),
        Outcome::Limit(Limit::Attempts) => line.push(b"limit attempts"),
        Outcome::Limit(Limit::Rounds) => line.push(b"limit rounds"),
    }
}

pub fn outcome_line(outcome: &Outcome) -> Line
    ensures text { result ≡ outcome_text outcome.now }
    ensures within { length result ≤ 46 }
{
    let mut line = Line::new();
    push_outcome(&mut line, outcome);
    line
}

/// The text of a key, without a line feed: an outcome, or that more bits were needed. It takes no memory.
pub fn key_line(key: &TallyKey) -> Line
    ensures text { result ≡ key_text key.now }
    ensures within { length result ≤ 46 }
{
    match key {
        TallyKey::Outcome(outcome) => outcome_line(outcome),
        TallyKey::MoreBits => Line::of(b"more bits"),
    }
}
