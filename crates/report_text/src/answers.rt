// The lines of answers.

ghost use Rattle.std.specs.Prelude.{◌≡◌};
ghost use Rattle.report_text.specs.Lines.{answer_text, accepted_text};

use crate::line::Line;
use crate::outcomes::push_outcome;
use gcl_core::Answer;

impl Line {
    ghost use Rattle.std.specs.Prelude.{◌≡◌};
    ghost use Rattle.report_text.specs.Lines.{answer_text};

    /// Holds the line of a run's answer in place of what it held: the outcome and the bits read, or how many bits there were where
    /// they ran out. It takes no memory.
    #[inline(always)]
    pub fn set_sample(&mut self, answer: &Answer)
        ensures { self.new ≡ answer_text answer.now }
    {
        self.clear();
        match answer {
            Answer::Ended(outcome, bits) => {
                push_outcome(self, outcome);
                self.push(b" bits ");
                self.push_number(*bits);
            }
            Answer::MoreBits(bits) => {
                self.push(b"more bits ");
                self.push_number(*bits);
            }
        }
        self.push(b"\n");
    }
}

/// The line of a run's answer, as [`Line::set_sample`] holds it. It takes no memory.
pub fn sample_line(answer: &Answer) -> Line
    ensures { result ≡ answer_text answer.now }
{
    let mut line = Line::new();
    line.set_sample(answer);
    line
}

/// The line of a program that is accepted: how many statements and how many names it has. It takes no memory.
pub fn check_line(statements: u64, names: u32) -> Line
    ensures { result ≡ accepted_text statements names }
{
    let mut line = Line::new();
    line.push(b"ok statements ");
    line.push_number(statements);
    line.push(b" names ");
    line.push_number(names);
    line.push(b"\n");
    line
}
