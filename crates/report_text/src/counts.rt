// The lines of counts.

ghost use Rattle.std.specs.Prelude.{◌≡◌};
ghost use Rattle.report_text.specs.Lines.{tally_text, number_text};

use crate::line::Line;
use crate::outcomes::key_line;
use gcl_core::TallyKey;

/// What is counted.
#[derive(Clone, Copy, Debug, PartialEq, Eq)]
pub enum Count {
    /// The statements of a program.
    Statements,
    /// The bytes of a text.
    Bytes,
    /// The streams of a tally.
    Streams,
}

/// The line of how many there are of something. It takes no memory.
pub fn number_line(n: u64, what: Count) -> Line
    ensures { result ≡ number_text what n }
{
    let mut line = Line::new();
    match what {
        Count::Statements => line.push(b"statements "),
        Count::Bytes => line.push(b"bytes "),
        Count::Streams => line.push(b"streams "),
    }
    line.push_number(n);
    line.push(b"\n");
    line
}

/// The line of how many streams have runs that end in an outcome, or that need more bits. It takes no memory.
pub fn tally_line(key: &TallyKey, count: u64) -> Line
    ensures { result ≡ tally_text key.now count }
{
    let mut line = key_line(key);
    line.push(b" count ");
    line.push_number(count);
    line.push(b"\n");
    line
}
