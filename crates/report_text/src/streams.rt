// The line of a hunt.

ghost use Rattle.std.specs.Prelude.{◌≡◌};
ghost use Rattle.report_text.specs.Lines.{hunt_text};

use crate::line::Line;

/// The line of the stream that was found, or of there being none. It takes no memory.
pub fn hunt_line(i: Option<u64>) -> Line
    ensures { result ≡ hunt_text i }
{
    let mut line = Line::new();
    line.push(b"stream ");
    match i {
        Some(stream) => line.push_number(stream),
        None => line.push(b"none"),
    }
    line.push(b"\n");
    line
}
