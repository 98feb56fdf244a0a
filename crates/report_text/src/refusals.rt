// Why a call gives no answer, and the line that says so.

ghost use Rattle.std.specs.Prelude.{◌≡◌, ◌≤◌, length};
ghost use Rattle.report_text.specs.Lines.{code_words, code_text, refusal_text};

use crate::line::Line;
use gcl_core::refusals::CODE_WORDS;
use std::alloc::AllocError;

/// Why a call gives no answer.
#[derive(Clone, Copy, PartialEq, Eq, Debug)]
pub enum Refusal {
    /// A text, words or a mass that are refused: the number of the code, and the place where the code has one.
    Coded(u8, Option<u64>),
    /// A read failed.
    Read,
    /// A write failed.
    Write,
    /// Out of memory.
    Memory,
    /// There is no such file.
    NoFile,
}

impl From<AllocError> for Refusal {
    ghost use Rattle.report_text.specs.declared.refusals.Refusal.TheVariants.{Memory};

    ghost from_gives = { λ _ e. e ≡ Memory };

    fn from(_: AllocError) -> Self {
        Refusal::Memory
    }
}

// The words of a code. A number that is no code has none.
fn code_words(code: u8) -> &'static str
    ensures words { result.now ≡ code_words code }
    ensures within { length result.now ≤ 25 }
{
    let at = usize::from(code);
    if at < CODE_WORDS.len() {
        CODE_WORDS[at]
    } else {
        ""
    }
}

fn code_line(code: u8) -> Line
    ensures text { result ≡ code_text code }
    ensures within { length result ≤ 75 }
{
    let mut line = Line::new();
    line.push(b"error E");
    line.push_number(code);
    line.push(b" ");
    line.push(code_words(code).as_bytes());
    line
}

/// The line of a refusal. A number that is no code has no words. It takes no memory.
pub fn fault_line(refusal: &Refusal) -> Line
    ensures { result ≡ refusal_text refusal.now }
{
    match refusal {
        Refusal::Coded(code, Some(at)) => {
            let mut line = code_line(*code);
            line.push(b" at ");
            line.push_number(*at);
            line.push(b"\n");
            line
        }
        Refusal::Coded(code, None) => {
            let mut line = code_line(*code);
            line.push(b"\n");
            line
        }
        Refusal::Read => Line::of(b"error read fault\n"),
        Refusal::Write => Line::of(b"error write fault\n"),
        Refusal::Memory => Line::of(b"error out of memory\n"),
        Refusal::NoFile => Line::of(b"error no file\n"),
    }
}
