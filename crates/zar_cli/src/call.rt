// A call of the program.

ghost use Rattle.std.specs.Prelude.{◌≡◌, ◌^◌, ◌<◌, length};
ghost use Rattle.zar_cli.specs.Reading.{IsRead};

use crate::command::{Command, Work};
use crate::words::{WordsError, read_words};
use std::alloc::Global;

/// The words of a call, read once: with the command that they spell, or why there is none.
#[derive(Drop)]
pub struct Call<'a> {
    pub(crate) words: &'a [String],
    pub(crate) command: Result<Command, WordsError>,
}

impl<'a> Call<'a> {
    /// The call of these words.
    pub fn of(alloc: Global, words: &'a [String]) -> Call<'a>
        requires { length words.now < 2 ^ 32 }
        ensures words { result.words ≡ words.entry }
        ensures read { IsRead result }
    {
        Call {
            words,
            command: read_words(alloc, words),
        }
    }

    /// Its words, without the name of the program.
    pub fn words(&self) -> &'a [String]
        ensures { result ≡ self.now.words }
    {
        self.words
    }

    /// How many streams it counts or seeks through, or writes a line of.
    pub fn streams(&self) -> Option<u64> {
        match &self.command {
            Ok(
                Command::Checked(
                    _,
                    Work::Tally(range, _, _) | Work::Runs(range, _, _) | Work::Hunt(range, _, _, _),
                ),
            ) => Some(range.to.saturating_sub(range.from)),
            _ => None,
        }
    }

    /// It writes a line of each run.
    pub fn writes_runs(&self) -> bool {
        matches!(&self.command, Ok(Command::Checked(_, Work::Runs(_, _, _))))
    }
}
