// The commands, and the names of the files that they read.

ghost use Rattle.std.specs.Prelude.{◌≡◌, true, is_some, unwrap_or, MatchResult, []};
ghost use Rattle.weighted_roll.specs.Listed.{weights_in};

use crate::help::Topic;
use gcl_core::{Limits, TallyKey};
use report_text::Decimals;
use std::alloc::{AllocError, Global};
use std::marker::Model;
use stream_runs::SeedRange;
use weighted_roll::weights_in;

/// The name of a file, as a word of the call. It is seen as the list of its bytes.
#[derive(Drop)]
pub struct FileName {
    word: String,
}

impl Model for FileName {
    ghost use Rattle.std.specs.Prelude.{List, ℕ, string_bytes};

    ghost Value = { List ℕ };

    ghost view = { λ n. string_bytes n.word };
}

impl FileName {
    pub(crate) fn of(alloc: Global, word: &str) -> Result<FileName, AllocError>
        ensures { MatchResult result (λ name. name ≡ word.now) (λ _. Unit {0}) }
    {
        Ok(FileName {
            word: String::from_str(alloc, word)?,
        })
    }

    /// The word. It takes no memory.
    pub fn text(&self) -> &str
        ensures { result.now ≡ self.now }
    {
        self.word.as_str()
    }
}

/// The weights that a word of the call lists. They are seen as the list of them.
#[derive(Drop)]
pub struct WeightList {
    weights: Vec<u64>,
}

impl Model for WeightList {
    ghost use Rattle.std.specs.Prelude.{List, ℕ};

    ghost Value = { List ℕ };

    ghost view = { λ l. l.weights.items };
}

impl WeightList {
    pub(crate) fn of(alloc: Global, word: &str) -> Result<WeightList, AllocError>
        requires { is_some (weights_in word.now) ≡ true }
        ensures { MatchResult result (λ list. list ≡ unwrap_or (weights_in word.now) []) (λ _. Unit {0}) }
    {
        match weights_in(alloc, word)? {
            Some(weights) => Ok(WeightList { weights }),
            None => unreachable!(),
        }
    }

    /// The weights, in order. It takes no memory.
    pub fn weights(&self) -> &[u64]
        ensures { result.now ≡ self.now }
    {
        self.weights.as_slice()
    }
}

/// Where bits come from.
#[derive(Drop)]
pub enum Source {
    /// The file of this name.
    File(FileName),
    /// A stream: its seed, its number, and the most bits that are read of it.
    Stream(u64, u64, u64),
}

/// What is worked out of a checked program. Behind each fraction stand so many decimals.
#[derive(Drop)]
pub enum Work {
    /// One run.
    Sample(Source, Limits),
    /// The mass of each outcome, with limits of turns, attempts and rounds.
    Mass(u64, Option<u64>, Option<u64>, Decimals),
    /// How many bits a run reads on average, under limits or where nothing is limited.
    Cost(Option<Limits>, Decimals),
    /// How many bits a run reads on average, how many rounds it begins, and how many draws and turns of loops it makes, where nothing is
    /// limited.
    HowLong(Decimals),
    /// The bounds of each outcome for every greater limit of turns.
    Posterior(u64, Decimals),
    /// The mass of each outcome with no limit, and what never ends.
    Exact(Decimals),
    /// Two fractions between which the mass of each outcome lies, with limits of turns, attempts and rounds; whether they
    /// hold for every greater limit of turns.
    Enclose(u64, Option<u64>, Option<u64>, bool, Decimals),
    /// The audit of its runs by all bit strings of one length.
    Audit(u32, Limits, Decimals),
    /// The tally of its runs over the streams of a range; whether a line before it says what it is of.
    Tally(SeedRange, Limits, bool),
    /// The answers of its runs on the streams of a range, a line each; whether a line before them says what they are of.
    Runs(SeedRange, Limits, bool),
    /// The least stream of a range on which its run has this key; whether a line before it says what it is of.
    Hunt(SeedRange, Limits, TallyKey, bool),
    /// How many statements and names it has.
    Check,
    /// The code that samples it.
    Code,
    /// The canonical text of its forgetful program.
    Forgetful,
}

/// A command, with the files that it reads and its numbers.
#[derive(Drop)]
pub enum Command {
    /// Works on the program in the file, once it is checked.
    Checked(FileName, Work),
    /// Shows the canonical text of the program in the file.
    Show(FileName),
    /// Tallies the generated program of this number.
    Gen(u32),
    /// Draws a label by the Fast Dice Roller: how many labels, the most flips, and the source of bits; without a source, weighs
    /// the labels.
    Fast(u64, u64, Option<Source>, Decimals),
    /// Draws a label by these weights: the most flips, and the source of bits; without a source, weighs the labels.
    Roll(WeightList, u64, Option<Source>, Decimals),
    /// Tells of all commands, of the options of one, or of the version.
    Help(Topic),
}
