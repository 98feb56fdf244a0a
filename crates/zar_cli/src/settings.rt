// The commands by their words, the options that each takes, and the forms of the words behind them.

ghost use Rattle.std.specs.Prelude.{◌≡◌, is_some, map, option_map, IfSome};
ghost use Rattle.zar_cli.specs.OptionWords.{fits};
ghost use Rattle.gcl_core.specs.text.Names.{same_name, value_named};
ghost use Rattle.zar_cli.specs.Words.{Row, row_named};
ghost use Rattle.zar_cli.specs.inner.OptionsView.{first_form, IsNumberOf};

use crate::keys::key_named;
use audit_walk::MOST_DEPTH;
use dice_roll::{LEAST_LABELS, MOST_FLIPS, MOST_LABELS};
use gcl_core::{MOST_LIMIT, number_in};
use generated_program::GREATEST_NUMBER;
use report_text::MOST_DECIMALS;
use stream_runs::MOST_WORKERS;
use weighted_roll::lists_weights;
use zar_io::MOST_BUDGET;

/// The word of a command.
#[derive(Clone, Copy, Debug, PartialEq, Eq)]
pub enum Verb {
    Sample,
    Mass,
    Cost,
    Posterior,
    Exact,
    Enclose,
    Audit,
    Tally,
    Runs,
    Hunt,
    Check,
    Show,
    Code,
    Gen,
    Fast,
    Roll,
}

/// What a word has to be.
#[derive(Clone, Copy)]
pub enum Form {
    /// The name of a file: any word that is not empty.
    Name,
    /// A number, from the least to the most.
    Number(u64, u64),
    /// A way to end: words of `WANTS`, or a value.
    Wanted,
    /// Weights that a roll may have, with a comma between two.
    Weights,
    /// None: the option stands alone.
    Alone,
}

/// An option: its word, and the form of the value behind it.
pub type Setting = (&'static str, Form);

// The options, with the ranges of their values.
pub const BITS: Setting = ("--bits", Form::Name);

pub const SEED: Setting = ("--seed", Form::Number(0, u64::MAX));

pub const STREAM: Setting = ("--stream", Form::Number(0, u64::MAX));

pub const BUDGET: Setting = ("--budget", Form::Number(0, MOST_BUDGET));

pub const FROM: Setting = ("--from", Form::Number(0, u64::MAX));

pub const TO: Setting = ("--to", Form::Number(0, u64::MAX));

pub const WORKERS: Setting = ("--workers", Form::Number(1, MOST_WORKERS as u64));

pub const DEPTH: Setting = ("--depth", Form::Number(0, MOST_DEPTH as u64));

pub const FLIPS: Setting = ("--flips", Form::Number(0, MOST_FLIPS));

pub const TURNS: Setting = ("--turns", Form::Number(0, MOST_LIMIT));

pub const ATTEMPTS: Setting = ("--attempts", Form::Number(1, MOST_LIMIT));

pub const ROUNDS: Setting = ("--rounds", Form::Number(1, MOST_LIMIT));

pub const WANT: Setting = ("--want", Form::Wanted);

pub const ALL_TURNS: Setting = ("--all-turns", Form::Alone);

/// It is said how long a run takes, too.
pub const HOW_LONG: Setting = ("--how-long", Form::Alone);

/// So many decimals stand behind each fraction.
pub const DECIMALS: Setting = ("--decimals", Form::Number(1, MOST_DECIMALS as u64));

/// The forgetful program is shown.
pub const FORGETFUL: Setting = ("--forgetful", Form::Alone);

pub const NAMED: Setting = ("--named", Form::Alone);

/// What a refusal means is written behind its line.
pub const EXPLAIN: Setting = ("--explain", Form::Alone);

// The options of commands.
const SAMPLE: &[Setting] = &[BITS, SEED, STREAM, BUDGET, TURNS, ATTEMPTS, ROUNDS, EXPLAIN];

const LIMITS: &[Setting] = &[TURNS, ATTEMPTS, ROUNDS, DECIMALS, EXPLAIN];

const COST: &[Setting] = &[TURNS, ATTEMPTS, ROUNDS, HOW_LONG, DECIMALS, EXPLAIN];

const ONE_LIMIT: &[Setting] = &[TURNS, DECIMALS, EXPLAIN];

const EXACT: &[Setting] = &[DECIMALS, EXPLAIN];

const NO_OTHER: &[Setting] = &[EXPLAIN];

const ENCLOSE: &[Setting] = &[TURNS, ATTEMPTS, ROUNDS, ALL_TURNS, DECIMALS, EXPLAIN];

const SHOW: &[Setting] = &[FORGETFUL, EXPLAIN];

const AUDIT: &[Setting] = &[DEPTH, TURNS, ATTEMPTS, ROUNDS, DECIMALS, EXPLAIN];

const TALLY: &[Setting] = &[
    SEED, FROM, TO, BUDGET, WORKERS, TURNS, ATTEMPTS, ROUNDS, NAMED, EXPLAIN,
];

const HUNT: &[Setting] = &[
    SEED, FROM, TO, WANT, BUDGET, WORKERS, TURNS, ATTEMPTS, ROUNDS, NAMED, EXPLAIN,
];

const ROLL: &[Setting] = &[BITS, SEED, STREAM, BUDGET, FLIPS, DECIMALS, EXPLAIN];

// The numbers behind `gen` and `fast`.
const GENERATED: Form = Form::Number(LEAST_GENERATED, GREATEST_NUMBER as u64);

const LABELS: Form = Form::Number(LEAST_LABELS, MOST_LABELS);

/// A command: what it is, the form of the word behind it, the options that it takes, and those of them that it needs.
pub type Row = (Verb, Form, &'static [Setting], &'static [Setting]);

/// Each command by its word. Code and definitions read this table.
pub const VERBS: [(&str, Row); 16] = [
    ("sample", (Verb::Sample, Form::Name, SAMPLE, &[])),
    ("mass", (Verb::Mass, Form::Name, LIMITS, &[])),
    ("cost", (Verb::Cost, Form::Name, COST, &[])),
    ("posterior", (Verb::Posterior, Form::Name, ONE_LIMIT, &[])),
    ("exact", (Verb::Exact, Form::Name, EXACT, &[])),
    ("enclose", (Verb::Enclose, Form::Name, ENCLOSE, &[])),
    ("audit", (Verb::Audit, Form::Name, AUDIT, &[DEPTH])),
    ("tally", (Verb::Tally, Form::Name, TALLY, &[SEED, FROM, TO])),
    ("runs", (Verb::Runs, Form::Name, TALLY, &[SEED, FROM, TO])),
    (
        "hunt",
        (Verb::Hunt, Form::Name, HUNT, &[SEED, FROM, TO, WANT]),
    ),
    ("check", (Verb::Check, Form::Name, NO_OTHER, &[])),
    ("show", (Verb::Show, Form::Name, SHOW, &[])),
    ("code", (Verb::Code, Form::Name, NO_OTHER, &[])),
    ("gen", (Verb::Gen, GENERATED, NO_OTHER, &[])),
    ("fast", (Verb::Fast, LABELS, ROLL, &[])),
    ("roll", (Verb::Roll, Form::Weights, ROLL, &[])),
];

/// The words that ask for help.
pub const HELP: [&str; 3] = ["help", "--help", "-h"];

/// The words that ask for it behind a command, where a file may have the name `help`.
pub const HELP_BEHIND: [&str; 2] = ["--help", "-h"];

/// The word that asks for the version.
pub const VERSION_WORD: &str = "--version";

/// The limit of turns, of attempts and of rounds where none is given.
pub const USUAL_LIMIT: u64 = 1000;
/// The limit of turns under which masses, bounds and, where they have limits, expected bits are worked out where none is given.
pub const USUAL_MASS_TURNS: u64 = 30;
/// The budget of bits of a stream where none is given.
pub const USUAL_BUDGET: u64 = 65_536;
/// The workers on a range of streams where no number is given.
pub const USUAL_WORKERS: u64 = 4;
/// The least number of a generated program.
pub const LEAST_GENERATED: u64 = 1;
/// How many streams a generated program is tallied over.
pub const GENERATED_STREAMS: u64 = 1000;
/// The limit of flips under which a label is drawn where none is given.
pub const USUAL_FLIPS: u64 = 1000;
/// The limit of flips under which the labels of a roll are weighed where none is given.
pub const USUAL_WEIGHED_FLIPS: u64 = 30;

fn is_same(word: &str, other: &str) -> bool
    ensures { result ≡ same_name word.now other.now }
{
    word == other
}

// What stands beside a word in such a table, at its first place. That a row's slices are seen as lists is said here, row by row.
fn row_in(mut table: &[(&str, Row)], word: &str) -> Option<Row>
    ensures { option_map {U = Row} (λ r. (r.0, r.1, map (λ s. (s.0.now, s.1)) r.2.now, map (λ s. (s.0.now, s.1)) r.3.now)) result
        ≡ value_named {A = Row} (map (λ r. (
          r.0.now,
          (r.1.0, r.1.1, map (λ s. (s.0.now, s.1)) r.1.2.now, map (λ s. (s.0.now, s.1)) r.1.3.now),
        )) table.entry.now) word.now }
{
    while let [row, rest @ ..] = table {
        if is_same(word, row.0) {
            return Some(row.1);
        }
        table = rest;
    }
    None
}

/// The row of the command that a word is.
#[tactic(auto, unfolding(crate::specs::Words::row_named))]
pub fn row_named(word: &str) -> Option<Row>
    ensures row { option_map {U = Row}
        (λ r. (r.0, r.1, map (λ s. (s.0.now, s.1)) r.2.now, map (λ s. (s.0.now, s.1)) r.3.now)) result ≡ row_named word.now }
    ensures first { IfSome result (λ r. r.1 ≡ first_form r.0) }
{
    row_in(&VERBS, word)
}

impl Form {
    /// The word is of this form: its number where it is one, and else 0.
    pub fn number(self, word: &str) -> Option<u64>
        ensures fits { is_some result ≡ fits self word.now }
        ensures number { IfSome result (IsNumberOf self word.now) }
    {
        match self {
            Form::Name if word.is_empty() => None,
            Form::Name => Some(0),
            Form::Number(least, most) => number_in(least, most, word),
            Form::Wanted => match key_named(word) {
                Some(_) => Some(0),
                None => None,
            },
            Form::Weights if lists_weights(word) => Some(0),
            Form::Weights | Form::Alone => None,
        }
    }
}
