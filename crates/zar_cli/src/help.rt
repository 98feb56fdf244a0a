// What `help` and `--version` print. A number in brackets stands where the option is not given.

ghost use Rattle.std.specs.Prelude.{◌≡◌, ◌<◌, ◌++◌, [], map, flat_map, unwrap_or, slice_get};
ghost use Rattle.zar_cli.specs.Help.{piece_text, page_text, refusal_page, command_page, topic_text};
ghost use Rattle.zar_cli.specs.Words.{code_behind, code_named, is_one_of, topic_named};
ghost use Rattle.zar_cli.specs.declared.settings.TheConstants.{HELP};

use crate::explained::REFUSALS;
use crate::settings::{
    HELP, LEAST_GENERATED, USUAL_BUDGET, USUAL_FLIPS, USUAL_LIMIT, USUAL_MASS_TURNS,
    USUAL_WEIGHED_FLIPS, USUAL_WORKERS, Verb, row_named,
};
use audit_walk::MOST_DEPTH;
use dice_roll::{LEAST_LABELS, MOST_FLIPS, MOST_LABELS};
use gcl_core::refusals::TOO_UNLIKELY;
use gcl_core::{MOST_LIMIT, number_in};
use generated_program::GREATEST_NUMBER;
use report_text::{MOST_DECIMALS, VERSION_LINE};
use stream_runs::MOST_WORKERS;
use weighted_roll::{GREATEST_SUM, MOST_LISTED};
use zar_io::MOST_BUDGET;

/// What help is asked for.
#[derive(Clone, Copy, Debug, PartialEq, Eq)]
pub enum Topic {
    /// All commands.
    Everything,
    /// The options of one.
    One(Verb),
    /// What a refusal means, by the number of its code.
    Refused(u8),
    Version,
}

/// Words, and the number behind them where there is one.
pub type Piece = (&'static str, Option<u64>);

/// Pieces that stand one behind the other.
pub type Part = &'static [Piece];

/// The words that a page begins with, and its parts. Pages share parts.
pub type Page = (&'static str, &'static [Part]);

// Options, up to the greatest number that they take.
const TURNS: Piece = (
    "--turns N     turns for each entry of a loop, 0 to ",
    Some(MOST_LIMIT),
);

const ATTEMPTS: Piece = (
    "--attempts N  attempts for each draw, 1 to ",
    Some(MOST_LIMIT),
);

const ROUNDS: Piece = ("--rounds N    rounds, 1 to ", Some(MOST_LIMIT));

const DEPTH: Piece = (
    "--depth N     the length of the strings in bits, 0 to ",
    Some(MOST_DEPTH as u64),
);

const WANT: Piece = (
    "--want X      a value, or overflow, zero-divisor, bad-bound, turns, attempts, rounds or more-bits, or as tally prints it\n",
    None,
);

// What stands where they are not given.
const REQUIRED: Piece = ("\n", None);

const NO_LIMIT: Piece = (" (no limit)\n", None);

const USUAL: Piece = (" (", Some(USUAL_LIMIT));

const END: Piece = (")\n", None);

const ALL_TURNS: Piece = (
    "--all-turns   bounds for every greater limit of turns\n",
    None,
);

const HOW_LONG: Piece = (
    "--how-long    with the rounds, the draws and the turns of loops; without limits\n",
    None,
);

const FORGETFUL: Piece = (
    "--forgetful   with x := 0; where x is read no more, as exact and enclose take the program\n",
    None,
);

// The decimals behind fractions.
const DECIMALS: Part = &[
    (
        "--decimals N  N decimals behind each fraction: to the nearest, bounds outwards; 1 to ",
        Some(MOST_DECIMALS as u64),
    ),
    ("\n", None),
];

// The line of a part of many streams.
const NAMED: Part = &[(
    "--named       a line before the answer, with the SHA-256 of the canonical text, the range, the budget and the limits\n",
    None,
)];

// Every command takes it.
const EXPLAIN: Part = &[(
    "--explain     what a refusal means, behind its line; also by ZAR_EXPLAIN=1\n",
    None,
)];

// The limits of a run.
const LIMITS: Part = &[TURNS, USUAL, END, ATTEMPTS, USUAL, END, ROUNDS, USUAL, END];

// The turns under which masses, expected bits and bounds are worked out.
const MASS_TURNS: Part = &[TURNS, (" (", Some(USUAL_MASS_TURNS)), END];

// The bits of one run.
const ONE_RUN: Part = &[
    ("--bits FILE   the file of bits\n", None),
    (
        "--seed N      the seed of the stream, 0 to ",
        Some(u64::MAX),
    ),
    ("\n--stream N    its number, 0 to ", Some(u64::MAX)),
    (
        " (0)\n--budget N    the most bits of it, 0 to ",
        Some(MOST_BUDGET),
    ),
    (" (", Some(USUAL_BUDGET)),
    END,
];

// The streams of a range.
const RANGE: Part = &[
    (
        "--seed N      the seed of the streams, 0 to ",
        Some(u64::MAX),
    ),
    ("\n--from N      the first stream, 0 to ", Some(u64::MAX)),
    (
        "\n--to N        the one behind the last, 0 to ",
        Some(u64::MAX),
    ),
    REQUIRED,
];

// What is read of each stream, and by how many threads.
const WORK: Part = &[
    (
        "--budget N    the most bits of each stream, 0 to ",
        Some(MOST_BUDGET),
    ),
    (" (", Some(USUAL_BUDGET)),
    (")\n--workers N   threads, 1 to ", Some(MOST_WORKERS as u64)),
    (" (", Some(USUAL_WORKERS)),
    END,
];

// What stands between the commas.
const WEIGHTS: Part = &[
    ("W,W,..       2 to ", Some(MOST_LISTED as u64)),
    (" weights that add up to 1 to ", Some(GREATEST_SUM)),
    (", none of them the whole sum\n", None),
];

// The flips of a roll.
const FLIPS: Part = &[
    ("--flips N     the most flips, 0 to ", Some(MOST_FLIPS)),
    (" (", Some(USUAL_FLIPS)),
    ("; without bits ", Some(USUAL_WEIGHED_FLIPS)),
    END,
];

pub const VERSION: Page = (VERSION_LINE, &[]);

pub const COMMANDS: Page = (
    "zar sample FILE --bits FILE
    run the program once, on the bits of a file
zar sample FILE --seed N
    run the program once, on the bits of a seeded stream
zar mass FILE
    print each outcome with its exact mass
zar cost FILE
    print how many bits a run reads on average
zar posterior FILE
    print each value and fault with bounds that hold for every greater limit of turns
zar exact FILE
    print each outcome with its exact mass where nothing is limited, and what never ends
zar enclose FILE
    print two fractions between which the mass of each outcome lies, rounded to 120 bits
zar audit FILE --depth N
    print how all strings of N bits end
zar tally FILE --seed N --from N --to N
    count how the runs on a range of streams end
zar runs FILE --seed N --from N --to N
    run the program on each stream of a range, and print the outcomes in order
zar hunt FILE --seed N --from N --to N --want OUTCOME
    print the least stream of a range with a wanted outcome
zar check FILE
    check the program, and count its statements and names
zar show FILE
    print its canonical text
zar code FILE
    list the code that samples it
zar gen N
    generate a program from a number, and print its size and a tally of it
zar fast N
    draw one of N labels, or print what they weigh
zar roll W,W,..
    draw a label by weights, or print what the labels weigh
zar help COMMAND
    print the options of a command
zar help CODE
    say what a refusal means, by its code, E1 to E17
zar --version
    print the version
",
    &[],
);

pub const SAMPLE: Page = (
    "zar sample FILE --bits FILE
zar sample FILE --seed N
    run the program once, and print the outcome and how many bits were read

",
    &[ONE_RUN, LIMITS, EXPLAIN],
);

pub const MASS: Page = (
    "zar mass FILE
    print each outcome with its exact mass

",
    &[
        MASS_TURNS,
        &[ATTEMPTS, NO_LIMIT, ROUNDS, NO_LIMIT],
        DECIMALS,
        EXPLAIN,
    ],
);

pub const COST: Page = (
    "zar cost FILE
    print how many bits a run reads on average where nothing is limited
zar cost FILE --how-long
    print how many rounds it begins, and how many draws and turns of loops it makes, too
zar cost FILE --attempts N --rounds N
    print how many under limits, of turns too

",
    &[
        &[HOW_LONG],
        &[ATTEMPTS, REQUIRED, ROUNDS, REQUIRED],
        MASS_TURNS,
        DECIMALS,
        EXPLAIN,
    ],
);

pub const POSTERIOR: Page = (
    "zar posterior FILE
    print each value and fault with bounds that hold for every greater limit of turns

",
    &[MASS_TURNS, DECIMALS, EXPLAIN],
);

pub const EXACT: Page = (
    "zar exact FILE
    print each outcome with its exact mass where nothing is limited, and what never ends

",
    &[DECIMALS, EXPLAIN],
);

pub const ENCLOSE: Page = (
    "zar enclose FILE
    print two fractions between which the mass of each outcome lies, rounded to 120 bits

",
    &[
        MASS_TURNS,
        &[ATTEMPTS, NO_LIMIT, ROUNDS, NO_LIMIT, ALL_TURNS],
        DECIMALS,
        EXPLAIN,
    ],
);

pub const AUDIT: Page = (
    "zar audit FILE --depth N
    print how all strings of N bits end

",
    &[&[DEPTH, REQUIRED], LIMITS, DECIMALS, EXPLAIN],
);

pub const TALLY: Page = (
    "zar tally FILE --seed N --from N --to N
    count how the runs on a range of streams end

",
    &[RANGE, WORK, LIMITS, NAMED, EXPLAIN],
);

pub const RUNS: Page = (
    "zar runs FILE --seed N --from N --to N
    run the program on each stream of a range, and print the outcomes in order

",
    &[RANGE, WORK, LIMITS, NAMED, EXPLAIN],
);

pub const HUNT: Page = (
    "zar hunt FILE --seed N --from N --to N --want OUTCOME
    print the least stream of a range with a wanted outcome

",
    &[RANGE, &[WANT], WORK, LIMITS, NAMED, EXPLAIN],
);

pub const CHECK: Page = (
    "zar check FILE
    check the program, and count its statements and names

",
    &[EXPLAIN],
);

pub const SHOW: Page = (
    "zar show FILE
    print the canonical text of the program

",
    &[&[FORGETFUL], EXPLAIN],
);

pub const CODE: Page = (
    "zar code FILE
    list the code that samples the program

",
    &[EXPLAIN],
);

pub const GEN: Page = (
    "zar gen N
    generate a program from a number, ",
    &[
        &[
            ("", Some(LEAST_GENERATED)),
            (" to ", Some(GREATEST_NUMBER as u64)),
            (", and print its size and a tally of it\n\n", None),
        ],
        EXPLAIN,
    ],
);

pub const FAST: Page = (
    "zar fast N
    print what N labels weigh, ",
    &[
        &[
            ("", Some(LEAST_LABELS)),
            (" to ", Some(MOST_LABELS)),
            (
                "
zar fast N --bits FILE
zar fast N --seed N
    draw one of N labels

",
                None,
            ),
        ],
        ONE_RUN,
        FLIPS,
        DECIMALS,
        EXPLAIN,
    ],
);

pub const ROLL: Page = (
    "zar roll W,W,..
    print what labels of these weights weigh, and how many flips a roll makes on average
zar roll W,W,.. --bits FILE
zar roll W,W,.. --seed N
    draw a label by these weights

",
    &[WEIGHTS, ONE_RUN, FLIPS, DECIMALS, EXPLAIN],
);

// The page at a place of a table, which has none behind its end.
fn page_at(table: &[Page], at: usize) -> Page
    ensures { result.0.now ++ flat_map (λ part. flat_map (λ piece. piece_text piece.0.now piece.1) part.now) result.1.now
        ≡ unwrap_or (slice_get (map (λ page.
        page.0.now ++ flat_map (λ part. flat_map (λ piece. piece_text piece.0.now piece.1) part.now) page.1.now)
        table.now) at) [] }
{
    if at < table.len() {
        table[at]
    } else {
        ("", &[])
    }
}

// What the refusal of a code means. A number that is no code has no words.
#[tactic(auto, unfolding(crate::specs::Help::refusal_page))]
fn refusal_page(code: u8) -> Page
    ensures { result.0.now ++ flat_map (λ part. flat_map (λ piece. piece_text piece.0.now piece.1) part.now) result.1.now
        ≡ refusal_page code }
{
    page_at(&REFUSALS, usize::from(code))
}

// The number of a code behind its letter.
fn code_behind(letter: char, word: &str) -> Option<u8>
    requires { letter < 128 }
    ensures { result ≡ code_behind letter word.now }
{
    match word.strip_prefix(letter) {
        Some(digits) => Some(number_in(1, u64::from(TOO_UNLIKELY), digits)? as u8),
        None => None,
    }
}

// The number of the code that a word is.
fn code_named(word: &str) -> Option<u8>
    ensures { result ≡ code_named word.now }
{
    match code_behind('E', word) {
        Some(code) => Some(code),
        None => code_behind('e', word),
    }
}

/// The word asks for help.
pub fn asks_for_help(word: &str) -> bool
    ensures { result ≡ is_one_of HELP word.now }
{
    HELP.iter().any(|help| *help == word)
}

/// What help is asked for by the word of a command, by the code of a refusal, or by a word that asks for help.
pub fn topic_named(word: &str) -> Option<Topic>
    ensures { result ≡ topic_named word.now }
{
    if asks_for_help(word) {
        return Some(Topic::Everything);
    }
    match row_named(word) {
        Some(row) => Some(Topic::One(row.0)),
        None => Some(Topic::Refused(code_named(word)?)),
    }
}

// The page of a command.
fn command_page(verb: Verb) -> Page
    ensures { result.0.now ++ flat_map (λ part. flat_map (λ piece. piece_text piece.0.now piece.1) part.now) result.1.now
        ≡ page_text (command_page verb) }
{
    match verb {
        Verb::Sample => SAMPLE,
        Verb::Mass => MASS,
        Verb::Cost => COST,
        Verb::Posterior => POSTERIOR,
        Verb::Exact => EXACT,
        Verb::Enclose => ENCLOSE,
        Verb::Audit => AUDIT,
        Verb::Tally => TALLY,
        Verb::Runs => RUNS,
        Verb::Hunt => HUNT,
        Verb::Check => CHECK,
        Verb::Show => SHOW,
        Verb::Code => CODE,
        Verb::Gen => GEN,
        Verb::Fast => FAST,
        Verb::Roll => ROLL,
    }
}

/// The page that is asked for.
pub fn page_of(topic: Topic) -> Page
    ensures { result.0.now ++ flat_map (λ part. flat_map (λ piece. piece_text piece.0.now piece.1) part.now) result.1.now
        ≡ topic_text topic }
{
    match topic {
        Topic::Everything => COMMANDS,
        Topic::One(verb) => command_page(verb),
        Topic::Refused(code) => refusal_page(code),
        Topic::Version => VERSION,
    }
}
