// The keys that words name.

ghost use Rattle.std.specs.Prelude.{◌≡◌};
ghost use Rattle.zar_cli.specs.Forms.{value_in, printed_value_in, want_named, key_named};

use gcl_core::{Fault, Limit, Outcome, TallyKey, number_in, value_named};

/// Each way to end that has words: one, and those with which it is printed. Code and definitions read this table.
pub const WANTS: [(&str, TallyKey); 16] = [
    (
        "overflow",
        TallyKey::Outcome(Outcome::Fault(Fault::Overflow)),
    ),
    (
        "zero-divisor",
        TallyKey::Outcome(Outcome::Fault(Fault::ZeroDivisor)),
    ),
    (
        "bad-bound",
        TallyKey::Outcome(Outcome::Fault(Fault::BadBound)),
    ),
    ("turns", TallyKey::Outcome(Outcome::Limit(Limit::Turns))),
    (
        "attempts",
        TallyKey::Outcome(Outcome::Limit(Limit::Attempts)),
    ),
    ("rounds", TallyKey::Outcome(Outcome::Limit(Limit::Rounds))),
    ("more-bits", TallyKey::MoreBits),
    (
        "zero divisor",
        TallyKey::Outcome(Outcome::Fault(Fault::ZeroDivisor)),
    ),
    (
        "bad bound",
        TallyKey::Outcome(Outcome::Fault(Fault::BadBound)),
    ),
    (
        "fault overflow",
        TallyKey::Outcome(Outcome::Fault(Fault::Overflow)),
    ),
    (
        "fault zero divisor",
        TallyKey::Outcome(Outcome::Fault(Fault::ZeroDivisor)),
    ),
    (
        "fault bad bound",
        TallyKey::Outcome(Outcome::Fault(Fault::BadBound)),
    ),
    (
        "limit turns",
        TallyKey::Outcome(Outcome::Limit(Limit::Turns)),
    ),
    (
        "limit attempts",
        TallyKey::Outcome(Outcome::Limit(Limit::Attempts)),
    ),
    (
        "limit rounds",
        TallyKey::Outcome(Outcome::Limit(Limit::Rounds)),
    ),
    ("more bits", TallyKey::MoreBits),
];

/// What stands before a value where it is printed.
pub const BEFORE_VALUES: &str = "value ";

// The value of 1 to 20 digits behind an optional minus sign, if it has 64 bits.
fn value_in(word: &str) -> Option<i64>
    ensures { result ≡ value_in word.now }
{
    match word.strip_prefix('-') {
        Some(digits) => Some(-i128::from(number_in(0, 1 << 63, digits)?) as i64),
        None => Some(number_in(0, (1 << 63) - 1, word)? as i64),
    }
}

// The same, also as it is printed.
fn printed_value_in(word: &str) -> Option<i64>
    ensures { result ≡ printed_value_in word.now }
{
    match word.strip_prefix(BEFORE_VALUES) {
        Some(value) => value_in(value),
        None => value_in(word),
    }
}

#[tactic(auto, unfolding(crate::specs::Forms::want_named))]
fn want_named(word: &str) -> Option<TallyKey>
    ensures { result ≡ want_named word.now }
{
    value_named(&WANTS, word.as_bytes())
}

// The way to end that a word names.
pub fn key_named(word: &str) -> Option<TallyKey>
    ensures { result ≡ key_named word.now }
{
    match want_named(word) {
        Some(key) => Some(key),
        None => Some(TallyKey::Outcome(Outcome::Value(printed_value_in(word)?))),
    }
}
