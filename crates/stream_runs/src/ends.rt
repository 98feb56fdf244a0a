// How a run ends, as two numbers: its value, and which end it is.

ghost use Rattle.std.specs.Prelude.{◌≡◌};
ghost use Rattle.stream_runs.specs.Ends.{end_of, value_of};

use gcl_core::{Answer, Fault, Limit, Outcome};

/// The run ended with a value.
pub const VALUE: u8 = 0;
/// It ended with a result outside the numbers of 64 bits.
pub const OVERFLOW: u8 = 1;
/// It ended with a division or a remainder by 0.
pub const ZERO_DIVISOR: u8 = 2;
/// It ended with a uniform draw of a bound below 1.
pub const BAD_BOUND: u8 = 3;
/// The limit of turns cut it off.
pub const TURNS: u8 = 4;
/// The limit of attempts cut it off.
pub const ATTEMPTS: u8 = 5;
/// The limit of rounds cut it off.
pub const ROUNDS: u8 = 6;
/// It needed more bits than it was given.
pub const MORE_BITS: u8 = 7;

/// The number of the end of a run.
pub fn end_of(answer: Answer) -> u8
    ensures { result ≡ end_of answer }
{
    match answer {
        Answer::Ended(Outcome::Value(_), _) => VALUE,
        Answer::Ended(Outcome::Fault(Fault::Overflow), _) => OVERFLOW,
        Answer::Ended(Outcome::Fault(Fault::ZeroDivisor), _) => ZERO_DIVISOR,
        Answer::Ended(Outcome::Fault(Fault::BadBound), _) => BAD_BOUND,
        Answer::Ended(Outcome::Limit(Limit::Turns), _) => TURNS,
        Answer::Ended(Outcome::Limit(Limit::Attempts), _) => ATTEMPTS,
        Answer::Ended(Outcome::Limit(Limit::Rounds), _) => ROUNDS,
        Answer::MoreBits(_) => MORE_BITS,
    }
}

/// The value with which a run ended, or 0 where it ended with none.
pub fn value_of(answer: Answer) -> i64
    ensures { result ≡ value_of answer }
{
    match answer {
        Answer::Ended(Outcome::Value(value), _) => value,
        _ => 0,
    }
}
