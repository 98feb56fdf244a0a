// Draws below a bound, through the bits of a word.

ghost use Rattle.std.specs.Prelude.{◌≡◌, ◌+◌, ◌^◌, ◌<◌, ◌≤◌, pos, length, slice_get, Some};
ghost use Rattle.formula.specs.ReadBack.{expression_in};
ghost use Rattle.sampler_code.specs.Instruction.{Range};
ghost use Rattle.sampler_code.specs.Machine.{below, stored};
ghost use Rattle.sampler_run.specs.inner.Ran.{CanRun, HasMoved, DrawMoves};
ghost use Rattle.sampler_run.specs.inner.Shape.{SameShape};
ghost use Rattle.sampler_run.specs.Views.{drawing_of, machine_of};

use crate::drawing::{Attempt, Drawing};
use crate::machine::{Pace, Registers, bound_for};
use crate::trials::{Came, Trial, attempts};
use draw_tree::bits_for;
use formula::Formula;
use gcl_core::{Limit, Limits, Outcome};
use sampler_code::Code;

// A number is drawn and stored, and the next instruction follows.
#[inline(always)]
fn store_number(m: &mut Registers, x: u32, number: u64)
    requires place { x < length m.old.vars.items }
    requires within { m.old.index + 1 < 2 ^ 64 }
    requires small { number < 2 ^ 63 }
    ensures stored { machine_of m.new ≡ stored (machine_of m.old) x (pos number) }
    ensures shape { SameShape m.old m.new }
{
    m.vars[x as usize] = number as i64;
    m.index += 1;
    m.drawing = Drawing::Idle;
}

// A draw that is at an attempt.
#[inline(always)]
fn under_way(bound: u64, trial: Trial) -> Drawing
    requires bound { (bound < 2 ^ 63) × (0 < bound) }
    requires need { trial.need < 64 }
    ensures { drawing_of result ≡ below bound trial.need trial.low }
{
    Drawing::Below(Attempt {
        bound,
        need: trial.need,
        low: trial.low,
    })
}

// A draw below a bound from an attempt on, to where it is done, or the bits are used up and it needs one more, or no attempt is
// left.
#[inline(always)]
fn draw_from(
    bound: u64,
    trial: Trial,
    x: u32,
    m: &mut Registers,
    word: u64,
    left: &mut u32,
) -> (Pace, usize)
    requires bound { (bound < 2 ^ 63) × (0 < bound) }
    requires need { trial.need < 64 }
    requires left { trial.left ≤ 64 }
    requires place { x < length m.old.vars.items }
    requires within { m.old.index + 1 < 2 ^ 64 }
    ensures moved { DrawMoves bound trial x m.old m.new word left.old left.new result.0 }
    ensures next { result.1 ≡ m.new.index }
{
    let (trial, came) = attempts(bound, word, trial);
    m.tries = trial.tries;
    m.used = trial.used;
    *left = trial.left;
    match came {
        Came::Number(number) => {
            store_number(m, x, number);
            (Pace::On, m.index)
        }
        Came::NeedBit => {
            m.drawing = under_way(bound, trial);
            (Pace::NeedBit, m.index)
        }
        Came::Rejected => {
            m.drawing = under_way(bound, trial);
            (Pace::Ended(Outcome::Limit(Limit::Attempts)), m.index)
        }
    }
}

// A draw below a bound, begun or under way, as far as that.
#[inline(always)]
pub(crate) fn draw(
    code: &Code,
    x: u32,
    e: &Formula,
    limits: &Limits,
    m: &mut Registers,
    word: u64,
    left: &mut u32,
) -> (Pace, usize)
    requires at { slice_get code.now.instrs m.old.index ≡ Some (Range x (expression_in e.now)) }
    requires within { m.old.index + 1 < 2 ^ 64 }
    requires can { CanRun code.now.instrs limits.now m.old left.old }
    ensures moved { HasMoved code.now.instrs limits.now m.old m.new word left.old left.new result.0 }
    ensures next { result.1 ≡ m.new.index }
{
    match m.drawing {
        Drawing::Idle => match bound_for(m, e) {
            Ok(bound) => {
                let trial = Trial {
                    need: bits_for(bound),
                    low: 0,
                    tries: limits.attempts,
                    used: m.used,
                    left: *left,
                };
                draw_from(bound, trial, x, m, word, left)
            }
            Err(outcome) => (Pace::Ended(outcome), m.index),
        },
        Drawing::Below(attempt) => {
            let trial = Trial {
                need: attempt.need,
                low: attempt.low,
                tries: m.tries,
                used: m.used,
                left: *left,
            };
            draw_from(attempt.bound, trial, x, m, word, left)
        }
    }
}
