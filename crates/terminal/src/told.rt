//! The text of a line of progress.

use std::fmt;
use std::fmt::{Display, Formatter, Write};

// How far a command is that has lasted for so many milliseconds.
#[derive(Clone, Copy)]
pub enum Told {
    // Of its end nothing is known.
    Working(u64),
    // It has begun what stands behind so many streams, of so many.
    Counting(u64, u64, u64),
}

// A number of seconds, in whole seconds, minutes or hours.
#[derive(Clone, Copy)]
struct Seconds(u128);

impl Display for Seconds {
    fn fmt<W: Write>(&self, f: &mut Formatter<W>) -> fmt::Result {
        if self.0 < 120 {
            write!(f, "{} s", self.0)
        } else if self.0 < 7200 {
            write!(f, "{} min", self.0 / 60)
        } else {
            write!(f, "{} h", self.0 / 3600)
        }
    }
}

// How many streams were done in a second, if it was one or more.
fn rate(time: u64, before: u64) -> Option<u128> {
    let done = u128::from(before).saturating_mul(1000);
    done.checked_div(u128::from(time)).filter(|n| *n > 0)
}

// In how many seconds the streams that are left are done at the same rate.
fn left(time: u64, before: u64, all: u64) -> Option<Seconds> {
    let rest = u128::from(all.saturating_sub(before));
    let time = rest.saturating_mul(u128::from(time));
    let seconds = time.checked_div(u128::from(before).saturating_mul(1000))?;
    Some(Seconds(seconds))
}

impl Display for Told {
    fn fmt<W: Write>(&self, f: &mut Formatter<W>) -> fmt::Result {
        match *self {
            Told::Working(time) => write!(f, "working, {}", Seconds(u128::from(time / 1000))),
            Told::Counting(time, before, all) => {
                write!(f, "{before} of {all} streams")?;
                if let Some(rate) = rate(time, before) {
                    write!(f, ", {rate} a second")?;
                }
                if let Some(left) = left(time, before, all) {
                    write!(f, ", {left} left")?;
                }
                Ok(())
            }
        }
    }
}
