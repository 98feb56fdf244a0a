//! The library for C. An export requires nothing but what the types of its parameters say, and tests the rest. It keeps nothing
//! between calls, starts no thread, and opens no file.
//!
//! Proved: with status 0, `zar_draws` and `zar_roll` have filled the places of both arrays, all of them, with the ends and
//! values of the runs or rolls on the streams that were asked for (`drawn`, `rolled`), and with any other status the arrays stay
//! as they were (`untouched`). So has `zar_draws_in_a_row` with runs in a row on one stream, `zar_run` tells the run on the bits
//! that it was given (`ran`), and `zar_hunt` the least stream with the run that is wanted (`found`). The calls for lines, as
//! `zar_mass`, tell exactly the lines of their command or why there are none, and write them where they fit (`ensures`). The
//! status is 1 only where the text spells no program, and 6 only where the cause of the code holds: of `zar_exact`,
//! `zar_cost_in_the_limit` and `zar_rounds_in_the_limit` that is little where runs go on for more than 256 turns. The lines of
//! `zar_draws_in_the_limit` and `zar_turns_in_the_limit` may say `unknown` of any program; their status is never 6.
//!
//! No clause says that memory or the stack suffices, how long a call takes, or what `zar_explain` finds. What no function can test
//! is asked of its caller, in `zar.h`: that no pointer is null, that each array has the length that is told, that the arrays of a
//! call do not overlap, and that no other thread writes them. That `zar.h` says what the exports take is tested, not proved.
#![tactic(auto)]

mod asking;
mod counting;
mod counts;
mod drawing;
mod explaining;
mod hunts;
mod masses;
mod rolling;
mod rows;
mod running;
mod said;
mod shown;
mod statuses;
#[cfg(test)]
mod tests;
mod texts;
mod weighing;

pub use asking::{ZarLimits, ZarRollLimits};
pub use counts::{zar_audit, zar_tally};
pub use drawing::zar_draws;
pub use explaining::zar_explain;
pub use hunts::{ZarFound, zar_hunt};
pub use masses::{
    zar_cost, zar_cost_in_the_limit, zar_draws_in_the_limit, zar_enclose, zar_exact, zar_mass,
    zar_posterior, zar_rounds_in_the_limit, zar_turns_in_the_limit,
};
pub use rolling::zar_roll;
pub use rows::zar_draws_in_a_row;
pub use running::{ZarRan, zar_run};
pub use said::ZarSaid;
pub use statuses::{DONE, MASS_REFUSED, NUMBERS_REFUSED, OUT_OF_MEMORY, TEXT_REFUSED};
pub use texts::{zar_check, zar_code, zar_show, zar_version};
