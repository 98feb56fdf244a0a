//! Exact masses of a program where nothing is limited, its loops included. The expected visits of a loop are looked for, and one
//! turn of the loop checks what was found.
//!
//! Proved: each row of `exact` is what the mass of its outcome rises to as turns grow, in lowest terms, outcomes ascending, and what
//! runs for ever is what the mass of the limit of turns tends to (`limits`). They are worked out of the forgetful program: the masses
//! of what it settles to, and what they leave of 1 (`masses`). Laws: no other rows are such limits, and they exclude that every round fails in the limit
//! (`exact_masses_are_told_by_their_limits`); at n turns each mass is at most its row and short of it by at most an n-th of a rate
//! (`exact_masses_are_limits`); each row lies within the bounds of every limit of turns (`exact_masses_lie_within_bounds`); and the
//! strings of bits on which runs end come to weigh what the rows say, as limits grow (`strings_tend_to_exact_masses`).
//!
//! A draw among many numbers is walked state by state, with the statements behind it as far as what it drew is set anew: so there
//! are fewer states at a point. Settling is linear, so the answer is the same; no clause says where it is done.
//!
//! But for want of memory a program is refused only for a cause that holds (`refused`): every round fails in the limit; without a
//! loop, one turn is too wide or of too many states; with a loop, at 256 turns masses are refused so, or some run has not ended. So no
//! clause says that loops which go on longer have an answer: a call that refused these as too wide would keep the contract, and tests
//! alone show that it does not. Nothing is promised of the visits that are looked for, only of what passed the check.
//! No clause says that memory or the stack suffices, or how long a call takes. The calls of `finding`, `parts`, `settle` and `turning` are
//! single steps, for the crates above.
#![tactic(auto)]

mod early;
mod error;
pub mod finding;
mod laws;
mod loops;
mod masses;
pub mod parts;
mod program;
pub mod settle;
pub mod turning;

pub use error::{ExactError, SettleError};
pub use laws::{
    exact_masses_are_limits, exact_masses_are_told_by_their_limits, exact_masses_lie_within_bounds,
    strings_tend_to_exact_masses,
};
pub use loops::block_loops;
pub use masses::exact;
pub use parts::MOST_PARTS;
pub use program::{ExactMasses, TURNS_TRIED, failed_in_the_limit, weight_of};
