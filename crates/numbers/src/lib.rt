//! Numbers for weights: exact fractions of 128 bits in lowest terms, and whole numbers of units, of which `ALL`, 2^120, make one
//! whole, with parts, products, quotients and powers rounded down or up.
//!
//! Proved, of fractions: `add`, `sub`, `mul` and `div` give the exact value in lowest terms, and `None` for the causes alone that
//! their definitions name. A product or a quotient is `None` exactly where a part of it in lowest terms has no 128 bits, or the
//! divisor is 0. A sum or a difference is also `None` where the least common multiple of the denominators, or a numerator over
//! it, has no 128 bits, though the answer itself might. `compare` always answers, by value. Of units, by the clauses `value`:
//! `share_down` and `share_up` give the exact product of two weights, `over_down` and `over_up` the exact quotient, and
//! `part_down` the exact part of a weight, each rounded to a whole unit. `power_down` and `power_up` multiply once for each
//! factor and round each product. No answer is above one whole, or above the weight of which it is a part (`most`).
//!
//! No clause says how far a power with rounded products is from the exact one; `units_law` says what its own use of them loses.
//! Nor how fast a call is: a power ends where a product changes nothing, and else takes as many products as its exponent says.
//! No call takes memory. Callers have to hand in a denominator of at least 1; weights of at most one whole, but for `part_down`,
//! which takes any; and a divisor that is at least 1 and no less than what is divided. A contract sees a fraction as the pair of
//! its two numbers in lowest terms, so fractions of one value are one pair.
#![tactic(auto)]

mod dividing;
mod divisor;
mod fraction;
mod powers;
mod scaling;
mod sharing;
mod units;

pub use dividing::{over_down, over_up};
pub use fraction::Frac;
pub use powers::{power_down, power_up};
pub use scaling::part_down;
pub use sharing::{share_down, share_up};
pub use units::ALL;
