//! What the body of a program comes to in the limit of turns, in fractions of up to 4,096 bits. At first only the visits of loops that
//! stand in no other statement are looked for in wide fractions: all else is settled from each state alone, in fractions of 128 bits,
//! and what comes of it is added by the weight of the state, since settling is linear. Where 128 bits do not suffice for that, each
//! statement that has others inside is settled anew in wide fractions, loops wherever they stand. One turn of its body checks what
//! was found of a loop.
//!
//! Proved: what `settle_program` gives is what the body of the program settles to from its start (`ProgramSettlesTo`); what
//! `from_each`, `block_from_each` and `settle_block` give is what a statement and a block settle to from a table, and what `settle_loop`
//! gives is that of a loop, whatever visits are handed in (`SettlesFrom`).
//!
//! No clause says that there is an answer. Steps are counted, of the search for visits and of the walk, and above `MOST_WORK` of them
//! a program is refused; no clause says how long a step takes. Nothing is promised of the visits that are looked for or handed in, only
//! of what passed the check. No clause says that memory or the stack suffices.
#![tactic(auto)]

mod depth;
mod ended;
mod error;
mod finding;
mod program;
mod seen;
mod settle;
mod sides;
mod sources;
mod table;
mod turning;
mod widened;
mod work;

pub use depth::Depth;
pub use ended::WideEnded;
pub use error::WideFoldError;
pub use program::settle_program;
pub use settle::{WideFound, settle_block, settle_loop};
pub use sources::{block_from_each, from_each};
pub use table::WideTable;
pub use work::{MOST_WORK, Work};
