//! What the program shows a person at a terminal: how far a command is, the place of a refusal in a text, and what may have been
//! meant.
//!
//! Proved: the sinks that stand before the real ones, `WipingSink` and `KeepingSink`, have the record of the sink that they write
//! to, so what is proved of the bytes that were written holds with them too; `KeepingSink::kept` answers the bytes that it kept.
//!
//! No clause says what is shown: the line of progress, the line of a text with a mark below, and the question for another word
//! are only tested (`tests/progress`, `tests/screens`). Nor that a hint is right, or that all that is wrong with a text is found.
//! Want of memory leaves out what would be shown.
#![tactic(auto)]

mod bytes;
mod confusions;
pub mod excerpt;
mod foreign;
mod keeping;
mod kinds;
mod missing;
mod nearest;
mod progress;
mod repairs;
mod tokens;
mod told;
mod unexpected;
mod wiping;

pub use keeping::KeepingSink;
pub use nearest::Nearest;
pub use progress::{Progress, Task};
pub use repairs::{Finding, find_wrong};
pub use wiping::WipingSink;
