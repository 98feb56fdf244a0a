// Programs of the tests, by their texts.

use gcl_core::Checked;
use gcl_text::{TextRefusal, check_text};
use std::alloc::Global;

pub(crate) const TWO_THIRDS: &str = "choice 2/3 { x := 1; } or { x := 2; } return x;";

// In lowest terms its parts are 3, 2 and 1, and its draw has the ends 3, 5 and 6, over numbers of three bits.
pub(crate) const AMONG: &str =
    "choose { 6: { x := 1; } | 4: { x := 2; } | 2: { x := 3; } } return x;";

// The program that a text spells.
pub(crate) fn program(alloc: Global, text: &str) -> Result<Checked, TextRefusal> {
    check_text(alloc, text.as_bytes())
}
