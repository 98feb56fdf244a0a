// Programs of the tests, by their texts.

use gcl_core::Checked;
use gcl_text::check_text;
use std::alloc::Global;

pub(crate) const TWO_THIRDS: &str = "choice 2/3 { x := 1; } or { x := 2; } return x;";

pub(crate) const AMONG: &str =
    "choose { 3: { x := 1; } | 2: { x := 2; } | 1: { x := 3; } } return x;";

pub(crate) const TWO_COINS: &str =
    "x ~ uniform(2); y ~ uniform(2); observe x = 1 or y = 1; return x + y;";

pub(crate) const GEOMETRIC: &str =
    "go := 1; while go = 1 { choice 1/2 { x := x + 1; } or { go := 0; } } return x;";

pub(crate) const IMPOSSIBLE: &str = "observe 1 = 2; return 0;";

// The program that a text spells.
pub(crate) fn program(alloc: Global, text: &str) -> Option<Checked> {
    check_text(alloc, text.as_bytes()).ok()
}
