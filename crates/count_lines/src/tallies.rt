// The lines of tallies.

ghost use Rattle.std.specs.Prelude.{◌≡◌, IfOk};
ghost use Rattle.count_lines.specs.TallyLines.{tally_text};

use gcl_print::Text;
use report_text::tally_line;
use std::alloc::{AllocError, Global};
use tally_range::Tally;

/// The lines of a tally. An error comes only where memory runs out.
pub fn tally_text(alloc: Global, tally: &Tally) -> Result<Text, AllocError>
    ensures { IfOk result (λ text. text ≡ tally_text tally.now) }
{
    let mut text = Text::new(alloc);
    for (key, count) in tally.iter() {
        text.push(tally_line(key, *count).bytes())?;
    }
    Ok(text)
}
