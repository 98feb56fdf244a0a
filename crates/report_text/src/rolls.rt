// The lines of a roll, and of what its labels weigh.

ghost use Rattle.std.specs.Prelude.{◌≡◌};
ghost use Rattle.report_text.specs.Lines.{roll_text, each_text, flips_text};

use crate::decimals::Decimals;
use crate::line::Line;
use dice_roll::Roll;
use numbers::Frac;

/// The line of a roll: its label and how many bits it read, or how many it read where it has none. It takes no memory.
pub fn roll_line(roll: &Roll) -> Line
    ensures { result ≡ roll_text roll.now }
{
    let mut line = Line::new();
    match roll {
        Roll::Label(label, flips) => {
            line.push(b"value ");
            line.push_number(*label);
            line.push(b" bits ");
            line.push_number(*flips);
        }
        Roll::Limit(flips) => {
            line.push(b"limit flips bits ");
            line.push_number(*flips);
        }
        Roll::MoreBits(flips) => {
            line.push(b"more bits ");
            line.push_number(*flips);
        }
    }
    line.push(b"\n");
    line
}

/// The line of the weight of each label of a roll, a fraction in lowest terms, with so many decimals. It takes no memory.
pub fn each_line(weight: &Frac, decimals: Decimals) -> Line
    ensures { result ≡ each_text decimals weight.now }
{
    Line::of_fraction(b"each mass ", weight, decimals)
}

/// The line of the weight that a roll leaves to the limit of flips, a fraction in lowest terms, with so many decimals. It takes no
/// memory.
pub fn flips_line(weight: &Frac, decimals: Decimals) -> Line
    ensures { result ≡ flips_text decimals weight.now }
{
    Line::of_fraction(b"limit flips mass ", weight, decimals)
}
