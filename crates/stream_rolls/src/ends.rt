// How a roll ends, as two numbers: its label, and which end it is.

ghost use Rattle.std.specs.Prelude.{◌≡◌};
ghost use Rattle.stream_rolls.specs.Ends.{end_of, label_of};

use dice_roll::Roll;
use stream_runs::{MORE_BITS, VALUE};

/// The limit of flips cut the roll off. No run of a program ends so.
pub const FLIPS: u8 = 8;

/// The number of the end of a roll. A label has the number `VALUE` of a run that ended with a value, and bits that were missing
/// have its number `MORE_BITS`.
pub fn end_of(rolled: Roll) -> u8
    ensures { result ≡ end_of rolled }
{
    match rolled {
        Roll::Label(_, _) => VALUE,
        Roll::Limit(_) => FLIPS,
        Roll::MoreBits(_) => MORE_BITS,
    }
}

/// The label that a roll gave, or 0 where it gave none.
pub fn label_of(rolled: Roll) -> u64
    ensures { result ≡ label_of rolled }
{
    match rolled {
        Roll::Label(label, _) => label,
        _ => 0,
    }
}
