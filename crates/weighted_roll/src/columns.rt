//! One flip of a roll by weights.
ghost use Rattle.std.specs.Prelude.{◌≡◌, ◌<◌, ◌≤◌, map};
ghost use Rattle.std.specs.List.{All};
ghost use Rattle.weighted_roll.specs.declared.rules.TheConstants as rule;
ghost use Rattle.weighted_roll.specs.Columns.{column, next_of, IfRest};

/// Where a string of bits stands after a flip.
#[derive(Clone, Copy)]
pub enum Column {
    /// It has this label.
    Leaf(u64),
    /// It has no label, and is that of this number among those that have none.
    Rest(u64),
}

/// Passes over the labels in order: each whose remainder doubles to `whole` or more takes one string, in order of the strings, of
/// which this one has the number `number`. Where the string is passed, each remainder is doubled modulo `whole`.
pub(crate) fn pass_labels(rests: &mut [u64], whole: u64, number: u64) -> Column
    requires below { All (λ r. r < whole) rests.old }
    requires small { whole ≤ rule.GREATEST_SUM }
    ensures column { result ≡ column whole rests.old 0 number }
    ensures rests { IfRest result (rests.new ≡ map (next_of whole) rests.old) }
{
    let mut left = number;
    for i in 0..rests.len() {
        let twice = 2 * rests[i];
        if whole <= twice {
            if left == 0 {
                return Column::Leaf(i as u64);
            }
            left -= 1;
            rests[i] = twice - whole;
        } else {
            rests[i] = twice;
        }
    }
    Column::Rest(left)
}
