// Numbers as words spell them.

ghost use Rattle.std.specs.Prelude.{◌≡◌, ◌≤◌, true, length, IfSome};
ghost use Rattle.std.specs.List.{list_all};
ghost use Rattle.std.specs.Str.Parse.{digits_value};
ghost use Rattle.gcl_core.specs.text.Pieces.{is_digit};
ghost use Rattle.gcl_core.specs.declared.rules.TheConstants.{MOST_DIGITS};
ghost use Rattle.gcl_core.specs.text.Numbers.{number_in};

use crate::rules::MOST_DIGITS;

// The value of at most `MOST_DIGITS` digits.
fn value_of(digits: &[u8]) -> u128
    requires few { length digits.now ≤ MOST_DIGITS }
    requires digits { list_all is_digit digits.now ≡ true }
    ensures { result ≡ digits_value 10 digits.now }
{
    let mut value = 0;
    for digit in digits {
        value = value * 10 + u128::from(*digit - b'0');
    }
    value
}

fn are_digits(bytes: &[u8]) -> bool
    ensures { result ≡ list_all is_digit bytes.now }
{
    bytes.iter().all(|byte| b'0' <= *byte && *byte <= b'9')
}

/// The number that a word spells, by 1 to [`MOST_DIGITS`] digits, if it is in range.
#[tactic(auto, using(std::proofs::lemmas::Bool::Decides::nat_tests))]
pub fn number_in(least: u64, most: u64, word: &str) -> Option<u64>
    ensures number { result ≡ number_in least most word.now }
    ensures range { IfSome result (λ n. (least ≤ n) × (n ≤ most)) }
{
    let digits = word.as_bytes();
    if digits.is_empty() || digits.len() > MOST_DIGITS || !are_digits(digits) {
        return None;
    }
    let value = value_of(digits);
    if u128::from(least) <= value && value <= u128::from(most) {
        Some(value as u64)
    } else {
        None
    }
}
