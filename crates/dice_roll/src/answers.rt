//! The answers of a roll.

/// What a roll gives, and after how many flips.
#[derive(Clone, Copy, PartialEq, Eq, Debug)]
pub enum Roll {
    /// This label, and how many flips were made.
    Label(u64, u64),
    /// No label after as many flips as were allowed.
    Limit(u64),
    /// No label: the next bit was needed and there was none. How many flips were made.
    MoreBits(u64),
}
