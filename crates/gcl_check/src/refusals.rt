// Why a program is refused.

use thiserror::Error;

/// Why a program is refused. `stmt` is the number of a statement in reading order, from 0, a statement before those of its
/// blocks; the result comes last.
#[derive(Clone, Copy, PartialEq, Eq, Debug, Error)]
pub enum CheckError {
    /// There are more than 256 names.
    #[error("too many names")]
    TooManyNames,
    /// An expression is a number where a truth is wanted, or a truth where a number is.
    #[error("kind mismatch in statement {stmt}")]
    KindMismatch { stmt: u32 },
    /// An expression reads a name that no statement sets.
    #[error("unknown name in statement {stmt}")]
    UnknownName { stmt: u32 },
    /// A weight's denominator is 0, or all parts of a choice among several are.
    #[error("zero denominator in statement {stmt}")]
    ZeroDenominator { stmt: u32 },
    /// A weight's numerator is above its denominator.
    #[error("weight above one in statement {stmt}")]
    WeightAboveOne { stmt: u32 },
    /// A weight's denominator in lowest terms, or the sum of the parts of a choice among several in lowest terms, is above
    /// `GREATEST_DENOMINATOR`.
    #[error("weight too fine in statement {stmt}")]
    TooFine { stmt: u32 },
}
