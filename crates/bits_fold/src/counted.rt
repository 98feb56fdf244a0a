// What is counted of a run.

/// What is counted of a run.
#[derive(Clone, Copy, PartialEq, Eq, Debug)]
pub enum Counted {
    /// The bits that it reads.
    Bits,
    /// The draws that it makes.
    Draws,
    /// The turns of loops that it makes.
    Turns,
}
