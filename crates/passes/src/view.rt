// What the view of a pass has on every board.

use std::collections::LinkedList;

/// The numbers of the passes that a view stands for, and, where it stands for the number 0, how many passes were made. Contracts
/// alone speak of it, and no value of it is made.
pub struct Numbering {
    pub numbers: LinkedList<u64>,
    pub made: u64,
}
