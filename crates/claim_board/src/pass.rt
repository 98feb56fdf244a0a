//! The board and its passes.
ghost use Rattle.std.specs.Prelude.{◌≡◌, ℕ, ◌<◌, ◌≤◌, true, [], ◌∷◌, cond, slice_index};
ghost use Rattle.claim_board.specs.declared.pass.TheConstants.{MOST_BLOCKS, MOST_PASSES};
ghost use Rattle.passes.specs.Numbers.{ascends};

use crate::hand::{Dealing, Hand, Terms};
use atomic_table::{Seat, Table};
use std::alloc::Global;

/// The most blocks of a board.
pub const MOST_BLOCKS: u64 = 1 << 62;
/// The most passes of a board.
pub const MOST_PASSES: u32 = 64;

/// One shared word, the number that is drawn next. What each pass was dealt is known of it, and takes no memory. It may be lent
/// to threads.
#[derive(Drop)]
pub struct Board {
    pub(crate) table: Table<(), Hand, Terms, Dealing, Global>,
    pub(crate) blocks: u64,
    pub(crate) workers: u32,
    ghost one_word: { table.shared.table_id.words ≡ 1 },
    ghost no_slots: { table.shared.table_id.slots ≡ 0 },
    ghost told: { (table.shared.key.blocks ≡ blocks) × (table.shared.key.workers ≡ workers) },
    ghost few: { (blocks ≤ MOST_BLOCKS) × (0 < workers) × (workers ≤ MOST_PASSES) },
}

/// The right to claim for one worker. A contract sees the list of numbers dealt to it, which takes no memory, and whether it had
/// `None`. It may cross threads.
#[derive(Drop)]
pub struct Pass {
    pub(crate) seat: Seat<(), Hand>,
    pub(crate) had_none: bool,
    ghost no_slot: { seat.me.1 ≡ [] },
    ghost single: { seat.me.0.passes.numbers ≡ slice_index seat.me.0.passes.numbers 0 ∷ [] },
    ghost ended: { seat.me.0.ended ≡ cond had_none seat.me.0.passes.numbers [] },
    ghost ascending: { ascends seat.me.0.dealt ≡ true },
}

/// What a board that was closed says.
#[derive(Clone, Copy, PartialEq, Eq, Debug)]
pub struct Dealt {
    /// How many blocks were dealt: those below this number.
    pub dealt: u64,
}
