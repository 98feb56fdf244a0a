//! Making and closing a board of one word.
ghost use Rattle.std.specs.Prelude.{◌≡◌, ℕ, ◌<◌, ◌-◌, [], ◌∷◌, All, IfOk, length, map};
ghost use Rattle.atomic_table.specs.Table.{Splits, Joins, opening};
ghost use Rattle.passes.specs.Numbering.{first};
ghost use Rattle.passes.specs.Views.{views_made, EachMade, views_joined, WasLast};

use crate::seated::Seated;
use crate::steps::{Joining, Making, View};
use atomic_table::{Table, TableRule};
use std::alloc::{AllocError, Global};

/// A table of one word, and a pass for each worker. The pass of the number 0 makes the others, one after the other. An `Err`
/// comes only where memory runs out.
pub fn open_board<V: View, K, R: TableRule<(), V, K>, P: Seated<V>>(
    alloc: Global,
    word: u64,
    workers: u32,
    about: &K,
) -> Result<(Table<(), V, K, R, Global>, Vec<P>), AllocError>
    requires some { 0 < workers }
    requires holds { R.holds about.now (opening (word ∷ []) [] (R.first about.now)) }
    requires first { V.passes (R.first about.now) ≡ first }
    requires splits { (id : ℕ) (v : V) → (V.passes v).numbers ≡ 0 ∷ [] → (V.passes v).made < workers
        → Splits (R.holds about.now) id v (V.makes v) (V.made_by v) }
    requires fresh { EachMade V.makes V.made_by P.fresh (workers - 1) (R.first about.now) }
    ensures words { IfOk result (λ r. r.0.shared.table_id.words ≡ 1) }
    ensures slots { IfOk result (λ r. r.0.shared.table_id.slots ≡ 0) }
    ensures key { IfOk result (λ r. r.0.shared.key ≡ about.now) }
    ensures table { IfOk result (λ r. All (λ p. P.table p ≡ r.0.shared.table_id) r.1.items) }
    ensures views { IfOk result (λ r. map P.view r.1.items ≡ views_made V.makes V.made_by (workers - 1) (R.first about.now)) }
{
    let (table, mut first) = Table::of_words(alloc, &[word], about)?;
    let mut passes = Vec::with_capacity(alloc, workers as usize)?;
    for _ in 1..workers {
        let seat = table.shared.split_seat::<Making>(&mut first);
        passes.push(P::of(seat))?;
    }
    passes.push(P::of(first))?;
    Ok((table, passes))
}

/// Ends a board, with all its passes: their seats are joined, from the last to the first, and the answer is the word at the end.
pub fn close_board<V: View, K, R: TableRule<(), V, K>, P: Seated<V>>(
    table: Table<(), V, K, R, Global>,
    mut passes: Vec<P>,
) -> u64
    requires words { table.shared.table_id.words ≡ 1 }
    requires slots { table.shared.table_id.slots ≡ 0 }
    requires some { 0 < length passes.items }
    requires table { All (λ p. P.table p ≡ table.shared.table_id) passes.items }
    requires joins { (id other : ℕ) (v w : V) → 0 < length (V.passes v).numbers → 0 < length (V.passes w).numbers
        → Joins (R.holds table.shared.key) id v other w (V.joined v w) V.spent }
    ensures { WasLast (R.holds table.shared.key) (views_joined V.joined V.spent (map P.view passes.items)) result }
{
    let Some(last) = passes.pop() else {
        unreachable!()
    };
    let mut seat = last.into_seat();
    while let Some(pass) = passes.pop() {
        table
            .shared
            .join_seat::<Joining>(&mut seat, pass.into_seat());
    }
    let closed = table.close_with(seat);
    let word = closed.word(0);
    closed.free();
    word
}
