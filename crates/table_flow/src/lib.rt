//! The tables of states that a program goes through, as definitions: how many states stand in one, and how wide its fractions
//! are. The functions do nothing: their clauses are theorems about definitions.
//!
//! Proved, for every block or program: what goes on from a table and what ended on the way weigh together, for every weighting of
//! ends, what the weighted ends of the block do (`tables_hold_the_ends`). At the common denominator of a round each fraction on
//! the way is whole (`fractions_are_whole_at_the_width`). No weight is made, and none is lost (`weight_is_kept`).
//!
//! No clause is of code: `mass_fold` works with merged tables and relies on these laws. No clause says that the width of a
//! program, or the most states at a point, is small; masses may be refused where one is great.
#![tactic(auto)]

ghost use Rattle.std.specs.Prelude.{◌≡◌, ◌+◌, ℕ, Option};
ghost use Rattle.gcl_core.specs.meaning.Bounds.{BlockIsWeighed};
ghost use Rattle.gcl_core.specs.meaning.Syntax.{Statements, SourceProgram};
ghost use Rattle.gcl_core.specs.meaning.Blocks.{End, on};
ghost use Rattle.gcl_core.specs.weighing.WeightedEnds.{taken_on, weighted_ends};
ghost use Rattle.table_flow.specs.Tables.{Table, block_flow};
ghost use Rattle.table_flow.specs.Scale.{amount, weight, Within, WholeAtWidth};

/// It does nothing: its clause says that the tables hold the weighted ends. For every weighting of ends, the states
/// left in the table and what ended weigh what the block's ends from the table's states weigh.
pub fn tables_hold_the_ends()
    ensures { (n : ℕ) (r : Option ℕ) (N : ℕ) (H : End → ℕ) (b : Statements) (I : Table)
        → amount N (λ s. H (on s)) (block_flow n r b I).next + amount N H (block_flow n r b I).ended
        ≡ amount N H (taken_on I (weighted_ends n r b)) }
{}

/// It does nothing: its clause says that the common denominator of a round is at least 1, and that at it every fraction of the
/// tables, of what ended and of the draws is whole.
pub fn fractions_are_whole_at_the_width()
    ensures { (p : SourceProgram) (n : ℕ) (r : Option ℕ) → BlockIsWeighed p.body → WholeAtWidth p n r }
{}

/// It does nothing: its clause says that no weight is made and none is lost. At a scale at which all is whole, what goes on from
/// a table and what ended weigh what came in.
pub fn weight_is_kept()
    ensures { (n : ℕ) (r : Option ℕ) (N L : ℕ) (b : Statements) → BlockIsWeighed b → (I : Table) → Within N L (block_flow n r b I)
        → weight N (block_flow n r b I).next + weight N (block_flow n r b I).ended ≡ weight N I }
{}
