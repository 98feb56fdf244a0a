//! What blocks and programs come to in the limit, as the turns of their loops grow without bound. What a loop comes to is given
//! by a table of its expected visits, which one turn of its body checks. The functions do nothing: their clauses are theorems
//! about definitions.
//!
//! Proved, without limits of attempts and rounds, of a checked program whose body settles and whose rounds do not all fail in the
//! limit: at n turns the mass of every event without the limit of turns is at most its mass in the limit, and short of it by at
//! most an n-th of the turns by the visits that are given, over what does not fail (`masses_tend_to_their_limits`). The limit of
//! turns has at n turns at least the mass that never ends, and at most the same gap more (`turns_run_out_for_what_is_endless`).
//! What a block settles to does not depend on which visits are given (`blocks_tend_to_what_they_settle_to`: `one_limit`).
//!
//! A block settles to its flow at a limit of turns where it has no loop (`blocks_without_loops_settle_to_their_flow`), or where no run is
//! out of turns there (`blocks_that_end_settle_to_their_flow`).
//!
//! No clause says that any other program settles, or how visits are found: `exact_fold` looks for them and may find none. Nor that the turns
//! are the expected ones: visits may balance and be more than these.
#![tactic(auto)]

ghost use Rattle.std.specs.Prelude.{◌≡◌, ℕ, ◌≤◌, Bool, false, None};
ghost use Rattle.numbers.specs.Fraction.{IsEqual};
ghost use Rattle.gcl_core.specs.declared.answers.Limit.TheVariants.{Turns};
ghost use Rattle.gcl_core.specs.declared.answers.Outcome.{Outcome};
ghost use Rattle.gcl_core.specs.declared.answers.Outcome.TheVariants as outcome;
ghost use Rattle.gcl_core.specs.meaning.Blocks.{End, limit};
ghost use Rattle.gcl_core.specs.meaning.Bounds.{BlockIsWeighed};
ghost use Rattle.gcl_core.specs.meaning.Checked.{IsChecked};
ghost use Rattle.gcl_core.specs.meaning.Syntax.{Statements, SourceProgram};
ghost use Rattle.gcl_core.specs.weighing.Fractions.{Fraction, IsBelowOne};
ghost use Rattle.gcl_core.specs.weighing.Mass.{sum_of};
ghost use Rattle.gcl_core.specs.weighing.WeightedEnds.{taken_on, weighted_ends};
ghost use Rattle.table_flow.specs.Tables.{Table, block_flow};
ghost use Rattle.unlimited_law.specs.Alike.{AreFractions};
ghost use Rattle.unlimited_law.specs.Ended.{TurnsSuffice, flowed_in};
ghost use Rattle.unlimited_law.specs.LoopFree.{BlockFree, flowed_out};
ghost use Rattle.unlimited_law.specs.Settling.{Outflow};
ghost use Rattle.unlimited_law.specs.SettledMasses.{Settles, settled_weight, IsNear, ProgramSettles, settled_failed, MassTends, MassConverges, EndlessTends};

/// It does nothing: its clauses say what it means that a block settles, without a limit of attempts. At every limit of turns n,
/// and for every event of ends without the limit of turns, the ends from a table weigh at most what the block settles to, and
/// fall short of it by at most an n-th of the turns by the visits that are given. So what it settles to does not depend on these.
pub fn blocks_tend_to_what_they_settle_to()
    ensures near { (b : Statements) (I : Table) (f : Outflow) → BlockIsWeighed b → AreFractions I → Settles b I f →
        (n : ℕ) → 1 ≤ n → (event : End → Bool) → event (limit Turns) ≡ false →
        IsNear n f.turns (sum_of event (taken_on I (weighted_ends n None b))) (settled_weight event f) }
    ensures one_limit { (b : Statements) (I : Table) (f g : Outflow) → BlockIsWeighed b → AreFractions I →
        Settles b I f → Settles b I g → (event : End → Bool) → event (limit Turns) ≡ false →
        IsEqual (settled_weight event f) (settled_weight event g) }
{}

/// It does nothing: its clauses say that the masses of a checked program whose body settles converge, without limits of
/// attempts and of rounds, where in the limit a round fails with less than all weight. For every event of outcomes without the
/// limit of turns, the mass at n turns is at most the one in the limit, and short of it by at most an n-th of the expected
/// turns over what does not fail.
pub fn masses_tend_to_their_limits()
    ensures near { (p : SourceProgram) (f : Outflow) → IsChecked p → ProgramSettles p f → IsBelowOne (settled_failed p f) →
        (n : ℕ) → 1 ≤ n → (meant : Outcome → Bool) → meant (outcome.Limit Turns) ≡ false → MassTends p f n meant }
    ensures converges { (p : SourceProgram) (f : Outflow) → IsChecked p → ProgramSettles p f → IsBelowOne (settled_failed p f) →
        (meant : Outcome → Bool) → meant (outcome.Limit Turns) ≡ false → MassConverges p f meant }
{}

/// It does nothing: its clause says with which mass a checked program that settles runs for ever: that which no outcome has in
/// the limit. At n turns the limit of turns has at least that mass, and at most the gap more.
pub fn turns_run_out_for_what_is_endless()
    ensures { (p : SourceProgram) (f : Outflow) → IsChecked p → ProgramSettles p f → IsBelowOne (settled_failed p f) →
        (n : ℕ) → 1 ≤ n → EndlessTends p f n }
{}

/// It does nothing: its clause says that a block without a loop settles to its flow, at whatever limit of turns, with no turn.
pub fn blocks_without_loops_settle_to_their_flow()
    ensures { (n : ℕ) (b : Statements) (I : Table) → BlockFree b → BlockIsWeighed b → AreFractions I →
        Settles b I (flowed_out (block_flow n None b I)) }
{}

/// It does nothing: its clause says that a block in which no run is out of turns at a limit settles to its flow at that limit, in
/// some number of turns.
pub fn blocks_that_end_settle_to_their_flow()
    ensures { (n : ℕ) (b : Statements) (I : Table) → BlockIsWeighed b → AreFractions I → TurnsSuffice (block_flow n None b I).ended →
        (turns : Fraction) × Settles b I (flowed_in turns (block_flow n None b I)) }
{}
