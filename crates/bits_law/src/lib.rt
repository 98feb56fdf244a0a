//! Laws of how many bits a program's runs read on average, how many draws and turns of loops they make, and how many rounds they begin,
//! where nothing is limited: neither the turns of loops, nor the attempts of draws, nor the rounds. The functions do nothing: their clauses
//! are theorems about definitions.
//!
//! Proved, for every checked program: the expected bits rise with the limits (`expected_bits_rise_with_limits`), and what they come
//! to is one fraction (`expected_bits_are_one_fraction`). Where the body settles and reads a number of bits, it is that number over
//! what does not fail (`bits_tend_to_their_limit`), which without a loop are the draws that a round reaches
//! (`programs_without_loops_read_their_draws`). Where a round reads for ever with some weight there is no bound
//! (`bits_that_are_read_for_ever_have_no_bound`), nor where in the limit every round fails and reads some bits
//! (`rounds_that_all_fail_read_nothing_or_have_no_bound`).
//!
//! The same is proved of whatever is counted of draws and of turns of loops, by its price (`costs_rise_with_limits`,
//! `costs_tend_to_their_limit`, `costs_are_one_fraction`): draws, each of which costs 1 when it is decided, and turns of loops, each of which
//! costs 1. Bits are what is counted where an attempt costs what it reads (`bits_are_a_price`).
//!
//! The expected number of rounds is the same with a price of 1 for each: what a run costs by what a round costs is said once
//! (`expected_cost`), and its law is proved once. It rises with the limits (`expected_rounds_rise_with_limits`), to one over what does
//! not fail, or without bound where in the limit every round fails (`rounds_tend_to_their_limit`), which is one fraction
//! (`expected_rounds_are_one_fraction`). What the price of a round is for its bits, is a clause (`bits_are_the_cost_of_rounds`).
//!
//! No clause says that the visits of a loop are found, nor how fast the expected bits come to their limit.
#![tactic(auto)]

ghost use Rattle.std.specs.Prelude.{◌≡◌, ◌<◌, None, length};
ghost use Rattle.numbers.specs.Fraction.{IsEqual};
ghost use Rattle.gcl_core.specs.declared.answers.Limits.{Limits};
ghost use Rattle.gcl_core.specs.meaning.Checked.{IsChecked};
ghost use Rattle.gcl_core.specs.meaning.Outcomes.{zeros};
ghost use Rattle.gcl_core.specs.meaning.Syntax.{SourceProgram};
ghost use Rattle.gcl_core.specs.weighing.Fractions.{Fraction, zero_share, AtMost, IsBelowOne, IsOne};
ghost use Rattle.cost_law.specs.ExpectedBits.{block_bits, expected_bits};
ghost use Rattle.table_flow.specs.Tables.{Table, tables_of};
ghost use Rattle.unlimited_law.specs.LoopFree.{BlockFree};
ghost use Rattle.unlimited_law.specs.Settling.{Outflow};
ghost use Rattle.unlimited_law.specs.SettledMasses.{ProgramSettles, settled_failed};
ghost use Rattle.bits_law.specs.Draws.{bits_of_draws};
ghost use Rattle.bits_law.specs.InTheLimit.{NoLess, ComesTo, HasNoBound, AreExpected, AreUnbounded, RoundCosts, RoundReads, price_in_the_limit, bits_in_the_limit, rounds_in_the_limit, free_outflow};
ghost use Rattle.bits_law.specs.Forever.{CostsForever, ReadsForever};
ghost use Rattle.bits_law.specs.Price.{Price, bits_price};
ghost use Rattle.bits_law.specs.RunPrice.{expected_price};
ghost use Rattle.bits_law.specs.Rounds.{expected_cost, expected_rounds};

/// It does nothing: its clause says that the expected bits of a checked program rise with its limits, with each of the three.
pub fn expected_bits_rise_with_limits()
    ensures { (p : SourceProgram) (l m : Limits) → IsChecked p → NoLess l m → AtMost (expected_bits p l) (expected_bits p m) }
{}

/// It does nothing: its clause is the law of the expected bits without limits, for a checked program whose body settles and whose
/// round reads a number of bits, where in the limit a round fails with less than all weight. Under whatever limits no more bits
/// are expected than those of a round over what does not fail; and for each k, where all limits are great enough, no fewer but
/// for 1 / k.
pub fn bits_tend_to_their_limit()
    ensures { (p : SourceProgram) (J : Table) (read : Fraction) (f : Outflow) → IsChecked p → RoundReads p J read →
        ProgramSettles p f → IsBelowOne (settled_failed p f) → AreExpected p (bits_in_the_limit p f read) }
{}

/// It does nothing: its clause says that the expected bits of a checked program have no bound where a round reads for ever with
/// some weight.
pub fn bits_that_are_read_for_ever_have_no_bound()
    ensures { (p : SourceProgram) → IsChecked p → ReadsForever p → AreUnbounded p }
{}

/// It does nothing: its clauses say what is expected of a checked program where in the limit every round fails: nothing where a
/// round reads nothing, and else there is no bound.
pub fn rounds_that_all_fail_read_nothing_or_have_no_bound()
    ensures nothing { (p : SourceProgram) (J : Table) (read : Fraction) (f : Outflow) → IsChecked p → RoundReads p J read →
        ProgramSettles p f → IsOne (settled_failed p f) → read.0 ≡ 0 → AreExpected p zero_share }
    ensures unbounded { (p : SourceProgram) (J : Table) (read : Fraction) (f : Outflow) → IsChecked p → RoundReads p J read →
        ProgramSettles p f → IsOne (settled_failed p f) → 0 < read.0 → AreUnbounded p }
{}

/// It does nothing: its clause says that what is expected of a program in the limit is one fraction.
pub fn expected_bits_are_one_fraction()
    ensures { (p : SourceProgram) (bits other : Fraction) → IsChecked p → AreExpected p bits → AreExpected p other →
        IsEqual bits other }
{}

/// It does nothing: its clause is the law for a checked program without a loop, where a round fails with less than all weight: the
/// bits of the draws that a round reaches, each by as many attempts as it takes and by the weight with which it is reached, over
/// what does not fail.
pub fn programs_without_loops_read_their_draws()
    ensures { (p : SourceProgram) → IsChecked p → BlockFree p.body → IsBelowOne (settled_failed p (free_outflow p)) →
        AreExpected p (bits_in_the_limit p (free_outflow p) (bits_of_draws (tables_of p 1 None).reached)) }
{}

/// It does nothing: its clause says that the expected bits are what a run costs where a round costs the bits that it reads.
pub fn bits_are_the_cost_of_rounds()
    ensures { (p : SourceProgram) (l : Limits) →
        expected_cost p (λ n r. block_bits n r p.body (zeros (length p.names)) (λ s. zero_share)) l ≡ expected_bits p l }
{}

/// It does nothing: its clause says that the expected number of rounds of a checked program rises with its limits, with each of the
/// three.
pub fn expected_rounds_rise_with_limits()
    ensures { (p : SourceProgram) (l m : Limits) → IsChecked p → NoLess l m → AtMost (expected_rounds p l) (expected_rounds p m) }
{}

/// It does nothing: its clauses are the law of the expected number of rounds without limits, for a checked program whose body settles.
/// Where in the limit a round fails with less than all weight it is one over what does not fail; where every round fails there is no
/// bound.
pub fn rounds_tend_to_their_limit()
    ensures passes { (p : SourceProgram) (f : Outflow) → IsChecked p → ProgramSettles p f → IsBelowOne (settled_failed p f) →
        ComesTo (expected_rounds p) (rounds_in_the_limit p f) }
    ensures unbounded { (p : SourceProgram) (f : Outflow) → IsChecked p → ProgramSettles p f → IsOne (settled_failed p f) →
        HasNoBound (expected_rounds p) }
{}

/// It does nothing: its clause says that what the expected number of rounds comes to is one fraction.
pub fn expected_rounds_are_one_fraction()
    ensures { (p : SourceProgram) (rounds other : Fraction) → IsChecked p → ComesTo (expected_rounds p) rounds →
        ComesTo (expected_rounds p) other → IsEqual rounds other }
{}

/// It does nothing: its clause says that the expected bits are what a run costs by the price of bits.
pub fn bits_are_a_price()
    ensures { (p : SourceProgram) (l : Limits) → expected_price bits_price p l ≡ expected_bits p l }
{}

/// It does nothing: its clause says that what a run of a checked program costs on average, by whatever price of draws and turns of loops,
/// rises with its limits, with each of the three.
pub fn costs_rise_with_limits()
    ensures { (price : Price) (p : SourceProgram) (l m : Limits) → IsChecked p → NoLess l m →
        AtMost (expected_price price p l) (expected_price price p m) }
{}

/// It does nothing: its clauses are the law of what a run costs without limits, by whatever price of draws and turns of loops, for a checked
/// program. Where the body settles and a round fails with less than all weight in the limit, it is what a round costs over what
/// does not fail. Where every round fails it is nothing if a round costs nothing, and else there is no bound; nor is there one
/// where a round costs something for ever with some weight.
pub fn costs_tend_to_their_limit()
    ensures passes { (price : Price) (p : SourceProgram) (J : Table) (cost : Fraction) (f : Outflow) → IsChecked p →
        RoundCosts price p J cost → ProgramSettles p f → IsBelowOne (settled_failed p f) →
        ComesTo (expected_price price p) (price_in_the_limit p f cost) }
    ensures nothing { (price : Price) (p : SourceProgram) (J : Table) (cost : Fraction) (f : Outflow) → IsChecked p →
        RoundCosts price p J cost → ProgramSettles p f → IsOne (settled_failed p f) → cost.0 ≡ 0 →
        ComesTo (expected_price price p) zero_share }
    ensures unbounded { (price : Price) (p : SourceProgram) (J : Table) (cost : Fraction) (f : Outflow) → IsChecked p →
        RoundCosts price p J cost → ProgramSettles p f → IsOne (settled_failed p f) → 0 < cost.0 →
        HasNoBound (expected_price price p) }
    ensures forever { (price : Price) (p : SourceProgram) → IsChecked p → CostsForever price p →
        HasNoBound (expected_price price p) }
{}

/// It does nothing: its clause says that what a run of a program costs in the limit is one fraction.
pub fn costs_are_one_fraction()
    ensures { (price : Price) (p : SourceProgram) (cost other : Fraction) → IsChecked p → ComesTo (expected_price price p) cost →
        ComesTo (expected_price price p) other → IsEqual cost other }
{}
