// What is told of a program, as lines.

ghost use Rattle.std.specs.Prelude.{◌≤◌, IfOk, IfErr, IfSome};
ghost use Rattle.bits_fold.specs.Counted.{price_of};
ghost use Rattle.bits_law.specs.RunPrice.{expected_price};
ghost use Rattle.gcl_core.specs.declared.rules.TheConstants.{MOST_LIMIT};
ghost use Rattle.gcl_core.specs.meaning.LimitRange.{InRange};
ghost use Rattle.gcl_core.specs.meaning.Views.{source_of};
ghost use Rattle.mass_fold.specs.Refused.{IsLimit};
ghost use Rattle.mass_lines.specs.BitLines.{IsBitLine};
ghost use Rattle.mass_lines.specs.BoundLines.{AreBoundLines};
ghost use Rattle.mass_lines.specs.EnclosedLines.{AreEnclosedLines};
ghost use Rattle.mass_lines.specs.ExactLines.{AreExactLines};
ghost use Rattle.mass_lines.specs.ExpectedLines.{IsExpectedLine};
ghost use Rattle.mass_lines.specs.HowLongLines.{MayBeCountLine, IsRoundsLine, IsDrawsLine, IsTurnsLine, AreHowLongLines};
ghost use Rattle.mass_lines.specs.MassLines.{AreMassLines};
ghost use Rattle.mass_lines.specs.Reasons.{IsReason, NoCode, WhyNoBits, WhyNoBounds, WhyNoMasses, WhyNotEnclosed, WhyNotExact, WhyNotExpected};

use crate::reasons::Reason;
use crate::rows::{
    BITS, bit_line, bound_lines, count_line, exact_lines, mass_rows_text, unknown_count_line,
};
use bits_fold::{BitsError, Counted, cost_in_the_limit, count_in_the_limit, rounds_in_the_limit};
use cost_fold::cost;
use enclose_fold::enclose;
use gcl_core::{Checked, Limits};
use gcl_print::Text;
use mass_fold::mass;
use posterior_bounds::bounds;
use report_text::Decimals;
use std::alloc::Global;
use wide_masses::exact;

// The words in front of what else is counted.
const ROUNDS: &[u8] = b"rounds";

const DRAWS: &[u8] = b"draws";

const TURNS: &[u8] = b"turns";

/// The lines of a program's masses, outcomes ascending, each with so many decimals, as all lines here.
pub fn masses_text(
    alloc: Global,
    program: &Checked,
    turns: u64,
    attempts: Option<u64>,
    rounds: Option<u64>,
    decimals: Decimals,
) -> Result<Text, Reason>
    requires turns { turns ≤ MOST_LIMIT }
    requires attempts { IfSome attempts IsLimit }
    requires rounds { IfSome rounds IsLimit }
    ensures lines { IfOk result (AreMassLines (source_of program.now) turns attempts rounds decimals) }
    ensures refused { IfErr result (IsReason (WhyNoMasses (source_of program.now) turns attempts rounds)) }
{
    let rows = mass(alloc, program, turns, attempts, rounds)?;
    Ok(mass_rows_text(alloc, &rows, decimals)?)
}

/// The lines of a program's bounds, outcomes ascending, and of what all others have at most.
pub fn bounds_text(
    alloc: Global,
    program: &Checked,
    turns: u64,
    decimals: Decimals,
) -> Result<Text, Reason>
    requires { turns ≤ MOST_LIMIT }
    ensures lines { IfOk result (AreBoundLines (source_of program.now) turns decimals) }
    ensures refused { IfErr result (IsReason (WhyNoBounds (source_of program.now) turns)) }
{
    let found = bounds(alloc, program, turns)?;
    Ok(bound_lines(alloc, &found, decimals)?)
}

/// The lines of the fractions between which a program's masses lie, outcomes ascending, and of what all others have at most; with
/// `all_turns`, at every greater limit of turns.
pub fn enclosed_text(
    alloc: Global,
    program: &Checked,
    turns: u64,
    attempts: Option<u64>,
    rounds: Option<u64>,
    all_turns: bool,
    decimals: Decimals,
) -> Result<Text, Reason>
    requires turns { turns ≤ MOST_LIMIT }
    requires attempts { IfSome attempts IsLimit }
    requires rounds { IfSome rounds IsLimit }
    ensures lines { IfOk result (AreEnclosedLines (source_of program.now) turns attempts rounds all_turns decimals) }
    ensures refused { IfErr result (IsReason (WhyNotEnclosed (source_of program.now) turns attempts rounds)) }
{
    let found = enclose(alloc, program, turns, attempts, rounds, all_turns)?;
    Ok(bound_lines(alloc, &found, decimals)?)
}

/// The lines of a program's masses where nothing is limited, outcomes ascending, and of what never ends.
pub fn exact_text(alloc: Global, program: &Checked, decimals: Decimals) -> Result<Text, Reason>
    ensures lines { IfOk result (AreExactLines (source_of program.now) decimals) }
    ensures refused { IfErr result (IsReason (WhyNotExact (source_of program.now))) }
{
    let masses = exact(alloc, program)?;
    Ok(exact_lines(alloc, &masses, decimals)?)
}

/// The line of the bits that a run of a program reads on average under limits.
pub fn bits_text(
    alloc: Global,
    program: &Checked,
    limits: &Limits,
    decimals: Decimals,
) -> Result<Text, Reason>
    requires { InRange limits.now }
    ensures line { IfOk result (IsBitLine (source_of program.now) limits.now decimals) }
    ensures refused { IfErr result (IsReason (WhyNoBits (source_of program.now) limits.now)) }
{
    let bits = cost(alloc, program, limits)?;
    Ok(bit_line(alloc, &bits, decimals)?)
}

/// The line of the bits that a run of a program reads on average where nothing is limited, or of there being no bound.
pub fn expected_text(alloc: Global, program: &Checked, decimals: Decimals) -> Result<Text, Reason>
    ensures line { IfOk result (IsExpectedLine (source_of program.now) decimals) }
    ensures refused { IfErr result (IsReason (WhyNotExpected (source_of program.now))) }
{
    let bits = cost_in_the_limit(alloc, program)?;
    Ok(count_line(alloc, BITS, bits, decimals)?)
}

/// The line of the rounds that a run of a program begins on average where nothing is limited, or of there being no bound.
pub fn rounds_text(alloc: Global, program: &Checked, decimals: Decimals) -> Result<Text, Reason>
    ensures line { IfOk result (IsRoundsLine (source_of program.now) decimals) }
    ensures refused { IfErr result (IsReason (WhyNotExpected (source_of program.now))) }
{
    let rounds = rounds_in_the_limit(alloc, program)?;
    Ok(count_line(alloc, ROUNDS, rounds, decimals)?)
}

// The line of what is counted of a run of a program where nothing is limited, behind this word. Where the count is not found it is unknown.
fn count_text(
    alloc: Global,
    what: Counted,
    word: &[u8],
    program: &Checked,
    decimals: Decimals,
) -> Result<Text, Reason>
    ensures line { IfOk result (MayBeCountLine word.now (expected_price (price_of what) (source_of program.now)) decimals) }
    ensures refused { IfErr result (IsReason NoCode) }
{
    match count_in_the_limit(alloc, what, program) {
        Ok(count) => Ok(count_line(alloc, word, count, decimals)?),
        Err(BitsError::OutOfMemory) => Err(Reason::Memory),
        Err(BitsError::TooWide | BitsError::TooManyStates | BitsError::NotFound) => {
            Ok(unknown_count_line(alloc, word)?)
        }
    }
}

/// The line of the draws that a run of a program makes on average where nothing is limited, or of there being no bound; or `draws unknown`,
/// which comes where the count is not found, and says nothing of the program. An error comes only where memory runs out.
pub fn draws_text(alloc: Global, program: &Checked, decimals: Decimals) -> Result<Text, Reason>
    ensures line { IfOk result (IsDrawsLine (source_of program.now) decimals) }
    ensures refused { IfErr result (IsReason NoCode) }
{
    count_text(alloc, Counted::Draws, DRAWS, program, decimals)
}

/// The line of the turns of loops that it makes, likewise.
pub fn turns_text(alloc: Global, program: &Checked, decimals: Decimals) -> Result<Text, Reason>
    ensures line { IfOk result (IsTurnsLine (source_of program.now) decimals) }
    ensures refused { IfErr result (IsReason NoCode) }
{
    count_text(alloc, Counted::Turns, TURNS, program, decimals)
}

/// The lines of how long a run of a program takes where nothing is limited: of the bits that it reads, of the rounds that it begins, and of
/// the draws and the turns of loops that it makes.
pub fn how_long_text(alloc: Global, program: &Checked, decimals: Decimals) -> Result<Text, Reason>
    ensures lines { IfOk result (AreHowLongLines (source_of program.now) decimals) }
    ensures refused { IfErr result (IsReason (WhyNotExpected (source_of program.now))) }
{
    let mut text = expected_text(alloc, program, decimals)?;
    let rounds = rounds_text(alloc, program, decimals)?;
    let draws = draws_text(alloc, program, decimals)?;
    let turns = turns_text(alloc, program, decimals)?;
    text.push(rounds.bytes())?;
    text.push(draws.bytes())?;
    text.push(turns.bytes())?;
    Ok(text)
}
