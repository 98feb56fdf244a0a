// The lines of rows, one for each.

ghost use Rattle.std.specs.Prelude.{◌≡◌, All, IfOk};
ghost use Rattle.bits_fold.specs.Expected.{IsCount};
ghost use Rattle.gcl_core.specs.declared.answers.Limits.{Limits};
ghost use Rattle.gcl_core.specs.weighing.Fractions.{Fraction};
ghost use Rattle.report_text.specs.Lines.{cost_text};
ghost use Rattle.mass_lines.specs.Narrow.{IsNarrow};
ghost use Rattle.mass_lines.specs.BoundLines.{bound_rows_text, bound_lines};
ghost use Rattle.mass_lines.specs.ExactLines.{exact_rows_text, exact_lines};
ghost use Rattle.mass_lines.specs.ExpectedLines.{IsCountLine, count_text, unbounded_count_text};
ghost use Rattle.mass_lines.specs.HowLongLines.{unknown_count_text};
ghost use Rattle.mass_lines.specs.MassLines.{mass_rows_text};
ghost use Rattle.wide_masses.specs.Masses.{rows_of, endless_of};

use crate::narrow::is_narrow;
use bits_fold::Count;
use bounds_law::{BoundRows, Bounds};
use exact_fold::ExactMasses;
use gcl_print::Text;
use mass_fold::FracRows;
use numbers::Frac;
use report_text::{
    Decimals, bound_line, cost_line, endless_line, mass_line, other_line, unbounded_line,
};
use std::alloc::{AllocError, Global};
use wide_masses::{Masses, WideMasses, WideRows};
use wide_text::narrow_lines;

// The word in front of an expected number of bits.
pub(crate) const BITS: &[u8] = b"bits";

// The lines of masses. An error comes only where memory runs out.
#[tactic(auto, using(report_text::proofs::RowByRow::rows_end, crate::proofs::NarrowRows::all_narrow))]
pub(crate) fn mass_rows_text(
    alloc: Global,
    rows: &FracRows,
    decimals: Decimals,
) -> Result<Text, AllocError>
    ensures lines { IfOk result (λ text. text ≡ mass_rows_text decimals rows.now) }
    ensures narrow { IfOk result (λ _. All (λ row. IsNarrow row.1) rows.now) }
{
    let mut text = Text::new(alloc);
    for i in 0..rows.count() {
        let (outcome, mass) = rows.get(i);
        is_narrow(mass);
        text.push(mass_line(outcome, mass, decimals).bytes())?;
    }
    Ok(text)
}

// The lines of the rows of bounds.
#[tactic(auto, using(report_text::proofs::RowByRow::rows_end, crate::proofs::NarrowRows::all_narrow))]
fn bound_rows_text(alloc: Global, rows: &BoundRows, decimals: Decimals) -> Result<Text, AllocError>
    ensures lines { IfOk result (λ text. text ≡ bound_rows_text decimals rows.now) }
    ensures narrow { IfOk result (λ _. All (λ row. IsNarrow row.1 × IsNarrow row.2) rows.now) }
{
    let mut text = Text::new(alloc);
    for i in 0..rows.count() {
        let (outcome, low, high) = rows.get(i);
        is_narrow(low);
        is_narrow(high);
        text.push(bound_line(outcome, low, high, decimals).bytes())?;
    }
    Ok(text)
}

// The lines of bounds. An error comes only where memory runs out.
pub(crate) fn bound_lines(
    alloc: Global,
    bounds: &Bounds,
    decimals: Decimals,
) -> Result<Text, AllocError>
    ensures lines { IfOk result (λ text. text ≡ bound_lines decimals bounds.now.rows bounds.now.other) }
    ensures narrow { IfOk result (λ _. All (λ row. IsNarrow row.1 × IsNarrow row.2) bounds.now.rows) }
    ensures narrow_others { IsNarrow bounds.now.other }
{
    is_narrow(&bounds.other);
    let mut text = bound_rows_text(alloc, &bounds.rows, decimals)?;
    if bounds.other.num() == 0 {
        return Ok(text);
    }
    text.push(other_line(&bounds.other, decimals).bytes())?;
    Ok(text)
}

// The lines of masses where nothing is limited, in fractions of 128 bits. An error comes only where memory runs out.
fn narrow_exact_lines(
    alloc: Global,
    masses: &ExactMasses,
    decimals: Decimals,
) -> Result<Text, AllocError>
    ensures { IfOk result (λ text. text ≡ exact_lines decimals masses.now.rows masses.now.endless) }
{
    narrow_lines();
    is_narrow(&masses.endless);
    let mut text = mass_rows_text(alloc, &masses.rows, decimals)?;
    if masses.endless.num() == 0 {
        return Ok(text);
    }
    text.push(endless_line(&masses.endless, decimals).bytes())?;
    Ok(text)
}

// The lines of wide masses.
#[tactic(auto, using(report_text::proofs::RowByRow::rows_end))]
fn wide_rows_text(alloc: Global, rows: &WideRows, decimals: Decimals) -> Result<Text, AllocError>
    ensures { IfOk result (λ text. text ≡ exact_rows_text decimals rows.now) }
{
    let mut text = Text::new(alloc);
    for i in 0..rows.count() {
        let row = rows.get(i);
        text.push(wide_text::mass_line(alloc, &row.0, &row.1, decimals)?.bytes())?;
    }
    Ok(text)
}

// Those in wide fractions, likewise.
fn wide_exact_lines(
    alloc: Global,
    masses: &WideMasses,
    decimals: Decimals,
) -> Result<Text, AllocError>
    ensures { IfOk result (λ text. text ≡ exact_lines decimals masses.now.rows masses.now.endless) }
{
    let mut text = wide_rows_text(alloc, &masses.rows, decimals)?;
    if masses.endless.num().is_zero() {
        return Ok(text);
    }
    text.push(wide_text::endless_line(alloc, &masses.endless, decimals)?.bytes())?;
    Ok(text)
}

// The lines of masses where nothing is limited. An error comes only where memory runs out.
pub(crate) fn exact_lines(
    alloc: Global,
    masses: &Masses,
    decimals: Decimals,
) -> Result<Text, AllocError>
    ensures { IfOk result (λ text. text ≡ exact_lines decimals (rows_of masses.now) (endless_of masses.now)) }
{
    match masses {
        Masses::Narrow(masses) => narrow_exact_lines(alloc, masses, decimals),
        Masses::Wide(masses) => wide_exact_lines(alloc, masses, decimals),
    }
}

// The line of an expected number of bits. An error comes only where memory runs out.
pub(crate) fn bit_line(alloc: Global, bits: &Frac, decimals: Decimals) -> Result<Text, AllocError>
    ensures line { IfOk result (λ text. text ≡ cost_text decimals bits.now) }
    ensures narrow { IsNarrow bits.now }
{
    is_narrow(bits);
    let mut text = Text::new(alloc);
    text.push(cost_line(bits, decimals).bytes())?;
    Ok(text)
}

// The line of an expected number: that of as many bits, with another word in front. An error comes only where memory runs out.
fn number_line(
    alloc: Global,
    word: &[u8],
    number: &Frac,
    decimals: Decimals,
) -> Result<Text, AllocError>
    ensures line { IfOk result (λ text. text ≡ count_text word.now decimals number.now) }
    ensures narrow { IsNarrow number.now }
{
    is_narrow(number);
    let line = cost_line(number, decimals);
    let mut text = Text::new(alloc);
    text.push(word)?;
    text.push(&line.bytes()[BITS.len()..])?;
    Ok(text)
}

// That it has no bound, likewise.
fn unbounded_number_line(alloc: Global, word: &[u8]) -> Result<Text, AllocError>
    ensures { IfOk result (λ text. text ≡ unbounded_count_text word.now) }
{
    let line = unbounded_line();
    let mut text = Text::new(alloc);
    text.push(word)?;
    text.push(&line.bytes()[BITS.len()..])?;
    Ok(text)
}

// The line of a count. An error comes only where memory runs out.
pub(crate) fn count_line(
    alloc: Global,
    word: &[u8],
    count: Count,
    decimals: Decimals,
) -> Result<Text, AllocError>
    ensures { (under : Limits → Fraction) → IsCount under count → IfOk result (IsCountLine word.now under decimals) }
{
    match count {
        Count::Expected(number) => number_line(alloc, word, &number, decimals),
        Count::Unbounded => unbounded_number_line(alloc, word),
    }
}

// The line of a count of which nothing is said. An error comes only where memory runs out.
pub(crate) fn unknown_count_line(alloc: Global, word: &[u8]) -> Result<Text, AllocError>
    ensures { IfOk result (λ text. text ≡ unknown_count_text word.now) }
{
    let mut text = Text::new(alloc);
    text.push(word)?;
    text.push(b" unknown\n")?;
    Ok(text)
}
