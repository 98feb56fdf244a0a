// The lines of audits.

ghost use Rattle.std.specs.Prelude.{◌≡◌, ◌≤◌, IfOk};
ghost use Rattle.audit_walk.specs.declared.auditing.TheConstants.{MOST_DEPTH};
ghost use Rattle.count_lines.specs.AuditLines.{share_of, audit_rows_text, audit_text};

use audit_walk::{Audit, AuditRows};
use gcl_print::Text;
use numbers::Frac;
use report_text::{Decimals, mass_line, undecided_line};
use std::alloc::{AllocError, Global};

// `count` of the 2^depth strings of `depth` bits, as a fraction.
fn share_of(depth: u32, count: u64) -> Frac
    requires { depth ≤ MOST_DEPTH }
    ensures { result ≡ share_of depth count }
{
    Frac::of(u128::from(count), 1 << depth)
}

// The lines of an audit's rows.
#[tactic(auto, using(report_text::proofs::RowByRow::rows_end))]
fn audit_rows_text(
    alloc: Global,
    depth: u32,
    rows: &AuditRows,
    decimals: Decimals,
) -> Result<Text, AllocError>
    requires { depth ≤ MOST_DEPTH }
    ensures { IfOk result (λ text. text ≡ audit_rows_text depth decimals rows.now) }
{
    let mut text = Text::new(alloc);
    for i in 0..rows.count() {
        let (outcome, count) = rows.get(i);
        text.push(mass_line(&outcome, &share_of(depth, count), decimals).bytes())?;
    }
    Ok(text)
}

/// The lines of an audit of the strings of `depth` bits, with so many decimals. An error comes only where memory runs out.
pub fn audit_text(
    alloc: Global,
    depth: u32,
    audit: &Audit,
    decimals: Decimals,
) -> Result<Text, AllocError>
    requires { depth ≤ MOST_DEPTH }
    ensures { IfOk result (λ text. text ≡ audit_text depth decimals audit.now.rows audit.now.undecided) }
{
    let mut text = audit_rows_text(alloc, depth, &audit.rows, decimals)?;
    if audit.undecided == 0 {
        return Ok(text);
    }
    text.push(undecided_line(&share_of(depth, audit.undecided), decimals).bytes())?;
    Ok(text)
}
