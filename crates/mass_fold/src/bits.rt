// The bits of one round.

ghost use Rattle.std.specs.Prelude.{◌≡◌, ◌≤◌, IfOk, IfErr, IfSome};
ghost use Rattle.numbers.specs.Fraction.{lowest};
ghost use Rattle.gcl_core.specs.weighing.Mass.{failed_mass};
ghost use Rattle.gcl_core.specs.meaning.Views.{source_of};
ghost use Rattle.gcl_core.specs.declared.rules.TheConstants.{MOST_LIMIT};
ghost use Rattle.table_flow.specs.Width.{round_width};
ghost use Rattle.mass_fold.specs.Body.{RoundBits, IsMass};
ghost use Rattle.mass_fold.specs.inner.Metering.{bits_of};
ghost use Rattle.mass_fold.specs.Refused.{IsLimit, RoundRefused};

use crate::attempts::Attempts;
use crate::body::fold_body;
use crate::error::MassError;
use crate::meter::Meter;
use gcl_core::Checked;
use numbers::Frac;
use std::alloc::Global;

// What a meter counted.
fn bits_of(meter: Meter) -> Option<Frac>
    ensures { result ≡ bits_of meter }
{
    match meter {
        Meter::Bits(bits) => Some(bits),
        Meter::TooWide => None,
        Meter::Off => None,
    }
}

/// The bits that the draws of one round read on average, each by the weight with which it is reached, and the mass of a failed
/// observation. There are no bits where two numbers of 128 bits are too few for them.
///
/// The limits are as for `round`, and so is why it is refused.
pub fn round_bits(
    alloc: Global,
    p: &Checked,
    turns: u64,
    attempts: Option<u64>,
) -> Result<(Option<Frac>, Frac), MassError>
    requires turns { turns ≤ MOST_LIMIT }
    requires attempts { IfSome attempts IsLimit }
    ensures bits { IfOk result (λ t. RoundBits (source_of p.now) turns attempts t.0) }
    ensures failed { IfOk result (λ t. t.1 ≡ lowest (failed_mass (source_of p.now) turns attempts)) }
    ensures mass { IfOk result (λ t. IsMass (round_width (source_of p.now) turns attempts) t.1) }
    ensures refused { IfErr result (λ e. RoundRefused e (source_of p.now) turns attempts) }
{
    p.is_kept();
    let nothing = Frac::of(0, 1);
    let attempts = Attempts { most: attempts };
    let mut meter = Meter::Bits(nothing);
    let (_table, ended) = fold_body(alloc, p, turns, attempts, &mut meter)?;
    let failed = ended.failed;
    failed.is_lowest();
    Ok((bits_of(meter), failed))
}
