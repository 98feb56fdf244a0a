// Tallies and audits of the program of a text.

ghost use Rattle.count_lines.specs.AuditLines.{AreAuditLines};
ghost use Rattle.count_lines.specs.TallyLines.{AreTallyLines};
ghost use Rattle.gcl_core.specs.text.Texts.{Spells, SpellsNone};
ghost use Rattle.zar_c.specs.Answered.{IsReply};
ghost use Rattle.zar_c.specs.Counts.{CanAudit, CanCount, range_by};
ghost use Rattle.zar_c.specs.Draws.{limits_of};
ghost use Rattle.zar_c.specs.Masses.{limits_by};

use crate::asking::{ZarLimits, can_audit, can_count, run_limits};
use crate::counting::{counts_of, shares_of};
use crate::said::{ZarSaid, said, written};
use crate::statuses::NUMBERS_REFUSED;
use gcl_core::Limits;
use std::alloc::Global;
use stream_runs::SeedRange;

/// Writes the lines of how often the runs of the program that a text spells end in each way, on the first `budget` bits of each stream
/// from `from` on and below `to`, where the array has room, and tells their length in any case. The status is 0 where they were
/// counted, 1 where the text spells no program, with the code and the place of its refusal, 2 where the numbers are out of range, and 5
/// where memory ran out. Where it is not 0 the array stays as it was.
#[unsafe(no_mangle)]
pub extern "C" fn zar_tally(
    alloc: Global,
    text: &[u8],
    seed: u64,
    from: u64,
    to: u64,
    limits: &ZarLimits,
    lines: &mut [u8],
) -> ZarSaid
    ensures { IsReply (Spells text.now) (SpellsNone text.now) (CanCount limits.now from to)
        (λ p. AreTallyLines p (range_by seed from to limits.now.budget) (limits_of limits.now)) (λ _ _. ⊥)
        lines.old lines.new result }
{
    if !can_count(limits, from, to) {
        return said(NUMBERS_REFUSED);
    }
    let range = SeedRange {
        seed,
        from,
        to,
        budget: limits.budget,
        workers: 1,
    };
    match counts_of(alloc, text, &range, &run_limits(limits)) {
        Ok(told) => written(told.bytes(), lines),
        Err(said) => said,
    }
}

/// The same of the share of the bit strings of `depth` bits on which the runs of the program end in each outcome, and of those on which
/// they need more.
#[unsafe(no_mangle)]
pub extern "C" fn zar_audit(
    alloc: Global,
    text: &[u8],
    depth: u32,
    turns: u64,
    attempts: u64,
    rounds: u64,
    lines: &mut [u8],
) -> ZarSaid
    ensures { IsReply (Spells text.now) (SpellsNone text.now) (CanAudit depth turns attempts rounds)
        (λ p. AreAuditLines p depth (limits_by turns attempts rounds) 0) (λ _ _. ⊥) lines.old lines.new result }
{
    let l = Limits {
        turns,
        attempts,
        rounds,
    };
    if !can_audit(depth, &l) {
        return said(NUMBERS_REFUSED);
    }
    match shares_of(alloc, text, depth, &l) {
        Ok(told) => written(told.bytes(), lines),
        Err(said) => said,
    }
}
