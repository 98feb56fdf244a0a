// Rolls by weights.

ghost use Rattle.std.specs.Prelude.{◌≡◌, ◌↔◌, ◌⊎◌, length};
ghost use Rattle.stream_rolls.specs.Rolls.{AreRolled};
ghost use Rattle.zar_c.specs.Rolls.{CanRoll};
ghost use Rattle.zar_c.specs.Said.{bare, done};

use crate::asking::{ZarRollLimits, can_roll};
use crate::said::{ZarSaid, said};
use crate::statuses::{DONE, NUMBERS_REFUSED, OUT_OF_MEMORY};
use std::alloc::Global;
use stream_rolls::rolls_into;
use stream_runs::StreamsFrom;

/// Writes what rolls by weights give, with at most `flips` flips each: place k of both arrays gets the end of the roll on the
/// first `budget` bits of the stream `first` + k of the seed. The status is 0 where it did, 2 where no roll may have the
/// weights, a number is out of range or the arrays are not alike, and 5 where memory ran out. Where it is not 0 the arrays stay
/// as they were.
#[unsafe(no_mangle)]
pub extern "C" fn zar_roll(
    alloc: Global,
    weights: &[u64],
    seed: u64,
    first: u64,
    limits: &ZarRollLimits,
    labels: &mut [u64],
    ends: &mut [u8],
) -> ZarSaid
    ensures rolled { (result.status ≡ DONE) →
        AreRolled weights.now limits.now.flips seed first limits.now.budget labels.new ends.new }
    ensures asked { (result.status ≡ NUMBERS_REFUSED)
        ↔ (CanRoll weights.now limits.now first (length labels.old) (length ends.old) → ⊥) }
    ensures untouched { (result.status ≡ DONE → ⊥) → (labels.new ≡ labels.old) × (ends.new ≡ ends.old) }
    ensures form { (result ≡ done 0) ⊎ (result ≡ bare NUMBERS_REFUSED) ⊎ (result ≡ bare OUT_OF_MEMORY) }
{
    if !can_roll(weights, limits, first, labels.len(), ends.len()) {
        return said(NUMBERS_REFUSED);
    }
    let streams = StreamsFrom {
        seed,
        first,
        budget: limits.budget,
    };
    match rolls_into(alloc, weights, limits.flips, streams, labels, ends) {
        Ok(()) => said(DONE),
        Err(_) => said(OUT_OF_MEMORY),
    }
}
