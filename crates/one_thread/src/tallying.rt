// A tally by one worker.

ghost use Rattle.std.specs.Prelude.{Bool, List, IfOk};
ghost use Rattle.gcl_core.specs.declared.answers.Answer.{Answer};
ghost use Rattle.gcl_core.specs.meaning.LimitRange.{InRange};
ghost use Rattle.sampler_code.specs.Assembled.{IsRunOf};
ghost use Rattle.stream_runs.specs.Ranges.{IsRange};
ghost use Rattle.tally_range.specs.Counts.{count_range};
ghost use Rattle.tally_range.specs.Rows.{IsTallyOf};

use claim_board::Board;
use gcl_core::Limits;
use sampler_run::Sampler;
use std::alloc::{AllocError, Global};
use stream_runs::SeedRange;
use tally_range::{Share, Tally, work};
use zar_io::Open;

/// How many of the streams of the range have runs of the sampler that end in each way. An error comes only where memory runs out.
pub fn tally_alone(
    alloc: Global,
    s: &Sampler,
    l: &Limits,
    range: &SeedRange,
) -> Result<Tally, AllocError>
    requires limits { InRange l.now }
    requires range { IsRange range.now }
    ensures rows { IfOk result
        (λ t. (run : List Bool → Answer) → IsRunOf s.now l.now run → IsTallyOf (count_range run range.now) t) }
{
    let (board, mut passes) = Board::new(alloc, range.blocks(), 1)?;
    let Some(pass) = passes.pop() else {
        unreachable!()
    };
    let mut share = Share::new(alloc, pass);
    work(&board, &mut share, s, l, range, &Open)?;
    let (pass, table) = share.parts();
    passes.push(pass)?;
    board.close(passes);
    table.is_tally();
    Ok(table)
}
