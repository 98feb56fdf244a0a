// Generated programs: how large they are, and how their runs end on the first streams of a seed.

ghost use Rattle.std.specs.Prelude.{◌≡◌, ◌≤◌, ◌<◌, ◌-◌, ◌^◌, IfOk};
ghost use Rattle.gcl_core.specs.text.StatementCounts.{count_all};
ghost use Rattle.gcl_core.specs.meaning.Views.{source_of};
ghost use Rattle.generated_program.specs.declared.generating.TheConstants.{GREATEST_NUMBER};
ghost use Rattle.zar_cli.specs.Counts.{size_text, generated_range, IsGeneratedText};

use crate::counting::tally_text;
use crate::options::usual_limits;
use crate::settings::{GENERATED_STREAMS, USUAL_BUDGET, USUAL_WORKERS};
use gcl_core::{Checked, count_statements};
use gcl_print::{Text, print};
use generated_program::generate_checked;
use report_text::{Count, number_line};
use std::alloc::{AllocError, Global};
use std::marker::Sync;
use std::thread::Threads;
use stream_runs::SeedRange;
use zar_io::Gate;

// The lines of a program's size.
fn size_text(alloc: Global, program: &Checked) -> Result<Text, AllocError>
    requires { count_all (source_of program.now).body < 2 ^ 32 - 1 }
    ensures { IfOk result (λ text. text ≡ size_text (source_of program.now)) }
{
    let p = program.program();
    let printed = print(alloc, p)?;
    let mut text = Text::new(alloc);
    text.push(number_line(count_statements(&p.body), Count::Statements).bytes())?;
    text.push(number_line(printed.len() as u64, Count::Bytes).bytes())?;
    text.push(number_line(GENERATED_STREAMS, Count::Streams).bytes())?;
    Ok(text)
}

// The first streams of the seed `k`.
fn generated_range(k: u32) -> SeedRange
    ensures { result ≡ generated_range k }
{
    SeedRange {
        seed: u64::from(k),
        from: 0,
        to: GENERATED_STREAMS,
        budget: USUAL_BUDGET,
        workers: USUAL_WORKERS as u32,
    }
}

/// The size of the generated program of `k`, and how its runs end on the first streams of the seed `k`, as lines. An error comes
/// only where memory runs out.
pub fn generated_text<R: Threads + Sync, G: Gate>(
    rt: &R,
    alloc: Global,
    k: u32,
    gate: &G,
) -> Result<Text, AllocError>
    requires { k ≤ GREATEST_NUMBER }
    ensures { IfOk result (IsGeneratedText k) }
{
    let program = generate_checked(alloc, k)?;
    let mut text = size_text(alloc, &program)?;
    let limits = usual_limits();
    let rows = tally_text(rt, alloc, &program, &generated_range(k), &limits, gate)?;
    text.push(rows.bytes())?;
    Ok(text)
}
