// The lines of runs that are still to be made.

use gcl_core::{Checked, Limits};
use gcl_print::Text;
use std::alloc::{AllocError, Global};
use std::marker::Model;
use std::thread::Threads;
use stream_lines::write_runs;
use stream_runs::SeedRange;
use zar_io::{Failed, Gate, Sink};

/// A program, and the streams on which it is to run, with a text that stands before. It is seen as this front and the lines of the
/// runs, one behind the other.
#[derive(Drop)]
pub struct Drawn {
    front: Text,
    program: Checked,
    range: SeedRange,
    limits: Limits,
}

impl Model for Drawn {
    ghost use Rattle.std.specs.Prelude.{List, ℕ, ◌++◌};
    ghost use Rattle.gcl_core.specs.meaning.LimitRange.{InRange};
    ghost use Rattle.gcl_core.specs.meaning.Runs.{run_on};
    ghost use Rattle.gcl_core.specs.meaning.Views.{source_of};
    ghost use Rattle.stream_lines.specs.Lines.{lines_of_range};
    ghost use Rattle.stream_runs.specs.Ranges.{IsRange, IsWorkers};

    ghost Value = { List ℕ };

    ghost view = { λ d. d.front ++ lines_of_range (run_on (source_of d.program) d.limits) d.range };

    ghost invariant = { λ d. InRange d.limits × IsRange d.range × IsWorkers d.range.workers };
}

impl Drawn {
    ghost use Rattle.std.specs.Prelude.{◌≡◌, ◌++◌, is_err, IfOk, OnErr};
    ghost use Rattle.gcl_core.specs.meaning.LimitRange.{InRange};
    ghost use Rattle.gcl_core.specs.meaning.Runs.{run_on};
    ghost use Rattle.gcl_core.specs.meaning.Views.{source_of};
    ghost use Rattle.stream_lines.specs.Lines.{lines_of_range};
    ghost use Rattle.stream_runs.specs.Ranges.{IsRange, IsWorkers};
    ghost use Rattle.zar_io.specs.Written.{IsWritten};

    /// The front, and the lines of the program's runs on the streams of the range. It takes no memory.
    pub fn of(front: Text, program: Checked, range: SeedRange, limits: Limits) -> Drawn
        requires limits { InRange limits }
        requires range { IsRange range }
        requires workers { IsWorkers range.workers }
        ensures { result ≡ front ++ lines_of_range (run_on (source_of program) limits) range }
    {
        Drawn {
            front,
            program,
            range,
            limits,
        }
    }

    /// Makes the lines and writes them as they come. All memory is taken before the first byte is written. An error comes only
    /// where it runs out, and nothing is written then. The lines are the same for any gate.
    pub fn write<R: Threads + Sync, S: Sink, G: Gate>(
        &self,
        rt: &R,
        alloc: Global,
        sink: &mut S,
        gate: &G,
    ) -> Result<Result<(), Failed>, AllocError>
        ensures written { IfOk result (λ done.
            IsWritten (is_err done) (S.answered sink.old) (S.answered sink.new) self.now) }
        ensures untouched { OnErr result (sink.new ≡ sink.old) }
    {
        write_runs(
            rt,
            alloc,
            sink,
            self.front.bytes(),
            &self.program,
            &self.range,
            &self.limits,
            gate,
        )
    }
}
