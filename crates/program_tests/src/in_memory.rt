// Calls over files and sinks in memory.

ghost use Rattle.std.specs.Prelude.{◌≡◌, ◌^◌, ◌<◌, ◌++◌, Ok, IfOk, map, length, string_bytes, vec_len};
ghost use Rattle.zar_io.specs.MemFiles.{named_file, files_answered};
ghost use Rattle.zar_io.specs.MemSink.{sink_answered};
ghost use Rattle.zar_io.specs.Trace.{failures, written};
ghost use Rattle.zar_cli.specs.declared.command.Command.{Command};
ghost use Rattle.zar_cli.specs.Delivery.{status_of, out_text, err_text};
ghost use Rattle.zar_cli.specs.ByStages.{Output};
ghost use Rattle.zar_cli.specs.Output.{SaysOrRunsOut};
ghost use Rattle.zar_cli.specs.Words.{command_of};

use std::alloc::{AllocError, Global};
use std::thread::Threads;
use zar_cli::{Call, zar};
use zar_io::{MemFiles, MemSink, Open};

// The words of a call.
pub(crate) fn spelled(alloc: Global, call: &[&str]) -> Result<Vec<String>, AllocError>
    requires { length call.now < 2 ^ 32 }
    ensures few { IfOk result (λ words. vec_len words < 2 ^ 32) }
{
    let mut words = Vec::new(alloc);
    for word in call {
        words.push(String::from_str(alloc, *word)?)?;
    }
    Ok(words)
}

// A call of which no read and no write failed has the status of what is said of its words over the files, and writes exactly that.
pub(crate) fn call<R: Threads + Sync>(
    rt: &R,
    alloc: Global,
    words: &[String],
    files: &mut MemFiles,
    out: &mut MemSink,
    err: &mut MemSink,
) -> u8
    requires { length words.now < 2 ^ 32 }
    ensures said { failures (files_answered files.new) ≡ failures (files_answered files.old)
        → failures (sink_answered out.new) ≡ failures (sink_answered out.old)
        → failures (sink_answered err.new) ≡ failures (sink_answered err.old)
        → (output : Output)
        × ((c : Command) → command_of (map string_bytes words.now) ≡ Ok c → SaysOrRunsOut (named_file files.new) c output)
        × (result ≡ status_of output)
        × (written (sink_answered out.new) ≡ written (sink_answered out.old) ++ out_text output)
        × (written (sink_answered err.new) ≡ written (sink_answered err.old) ++ err_text output) }
{
    let call = Call::of(alloc, words);
    zar(rt, alloc, &call, files, out, err, &Open)
}
