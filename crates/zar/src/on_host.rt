//! A call over the files and the writers of the host.
ghost use Rattle.std.specs.Prelude.{[], map, string_bytes};
ghost use Rattle.zar_cli.specs.Answer.{IsAnswer};
ghost use Rattle.zar_cli.specs.Reading.{IsRead};

use std::alloc::Global;
use std::io::{Eprint, Write};
use std::rt;
use std::thread::Threads;
use std::time::Clock;
use terminal::{KeepingSink, Progress, WipingSink};
use zar_cli::{Call, zar};
use zar_io::{Files, HostFiles, HostSink, Sink};

/// Runs the command that the words of the call spell over the files of the host and two of its writers. It answers the status, and the files
/// and both sinks with their records.
pub fn on_host<
    'p,
    R: Threads + Sync + rt::Files + Clock + Eprint,
    O: Write + Drop,
    E: Write + Drop,
>(
    rt: &'p R,
    alloc: Global,
    call: &Call<'_>,
    out: O,
    err: E,
    progress: &'p Progress,
    out_is_seen: bool,
) -> (
    u8,
    HostFiles<'p, R>,
    WipingSink<'p, HostSink<O>, R>,
    KeepingSink<WipingSink<'p, HostSink<E>, R>>,
)
    requires { IsRead call.now }

    // By what the host answered: for every set of files that agrees with the record, the output is what is said of the words
    // over these files; there are such files where no name is sought twice; and the writers took the text of the output, or a
    // part of its front.
    ensures answer { IsAnswer (map string_bytes call.now.words.now) result.0
        [] (⟦<HostFiles<'p, R> as Files>⟧.answered result.1)
        [] (⟦<WipingSink<'p, HostSink<O>, R> as Sink>⟧.answered result.2)
        [] (⟦<KeepingSink<WipingSink<'p, HostSink<E>, R>> as Sink>⟧.answered result.3) }
{
    let mut files = HostFiles::new(rt);
    let mut out = WipingSink::new(HostSink::new(out), rt, progress, out_is_seen);
    let mut err = KeepingSink::new(WipingSink::new(HostSink::new(err), rt, progress, true));
    let status = zar(rt, alloc, call, &mut files, &mut out, &mut err, progress);
    (status, files, out, err)
}
