//! The program: the words of the call, the files of the host, the two standard streams, and what follows the line of a refusal
//! where a person reads it.
//!
//! Proved: `on_host`, the one call that is made for a command, has the clause `answer` of `zar` in `zar_cli`, with the files
//! and the writers of the host, from empty records on. A call has fewer than 2^32 words, which `main` tests; nothing is asked of
//! the host.
//!
//! No clause speaks of `main` itself, nor of `status_of`, which hand over the words and the streams and give the status to the
//! system: they are trusted, and tested by what the built program prints. Nor of what the files of the system hold, or of what is
//! shown to a person, as `explain` and the line of progress do.
#![tactic(auto)]

ghost use Rattle.std.specs.Prelude.{◌^◌, ◌<◌, length};

mod calls;
mod explaining;
mod on_host;
mod quoting;
mod watching;
mod words;

use crate::explaining::{explain, is_explained};
use crate::on_host::on_host;
use crate::watching::{is_watched, task_of};
use crate::words::{status_without, words};
use std::io::{Eprint, IsTerminal, Write};
use std::process::ExitCode;
use std::rt::Env;
use std::thread::Threads;
use std::time::Clock;
use std::{rt, thread};
use terminal::Progress;
use zar_cli::Call;
use zar_cli::statuses::NO_WORDS;

// The streams that are seen at a terminal.
#[derive(Clone, Copy)]
struct Seen {
    out: bool,
    err: bool,
}

// The status of a call of these words, of which all is written.
fn status_of<
    R: Threads + Sync + rt::Files + Clock + Eprint + Env + AllocGlobal,
    O: Write + Drop,
    E: Write + Drop,
>(rt: &R, words: &[String], out: O, err: E, progress: &Progress, seen: Seen) -> u8
    requires { length words.now < 2 ^ 32 }
{
    let call = Call::of(rt.alloc(), words);
    progress.begin(task_of(&call, seen.out));
    let (status, _files, _out, err) = on_host(rt, rt.alloc(), &call, out, err, progress, seen.out);
    progress.end(rt);
    if is_explained(rt, words, seen.err) {
        explain(rt, words, err.kept());
    }
    status
}

fn main(rt: HostRuntime) -> ExitCode {
    let seen = Seen {
        out: rt.stdout().is_terminal(),
        err: rt.stderr().is_terminal(),
    };
    let words = match words(&rt) {
        Ok(words) => words,
        Err(why) => return ExitCode::from(status_without(&rt, &why, seen.err)),
    };
    if words.len() >= 1 << 32 {
        return ExitCode::from(NO_WORDS);
    }
    let progress = Progress::new();
    let work = ||
        requires { length words.items < 2 ^ 32 }
    {
        let (out, err) = (rt.stdout(), rt.stderr());
        status_of(&rt, words.as_slice(), out, err, &progress, seen)
    };
    let status = if is_watched(&rt, words.as_slice(), seen.err) {
        thread::join(&rt, || progress.watch(&rt), work).1
    } else {
        work()
    };
    ExitCode::from(status)
}
