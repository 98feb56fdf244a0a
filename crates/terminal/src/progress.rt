//! A line on standard error that tells how far a long command is.

use crate::told::Told;
use std::io::Eprint;
use std::sync::atomic::AtomicU64;
use std::sync::atomic::Ordering::SeqCst;
use std::thread;
use std::time::{Clock, Duration, Instant};
use stream_runs::STREAMS_OF_A_BLOCK;
use zar_io::Gate;

// The milliseconds before the first line.
const BEFORE_THE_FIRST: u64 = 1000;

// The milliseconds between two lines that count, and between two that do not.
const BETWEEN_COUNTS: u64 = 100;

const BETWEEN_TIMES: u64 = 1000;

// The milliseconds for which the thread of the line sleeps, so that it ends soon after the command.
const ASLEEP: u64 = 10;

// How often a thread that is to take the line away lets others go on, at most, until the line is written.
const MOST_YIELDS: u32 = 100_000;

// Back to the first column, and clear the line.
const WIPE: &str = "\r\x1b[K";

// What is shown: nothing yet, a line that is being written, a line, or nothing any more.
const NOTHING: u64 = 0;

const WRITING: u64 = 1;

const LINE: u64 = 2;

const OVER: u64 = 3;

/// What a command goes through.
#[derive(Clone, Copy)]
pub enum Task {
    /// It is short, or shows itself how far it is.
    Unseen,
    /// Nothing is known of its length.
    Work,
    /// So many streams.
    Streams(u64),
}

/// A line on standard error that tells how long a command has worked, and a gate by which it tells how many of the streams stand
/// before the block that is entered: not before a second is over, and each time in the place of the line before. A clock or a write
/// that fails is passed over.
#[derive(Drop)]
pub struct Progress {
    // how many streams the command goes through, or 0 where nothing is known of its length
    streams: AtomicU64,
    // how many of them stand before the block that was entered last
    before: AtomicU64,
    state: AtomicU64,
}

impl Progress {
    /// It shows nothing yet.
    pub fn new() -> Progress {
        Progress {
            streams: AtomicU64::new(0),
            before: AtomicU64::new(0),
            state: AtomicU64::new(NOTHING),
        }
    }

    /// The command goes through this.
    pub fn begin(&self, task: Task) {
        match task {
            Task::Unseen => self.state.store(OVER, SeqCst),
            Task::Work => {}
            Task::Streams(streams) => self.streams.store(streams, SeqCst),
        }
    }

    // Goes on to a state from another, if it is that.
    fn is_changed(&self, from: u64, to: u64) -> bool {
        self.state
            .compare_exchange(from, to, SeqCst, SeqCst)
            .is_ok()
    }

    // Shows a line in the place of the one before, unless all is over.
    fn show<R: Eprint>(&self, rt: &R, line: Told) {
        if self.is_changed(NOTHING, WRITING) || self.is_changed(LINE, WRITING) {
            let _ = eprint!(rt; "{WIPE}{line}");
            let _ = self.is_changed(WRITING, LINE);
        }
    }

    // The line of a command that has lasted for so many milliseconds, and how many pass until the next.
    fn line(&self, time: u64) -> (Told, u64) {
        match self.streams.load(SeqCst) {
            0 => (Told::Working(time), BETWEEN_TIMES),
            all => {
                let before = self.before.load(SeqCst);
                (Told::Counting(time, before, all), BETWEEN_COUNTS)
            }
        }
    }

    /// Shows how far the command is, which begins now, until it is over. Another thread works on it.
    pub fn watch<R: Clock + Eprint>(&self, rt: &R) {
        let Ok(start) = Instant::now(rt) else {
            return;
        };
        let mut due = BEFORE_THE_FIRST;
        for _ in 0..u64::MAX {
            if self.state.load(SeqCst) == OVER {
                return;
            }
            thread::sleep(rt, Duration::from_millis(ASLEEP));
            let Ok(time) = start.elapsed(rt) else {
                return;
            };
            let now = u64::try_from(time.as_millis()).unwrap_or(u64::MAX);
            if now >= due {
                let (line, between) = self.line(now);
                self.show(rt, line);
                due = now.saturating_add(between);
            }
        }
    }

    /// Takes the line away, if one is shown, and shows none any more.
    pub fn end<R: Eprint>(&self, rt: &R) {
        for _ in 0..MOST_YIELDS {
            if self.state.load(SeqCst) != WRITING {
                break;
            }
            thread::yield_now();
        }
        if self.state.swap(OVER, SeqCst) == LINE {
            let _ = eprint!(rt; "{WIPE}");
        }
    }
}

impl Gate for Progress {
    fn entered(&self, block: u64) {
        self.before
            .store(block.saturating_mul(STREAMS_OF_A_BLOCK), SeqCst);
    }
}
