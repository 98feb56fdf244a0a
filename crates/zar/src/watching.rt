//! Of which calls a line of progress is shown.

use crate::calls::row_of;
use std::env;
use std::rt::Env;
use terminal::Task;
use zar_cli::{Call, Verb};

// The terminal says that it cannot take a line away.
fn is_dumb<R: Env + AllocGlobal>(rt: &R) -> bool {
    env::var(rt, "TERM").is_ok_and(|kind| kind.as_str() == "dumb")
}

// It works out masses, bounds or bits, which may take long.
fn is_work(words: &[String]) -> bool {
    matches!(
        row_of(words),
        Some((
            Verb::Mass | Verb::Cost | Verb::Posterior | Verb::Exact | Verb::Enclose | Verb::Audit,
            _,
            _,
            _,
        ))
    )
}

// The program may be one that is typed at the terminal.
fn is_typed(words: &[String]) -> bool {
    words
        .get(1)
        .is_some_and(|name| name.as_str().starts_with("/dev/"))
}

/// A line of progress may be shown beside a call of these words.
pub fn is_watched<R: Env + AllocGlobal>(rt: &R, words: &[String], err_is_seen: bool) -> bool {
    err_is_seen && !is_typed(words) && !is_dumb(rt)
}

/// What the line of progress of a call tells: nothing where other lines come out beside it.
pub fn task_of(call: &Call<'_>, out_is_seen: bool) -> Task {
    match call.streams() {
        // Lines that are seen tell themselves how far they are.
        Some(_) if out_is_seen && call.writes_runs() => Task::Unseen,
        Some(streams) => Task::Streams(streams),
        None if is_work(call.words()) => Task::Work,
        None => Task::Unseen,
    }
}
