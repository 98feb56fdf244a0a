//! A sink beside a line of progress.
ghost use Rattle.std.specs.Prelude.{◌≡◌};

use crate::progress::Progress;
use std::io::Eprint;
use zar_io::{Failed, Sink};

/// A sink that writes to another. Where what it writes is seen beside the line of progress, it ends that line first.
#[derive(Drop)]
pub struct WipingSink<'p, S: Sink + Drop, R: Eprint> {
    sink: S,
    rt: &'p R,
    progress: &'p Progress,
    is_seen: bool,
}

impl<'p, S: Sink + Drop, R: Eprint> WipingSink<'p, S, R> {
    /// Its record is that of the other sink.
    pub fn new(sink: S, rt: &'p R, progress: &'p Progress, is_seen: bool) -> WipingSink<'p, S, R>
        ensures { ⟦<WipingSink<'p, S, R> as Sink>⟧.answered result ≡ S.answered sink }
    {
        WipingSink {
            sink,
            rt,
            progress,
            is_seen,
        }
    }
}

impl<S: Sink + Drop, R: Eprint> Sink for WipingSink<'_, S, R> {
    ghost answered = { λ s. S.answered s.sink };

    fn write(&mut self, piece: &[u8]) -> Result<usize, Failed> {
        if self.is_seen {
            self.progress.end(self.rt);
        }
        self.sink.write(piece)
    }
}
