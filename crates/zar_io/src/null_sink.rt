//! A sink that keeps nothing.
ghost use Rattle.std.specs.Prelude.{◌≡◌, ◌<◌, ◌∷◌, [], Ok, length};
ghost use Rattle.zar_io.specs.declared.trace.Event.TheVariants.{Wrote};

use crate::trace::{Note, Trace};
use crate::{Failed, Sink};

/// A sink that takes every piece whole and keeps nothing. No write fails.
#[derive(Drop)]
pub struct NullSink {
    trace: Trace,
}

impl NullSink {
    /// It keeps nothing, so it takes no memory.
    pub fn new() -> NullSink
        ensures { ⟦<NullSink as Sink>⟧.answered result ≡ [] }
    {
        NullSink {
            trace: Trace::new(),
        }
    }
}

impl Sink for NullSink {
    ghost answered = { λ sink. sink.trace.events };

    fn write(&mut self, piece: &[u8]) -> Result<usize, Failed>
        requires { 0 < length piece.now }
        ensures whole { result ≡ Ok (length piece.now) }
        ensures answered { self.new.trace.events ≡ Wrote piece.now ∷ self.old.trace.events }
    {
        self.trace = self.trace.then(&Note::Wrote(piece));
        Ok(piece.len())
    }
}
