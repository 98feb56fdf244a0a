//! A sink that keeps the front of what it writes.
ghost use Rattle.std.specs.Prelude.{◌≡◌, ◌≤◌, ◌++◌, [], length, take};
ghost use Rattle.terminal.specs.declared.keeping.TheConstants.{MOST_KEPT};
ghost use Rattle.zar_io.specs.Trace.{written};

use zar_io::{Failed, Sink};

// Any line of a refusal is shorter.
const MOST_KEPT: usize = 64;

/// A sink that writes to another, and keeps the first bytes that were written.
#[derive(Drop)]
pub struct KeepingSink<S: Sink + Drop> {
    sink: S,
    kept: [u8; MOST_KEPT],
    length: usize,
    ghost within: { length ≤ MOST_KEPT },
    ghost front: { take length kept ≡ take MOST_KEPT (written (S.answered sink)) },
}

impl<S: Sink + Drop> KeepingSink<S> {
    /// Its record is that of the other sink, to which nothing was written yet.
    pub fn new(sink: S) -> KeepingSink<S>
        requires { S.answered sink ≡ [] }
        ensures { ⟦<KeepingSink<S> as Sink>⟧.answered result ≡ S.answered sink }
    {
        KeepingSink {
            sink,
            kept: [0; MOST_KEPT],
            length: 0,
        }
    }

    /// The first bytes that were written, as far as they are kept.
    pub fn kept(&self) -> &[u8]
        ensures { result.now ≡ take MOST_KEPT (written (⟦<KeepingSink<S> as Sink>⟧.answered self.now)) }
    {
        &self.kept[..self.length]
    }
}

// Puts a piece behind the bytes that are kept, as far as there is room, and answers how many are kept then.
fn keep(kept: &mut [u8; MOST_KEPT], length: usize, piece: &[u8]) -> usize
    requires { length ≤ MOST_KEPT }
    ensures within { result ≤ MOST_KEPT }
    ensures kept { take result kept.new ≡ take MOST_KEPT (take length kept.old ++ piece.now) }
{
    let n = piece.len().min(MOST_KEPT - length);
    kept[length..length + n].copy_from_slice(&piece[..n]);
    length + n
}

impl<S: Sink + Drop> Sink for KeepingSink<S> {
    ghost answered = { λ s. S.answered s.sink };

    fn write(&mut self, piece: &[u8]) -> Result<usize, Failed> {
        let n = self.sink.write(piece)?;
        self.length = keep(&mut self.kept, self.length, &piece[..n]);
        Ok(n)
    }
}
