// A batch of lines.

use report_text::LINE_BYTES;
use std::alloc::{AllocError, Global};
use std::marker::Model;

// How many streams a batch of the first round has. Each round after it has batches twice as long, up to the most: the first lines
// come soon, and long runs are seldom held up.
pub const STREAMS_OF_A_FIRST_BATCH: u64 = 8;

// The most streams of a batch. The last batch of a range may be shorter than the others of its round.
pub const STREAMS_OF_A_BATCH: u64 = 16_384;

// How many bytes a batch has room for: as many lines, each of the greatest length.
pub const ROOM: usize = STREAMS_OF_A_BATCH as usize * LINE_BYTES;

// The lines of a batch, in a buffer that is taken once. It is seen as a list of bytes.
#[derive(Drop)]
pub struct Batch {
    buffer: Vec<u8>,
    filled: usize,
}

impl Model for Batch {
    ghost use Rattle.std.specs.Prelude.{◌≡◌, List, ℕ, ◌≤◌, length, take};
    ghost use Rattle.stream_lines.specs.declared.batch.TheConstants.{ROOM};

    ghost Value = { List ℕ };

    ghost view = { λ b. take b.filled b.buffer.items };

    ghost invariant = { λ b. (b.filled ≤ ROOM) × (length b.buffer.items ≡ ROOM) };
}

impl Batch {
    ghost use Rattle.std.specs.Prelude.{◌≡◌, ◌+◌, ◌≤◌, ◌++◌, [], length, IfOk};
    ghost use Rattle.stream_lines.specs.declared.batch.TheConstants.{ROOM};

    // A batch with no byte. An error comes only where memory runs out.
    pub(crate) fn new(alloc: Global) -> Result<Batch, AllocError>
        ensures { IfOk result (λ batch. batch ≡ []) }
    {
        Ok(Batch {
            buffer: vec![in alloc; 0u8; ROOM]?,
            filled: 0,
        })
    }

    pub(crate) fn bytes(&self) -> &[u8]
        ensures { result.now ≡ self.now }
    {
        &self.buffer[..self.filled]
    }

    pub(crate) fn clear(&mut self)
        ensures { self.new ≡ [] }
    {
        self.filled = 0;
    }

    pub(crate) fn push(&mut self, text: &[u8])
        requires { length self.old + length text.now ≤ ROOM }
        ensures { self.new ≡ self.old ++ text.now }
    {
        let end = self.filled + text.len();
        self.buffer[self.filled..end].copy_from_slice(text);
        self.filled = end;
    }
}
