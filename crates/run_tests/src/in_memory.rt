//! The outside in memory: a writer over a vector, and files with their bytes.

ghost use Rattle.std.specs.Prelude.{◌≡◌, ◌<◌, ◌-◌, ◌∷◌, [], Some, IfOk, codes, drop, length, vec_len};
ghost use Rattle.zar_io.specs.HostSink.{writer_of};
ghost use Rattle.zar_io.specs.MemFiles.{named_file, files_answered, files_step, files_fails, files_number};
ghost use Rattle.zar_io.specs.Trace.{written};

use std::alloc::{AllocError, Global};
use zar_io::{Failed, HostSink, MemFiles, Sink, put};

/// Appends a piece to what a vector holds, by a writer over it, and answers that: what was written is the piece, and the vector
/// ends with it. `Failed` comes only where memory runs out.
pub fn put_on_a_vector(bytes: Vec<u8>, piece: &[u8]) -> Result<HostSink<Vec<u8>>, Failed>
    ensures written { IfOk result (λ sink. written (⟦<HostSink<Vec<u8>> as Sink>⟧.answered sink) ≡ piece.now) }
    ensures held { IfOk result (λ sink.
        drop (vec_len (writer_of sink) - length piece.now) (writer_of sink).items ≡ piece.now) }
{
    let mut sink = HostSink::new(bytes);
    put(&mut sink, piece)?;
    Ok(sink)
}

/// Files of two names, `bits` with two bytes and `text` with a program, of which nothing was asked yet. A read gives at most
/// `step` bytes. Of the calls from here on, numbered from 0, those fail whose numbers are in `fails`. An error comes only where
/// memory runs out.
pub fn two_files(alloc: Global, step: usize, fails: &[u64]) -> Result<MemFiles, AllocError>
    requires { 0 < step }
    ensures answered { IfOk result (λ files. files_answered files ≡ []) }
    ensures bits { IfOk result (λ files. named_file files (codes "bits") ≡ Some (0xc0 ∷ 0xd4 ∷ [])) }
    ensures text { IfOk result (λ files. named_file files (codes "text") ≡ Some (codes "skip; return 7;")) }
    ensures step { IfOk result (λ files. files_step files ≡ step) }
    ensures fails { IfOk result (λ files. files_fails files ≡ fails.now) }
    ensures number { IfOk result (λ files. files_number files ≡ 0) }
{
    let mut files = MemFiles::new(alloc, step, fails)?;
    files.add("bits", &[0xc0, 0xd4])?;
    files.add("text", b"skip; return 7;")?;
    Ok(files)
}
