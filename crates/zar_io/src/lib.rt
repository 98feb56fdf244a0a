//! The outside: files, sinks and sources of bits as traits, each object with a record of what it answered; in memory with planned
//! faults, of the host, and seeded streams.
//!
//! Proved: each answer goes into the record, with the bytes of the buffer, and nothing else does (`Files`, `Sink`, `Bits`). What
//! a reader promises holds over all files that may have answered so (`Agrees`): `read_source` answers the bytes of the file, or
//! its first 65,537 (`bytes`); `FileBits` gives the bits of the open file, each byte's most significant bit first (`left`); and
//! `put` writes a piece, or where a write fails a part of its front. `StreamBits` gives the first bits of the ChaCha20 stream
//! that a seed and a number name, whose words begin as RFC 8439 publishes them (`streams_begin_as_published`).
//!
//! No clause says what a real file holds: that the system opens the file of the name that `HostFiles` recorded and hands over its
//! bytes is trusted, and tested on real files. Nor that bits are fair or independent, those of a stream included, or that memory
//! suffices. Records are there for contracts alone and take no memory. After a read that failed, nothing is promised of the bits
//! that are left.
#![tactic(auto)]

mod calls;
mod copying;
mod faulty_bits;
mod file_bits;
mod gate;
mod host;
mod list_bits;
mod mem_files;
mod mem_sink;
mod null_sink;
mod one_file;
mod outside;
mod source;
mod stream_bits;
mod trace;
mod visits;
mod writing;

pub use faulty_bits::FaultyBits;
pub use file_bits::{BUFFER_BYTES, FileBits};
pub use gate::{Gate, Open};
pub use host::{HostFiles, HostSink};
pub use list_bits::ListBits;
pub use mem_files::MemFiles;
pub use mem_sink::MemSink;
pub use null_sink::NullSink;
pub use one_file::OneFile;
pub use outside::{Bits, Failed, Files, OpenError, Ready, Sink};
pub use source::{MOST_BYTES, SourceError, read_source};
pub use stream_bits::{MOST_BUDGET, StreamBits, streams_begin_as_published};
pub use trace::Event;
pub use visits::Visits;
pub use writing::put;
