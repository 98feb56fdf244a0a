//! One file in memory, under every name.
ghost use Rattle.std.specs.Prelude.{◌≡◌, ◌<◌, ◌≤◌, ◌∷◌, ℕ, List, [], IfOk, IsTrue, Ok, Some, length, min, drop, vec_len};
ghost use Rattle.zar_io.specs.inner.AgreesOnce.{agrees_once};
ghost use Rattle.zar_io.specs.Trace.{Agrees, reading, is_open, left_in};
ghost use Rattle.zar_io.specs.declared.trace.Event.TheVariants.{Opened};

use crate::copying::copy_front;
use crate::trace::{Note, Trace};
use crate::{Failed, Files, OpenError};
use std::alloc::{AllocError, Global};

/// One file in memory that is opened under every name. No call fails.
#[derive(Drop)]
pub struct OneFile {
    bytes: Vec<u8>,
    step: usize,
    // How many of its bytes were read.
    at: usize,
    trace: Trace,
    ghost gives_some: { 0 < step },
    ghost in_file: { at ≤ vec_len bytes },
    pub ghost agrees: { Agrees (λ _. Some bytes.items) trace.events } by { agrees_once (λ _. Some bytes.items) trace.events },
    ghost left: { IsTrue (is_open trace.events) → left_in (λ _. Some bytes.items) trace.events ≡ drop at bytes.items },
}

impl OneFile {
    ghost use Rattle.zar_io.specs.OneFile.{any_file, file_answered, file_step};

    /// A file of these bytes, for which it takes the memory here, and which is not open. A read gives at most
    /// `step` bytes.
    pub fn new(alloc: Global, step: usize, bytes: &[u8]) -> Result<OneFile, AllocError>
        requires { 0 < step }
        ensures bytes { IfOk result (λ file. (name : List ℕ) → any_file file name ≡ Some bytes.now) }
        ensures answered { IfOk result (λ file. file_answered file ≡ []) }
        ensures step { IfOk result (λ file. file_step file ≡ step) }
    {
        Ok(OneFile {
            bytes: bytes.to_vec(alloc)?,
            step,
            at: 0,
            trace: Trace::new(),
        })
    }
}

#[tactic(auto, using(crate::proofs::MemFileLemmas::files_by_name))]
impl Files for OneFile {
    ghost use Rattle.zar_io.specs.OneFile.{any_file, file_answered, rest_of_file, file_step};

    ghost answered = { file_answered };

    fn open(&mut self, _name: &str) -> Result<(), OpenError>
        ensures opened { result ≡ Ok tt }
        ensures answered { file_answered self.new ≡ Opened _name.now ∷ file_answered self.old }
        ensures same_file { any_file self.new ≡ any_file self.old }
        ensures same_step { file_step self.new ≡ file_step self.old }
    {
        self.at = 0;
        self.trace = self.trace.then(&Note::Opened(_name));
        Ok(())
    }

    fn read(&mut self, buf: &mut [u8]) -> Result<usize, Failed>
        requires opened { IsTrue (is_open (file_answered self.old)) }
        requires room { 0 < length buf.old }
        ensures amount { result ≡ Ok (min (length (rest_of_file self.old)) (min (file_step self.old) (length buf.old))) }
        ensures answered { file_answered self.new ≡ reading result buf.new ∷ file_answered self.old }
        ensures same_file { any_file self.new ≡ any_file self.old }
        ensures same_step { file_step self.new ≡ file_step self.old }
    {
        let n = copy_front(&self.bytes[self.at..], buf, self.step);
        self.at += n;
        self.trace = self.trace.then(&Note::Read(&buf[..n]));
        Ok(n)
    }
}
