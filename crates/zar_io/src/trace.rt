//! A record of what files and sinks answered. Only clauses read it: it takes no memory, and its methods do nothing at run time.
ghost use Rattle.std.specs.Prelude.{◌≡◌, List, [], ◌∷◌};
ghost use Rattle.std.specs.Borrow.{ftrue};
ghost use Rattle.zar_io.specs.declared.trace.Event.{Event};

use std::collections::LinkedList;
use std::marker::Model;

/// What a call of files or of a sink answered. Clauses alone speak of it, and no value of it is made.
pub enum Event {
    /// The file of this name was opened.
    Opened(LinkedList<u8>),
    /// There was no file of this name to be opened.
    Missed(LinkedList<u8>),
    /// The call that was to open the file of this name failed.
    OpenFailed(LinkedList<u8>),
    /// A read gave these bytes: none of them at the end.
    Read(LinkedList<u8>),
    /// A write took these bytes.
    Wrote(LinkedList<u8>),
    /// A read or a write failed.
    Failed,
}

/// An answer that is to be recorded.
#[derive(Clone, Copy, Drop)]
pub(crate) enum Note<'a> {
    Opened(&'a str),
    Missed(&'a str),
    OpenFailed(&'a str),
    Read(&'a [u8]),
    Wrote(&'a [u8]),
    Failed,
}

/// What was answered so far, the newest first.
#[derive(Drop)]
pub(crate) struct Trace {
    pub ghost events: { List Event },
}

impl Model for Trace {
    ghost also_owns = { λ _. ftrue };
}

impl Trace {
    ghost use Rattle.zar_io.specs.Noted.{noted};

    /// Nothing was answered.
    #[inline(always)]
    pub(crate) fn new() -> Trace
        ensures { result.events ≡ [] }
    {
        Trace {}
    }

    /// That, and then this answer.
    #[inline(always)]
    pub(crate) fn then(&self, _note: &Note<'_>) -> Trace
        ensures { result.events ≡ noted _note.now ∷ self.now.events }
    {
        Trace {}
    }
}
