// The parser over the words of a text.

ghost use Rattle.std.specs.Prelude.{◌≡◌, ◌<◌, ◌↔◌, length, IsTrue};
ghost use Rattle.gcl_parse.specs.inner.Fronts.{first, behind, number_at, AreInRange};
ghost use Rattle.gcl_parse.specs.inner.Parses.{TakesWord, TakesNumber};
ghost use Rattle.gcl_parse.specs.inner.Pushdown as m;

use gcl_core::{Key, Sym, Word};
use std::alloc::{AllocError, AllocFailed, Global};
use std::marker::Model;

/// Why a phrase is not read.
#[derive(Clone, Copy, PartialEq, Eq)]
pub enum Halt {
    Unexpected,
    OutOfMemory,
}

impl From<AllocError> for Halt {
    ghost use Rattle.gcl_parse.specs.declared.parser.Halt.TheVariants.{OutOfMemory};

    ghost from_gives = { λ _ e. e ≡ OutOfMemory };

    fn from(_error: AllocError) -> Self {
        Halt::OutOfMemory
    }
}

impl<T: Drop> From<AllocFailed<T>> for Halt {
    ghost use Rattle.gcl_parse.specs.declared.parser.Halt.TheVariants.{OutOfMemory};

    ghost from_gives = { λ _ e. e ≡ OutOfMemory };

    fn from(_error: AllocFailed<T>) -> Self {
        Halt::OutOfMemory
    }
}

/// Contracts see the tokens that are left.
#[derive(Drop)]
pub struct Parser<'a> {
    alloc: Global,
    rest: &'a [Word],
}

impl<'a> Model for Parser<'a> {
    ghost use Rattle.std.specs.Prelude.{List};
    ghost use Rattle.gcl_core.specs.declared.words.Word.{Word};

    ghost Value = { List Word };

    ghost view = { λ p. p.rest.now };

    ghost use Rattle.gcl_parse.specs.inner.Fronts.{AreInRange};

    ghost invariant = { λ p. AreInRange p.rest.now };
}

impl<'a> Parser<'a> {
    pub fn new(alloc: Global, words: &'a [Word]) -> Parser<'a>
        requires { AreInRange words.now }
        ensures { result ≡ words.now }
    {
        Parser { alloc, rest: words }
    }

    pub fn alloc(&self) -> Global {
        self.alloc
    }

    pub fn peek(&self) -> Option<Word>
        ensures value { result ≡ first self.now }
        ensures numbers { AreInRange self.now }
    {
        self.rest.first().copied()
    }

    pub fn left(&self) -> usize
        ensures { result ≡ length self.now }
    {
        self.rest.len()
    }

    pub fn advance(&mut self)
        requires { 0 < length self.old }
        ensures { self.new ≡ behind self.old }
    {
        self.rest = &self.rest[1..];
    }

    pub fn next_is(&self, word: Word) -> bool
        ensures { IsTrue result ↔ (first self.now ≡ Some word) }
    {
        self.peek() == Some(word)
    }

    /// Takes this symbol.
    pub fn sym(&mut self, sym: Sym) -> Result<(), Halt>
        ensures { TakesWord (m.sym sym) (Word.Sym sym) self.old result self.new }
    {
        if !self.next_is(Word::Sym(sym)) {
            return Err(Halt::Unexpected);
        }
        self.advance();
        Ok(())
    }

    /// Takes this reserved name.
    pub fn key(&mut self, key: Key) -> Result<(), Halt>
        ensures { TakesWord (m.key key) (Word.Key key) self.old result self.new }
    {
        if !self.next_is(Word::Key(key)) {
            return Err(Halt::Unexpected);
        }
        self.advance();
        Ok(())
    }

    /// Takes a number.
    pub fn number(&mut self) -> Result<u64, Halt>
        ensures { TakesNumber self.old result self.new }
    {
        let Some(n) = self.number_here() else {
            return Err(Halt::Unexpected);
        };
        self.advance();
        Ok(n)
    }

    fn number_here(&self) -> Option<u64>
        ensures { result ≡ number_at (first self.now) }
    {
        match self.peek()? {
            Word::Number(n) => Some(n),
            _ => None,
        }
    }
}
