// Reading expressions.

ghost use Rattle.std.specs.Prelude.{◌≡◌, ◌<◌, length, IfOk, IsTrue, option_map};
ghost use Rattle.gcl_core.specs.text.Grammar.{operator as operator_of};
ghost use Rattle.gcl_parse.specs.inner.Parses.{Parses, operator_at, leaf_at, is_row};
ghost use Rattle.gcl_parse.specs.inner.Fronts.{first};
ghost use Rattle.gcl_core.specs.meaning.Views.{expression_of};
ghost use Rattle.gcl_core.specs.meaning.Syntax.{Not, Neg, Bin};

use crate::parser::{Halt, Parser};
use gcl_core::{BinOp, Expr, Key, Level, Sym, Word};
use std::alloc::AllocError;

/// The operator between two operands that a word is.
fn operator(word: Word) -> Option<BinOp>
    ensures { result ≡ operator_of word }
{
    match word {
        Word::Key(Key::Or) => Some(BinOp::Or),
        Word::Key(Key::And) => Some(BinOp::And),
        Word::Sym(sym) => match sym {
            Sym::Plus => Some(BinOp::Add),
            Sym::Minus => Some(BinOp::Sub),
            Sym::Star => Some(BinOp::Mul),
            Sym::Slash => Some(BinOp::Div),
            Sym::Percent => Some(BinOp::Rem),
            Sym::Equal => Some(BinOp::Eq),
            Sym::NotEqual => Some(BinOp::Ne),
            Sym::Less => Some(BinOp::Lt),
            Sym::LessEqual => Some(BinOp::Le),
            Sym::Greater => Some(BinOp::Gt),
            Sym::GreaterEqual => Some(BinOp::Ge),
            _ => None,
        },
        _ => None,
    }
}

impl Parser<'_> {
    /// The next token, where it is an expression by itself.
    fn leaf(&self) -> Option<Expr>
        ensures { option_map expression_of result ≡ leaf_at (first self.now) }
    {
        match self.peek()? {
            Word::Number(n) => Some(Expr::Num(n as i64)),
            Word::Name(i) => Some(Expr::Var(i)),
            Word::Key(Key::True) => Some(Expr::Truth(true)),
            Word::Key(Key::False) => Some(Expr::Truth(false)),
            _ => None,
        }
    }

    /// The operator of this level that comes next.
    fn operator_here(&self, level: Level) -> Option<BinOp>
        ensures { result ≡ operator_at level (first self.now) }
    {
        let word = self.peek()?;
        let op = operator(word)?;
        if op.level() == level { Some(op) } else { None }
    }

    fn negation(&self, operand: Expr) -> Result<Expr, AllocError>
        ensures { IfOk result (λ e. expression_of e ≡ Not (expression_of operand)) }
    {
        Ok(Expr::Not(Box::new(self.alloc(), operand)?))
    }

    fn minus(&self, operand: Expr) -> Result<Expr, AllocError>
        ensures { IfOk result (λ e. expression_of e ≡ Neg (expression_of operand)) }
    {
        Ok(Expr::Neg(Box::new(self.alloc(), operand)?))
    }

    fn binary(&self, op: BinOp, left: Expr, right: Expr) -> Result<Expr, AllocError>
        ensures { IfOk result (λ e. expression_of e ≡ Bin op (expression_of left) (expression_of right)) }
    {
        Ok(Expr::Bin(
            op,
            Box::new(self.alloc(), left)?,
            Box::new(self.alloc(), right)?,
        ))
    }

    #[cycle(phrase)]
    pub fn phrase(&mut self, level: Level) -> Result<Expr, Halt>
        ensures { Parses level self.old result self.new }
    {
        match level {
            Level::Or | Level::And | Level::Sum | Level::Product => self.row(level),
            Level::Not => self.not(),
            Level::Compare => self.compare(),
            Level::Sign => self.sign(),
            Level::Atom => self.atom(),
        }
    }

    #[cycle(phrase)]
    fn row(&mut self, level: Level) -> Result<Expr, Halt>
        requires { IsTrue (is_row level) }
        ensures { Parses level self.old result self.new }
    {
        let mut found = self.phrase(level.tighter())?;
        while let Some(op) = self.operator_here(level) {
            self.advance();
            let right = self.phrase(level.tighter())?;
            found = self.binary(op, found, right)?;
        }
        Ok(found)
    }

    #[cycle(phrase)]
    fn not(&mut self) -> Result<Expr, Halt>
        ensures { Parses Level.Not self.old result self.new }
    {
        if !self.next_is(Word::Key(Key::Not)) {
            return self.phrase(Level::Compare);
        }
        self.advance();
        let operand = self.phrase(Level::Not)?;
        Ok(self.negation(operand)?)
    }

    #[cycle(phrase)]
    fn compare(&mut self) -> Result<Expr, Halt>
        ensures { Parses Level.Compare self.old result self.new }
    {
        let left = self.phrase(Level::Sum)?;
        let Some(op) = self.operator_here(Level::Compare) else {
            return Ok(left);
        };
        self.advance();
        let right = self.phrase(Level::Sum)?;
        Ok(self.binary(op, left, right)?)
    }

    #[cycle(phrase)]
    fn sign(&mut self) -> Result<Expr, Halt>
        ensures { Parses Level.Sign self.old result self.new }
    {
        if !self.next_is(Word::Sym(Sym::Minus)) {
            return self.phrase(Level::Atom);
        }
        self.advance();
        let operand = self.phrase(Level::Sign)?;
        Ok(self.minus(operand)?)
    }

    #[cycle(phrase)]
    fn atom(&mut self) -> Result<Expr, Halt>
        ensures { Parses Level.Atom self.old result self.new }
    {
        if let Some(leaf) = self.leaf() {
            self.advance();
            return Ok(leaf);
        }
        self.sym(Sym::LeftParen)?;
        let inner = self.phrase(Level::Or)?;
        self.sym(Sym::RightParen)?;
        Ok(inner)
    }
}
