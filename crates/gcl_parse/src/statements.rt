// Reading statements.

ghost use Rattle.std.specs.Prelude.{◌≡◌, ◌<◌, ◌↔◌, IsTrue, Some};
ghost use Rattle.gcl_parse.specs.inner.Parses.{ParsesAll, ParsesBlock, ParsesElse, ParsesArm, ParsesArms, ParsesRest, ParsesAssignment, ParsesDraw, start_at};
ghost use Rattle.gcl_parse.specs.inner.Programs.{ParsesWhole, ParsesProgram};
ghost use Rattle.gcl_parse.specs.inner.Fronts.{first};

use crate::parser::{Halt, Parser};
use crate::starts::Start;
use gcl_core::{Arms, Block, Expr, Key, Level, MOST_ARMS, Stmt, Sym, Weight, Word};

#[tactic(auto, using(crate::proofs::Steps::fails_after, crate::proofs::Steps::fails_here, crate::proofs::Steps::after))]
impl Parser<'_> {
    fn start(&self) -> Option<Start>
        ensures { result ≡ start_at (first self.now) }
    {
        match self.peek()? {
            Word::Key(Key::Skip) => Some(Start::Skip),
            Word::Key(Key::Observe) => Some(Start::Observe),
            Word::Key(Key::If) => Some(Start::If),
            Word::Key(Key::While) => Some(Start::While),
            Word::Key(Key::Choice) => Some(Start::Choice),
            Word::Key(Key::Choose) => Some(Start::Choose),
            Word::Name(i) => Some(Start::Name(i)),
            _ => None,
        }
    }

    #[cycle(statements)]
    pub fn statements(&mut self) -> Result<Block, Halt>
        ensures { ParsesAll self.old result self.new }
    {
        let mut found = Vec::new(self.alloc());
        while let Some(start) = self.start() {
            self.advance();
            let stmt = self.statement(start)?;
            found.push(stmt)?;
        }
        Ok(Block { stmts: found })
    }

    #[cycle(statements)]
    fn statement(&mut self, start: Start) -> Result<Stmt, Halt>
        ensures { ParsesRest start self.old result self.new }
    {
        match start {
            Start::Skip => self.skip(),
            Start::Name(i) => self.target(i),
            Start::Observe => self.observe(),
            Start::If => self.branch(),
            Start::While => self.repeat(),
            Start::Choice => self.choice(),
            Start::Choose => self.choice_among(),
        }
    }

    fn skip(&mut self) -> Result<Stmt, Halt>
        ensures { ParsesRest Start.Skip self.old result self.new }
    {
        self.sym(Sym::Semicolon)?;
        Ok(Stmt::Skip)
    }

    fn target(&mut self, name: u32) -> Result<Stmt, Halt>
        ensures { ParsesRest (Start.Name name) self.old result self.new }
    {
        if !self.next_is(Word::Sym(Sym::Assign)) {
            return self.draw(name);
        }
        self.advance();
        self.assignment(name)
    }

    fn assignment(&mut self, name: u32) -> Result<Stmt, Halt>
        ensures { ParsesAssignment name self.old result self.new }
    {
        let value = self.phrase(Level::Or)?;
        self.sym(Sym::Semicolon)?;
        Ok(Stmt::Set(name, value))
    }

    fn draw(&mut self, name: u32) -> Result<Stmt, Halt>
        ensures { ParsesDraw name self.old result self.new }
    {
        self.sym(Sym::Tilde)?;
        self.key(Key::Uniform)?;
        self.sym(Sym::LeftParen)?;
        let bound = self.phrase(Level::Or)?;
        self.sym(Sym::RightParen)?;
        self.sym(Sym::Semicolon)?;
        Ok(Stmt::Uniform(name, bound))
    }

    fn observe(&mut self) -> Result<Stmt, Halt>
        ensures { ParsesRest Start.Observe self.old result self.new }
    {
        let test = self.phrase(Level::Or)?;
        self.sym(Sym::Semicolon)?;
        Ok(Stmt::Observe(test))
    }

    #[cycle(statements)]
    fn branch(&mut self) -> Result<Stmt, Halt>
        ensures { ParsesRest Start.If self.old result self.new }
    {
        let test = self.phrase(Level::Or)?;
        let yes = self.block()?;
        let no = self.otherwise()?;
        Ok(Stmt::If(test, yes, no))
    }

    #[cycle(statements)]
    fn repeat(&mut self) -> Result<Stmt, Halt>
        ensures { ParsesRest Start.While self.old result self.new }
    {
        let test = self.phrase(Level::Or)?;
        let body = self.block()?;
        Ok(Stmt::While(test, body))
    }

    #[cycle(statements)]
    fn choice(&mut self) -> Result<Stmt, Halt>
        ensures { ParsesRest Start.Choice self.old result self.new }
    {
        let num = self.number()?;
        self.sym(Sym::Slash)?;
        let den = self.number()?;
        let left = self.block()?;
        self.key(Key::Or)?;
        let right = self.block()?;
        Ok(Stmt::Choice(Weight { num, den }, left, right))
    }

    #[cycle(statements)]
    fn choice_among(&mut self) -> Result<Stmt, Halt>
        ensures { ParsesRest Start.Choose self.old result self.new }
    {
        self.sym(Sym::LeftBrace)?;
        let first = self.arm()?;
        self.sym(Sym::Bar)?;
        let mut found = Vec::new(self.alloc());
        found.push(first)?;
        let arms = self.arms(found, MOST_ARMS - 2)?;
        Ok(Stmt::Choose(arms))
    }

    /// A part and its block.
    #[cycle(statements)]
    fn arm(&mut self) -> Result<(u64, Block), Halt>
        ensures { ParsesArm self.old result self.new }
    {
        let part = self.number()?;
        self.sym(Sym::Colon)?;
        let block = self.block()?;
        Ok((part, block))
    }

    /// The arms behind those that were found: one, at most `more` others, and the closing brace.
    #[cycle(statements)]
    fn arms(&mut self, mut found: Vec<(u64, Block)>, more: usize) -> Result<Arms, Halt>
        ensures { ParsesArms more found.items self.old result self.new }
    {
        let arm = self.arm()?;
        found.push(arm)?;
        if self.goes_on(more) {
            self.advance();
            return self.arms(found, more - 1);
        }
        self.sym(Sym::RightBrace)?;
        Ok(Arms { arms: found })
    }

    /// Another arm comes, where `more` of them may.
    fn goes_on(&self, more: usize) -> bool
        ensures { IsTrue result ↔ ((0 < more) × (first self.now ≡ Some (Word.Sym Sym.Bar))) }
    {
        more > 0 && self.next_is(Word::Sym(Sym::Bar))
    }

    #[cycle(statements)]
    fn block(&mut self) -> Result<Block, Halt>
        ensures { ParsesBlock self.old result self.new }
    {
        self.sym(Sym::LeftBrace)?;
        let found = self.statements()?;
        self.sym(Sym::RightBrace)?;
        Ok(found)
    }

    #[cycle(statements)]
    fn otherwise(&mut self) -> Result<Block, Halt>
        ensures { ParsesElse self.old result self.new }
    {
        if !self.next_is(Word::Key(Key::Else)) {
            return Ok(Block {
                stmts: Vec::new(self.alloc()),
            });
        }
        self.advance();
        self.block()
    }

    fn whole(&mut self) -> Result<(Block, Expr), Halt>
        ensures { ParsesWhole self.old result self.new }
    {
        let body = self.statements()?;
        self.key(Key::Return)?;
        let result = self.phrase(Level::Or)?;
        self.sym(Sym::Semicolon)?;
        Ok((body, result))
    }

    /// A program: statements and `return expr ;`, and nothing behind them.
    pub fn program(&mut self) -> Result<(Block, Expr), Halt>
        ensures { ParsesProgram self.old result self.new }
    {
        let found = self.whole()?;
        if self.left() > 0 {
            return Err(Halt::Unexpected);
        }
        Ok(found)
    }
}
