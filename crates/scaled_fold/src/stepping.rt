// What one statement makes of a walk.

ghost use Rattle.std.specs.Prelude.{◌≤◌, ◌<◌, None, IfOk};
ghost use Rattle.gcl_core.specs.meaning.Bounds.{ExpressionBelow, IsWeight};
ghost use Rattle.gcl_core.specs.meaning.Syntax.{Set, Uniform, Observe};
ghost use Rattle.gcl_core.specs.meaning.Value.{value_of};
ghost use Rattle.gcl_core.specs.meaning.Views.{expression_of};
ghost use Rattle.scaled_law.specs.Scaled.{enters, left_loop};
ghost use Rattle.scaled_fold.specs.inner.Folding.{statement_after, parted, chosen, none_aside, arms_begun, turns_end, with_part, gathered};
ghost use Rattle.scaled_fold.specs.inner.Holding.{Follows, FollowsMerged};

use crate::draws::draw;
use crate::error::PairsError;
use crate::odds::Odds;
use crate::pair::added;
use crate::steps::{assign, split};
use crate::table::Table;
use crate::tables::{all_of, merge, side, undecided};
use crate::walk::Walk;
use gcl_core::{Expr, Weight};
use std::alloc::Global;

impl Walk {
    /// After an assignment.
    pub fn assigned(self, alloc: Global, x: u32, e: &Expr) -> Result<Walk, PairsError>
        requires place { x < self.next.vars }
        requires reads { ExpressionBelow (expression_of e.now) self.next.vars }
        ensures { IfOk result (Follows (statement_after 0 None (Set x (expression_of e.now))) self) }
    {
        let (next, ended) = assign(alloc, x, e, self.next, self.ended)?;
        Ok(Walk {
            next,
            aside: self.aside,
            ended,
            loose: self.loose,
            doubled: self.doubled,
        })
    }

    /// After a uniform draw.
    pub fn drawn(
        self,
        alloc: Global,
        attempts: Option<u64>,
        x: u32,
        e: &Expr,
    ) -> Result<Walk, PairsError>
        requires place { x < self.next.vars }
        requires reads { ExpressionBelow (expression_of e.now) self.next.vars }
        ensures { IfOk result (Follows (statement_after 0 attempts (Uniform x (expression_of e.now))) self) }
    {
        let (next, ended) = draw(alloc, attempts, x, e, self.next, self.ended)?;
        Ok(Walk {
            next,
            aside: self.aside,
            ended,
            loose: self.loose,
            doubled: self.doubled,
        })
    }

    /// After an observation. What fails counts nowhere.
    pub fn observed(self, alloc: Global, e: &Expr) -> Result<Walk, PairsError>
        requires { ExpressionBelow (expression_of e.now) self.next.vars }
        ensures { IfOk result (Follows (statement_after 0 None (Observe (expression_of e.now))) self) }
    {
        let (next, _, ended) = split(alloc, e, self.next, self.ended)?;
        Ok(Walk {
            next,
            aside: self.aside,
            ended,
            loose: self.loose,
            doubled: self.doubled,
        })
    }

    /// The states in which a guard holds go on, and those in which it does not stand aside.
    pub fn parted(self, alloc: Global, e: &Expr) -> Result<Walk, PairsError>
        requires { ExpressionBelow (expression_of e.now) self.next.vars }
        ensures { IfOk result (Follows (parted (expression_of e.now)) self) }
    {
        let (next, second, ended) = split(alloc, e, self.next, self.ended)?;
        Ok(Walk {
            next,
            aside: self.aside.topped(second)?,
            ended,
            loose: self.loose,
            doubled: self.doubled,
        })
    }

    /// The first side of a choice goes on, and the second stands aside; what no attempt decides has ended.
    pub fn chosen(self, alloc: Global, attempts: Option<u64>, p: Weight) -> Result<Walk, PairsError>
        requires { IsWeight p }
        ensures { IfOk result (Follows (chosen attempts p) self) }
    {
        let odds = Odds::of(p.den, attempts);
        let ended = self.ended.with_attempts(undecided(odds, &self.next)?)?;
        let second = side(alloc, odds, p.den - p.num, &self.next)?;
        Ok(Walk {
            next: side(alloc, odds, p.num, &self.next)?,
            aside: self.aside.topped(second)?,
            ended,
            loose: self.loose,
            doubled: self.doubled,
        })
    }

    /// An empty table stands aside.
    pub fn with_none_aside(self, alloc: Global) -> Result<Walk, PairsError>
        ensures { IfOk result (Follows none_aside self) }
    {
        let none = Table::new(alloc, self.next.vars);
        Ok(Walk {
            next: self.next,
            aside: self.aside.topped(none)?,
            ended: self.ended,
            loose: self.loose,
            doubled: self.doubled,
        })
    }

    /// No arm of a choice among several has come yet; what no attempt decides has ended.
    pub fn arms_begun(self, alloc: Global, odds: Odds) -> Result<Walk, PairsError>
        ensures { IfOk result (Follows (arms_begun odds.bound odds.attempts) self) }
    {
        let ended = self.ended.with_attempts(undecided(odds, &self.next)?)?;
        let none = Table::new(alloc, self.next.vars);
        Ok(Walk {
            next: self.next,
            aside: self.aside.topped(none)?,
            ended,
            loose: self.loose,
            doubled: self.doubled,
        })
    }

    /// What an arm of a choice among several gets goes on, and the whole stands aside.
    pub fn with_part(self, alloc: Global, odds: Odds, count: u64) -> Result<Walk, PairsError>
        requires { count ≤ odds.bound }
        ensures { IfOk result (FollowsMerged (with_part odds.bound odds.attempts count) self) }
    {
        Ok(Walk {
            next: side(alloc, odds, count, &self.next)?,
            aside: self.aside.topped(self.next)?,
            ended: self.ended,
            loose: self.loose,
            doubled: self.doubled,
        })
    }

    /// What came of an arm is put to what came of those before, and the whole goes on.
    pub fn gathered(self, alloc: Global) -> Result<Walk, PairsError>
        ensures { IfOk result (Follows gathered self) }
    {
        let (next, rest) = self.aside.taken(alloc);
        let (before, rest) = rest.taken(alloc);
        Ok(Walk {
            next,
            aside: rest.topped(merge(before, self.next)?)?,
            ended: self.ended,
            loose: self.loose,
            doubled: self.doubled,
        })
    }

    /// A turn begins; what leaves the loop is put to what had left it.
    pub fn entered(self, alloc: Global, e: &Expr) -> Result<Walk, PairsError>
        requires { ExpressionBelow (expression_of e.now) self.next.vars }
        ensures { IfOk result (FollowsMerged (enters (value_of (expression_of e.now))) self) }
    {
        let (next, second, ended) = split(alloc, e, self.next, self.ended)?;
        let (before, rest) = self.aside.taken(alloc);
        Ok(Walk {
            next,
            aside: rest.topped(merge(before, second)?)?,
            ended,
            loose: self.loose,
            doubled: self.doubled,
        })
    }

    /// The loop runs out of turns.
    pub fn out_of_turns(self, alloc: Global, e: &Expr) -> Result<Walk, PairsError>
        requires { ExpressionBelow (expression_of e.now) self.next.vars }
        ensures { IfOk result (FollowsMerged (turns_end (expression_of e.now)) self) }
    {
        let (first, second, ended) = split(alloc, e, self.next, self.ended)?;
        let ended = ended.with_turns(all_of(&first)?)?;
        let (before, aside) = self.aside.taken(alloc);
        Ok(Walk {
            next: merge(before, second)?,
            aside,
            ended,
            loose: self.loose,
            doubled: self.doubled,
        })
    }

    /// The loop is left before its end, and what stands in it is loose.
    pub fn loosened(self, alloc: Global) -> Result<Walk, PairsError>
        ensures { IfOk result (Follows left_loop self) }
    {
        let loose = added(self.loose, all_of(&self.next)?)?;
        let (next, aside) = self.aside.taken(alloc);
        Ok(Walk {
            next,
            aside,
            ended: self.ended,
            loose,
            doubled: self.doubled,
        })
    }
}
