// Which variables matter before a statement, and which may be forgotten at its fork or at its end.

ghost use Rattle.std.specs.Prelude.{◌≡◌, ℕ};
ghost use Rattle.gcl_core.specs.declared.rules.TheConstants.{MOST_NAMES};
ghost use Rattle.gcl_core.specs.meaning.Bounds.{StatementBelow};
ghost use Rattle.gcl_core.specs.meaning.Views.{statement_of};
ghost use Rattle.forgetting.specs.Liveness.{both, before_statement};
ghost use Rattle.forgetting.specs.Filling.{behind_statement};
ghost use Rattle.forgetting.specs.Forgetful.{ends_with};
ghost use Rattle.forgetting.specs.Marks.{marked};

use crate::filled::behind_statement;
use crate::mattering::before_statement;
use crate::name_set::NameSet;
use crate::reading::with_read;
use gcl_core::Stmt;

// The variables that matter before a statement.
pub fn names_before(statement: &Stmt, after: NameSet) -> NameSet
    requires { StatementBelow MOST_NAMES (statement_of statement.now) }
    ensures { marked result.marks ≡ before_statement (statement_of statement.now) (marked after.marks) }
{
    before_statement(statement, after)
}

// The variables that may differ from 0 behind a statement.
pub fn names_behind(statement: &Stmt, filled: NameSet) -> NameSet
    requires { StatementBelow MOST_NAMES (statement_of statement.now) }
    ensures { marked result.marks ≡ behind_statement (statement_of statement.now) (marked filled.marks) }
{
    behind_statement(statement, filled)
}

// The variables that matter before a statement, and may differ from 0 there.
pub fn names_at(statement: &Stmt, filled: NameSet, after: NameSet) -> NameSet
    requires { StatementBelow MOST_NAMES (statement_of statement.now) }
    ensures { marked result.marks ≡ both (before_statement (statement_of statement.now) (marked after.marks)) (marked filled.marks) }
{
    before_statement(statement, after).and(filled)
}

// The variables that may stop to matter at the end of a statement, if they do not matter after it.
#[tactic(auto, using(gcl_core::proofs::ViewLemmas::views, crate::proofs::Marking::or_false))]
fn names_used(statement: &Stmt, after: NameSet) -> NameSet
    requires { StatementBelow MOST_NAMES (statement_of statement.now) }
    ensures { (y : ℕ) → marked result.marks y ≡ ends_with (statement_of statement.now) (marked after.marks) y }
{
    match statement {
        Stmt::Set(x, e) => with_read(e, NameSet::none()).with(*x),
        Stmt::Uniform(x, e) => with_read(e, NameSet::none()).with(*x),
        Stmt::Observe(e) => with_read(e, NameSet::none()),
        Stmt::While(_, _) => before_statement(statement, after),
        Stmt::Skip | Stmt::If(_, _, _) | Stmt::Choice(_, _, _) | Stmt::Choose(_) => NameSet::none(),
    }
}

// Those of them that may differ from 0 there.
pub fn names_ended(statement: &Stmt, filled: NameSet, after: NameSet) -> NameSet
    requires { StatementBelow MOST_NAMES (statement_of statement.now) }
    ensures { marked result.marks ≡ both (ends_with (statement_of statement.now) (marked after.marks)) (marked filled.marks) }
{
    names_used(statement, after).and(filled)
}
