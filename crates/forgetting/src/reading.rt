// Which variables an expression reads.

ghost use Rattle.std.specs.Prelude.{◌≡◌, ℕ, ◌||◌};
ghost use Rattle.gcl_core.specs.declared.rules.TheConstants.{MOST_NAMES};
ghost use Rattle.gcl_core.specs.meaning.Bounds.{ExpressionBelow};
ghost use Rattle.gcl_core.specs.meaning.Views.{expression_of};
ghost use Rattle.forgetting.specs.Liveness.{reads};
ghost use Rattle.forgetting.specs.Marks.{marked};

use crate::name_set::NameSet;
use gcl_core::Expr;

// With all that the expression reads.
pub fn with_read(e: &Expr, set: NameSet) -> NameSet
    requires { ExpressionBelow (expression_of e.now) MOST_NAMES }
    ensures { (y : ℕ) → marked result.marks y ≡ (reads y (expression_of e.now) || marked set.marks y) }
{
    match e {
        Expr::Num(_) | Expr::Truth(_) => set,
        Expr::Var(x) => set.with(*x),
        Expr::Neg(a) | Expr::Not(a) => with_read(a, set),
        Expr::Bin(_, a, b) => with_read(a, with_read(b, set)),
    }
}
