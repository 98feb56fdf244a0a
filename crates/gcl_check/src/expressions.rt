// What a statement's own expression or weight has to be.

ghost use Rattle.std.specs.Prelude.{◌≡◌, [], ◌∷◌, length, OnOk, IsTrue};
ghost use Rattle.gcl_core.specs.text.Acceptance.{reads_known, expression_flaw, weight_flaw, first_refusal};
ghost use Rattle.gcl_core.specs.meaning.Bounds.{ExpressionFits, ExpressionBelow};
ghost use Rattle.gcl_core.specs.text.Kinds.{has_kind};
ghost use Rattle.gcl_core.specs.declared.kinds.Kind.TheVariants.{Number};
ghost use Rattle.gcl_core.specs.meaning.Value.{fits_64};
ghost use Rattle.gcl_core.specs.meaning.Views.{expression_of};
ghost use Rattle.gcl_check.specs.inner.Marks.{marked};
ghost use Rattle.gcl_check.specs.Refused.{refusal_answered};

use crate::refusals::CheckError;
use gcl_core::{Expr, GREATEST_DENOMINATOR, Kind, Weight};

// It takes the number, whose type says that it has 64 bits.
fn kind_of_number(number: i64) -> Kind
    ensures kind { result ≡ Number }
    ensures fits { IsTrue (fits_64 number) }
{
    let _ = number;
    Kind::Number
}

// The expression is of this kind, and so are all operands in it of the kinds that they have to be.
fn has_kind(e: &Expr, kind: Kind) -> bool
    ensures value { result ≡ has_kind kind (expression_of e.now) }
    ensures fits { IsTrue result → ExpressionFits (expression_of e.now) }
{
    match e {
        Expr::Num(number) => kind == kind_of_number(*number),
        Expr::Var(_) => kind == Kind::Number,
        Expr::Truth(_) => kind == Kind::Truth,
        Expr::Neg(a) => kind == Kind::Number && has_kind(a, Kind::Number),
        Expr::Not(a) => kind == Kind::Truth && has_kind(a, Kind::Truth),
        Expr::Bin(op, a, b) => {
            let operands = op.operand_kind();
            kind == op.result_kind() && has_kind(a, operands) && has_kind(b, operands)
        }
    }
}

// Each variable that the expression reads is marked.
fn reads_marked(e: &Expr, targets: &[bool]) -> bool
    requires { ExpressionBelow (expression_of e.now) (length targets.now) }
    ensures { result ≡ reads_known (marked targets.now) (expression_of e.now) }
{
    match e {
        Expr::Num(_) | Expr::Truth(_) => true,
        Expr::Var(x) => targets[*x as usize],
        Expr::Neg(a) | Expr::Not(a) => reads_marked(a, targets),
        Expr::Bin(_, a, b) => reads_marked(a, targets) && reads_marked(b, targets),
    }
}

// Checks an expression of the statement with this number: its kind, and that it reads targets alone.
pub fn check_expression(e: &Expr, kind: Kind, targets: &[bool], stmt: u32) -> Result<(), CheckError>
    requires { ExpressionBelow (expression_of e.now) (length targets.now) }
    ensures refusal { refusal_answered result
        ≡ first_refusal stmt (expression_flaw (marked targets.now) kind (expression_of e.now) ∷ []) }
    ensures fits { OnOk result (ExpressionFits (expression_of e.now)) }
{
    if !has_kind(e, kind) {
        return Err(CheckError::KindMismatch { stmt });
    }
    if !reads_marked(e, targets) {
        return Err(CheckError::UnknownName { stmt });
    }
    Ok(())
}

// Checks the weight of the statement with this number.
pub fn check_weight(weight: Weight, stmt: u32) -> Result<(), CheckError>
    ensures { refusal_answered result ≡ first_refusal stmt (weight_flaw weight ∷ []) }
{
    if weight.den == 0 {
        return Err(CheckError::ZeroDenominator { stmt });
    }
    if weight.num > weight.den {
        return Err(CheckError::WeightAboveOne { stmt });
    }
    let mut lowest = weight;
    lowest.lowest();
    if lowest.den > GREATEST_DENOMINATOR {
        return Err(CheckError::TooFine { stmt });
    }
    Ok(())
}
