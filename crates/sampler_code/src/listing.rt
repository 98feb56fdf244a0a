// The listing of code.

ghost use Rattle.std.specs.Prelude.{◌≡◌, ℕ, ◌<◌, ◌≤◌, ◌++◌, [], length, codes, decimal, slice_index_or, OnOk, IfOk};
ghost use Rattle.gcl_core.specs.meaning.Bounds.{ExpressionBelow};
ghost use Rattle.gcl_core.specs.meaning.Views.{expression_of};
ghost use Rattle.gcl_print.specs.Canonical.{expression_text};
ghost use Rattle.sampler_code.specs.Listing.{instruction_text, line_of, listing};
ghost use Rattle.sampler_code.specs.Sound.{Knows};
ghost use Rattle.sampler_code.specs.Views.{instruction_of};

use crate::code::Code;
use crate::instructions::Instr;
use gcl_core::{Expr, Names};
use gcl_print::Text;
use std::alloc::{AllocError, Global};

fn numbered(text: &mut Text, word: &[u8], n: usize) -> Result<(), AllocError>
    ensures { OnOk result (text.new ≡ text.old ++ (word.now ++ decimal n)) }
{
    text.push(word)?;
    text.digits(n as u64)
}

// A word, a variable and an expression.
fn stored(text: &mut Text, names: &Names, word: &[u8], x: u32, e: &Expr) -> Result<(), AllocError>
    requires place { x < length names.now }
    requires reads { ExpressionBelow (expression_of e.now) (length names.now) }
    ensures { OnOk result (text.new
        ≡ text.old ++ (word.now
        ++ (slice_index_or names.now x [] ++ (codes " " ++ expression_text names.now (expression_of e.now))))) }
{
    text.push(word)?;
    text.name(names, x)?;
    text.push(b" ")?;
    text.expression(names, e)
}

fn unless(text: &mut Text, names: &Names, e: &Expr, target: usize) -> Result<(), AllocError>
    requires { ExpressionBelow (expression_of e.now) (length names.now) }
    ensures { OnOk result (text.new
        ≡ text.old ++ (codes "unless "
        ++ (expression_text names.now (expression_of e.now) ++ (codes " goto " ++ decimal target)))) }
{
    text.push(b"unless ")?;
    text.expression(names, e)?;
    numbered(text, b" goto ", target)
}

fn repeated(
    text: &mut Text,
    names: &Names,
    counter: usize,
    target: usize,
    e: &Expr,
) -> Result<(), AllocError>
    requires { ExpressionBelow (expression_of e.now) (length names.now) }
    ensures { OnOk result (text.new ≡ text.old
        ++ (codes "loop " ++ (decimal counter
        ++ (codes " " ++ (decimal target ++ (codes " " ++ expression_text names.now (expression_of e.now))))))) }
{
    numbered(text, b"loop ", counter)?;
    numbered(text, b" ", target)?;
    text.push(b" ")?;
    text.expression(names, e)
}

fn returned(text: &mut Text, names: &Names, e: &Expr) -> Result<(), AllocError>
    requires { ExpressionBelow (expression_of e.now) (length names.now) }
    ensures { OnOk result (text.new ≡ text.old ++ (codes "return " ++ expression_text names.now (expression_of e.now))) }
{
    text.push(b"return ")?;
    text.expression(names, e)
}

fn instruction(alloc: Global, text: &mut Text, names: &Names, i: &Instr) -> Result<(), AllocError>
    requires { (loops : ℕ) × Knows loops (length names.now) (instruction_of i.now) }
    ensures { OnOk result (text.new ≡ text.old ++ instruction_text names.now (instruction_of i.now)) }
{
    match i {
        Instr::Set(x, e) => stored(text, names, b"set ", *x, &e.tree(alloc)?),
        Instr::Range(x, e) => stored(text, names, b"range ", *x, &e.tree(alloc)?),
        Instr::Unless(e, target) => unless(text, names, &e.tree(alloc)?, *target),
        Instr::Goto(target) => numbered(text, b"goto ", *target),
        Instr::Arm(counter) => numbered(text, b"arm ", *counter),
        Instr::Loop(counter, target, e) => {
            repeated(text, names, *counter, *target, &e.tree(alloc)?)
        }
        Instr::Tries => text.push(b"tries"),
        Instr::Flip(target) => numbered(text, b"flip ", *target),
        Instr::Again(target) => numbered(text, b"again ", *target),
        Instr::Fail => text.push(b"fail"),
        Instr::Return(e) => returned(text, names, &e.tree(alloc)?),
    }
}

fn line(
    alloc: Global,
    text: &mut Text,
    names: &Names,
    index: usize,
    i: &Instr,
) -> Result<(), AllocError>
    requires { (loops : ℕ) × Knows loops (length names.now) (instruction_of i.now) }
    ensures { OnOk result (text.new ≡ text.old ++ line_of names.now index (instruction_of i.now)) }
{
    text.digits(index as u64)?;
    text.push(b" ")?;
    instruction(alloc, text, names, i)?;
    text.push(b"\n")
}

/// The listing of code: a line for each instruction with its index and its text, where variables have these names.
///
/// The names are at least as many as the variables. An error comes only where memory runs out.
pub fn list(alloc: Global, c: &Code, names: &Names) -> Result<Vec<u8>, AllocError>
    requires { c.now.vars ≤ length names.now }
    ensures { IfOk result (λ text. text.items ≡ listing names.now c.now.instrs) }
{
    let mut text = Text::new(alloc);
    for i in 0..c.count() {
        line(alloc, &mut text, names, i, c.at(i))?;
    }
    Ok(text.into_bytes())
}
