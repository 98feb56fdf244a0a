// From a tree to its code. Jumps whose targets are not known yet are written with the target 0, and again once these are known.

ghost use Rattle.std.specs.Prelude.{◌≡◌, ℕ, ◌+◌, ◌≤◌, List, [], ◌∷◌, ◌++◌, length, drop, IfOk, OnOk};
ghost use Rattle.gcl_core.specs.meaning.Views.{expression_of};
ghost use Rattle.draw_tree.specs.Classes.{ClassesBelow};
ghost use Rattle.draw_tree.specs.Views.{flips_of};
ghost use Rattle.bit_tree.specs.Tree.{BitTrees, Pick};
ghost use Rattle.bit_tree.specs.TreeRows.{count};
ghost use Rattle.bit_tree.specs.Views.{bit_tree_of, bit_trees_of, tied_tree_of};
ghost use Rattle.bit_tree.specs.Sampleable.{LabelsHaveArms, RowHasArms, TiedIsSampleable};
ghost use Rattle.sampler_code.specs.Instruction.{Instruction};
ghost use Rattle.sampler_code.specs.TreeCode.{tree_code, row_code, arms_code, arms_size, loops, row_loops, assembled};
ghost use Rattle.sampler_code.specs.inner.Jumps.{jump_before, starts_of};
ghost use Rattle.sampler_code.specs.Follows.{Follows};
ghost use Rattle.sampler_code.specs.Fits.{TreeFits, RowFits};

use crate::code::Code;
use crate::draws::{fill, reserve};
use crate::instructions::{Instr, Instructions};
use bit_tree::{Bt, BtRow, Tied};
use draw_tree::Draw;
use formula::Formula;
use std::alloc::{AllocError, Global};

// Room for a jump, before all arms but the first.
fn put_between(code: &mut Instructions, i: usize) -> Result<(), AllocError>
    ensures { OnOk result (code.new ≡ code.old ++ jump_before i) }
{
    if i > 0 {
        code.put(Instr::Goto(0))?;
    }
    Ok(())
}

// The instructions of a tree, whose loops are numbered from `next` on.
#[cycle(emit)]
#[tactic(auto, using(bit_tree::proofs::ViewLemmas::views))]
fn emit(code: &mut Instructions, t: &Bt, next: &mut usize, alloc: Global) -> Result<(), AllocError>
    requires arms { LabelsHaveArms (bit_tree_of t.now) }
    requires low { next.old ≤ length code.old }
    ensures code { OnOk result (code.new ≡ code.old ++ tree_code (bit_tree_of t.now) (length code.old) next.old) }
    ensures loops { OnOk result (next.new ≡ next.old + loops (bit_tree_of t.now)) }
    ensures low { OnOk result (next.new ≤ length code.new) }
    ensures fits { OnOk result (TreeFits (bit_tree_of t.now)) }
{
    match t {
        Bt::Fail => code.put(Instr::Fail),
        Bt::Set(x, e) => code.put(Instr::Set(*x, Formula::of(alloc, e)?)),
        Bt::Range(x, e) => code.put(Instr::Range(*x, Formula::of(alloc, e)?)),
        Bt::Test(e, a, b) => {
            let test = code.count();
            code.put(Instr::Goto(0))?;
            emit(code, a, next, alloc)?;
            let middle = code.count();
            code.put(Instr::Goto(0))?;
            let other = code.count();
            emit(code, b, next, alloc)?;
            code.set(test, Instr::Unless(Formula::of(alloc, e)?, other));
            let end = code.count();
            code.set(middle, Instr::Goto(end));
            Ok(())
        }
        Bt::Pick(draw, arms) => emit_pick(code, arms, draw, next, alloc),
        Bt::Row(members) => emit_row(code, members, next, alloc),
        Bt::Fix(e, body) => {
            let counter = *next;
            code.put(Instr::Arm(counter))?;
            let jump = code.count();
            code.put(Instr::Goto(0))?;
            let first = code.count();
            *next += 1;
            emit(code, body, next, alloc)?;
            let test = code.count();
            code.set(jump, Instr::Goto(test));
            code.put(Instr::Loop(counter, first, Formula::of(alloc, e)?))?;
            Ok(())
        }
    }
}

#[cycle(emit)]
fn emit_row(
    code: &mut Instructions,
    members: &BtRow,
    next: &mut usize,
    alloc: Global,
) -> Result<(), AllocError>
    requires arms { RowHasArms (bit_trees_of members.now) }
    requires low { next.old ≤ length code.old }
    ensures code { OnOk result (code.new ≡ code.old ++ row_code (bit_trees_of members.now) (length code.old) next.old) }
    ensures loops { OnOk result (next.new ≡ next.old + row_loops (bit_trees_of members.now)) }
    ensures low { OnOk result (next.new ≤ length code.new) }
    ensures fits { OnOk result (RowFits (bit_trees_of members.now)) }
{
    for t in &members.members {
        emit(code, t, next, alloc)?;
    }
    Ok(())
}

#[cycle(emit)]
fn emit_pick(
    code: &mut Instructions,
    arms: &BtRow,
    draw: &Draw,
    next: &mut usize,
    alloc: Global,
) -> Result<(), AllocError>
    requires labels { ClassesBelow (count (bit_trees_of arms.now)) (flips_of draw.now) }
    requires arms { RowHasArms (bit_trees_of arms.now) }
    requires low { next.old ≤ length code.old }
    ensures code { OnOk result
        (code.new ≡ code.old ++ tree_code (Pick (flips_of draw.now) (bit_trees_of arms.now)) (length code.old) next.old) }
    ensures loops { OnOk result (next.new ≡ next.old + row_loops (bit_trees_of arms.now)) }
    ensures low { OnOk result (next.new ≤ length code.new) }
    ensures fits { OnOk result (RowFits (bit_trees_of arms.now)) }
{
    code.put(Instr::Tries)?;
    let first = code.count();
    reserve(code, draw)?;
    let mut starts = Vec::new(alloc);
    emit_arms(code, arms, next, &mut starts, alloc)?;
    fill(code, draw, first, first, &starts);
    Ok(())
}

// The arms, each but the last followed by a jump past the last; `starts` gets where they begin.
#[cycle(emit)]
fn emit_arms(
    code: &mut Instructions,
    arms: &BtRow,
    next: &mut usize,
    starts: &mut Vec<usize>,
    alloc: Global,
) -> Result<(), AllocError>
    requires arms { RowHasArms (bit_trees_of arms.now) }
    requires low { next.old ≤ length code.old }
    requires none { starts.old.items ≡ [] }
    ensures code { OnOk result (code.new
        ≡ code.old ++ arms_code (bit_trees_of arms.now) (length code.old) next.old
        (length code.old + arms_size (bit_trees_of arms.now))) }
    ensures loops { OnOk result (next.new ≡ next.old + row_loops (bit_trees_of arms.now)) }
    ensures starts { OnOk result (starts.new.items ≡ starts_of (bit_trees_of arms.now) (length code.old)) }
    ensures low { OnOk result (next.new ≤ length code.new) }
    ensures fits { OnOk result (RowFits (bit_trees_of arms.now)) }
{
    emit_open(code, arms, next, starts, alloc)?;
    let end = code.count();
    close(code, starts, 0, end);
    Ok(())
}

// The same with jumps to 0.
#[cycle(emit)]
fn emit_open(
    code: &mut Instructions,
    arms: &BtRow,
    next: &mut usize,
    starts: &mut Vec<usize>,
    alloc: Global,
) -> Result<(), AllocError>
    requires arms { RowHasArms (bit_trees_of arms.now) }
    requires low { next.old ≤ length code.old }
    requires none { starts.old.items ≡ [] }
    ensures code { OnOk result (code.new ≡ code.old ++ arms_code (bit_trees_of arms.now) (length code.old) next.old 0) }
    ensures loops { OnOk result (next.new ≡ next.old + row_loops (bit_trees_of arms.now)) }
    ensures starts { OnOk result (starts.new.items ≡ starts_of (bit_trees_of arms.now) (length code.old)) }
    ensures low { OnOk result (next.new ≤ length code.new) }
    ensures fits { OnOk result (RowFits (bit_trees_of arms.now)) }
{
    for (i, arm) in arms.members.iter().enumerate() {
        put_between(code, i)?;
        starts.push(code.count())?;
        emit(code, arm, next, alloc)?;
    }
    Ok(())
}

// Writes the jumps before all arms from the i-th on but that one.
fn close(code: &mut Instructions, starts: &[usize], i: usize, end: usize)
    requires within { i ≤ length starts.now }
    requires arms { (before : List Instruction) × (ts : BitTrees) × (c : ℕ)
        × (code.old ≡ before ++ arms_code ts (length before) c 0) × (drop i starts.now ≡ starts_of ts (length before)) }
    ensures size { length code.new ≡ length code.old }
    ensures code { (before : List Instruction) (ts : BitTrees) (c : ℕ) → code.old ≡ before ++ arms_code ts (length before) c 0
        → drop i starts.now ≡ starts_of ts (length before) →
        code.new ≡ before ++ arms_code ts (length before) c end }
{
    if i + 1 < starts.len() {
        code.set(starts[i + 1] - 1, Instr::Goto(end));
        close(code, starts, i + 1, end);
    }
}

/// The code of a tied tree, which does what the tree does.
///
/// Each draw of the tree is coalesced, each label has its arm, and variables are below their number. An error comes only where
/// memory runs out.
pub fn assemble(alloc: Global, t: &Tied) -> Result<Code, AllocError>
    requires sampleable { TiedIsSampleable (tied_tree_of t.now) }
    ensures code { IfOk result (λ c. c ≡ assembled (tied_tree_of t.now)) }
    ensures follows { IfOk result (λ c. Follows (tied_tree_of t.now) c) }
{
    let mut instrs = Instructions::new(alloc);
    let mut loops = 0;
    emit(&mut instrs, &t.body, &mut loops, alloc)?;
    let result = Formula::of(alloc, &t.result)?;
    instrs.put(Instr::Return(result))?;
    Code::of(alloc, instrs, loops, t.vars)
}
