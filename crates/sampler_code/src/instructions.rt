// Instructions.

ghost use Rattle.std.specs.Prelude.{◌≡◌, ◌<◌, ◌+◌, ◌^◌, ◌++◌, ◌∷◌, [], length, map, Some, slice_get, slice_set, IfOk, OnOk};
ghost use Rattle.sampler_code.specs.Depths.{depth_of, greatest_depth};
ghost use Rattle.sampler_code.specs.Targets.{target_of};
ghost use Rattle.sampler_code.specs.Views.{instruction_of, instructions_of};

use formula::Formula;
use std::alloc::{AllocError, Global};
use std::marker::Model;

/// An instruction of flat code. Targets are indices of instructions; one that names no jump goes on to the next index.
#[derive(Drop)]
pub enum Instr {
    /// Stores the value of the expression in the variable, or ends with its fault.
    Set(u32, Formula),
    /// Stores a number below the value of the expression, each with the same weight.
    Range(u32, Formula),
    /// Goes to the target where the value is 0.
    Unless(Formula, usize),
    /// Goes to the target, which lies further on.
    Goto(usize),
    /// Sets this counter of turns to its limit.
    Arm(usize),
    /// Goes on where the value is 0. Else takes one from this counter of turns and goes back to the target; where none is left,
    /// ends.
    Loop(usize, usize, Formula),
    /// Sets the counter of attempts to its limit.
    Tries,
    /// Reads a bit: goes on at 0, to the target at 1.
    Flip(usize),
    /// Takes one from the counter of attempts and goes back to the target; where none is left then, ends.
    Again(usize),
    /// Takes one from the rounds and begins again with every variable 0; where none is left then, ends.
    Fail,
    /// Ends with the value of the expression, or with its fault.
    Return(Formula),
}

impl Instr {
    // The greatest number of values on the stack of its expression.
    fn depth(&self) -> usize
        ensures { result ≡ depth_of (instruction_of self.now) }
    {
        match self {
            Instr::Set(_, e)
            | Instr::Range(_, e)
            | Instr::Unless(e, _)
            | Instr::Loop(_, _, e)
            | Instr::Return(e) => e.depth(),
            Instr::Goto(_)
            | Instr::Arm(_)
            | Instr::Tries
            | Instr::Flip(_)
            | Instr::Again(_)
            | Instr::Fail => 0,
        }
    }

    // The index that it names, or 0 where it names none.
    fn target(&self) -> usize
        ensures { result ≡ target_of (instruction_of self.now) }
    {
        match self {
            Instr::Unless(_, target)
            | Instr::Goto(target)
            | Instr::Loop(_, target, _)
            | Instr::Flip(target)
            | Instr::Again(target) => *target,
            Instr::Set(_, _)
            | Instr::Range(_, _)
            | Instr::Arm(_)
            | Instr::Tries
            | Instr::Fail
            | Instr::Return(_) => 0,
        }
    }
}

fn greatest_depth(instrs: &[Instr]) -> usize
    ensures { result ≡ greatest_depth (instructions_of instrs.now) }
{
    let mut depth = 0;
    for instr in instrs {
        depth = instr.depth().max(depth);
    }
    depth
}

fn targets(alloc: Global, instrs: &[Instr]) -> Result<Vec<usize>, AllocError>
    ensures { IfOk result (λ targets. targets.items ≡ map target_of (instructions_of instrs.now)) }
{
    let mut targets = Vec::with_capacity(alloc, instrs.len())?;
    for instr in instrs {
        targets.push(instr.target())?;
    }
    Ok(targets)
}

/// Instructions in order, by their indices from 0.
#[derive(Drop)]
pub struct Instructions {
    instrs: Vec<Instr>,
}

impl Model for Instructions {
    ghost use Rattle.std.specs.Prelude.{List};
    ghost use Rattle.sampler_code.specs.Instruction.{Instruction};
    ghost use Rattle.sampler_code.specs.Views.{instructions_of};
    ghost use Rattle.std.specs.Coded.{codes};
    ghost use Rattle.sampler_code.specs.inner.Stored.{expression_code};

    ghost Value = { List Instruction };

    ghost coded = { Prim.hlevel (codes, expression_code) };

    ghost view = { λ c. instructions_of c.instrs.items };
}

impl Instructions {
    /// No instruction. It takes no memory.
    pub fn new(alloc: Global) -> Instructions
        ensures { result ≡ [] }
    {
        Instructions {
            instrs: Vec::new(alloc),
        }
    }

    /// How many there are.
    pub fn count(&self) -> usize
        ensures { result ≡ length self.now }
    {
        self.instrs.len()
    }

    /// The instruction at an index, which has one after it.
    pub fn get(&self, i: usize) -> &Instr
        requires { i < length self.now }
        ensures instruction { slice_get self.now i ≡ Some (instruction_of result.now) }
        ensures within { i + 1 < 2 ^ 64 }
    {
        &self.instrs[i]
    }

    /// The greatest depth of their expressions.
    pub fn depth(&self) -> usize
        ensures { result ≡ greatest_depth self.now }
    {
        greatest_depth(&self.instrs)
    }

    // The index that each one names. An error comes only where memory runs out.
    pub(crate) fn targets(&self, alloc: Global) -> Result<Vec<usize>, AllocError>
        ensures { IfOk result (λ targets. targets.items ≡ map target_of self.now) }
    {
        targets(alloc, &self.instrs)
    }

    /// The index after that of an instruction.
    pub fn after(&self, i: usize) -> usize
        requires { i < length self.now }
        ensures { result ≡ i + 1 }
    {
        let inside = i < self.instrs.len();
        prove!(inside);
        i + 1
    }

    /// One more at the end. An error comes only where memory runs out.
    pub fn put(&mut self, instr: Instr) -> Result<(), AllocError>
        ensures { OnOk result (self.new ≡ self.old ++ instruction_of instr ∷ []) }
    {
        self.instrs.push(instr)?;
        Ok(())
    }

    /// Another in place of that at an index.
    pub fn set(&mut self, i: usize, instr: Instr)
        requires { i < length self.old }
        ensures { self.new ≡ slice_set self.old i (instruction_of instr) }
    {
        self.instrs[i] = instr;
    }
}
