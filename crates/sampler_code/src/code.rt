// Code that is assembled.

ghost use Rattle.std.specs.Prelude.{◌≡◌};
ghost use Rattle.sampler_code.specs.Follows.{IsCode};

use crate::instructions::{Instr, Instructions};
use gcl_core::Limits;
use std::alloc::{AllocError, Global};
use std::marker::Model;

/// Flat code of a tree, which does what the tree does. Every target is the index of an instruction, the last instruction is a
/// return, and every jump back spends a counter of turns, attempts or rounds; counters and variables are below their numbers.
#[derive(Drop)]
pub struct Code {
    instrs: Instructions,
    // The index that each instruction names, or 0. A run reads it here: an index leads to the next with one load.
    targets: Vec<usize>,
    loops: usize,
    vars: u32,
}

impl Model for Code {
    ghost use Rattle.std.specs.Coded.{codes};
    ghost use Rattle.sampler_code.specs.inner.Stored.{expression_code};
    ghost use Rattle.sampler_code.specs.Assembled.{Assembled};
    ghost use Rattle.sampler_code.specs.Models.{IsKept, assembled_of};

    ghost Value = { Assembled };

    ghost coded = { Prim.hlevel (codes, expression_code) };

    ghost view = { assembled_of };

    ghost invariant = { IsKept };
}

impl Code {
    ghost use Rattle.std.specs.Prelude.{◌≡◌, ◌<◌, ◌+◌, ◌^◌, Bool, IfOk, List, MatchOption, Some, length, slice_get};
    ghost use Rattle.gcl_core.specs.meaning.LimitRange.{InRange};
    ghost use Rattle.sampler_code.specs.Running.{Reached};
    ghost use Rattle.sampler_code.specs.Sound.{Sound};
    ghost use Rattle.sampler_code.specs.Assembled.{CodeReaches};
    ghost use Rattle.sampler_code.specs.Follows.{Follows, IsCode};
    ghost use Rattle.sampler_code.specs.Views.{instruction_of};
    ghost use Rattle.sampler_code.specs.Depths.{greatest_depth};
    ghost use Rattle.sampler_code.specs.Targets.{target_of};

    // What is the code of a tree. An error comes only where memory runs out.
    pub(crate) fn of(
        alloc: Global,
        instrs: Instructions,
        loops: usize,
        vars: u32,
    ) -> Result<Code, AllocError>
        requires { IsCode (record { instrs = instrs; loops = loops; vars = vars }) }
        ensures { IfOk result (λ c. c ≡ record { instrs = instrs; loops = loops; vars = vars }) }
    {
        let targets = instrs.targets(alloc)?;
        Ok(Code {
            instrs,
            targets,
            loops,
            vars,
        })
    }

    /// How many instructions there are. What code keeps is told here.
    pub fn count(&self) -> usize
        ensures value { result ≡ length self.now.instrs }
        ensures tree { IsCode self.now }
        ensures follows { (code : IsCode self.now) → Follows code.tree self.now }
        ensures sound { Sound self.now.instrs self.now.loops self.now.vars }
        ensures answers { (l : Limits) (w : List Bool) → InRange l → (a : Reached) × CodeReaches self.now l w a }
    {
        self.instrs.count()
    }

    /// The instruction at an index, which is below the count.
    pub fn at(&self, i: usize) -> &Instr
        requires { i < length self.now.instrs }
        ensures instruction { slice_get self.now.instrs i ≡ Some (instruction_of result.now) }
        ensures within { i + 1 < 2 ^ 64 }
    {
        self.instrs.get(i)
    }

    /// The index that the instruction at an index names, which is below the count; 0 where it names none.
    pub fn target(&self, i: usize) -> usize
        requires { i < length self.now.instrs }
        ensures { MatchOption (slice_get self.now.instrs i) ⊥ (λ instruction. result ≡ target_of instruction) }
    {
        self.targets[i]
    }

    /// The greatest number of values on the stack of an expression.
    pub fn depth(&self) -> usize
        ensures { result ≡ greatest_depth self.now.instrs }
    {
        self.instrs.depth()
    }

    /// The number of loops. Each counter of turns is below it.
    pub fn loops(&self) -> usize
        ensures value { result ≡ self.now.loops }
        ensures sound { Sound self.now.instrs self.now.loops self.now.vars }
    {
        self.loops
    }

    /// The number of variables. Each variable of an instruction is below it. A run over that many variables reaches an answer.
    pub fn vars(&self) -> u32
        ensures value { result ≡ self.now.vars }
        ensures tree { IsCode self.now }
        ensures answers { (l : Limits) (w : List Bool) → InRange l → (a : Reached) × CodeReaches self.now l w a }
    {
        self.vars
    }
}
