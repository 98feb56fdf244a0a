// What follows from what a call answers, and what `sample` says, beside what its program states.

ghost use Rattle.std.specs.Prelude.{ℕ, List};
ghost use Rattle.gcl_core.specs.declared.answers.Limits.{Limits};
ghost use Rattle.gcl_core.specs.meaning.Syntax.{SourceProgram};
ghost use Rattle.gcl_core.specs.text.Texts.{Spells};
ghost use Rattle.zar_io.specs.declared.trace.Event.{Event};
ghost use Rattle.zar_cli.specs.Answer.{IsAnswer};
ghost use Rattle.zar_cli.specs.Cause.{HasCause};
ghost use Rattle.zar_cli.specs.Forms.{CallWord};
ghost use Rattle.zar_cli.specs.Samples.{SamplesExactly};

use gcl_parse::spelled_programs_are_checked;
use weighing_law::{
    limits_cost_what_they_weigh, runs_read_in_order, runs_weigh_exactly, strings_are_counted,
};

/// It does nothing: its clause joins what `sample` says with what its program states, for every text that spells a program, and
/// all limits. Over files that hold the text and some bits, `sample` says how the program's run on the bits ends. The run reads
/// bit by bit, and no further than to its end. The strings of bits on which it ends in an outcome weigh exactly the fraction that
/// the program states under these limits, and as many of the strings of each length end in it as these weights say. What the
/// limits of attempts and of rounds cost is no more than they weigh.
pub fn zar_samples_exactly()
    ensures { (text : List ℕ) (p : SourceProgram) (l : Limits) → Spells text p → SamplesExactly text p l }
{
    spelled_programs_are_checked();
    runs_read_in_order();
    runs_weigh_exactly();
    strings_are_counted();
    limits_cost_what_they_weigh();
}

/// It does nothing: its clause says that each status that answers a call has its cause, so the clause `cause` of `zar` promises
/// no more than the clause `answer`.
pub fn answers_have_causes()
    ensures { (words : List CallWord) (status : ℕ) (files files' out out' err err' : List Event)
        → IsAnswer words status files files' out out' err err' → HasCause words status files files' out out' err err' }
{}
