// The law of what runs leave.

ghost use Rattle.gcl_core.specs.declared.answers.Limits.{Limits};
ghost use Rattle.gcl_core.specs.meaning.LimitRange.{InRange};
ghost use Rattle.gcl_core.specs.meaning.Syntax.{SourceProgram};
ghost use Rattle.sampler_code.specs.Assembled.{Assembled, CodeAnswers};
ghost use Rattle.sampler_run.specs.Leaving.{LeavesTheRest};
ghost use Rattle.sampler_run.specs.SamplerOf.{IsSamplerOf};

/// It does nothing: its clause says, of each sampler of a program under limits in range, that its runs read a source of bits as
/// the definition of the program's run does. So they leave what that leaves, and each of several in a row begins there.
pub fn runs_leave_the_rest()
    ensures { (p : SourceProgram) (l : Limits) (s : Assembled) → IsSamplerOf p (CodeAnswers s) → InRange l → LeavesTheRest p l s }
{}
