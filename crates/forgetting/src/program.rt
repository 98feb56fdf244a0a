// The forgetful program.

ghost use Rattle.std.specs.Prelude.{◌≡◌, IfOk};
ghost use Rattle.gcl_core.specs.meaning.Views.{source_of};
ghost use Rattle.forgetting.specs.Forgetful.{forgetful_of};

use crate::blocks::forgetful_branch;
use crate::laws::forgetting_keeps_programs_checked;
use crate::name_set::NameSet;
use crate::reading::with_read;
use gcl_core::{Checked, Program};
use std::alloc::{AllocError, Global};

// The forgetful program of a program, with its names and its result, before it is known to be checked.
fn forgotten(alloc: Global, p: &Checked) -> Result<Program, AllocError>
    ensures { IfOk result (λ q. source_of q ≡ forgetful_of (source_of p.now)) }
{
    p.is_kept();
    let program = p.program();
    let count = program.names.count();
    let after = with_read(&program.result, NameSet::none());
    let none = NameSet::none();
    let body = forgetful_branch(alloc, &program.body, count, none, none, after)?;
    let names = program.names.copy(alloc)?;
    let result = program.result.copy(alloc)?;
    Ok(Program {
        names,
        body,
        result,
    })
}

/// The forgetful program of a program. It refuses where memory runs out.
pub fn forgetful(alloc: Global, p: &Checked) -> Result<Checked, AllocError>
    ensures { IfOk result (λ q. source_of q ≡ forgetful_of (source_of p.now)) }
{
    p.is_kept();
    forgetting_keeps_programs_checked();
    let program = forgotten(alloc, p)?;
    Ok(Checked::of(program))
}
