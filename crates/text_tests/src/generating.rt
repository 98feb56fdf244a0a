// The texts of generated programs, and how large they are.

ghost use Rattle.std.specs.Prelude.{◌≤◌};

use gcl_core::count_statements;
use gcl_print::print;
use generated_program::{generate, generate_checked};
use std::alloc::{AllocError, Global};
use std::test::Fail;

const OF_FIVE: &str = "\
v0 := 0;
v1 := 1;
v2 := 2;
v3 := 3;
v4 := 4;
v5 := 5;
v6 := 6;
v7 := 7;
v0 := v3 + 0;
v1 ~ uniform(3);
choice 1/4 {
  v2 := v5;
} or {
  v2 := v2 + 1;
}
if v3 < v6 {
  v3 := v3 + 1;
} else {
  v6 := v6 + 1;
}
while v4 % 3 != 0 {
  v4 := v4 + 1;
}
observe v1 % 4 != 3;
return v0 % 100;
";

#[test]
fn the_program_of_five_has_each_kind_of_statement(rt: HostRuntime) -> Result<(), Fail> {
    let alloc = rt.alloc();
    let text = print(alloc, &generate(alloc, 5)?)?;
    assert_eq!(rt; text.as_slice(), OF_FIVE.as_bytes());
    Ok(())
}

// How many statements there are, and how many bytes of text.
fn sizes_of(alloc: Global, k: u32) -> Result<(u64, usize), AllocError>
    requires { k ≤ 1000 }
{
    let program = generate(alloc, k)?;
    let text = print(alloc, &program)?;
    Ok((count_statements(&program.body), text.len()))
}

#[test]
fn programs_have_their_sizes(rt: HostRuntime) -> Result<(), Fail> {
    for (k, want) in [(1, (10, 124)), (5, (19, 285)), (1000, (2009, 35_510))] {
        assert!(rt; k <= 1000);
        assert_eq!(rt; sizes_of(rt.alloc(), k)?, want, "the program of {k}");
    }
    Ok(())
}

#[test]
fn the_check_accepts_what_is_generated(rt: HostRuntime) -> Result<(), Fail> {
    let checked = generate_checked(rt.alloc(), 20)?;
    assert_eq!(rt; count_statements(&checked.program().body), 49);
    Ok(())
}
