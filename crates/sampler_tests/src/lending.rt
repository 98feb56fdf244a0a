// What may be lent to threads, and what handed to one.

use formula::{Formula, Stack};
use sampler_code::{Code, Instr};
use std::marker::{Send, Sync};
use std::test::Fail;

fn lent<T: Sync>() {}

fn handed<T: Send>() {}

// Code, its instructions and their formulas may be lent and handed to threads, stacks handed.
#[test]
fn threads_are_lent_and_handed_code(_rt: HostRuntime) -> Result<(), Fail> {
    lent::<Code>();
    lent::<Instr>();
    lent::<Formula>();
    handed::<Code>();
    handed::<Instr>();
    handed::<Formula>();
    handed::<Stack>();
    Ok(())
}
