// The line that says what a part of many streams is of.

ghost use Rattle.std.specs.Prelude.{◌≡◌, ◌++◌, IfOk, OnOk};
ghost use Rattle.gcl_core.specs.meaning.Views.{source_of};
ghost use Rattle.zar_cli.specs.PartName.{digest_text, numbered, range_text, limits_text, name_text, hunt_command, if_named};

use gcl_core::{Checked, Limits, TallyKey};
use gcl_print::{Text, print};
use report_text::key_line;
use sha2::{Digest, Sha256};
use std::alloc::{AllocError, Global};
use stream_runs::SeedRange;

// Writes the SHA-256 of a program's canonical text, in hex digits.
fn push_digest(alloc: Global, text: &mut Text, program: &Checked) -> Result<(), AllocError>
    ensures { OnOk result (text.new ≡ text.old ++ digest_text (source_of program.now)) }
{
    let printed = print(alloc, program.program())?;
    let digest = Sha256::digest(printed.as_slice());
    text.push(hex::encode(alloc, digest)?.as_bytes())
}

// Writes a word, and the number behind it.
fn push_number(text: &mut Text, word: &str, n: u64) -> Result<(), AllocError>
    ensures { OnOk result (text.new ≡ text.old ++ numbered word.now n) }
{
    text.push(word.as_bytes())?;
    text.digits(n)
}

fn push_range(text: &mut Text, range: &SeedRange) -> Result<(), AllocError>
    ensures { OnOk result (text.new ≡ text.old ++ range_text range.now) }
{
    push_number(text, " seed ", range.seed)?;
    push_number(text, " from ", range.from)?;
    push_number(text, " to ", range.to)?;
    push_number(text, " budget ", range.budget)
}

fn push_limits(text: &mut Text, limits: &Limits) -> Result<(), AllocError>
    ensures { OnOk result (text.new ≡ text.old ++ limits_text limits.now) }
{
    push_number(text, " turns ", limits.turns)?;
    push_number(text, " attempts ", limits.attempts)?;
    push_number(text, " rounds ", limits.rounds)
}

// Writes the line behind the command with which it begins.
fn push_rest(
    alloc: Global,
    text: &mut Text,
    program: &Checked,
    range: &SeedRange,
    limits: &Limits,
) -> Result<(), AllocError>
    ensures { OnOk result (text.new ≡ name_text text.old (source_of program.now) range.now limits.now) }
{
    text.push(b" of ")?;
    push_digest(alloc, text, program)?;
    push_range(text, range)?;
    push_limits(text, limits)?;
    text.push(b"\n")
}

/// The line of a part that a command works on, where it is asked for, and else no text. An error comes only where memory runs out.
pub fn part_name(
    alloc: Global,
    named: bool,
    command: &str,
    program: &Checked,
    range: &SeedRange,
    limits: &Limits,
) -> Result<Text, AllocError>
    ensures { IfOk result (λ text. text ≡ if_named named (name_text command.now (source_of program.now) range.now limits.now)) }
{
    let mut text = Text::new(alloc);
    if named {
        text.push(command.as_bytes())?;
        push_rest(alloc, &mut text, program, range, limits)?;
    }
    Ok(text)
}

/// The line of a part of a hunt, where it is asked for, and else no text. An error comes only where memory runs out.
pub fn hunt_name(
    alloc: Global,
    named: bool,
    want: &TallyKey,
    program: &Checked,
    range: &SeedRange,
    limits: &Limits,
) -> Result<Text, AllocError>
    ensures { IfOk result (λ text. text ≡
        if_named named (name_text (hunt_command want.now) (source_of program.now) range.now limits.now)) }
{
    let mut text = Text::new(alloc);
    if named {
        text.push(b"hunt for ")?;
        text.push(key_line(want).bytes())?;
        push_rest(alloc, &mut text, program, range, limits)?;
    }
    Ok(text)
}
