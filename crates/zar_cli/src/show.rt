// How an output is shown: by its status, and on two sinks.

ghost use Rattle.std.specs.Prelude.{◌≡◌, is_err, IsTrue, IfOk, OnErr, if◌then◌else◌};
ghost use Rattle.report_text.specs.Lines.{refusal_text};
ghost use Rattle.zar_cli.specs.Delivery.{answer_status, roll_status, said_status, is_of_masses, refusal_status, status_of, said_text, out_text, err_text};
ghost use Rattle.zar_io.specs.Written.{IsWritten};
ghost use Rattle.zar_cli.specs.inner.AsWritten.{is_drawn, IsDrawn};

use crate::said::Said;
use crate::statuses::{
    DONE, LIMIT_REACHED, MASS_REFUSED, MORE_BITS, NO_FILE, OUT_OF_MEMORY, READ_FAULT, TEXT_REFUSED,
    WORDS_REFUSED, WRITE_FAULT,
};
use crate::writing::{put_text, put_topic};
use dice_roll::Roll;
use gcl_core::refusals::{BAD_WORDS, TOO_FINE};
use gcl_core::{Answer, Outcome};
use report_text::{Refusal, check_line, fault_line, roll_line, sample_line};
use std::alloc::{AllocError, Global};
use std::thread::Threads;
use zar_io::{Failed, Gate, Sink};

// Whether a write to `out`, and whether one to `err`, has failed.
#[derive(Clone, Copy)]
pub struct Delivery {
    pub out_failed: bool,
    pub err_failed: bool,
}

fn answer_status(answer: &Answer) -> u8
    ensures { result ≡ answer_status answer.now }
{
    match answer {
        Answer::Ended(Outcome::Value(_), _) => DONE,
        Answer::Ended(Outcome::Fault(_), _) => DONE,
        Answer::Ended(Outcome::Limit(_), _) => LIMIT_REACHED,
        Answer::MoreBits(_) => MORE_BITS,
    }
}

fn roll_status(roll: &Roll) -> u8
    ensures { result ≡ roll_status roll.now }
{
    match roll {
        Roll::Label(_, _) => DONE,
        Roll::Limit(_) => LIMIT_REACHED,
        Roll::MoreBits(_) => MORE_BITS,
    }
}

fn said_status(said: &Said) -> u8
    ensures { result ≡ said_status said.now }
{
    match said {
        Said::Answered(answer) => answer_status(answer),
        Said::Accepted(_, _) => DONE,
        Said::Shown(_) => DONE,
        Said::Drawn(_) => DONE,
        Said::Rolled(roll) => roll_status(roll),
        Said::Helped(_) => DONE,
    }
}

// Whether a code is one of masses. These come behind those of texts.
fn is_of_masses(code: u8) -> bool
    ensures { result ≡ is_of_masses code }
{
    code > TOO_FINE
}

fn refusal_status(refusal: &Refusal) -> u8
    ensures { result ≡ refusal_status refusal.now }
{
    match refusal {
        Refusal::Coded(code, _) if *code == BAD_WORDS => WORDS_REFUSED,
        Refusal::Coded(code, _) if is_of_masses(*code) => MASS_REFUSED,
        Refusal::Coded(_, _) => TEXT_REFUSED,
        Refusal::Read => READ_FAULT,
        Refusal::Write => WRITE_FAULT,
        Refusal::Memory => OUT_OF_MEMORY,
        Refusal::NoFile => NO_FILE,
    }
}

/// The status with which the program ends after this output.
pub fn status_of(output: &Result<Said, Refusal>) -> u8
    ensures { result ≡ status_of output.now }
{
    match output {
        Ok(said) => said_status(said),
        Err(refusal) => refusal_status(refusal),
    }
}

// Writes what is said. Memory is taken for lines of runs alone, before their first byte. An error comes only where it runs out.
fn put_said<R: Threads + Sync, S: Sink, G: Gate>(
    rt: &R,
    alloc: Global,
    sink: &mut S,
    said: &Said,
    gate: &G,
) -> Result<Result<(), Failed>, AllocError>
    ensures written { IfOk result (λ done.
        IsWritten (is_err done) (S.answered sink.old) (S.answered sink.new) (said_text said.now)) }
    ensures untouched { OnErr result ((sink.new ≡ sink.old) × IsTrue (is_drawn said.now)) }
{
    match said {
        Said::Answered(answer) => Ok(put_text(sink, sample_line(answer).bytes())),
        Said::Accepted(statements, names) => Ok(put_text(
            sink,
            check_line(*statements, *names).bytes(),
        )),
        Said::Shown(text) => Ok(put_text(sink, text.bytes())),
        Said::Drawn(drawn) => drawn.write(rt, alloc, sink, gate),
        Said::Rolled(roll) => Ok(put_text(sink, roll_line(roll).bytes())),
        Said::Helped(topic) => Ok(put_topic(sink, *topic)),
    }
}

/// Writes the line of a refusal.
pub fn put_refusal<S: Sink>(sink: &mut S, refusal: &Refusal) -> Result<(), Failed>
    ensures { IsWritten (is_err result) (S.answered sink.old) (S.answered sink.new) (refusal_text refusal.now) }
{
    put_text(sink, fault_line(refusal).bytes())
}

/// Writes an output: what is said on `out`, and a refusal on `err`. Where a write to `out` fails, that is said on `err`. An error
/// comes only where memory runs out for lines of runs, before the first byte of any.
pub fn show<R: Threads + Sync, O: Sink, E: Sink, G: Gate>(
    rt: &R,
    alloc: Global,
    output: &Result<Said, Refusal>,
    out: &mut O,
    err: &mut E,
    gate: &G,
) -> Result<Delivery, AllocError>
    ensures on_out { IfOk result (λ shown.
        IsWritten shown.out_failed (O.answered out.old) (O.answered out.new) (out_text output.now)) }
    ensures on_err { IfOk result (λ shown.
        IsWritten shown.err_failed (E.answered err.old) (E.answered err.new)
        (if shown.out_failed then refusal_text Refusal.Write else err_text output.now)) }
    ensures untouched { OnErr result ((out.new ≡ out.old) × (err.new ≡ err.old) × IsDrawn output.now) }
{
    match output {
        Ok(said) => match put_said(rt, alloc, out, said, gate)? {
            Ok(()) => Ok(Delivery {
                out_failed: false,
                err_failed: false,
            }),
            Err(Failed) => Ok(Delivery {
                out_failed: true,
                err_failed: put_refusal(err, &Refusal::Write).is_err(),
            }),
        },
        Err(refusal) => Ok(Delivery {
            out_failed: false,
            err_failed: put_refusal(err, refusal).is_err(),
        }),
    }
}
