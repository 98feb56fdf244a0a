// What may be lent to threads, and what handed to one.

use audit_walk::Audit;
use claim_board::Board;
use sampler_run::{Run, Sampler};
use std::marker::{Send, Sync};
use std::test::Fail;
use stream_runs::SeedRange;
use tally_range::{Share, Tally};

fn lent<T: Sync>() {}

fn handed<T: Send>() {}

// A sampler may be lent to threads, and a state may be lent and handed to one.
#[test]
fn threads_are_lent_samplers_and_handed_states(_rt: HostRuntime) -> Result<(), Fail> {
    lent::<Sampler>();
    lent::<Run<'static>>();
    handed::<Run<'static>>();
    Ok(())
}

// A board and a tally may be lent to threads, and a share and a tally handed to one.
#[test]
fn threads_are_lent_boards_and_handed_shares(_rt: HostRuntime) -> Result<(), Fail> {
    lent::<Board>();
    lent::<Tally>();
    lent::<SeedRange>();
    handed::<Share>();
    handed::<Tally>();
    Ok(())
}

// An audit may be lent and handed to a thread.
#[test]
fn threads_are_lent_audits(_rt: HostRuntime) -> Result<(), Fail> {
    lent::<Audit>();
    handed::<Audit>();
    Ok(())
}
