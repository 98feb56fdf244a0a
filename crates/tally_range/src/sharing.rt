// Making shares, and taking them apart.

ghost use Rattle.std.specs.Prelude.{◌≡◌, ◌<◌, ◌^◌, [], map, reverse, All, IfOk, Ok};
ghost use Rattle.gcl_core.specs.declared.answers.TallyKey.{TallyKey};
ghost use Rattle.passes.specs.Total.{total};
ghost use Rattle.tally_range.specs.Tallies.{IsTally};
ghost use Rattle.tally_range.specs.Sums.{count_in};
ghost use Rattle.tally_range.specs.Shares.{pass_of, table_of, told_by};
ghost use Rattle.tally_range.specs.inner.Worked.{entry_pass, entry_table};

use crate::share::{Entry, Share};
use crate::table::Tally;
use claim_board::Pass;
use std::alloc::{AllocError, Global};
use zar_io::Visits;

impl Share {
    /// This pass, no counts, and no block that the gate was told of. It takes no memory.
    pub fn new(alloc: Global, pass: Pass) -> Share
        ensures pass { pass_of result ≡ pass }
        ensures empty { table_of result ≡ [] }
        ensures untold { told_by result ≡ [] }
    {
        Share {
            pass,
            table: Tally::new(alloc),
            visits: Visits::new(),
            alloc,
        }
    }

    /// The pass and the table. It takes no memory.
    pub fn parts(self) -> (Pass, Tally)
        ensures pass { result.0 ≡ pass_of self }
        ensures table { result.1 ≡ table_of self }
    {
        let Share {
            pass,
            table,
            visits: _visits,
            alloc: _alloc,
        } = self;
        (pass, table)
    }
}

// A share for each pass, in the opposite order. An error comes only where memory runs out.
pub(crate) fn share_out(alloc: Global, mut passes: Vec<Pass>) -> Result<Vec<Entry>, AllocError>
    ensures passes { IfOk result (λ entries. map entry_pass entries.items ≡ reverse passes.items) }
    ensures empty { IfOk result (λ entries. All (λ e. entry_table e ≡ []) entries.items) }
{
    let mut entries = Vec::with_capacity(alloc, passes.len())?;
    while let Some(pass) = passes.pop() {
        entries.push(Entry {
            share: Share::new(alloc, pass),
            done: Ok(()),
        })?;
    }
    Ok(entries)
}

// The passes and the tables, in the opposite order. An error comes where memory runs out, or
// where it did for a worker.
pub(crate) fn gather(
    alloc: Global,
    mut entries: Vec<Entry>,
) -> Result<(Vec<Pass>, Vec<Tally>), AllocError>
    ensures passes { IfOk result (λ r. reverse r.0.items ≡ map entry_pass entries.items) }
    ensures tables { IfOk result (λ r. reverse r.1.items ≡ map entry_table entries.items) }
    ensures worked { IfOk result (λ r. All (λ e. e.done ≡ Ok tt) entries.items) }
{
    let mut passes = Vec::with_capacity(alloc, entries.len())?;
    let mut tables = Vec::with_capacity(alloc, entries.len())?;
    while let Some(entry) = entries.pop() {
        let Entry { share, done } = entry;
        done?;
        let (pass, table) = share.parts();
        passes.push(pass)?;
        tables.push(table)?;
    }
    Ok((passes, tables))
}

// The counts of all tables. An error comes only where memory runs out.
pub(crate) fn add_up(alloc: Global, tables: &[Tally]) -> Result<Tally, AllocError>
    requires fits { (key : TallyKey) → total (λ t. count_in t key) tables.now < 2 ^ 64 }
    ensures counted { IfOk result (λ all. (key : TallyKey) → count_in all key ≡ total (λ t. count_in t key) tables.now) }
    ensures tally { IfOk result IsTally }
{
    let mut all = Tally::new(alloc);
    for table in tables {
        all.add_all(table)?;
    }
    all.is_tally();
    Ok(all)
}
