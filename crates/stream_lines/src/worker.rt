// What a worker works with.

use crate::batch::Batch;
use sampler_run::Run;
use zar_io::Visits;

// A run that is begun anew on each stream, the lines of the batch at hand, and the blocks that the gate was told of. It may cross
// threads.
#[derive(Drop)]
pub struct Worker<'s> {
    pub(crate) state: Run<'s>,
    pub(crate) batch: Batch,
    pub(crate) visits: Visits,
    // Room between workers that stand side by side, so that no two write to one line of a processor's cache.
    pub(crate) apart: [u64; 16],
}
