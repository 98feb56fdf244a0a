// What threads are to run.

use crate::range::SeedRange;
use gcl_core::Limits;
use sampler_run::Sampler;
use zar_io::Gate;

/// The runs of a sampler, under these limits, on the streams of a range. The gate is told of each block. It may be lent to
/// threads.
#[derive(Drop)]
pub struct Job<'a, G: Gate> {
    pub sampler: &'a Sampler,
    pub limits: &'a Limits,
    pub range: &'a SeedRange,
    pub gate: &'a G,
}
