// A limit of attempts, or none.

ghost use Rattle.std.specs.Prelude.{◌≤◌, IfSome};
ghost use Rattle.std.proofs.Props.{props};

/// The most attempts for each draw, at least 1, or no limit.
#[derive(Clone, Copy)]
pub struct Attempts {
    pub most: Option<u64>,
    ghost some: { IfSome most (λ r. 1 ≤ r) } by { Prim.hlevel props },
}
