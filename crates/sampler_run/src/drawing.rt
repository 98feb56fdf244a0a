// The registers of a draw below a bound.

ghost use Rattle.std.specs.Prelude.{◌<◌, ◌^◌};

// An attempt: the bound, how many more bits it needs, and the number that those read so far spell.
#[derive(Clone, Copy)]
pub struct Attempt {
    pub bound: u64,
    pub need: u32,
    pub low: u64,
    ghost some: { 0 < bound },
    ghost small: { bound < 2 ^ 63 },
    ghost few: { need < 64 },
}

// A draw that is under way, or none.
#[derive(Clone, Copy)]
pub enum Drawing {
    Idle,
    Below(Attempt),
}
