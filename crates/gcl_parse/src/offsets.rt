// Where the statements of a program stand.

ghost use Rattle.std.specs.Prelude.{◌≡◌, ◌<◌, Some, length};
ghost use Rattle.std.specs.List.{slice_get};

use std::marker::Model;

/// Offsets in a text: those of the first bytes of a program's statements in reading order, and of `return`.
#[derive(Drop)]
pub struct Places {
    offsets: Vec<u32>,
}

impl Model for Places {
    ghost use Rattle.std.specs.Prelude.{List, ℕ};

    ghost Value = { List ℕ };

    ghost view = { λ p. p.offsets.items };
}

impl Places {
    /// These offsets, in this order. It takes no memory.
    pub fn of(offsets: Vec<u32>) -> Places
        ensures { result ≡ offsets.items }
    {
        Places { offsets }
    }

    /// The offsets, in their order. It takes no memory.
    pub fn into_vec(self) -> Vec<u32>
        ensures { result.items ≡ self }
    {
        self.offsets
    }

    /// How many there are: one for each statement, and one for `return`.
    pub fn count(&self) -> usize
        ensures { result ≡ length self.now }
    {
        self.offsets.len()
    }

    /// The offset of the statement with this number.
    pub fn get(&self, i: usize) -> &u32
        requires { i < length self.now }
        ensures { slice_get self.now i ≡ Some result.now }
    {
        &self.offsets[i]
    }
}
