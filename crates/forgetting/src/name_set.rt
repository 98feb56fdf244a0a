// Sets of variables.

ghost use Rattle.std.specs.Prelude.{◌≡◌, ℕ, ◌<◌, ◌==◌, ◌&&◌, ◌||◌, false, not};
ghost use Rattle.gcl_core.specs.declared.rules.TheConstants.{MOST_NAMES};
ghost use Rattle.forgetting.specs.Liveness.{both};
ghost use Rattle.forgetting.specs.Marks.{marked};

use gcl_core::MOST_NAMES;

// A mark for each variable that a program may have.
#[derive(Clone, Copy)]
pub struct NameSet {
    pub marks: [bool; MOST_NAMES],
}

impl NameSet {
    // No variable.
    pub fn none() -> NameSet
        ensures { (y : ℕ) → marked result.marks y ≡ false }
    {
        NameSet {
            marks: [false; MOST_NAMES],
        }
    }

    // Whether a variable is in it.
    pub fn has(self, x: u32) -> bool
        requires { x < MOST_NAMES }
        ensures { result ≡ marked self.marks x }
    {
        self.marks[x as usize]
    }

    // Whether a variable is in it, and not in the other.
    pub fn dies(self, kept: NameSet, x: u32) -> bool
        requires { x < MOST_NAMES }
        ensures { result ≡ (marked self.marks x && not (marked kept.marks x)) }
    {
        self.has(x) && !kept.has(x)
    }

    // With one more.
    pub fn with(self, x: u32) -> NameSet
        requires { x < MOST_NAMES }
        ensures { (y : ℕ) → marked result.marks y ≡ (y == x || marked self.marks y) }
    {
        let mut set = self;
        set.marks[x as usize] = true;
        set
    }

    // Without one.
    pub fn without(self, x: u32) -> NameSet
        requires { x < MOST_NAMES }
        ensures { (y : ℕ) → marked result.marks y ≡ (not (y == x) && marked self.marks y) }
    {
        let mut set = self;
        set.marks[x as usize] = false;
        set
    }

    // All that are in one of two.
    pub fn or(self, other: NameSet) -> NameSet
        ensures { (y : ℕ) → marked result.marks y ≡ (marked self.marks y || marked other.marks y) }
    {
        let mut set = self;
        for i in 0..MOST_NAMES {
            set.marks[i] = self.marks[i] || other.marks[i];
        }
        set
    }

    // All that are in both of two.
    pub fn and(self, other: NameSet) -> NameSet
        ensures { marked result.marks ≡ both (marked self.marks) (marked other.marks) }
    {
        let mut set = self;
        for i in 0..MOST_NAMES {
            set.marks[i] = self.marks[i] && other.marks[i];
        }
        set
    }
}
