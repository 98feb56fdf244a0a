// What a pass knows, and how that changes when a board is made and closed.
ghost use Rattle.passes.specs.declared.view.Numbering.{Numbering};
ghost use Rattle.passes.specs.Numbering.{AreNumbered};

use atomic_table::{Join, Split};

/// The view of a pass on a board. Contracts alone speak of it, and no value of it is made.
pub trait View {
    /// The numbers that it stands for.
    ghost passes: { Self → Numbering };

    /// Where a pass makes another: the view of the first, and that of the other.
    ghost makes: { Self → Self };

    ghost made_by: { Self → Self };

    /// Where two passes are joined: the view that is kept, and what is left of the other.
    ghost joined: { Self → Self → Self };

    ghost spent: { Self };

    /// The numbers change as those of every board do.
    ghost numbered: { AreNumbered passes makes made_by joined spent };
}

/// The seat of the first pass is split, and another pass is made.
pub struct Making;

impl<V: View> Split<V> for Making {
    ghost left = { V.makes };

    ghost right = { V.made_by };
}

/// Two seats are joined when a board is closed.
pub struct Joining;

impl<V: View> Join<V> for Joining {
    ghost both = { V.joined };

    ghost spent = { V.spent };
}
