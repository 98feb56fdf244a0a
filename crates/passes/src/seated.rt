// A pass, which is a seat at the table of its board.
ghost use Rattle.std.specs.Prelude.{◌≡◌, ◌<◌, [], length};
ghost use Rattle.atomic_table.specs.Seated.{TableId};

use crate::steps::View;
use atomic_table::Seat;

/// A pass of a board on which passes have views of the type V.
pub trait Seated<V: View>: Drop {
    /// The table at which it has its seat, and what it knows.
    ghost table: { Self → TableId };

    ghost view: { Self → V };

    /// The views that a pass may have when it is made.
    ghost fresh: { V → Type 0 };

    /// The pass that has this seat.
    fn of(seat: Seat<(), V>) -> Self
        requires { (seat.me.1 ≡ []) × fresh seat.me.0 }
        ensures { (table result ≡ seat.table_id) × (view result ≡ seat.me.0) };

    /// The seat of the pass.
    fn into_seat(self) -> Seat<(), V>
        ensures seat { (result.table_id ≡ table self) × (result.me ≡ (view self, [])) }
        ensures numbers { 0 < length (V.passes (view self)).numbers };
}
