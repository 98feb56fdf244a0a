// A pass and its seat.
ghost use Rattle.std.specs.Prelude.{◌≡◌, ◌<◌, [], length};
ghost use Rattle.claim_board.specs.Views.{passes_of};
ghost use Rattle.claim_board.specs.Board.{table_of, view_of, IsFresh};

use crate::hand::Hand;
use crate::pass::Pass;
use atomic_table::Seat;
use passes::Seated;

impl Seated<Hand> for Pass {
    ghost table = { table_of };

    ghost view = { view_of };

    ghost fresh = { IsFresh };

    fn of(seat: Seat<(), Hand>) -> Pass
        requires { (seat.me.1 ≡ []) × IsFresh seat.me.0 }
        ensures { (table_of result ≡ seat.table_id) × (view_of result ≡ seat.me.0) }
    {
        Pass {
            seat,
            had_none: false,
        }
    }

    fn into_seat(self) -> Seat<(), Hand>
        ensures seat { (result.table_id ≡ table_of self) × (result.me ≡ (view_of self, [])) }
        ensures numbers { 0 < length (passes_of (view_of self)).numbers }
    {
        let Pass { seat, had_none: _ } = self;
        seat
    }
}
