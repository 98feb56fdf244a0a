// A pass and its seat.
ghost use Rattle.std.specs.Prelude.{◌≡◌, ◌<◌, [], length};
ghost use Rattle.least_board.specs.Views.{passes_of};
ghost use Rattle.least_board.specs.Board.{table_of, view_of, IsFresh};

use crate::bid::Bid;
use crate::pass::LeastPass;
use atomic_table::Seat;
use passes::Seated;

impl Seated<Bid> for LeastPass {
    ghost table = { table_of };

    ghost view = { view_of };

    ghost fresh = { IsFresh };

    fn of(seat: Seat<(), Bid>) -> LeastPass
        requires { (seat.me.1 ≡ []) × IsFresh seat.me.0 }
        ensures { (table_of result ≡ seat.table_id) × (view_of result ≡ seat.me.0) }
    {
        LeastPass { seat }
    }

    fn into_seat(self) -> Seat<(), Bid>
        ensures seat { (result.table_id ≡ table_of self) × (result.me ≡ (view_of self, [])) }
        ensures numbers { 0 < length (passes_of (view_of self)).numbers }
    {
        let LeastPass { seat } = self;
        seat
    }
}
