// A law of seats, for callers with proofs of their own. It costs nothing at run time.
ghost use Rattle.shop_workers.specs.{Seats.knows, Views.{HasAll, HasAsMany}};

use crate::boards::Seat;

/// If a seat has won as many pieces as the round has, it has won each of them, as `Board::close` requires.
#[tactic(auto, using(crate::proofs::ClosedBoards::as_many_is_all))]
pub fn has_all(seat: &Seat)
    requires { HasAsMany (knows seat.now) }
    ensures { HasAll (knows seat.now) }
{
    let _ = seat;
}
