// Gates: hooks that workers call before they search a piece, on a board or from a pool.
ghost use Rattle.std.specs.Prelude.{◌≡◌, true};
ghost use Rattle.shop_workers.specs.{Views.has, Seats.knows};

use crate::boards::Seat;

/// A hook that a worker of a `LockCrew` calls before it searches a piece.
pub trait Gate {
    /// Runs just before worker `worker` searches piece `piece`. Worker 0 is the calling thread.
    fn before(&self, worker: usize, piece: usize);
}

/// A hook that a worker calls before it searches a piece that it won on a board.
pub trait SeatGate {
    /// Runs just before worker `worker` searches `piece`, which its seat won. A crew numbers its workers from 0.
    fn won(&self, worker: usize, seat: &Seat, piece: usize)
        requires { has (knows seat.now).mine piece ≡ true };
}

/// A gate that does nothing: a worker that calls it goes on at once to search its piece.
#[derive(Clone, Copy, Debug, PartialEq, Eq)]
pub struct OpenGate;

impl Gate for OpenGate {
    fn before(&self, _worker: usize, _piece: usize) {}
}

impl SeatGate for OpenGate {
    fn won(&self, _worker: usize, _seat: &Seat, _piece: usize) {}
}
