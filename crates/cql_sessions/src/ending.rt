// How sessions ended.
ghost use Rattle.std.specs.Prelude.{◌≡◌, None, IfSome, []};
ghost use Rattle.cql_hall.specs.Audit.{placed};
ghost use Rattle.cql_sessions.specs.Tallies.{counted_by};

use crate::sessions::SessionEnd;
use cql_hall::{Receipt, Seat};

/// The seat of a session whose calls were kept, if its caller has logged in, and its receipts. As
/// many of these have a place as the seat has counted.
#[derive(Drop)]
pub struct Ending {
    pub seat: Option<Seat>,
    pub receipts: Vec<Receipt>,
    ghost counted: { placed receipts.items ≡ counted_by seat },
}

impl Ending {
    /// What an audit needs of a session's end.
    pub(crate) fn of(end: SessionEnd) -> Ending
        requires counted { IfSome end.seat (λ s. placed end.receipts.items ≡ s.count) }
        requires nobody { end.seat ≡ None → end.receipts.items ≡ [] }
    {
        Ending {
            seat: end.seat,
            receipts: end.receipts,
        }
    }
}
