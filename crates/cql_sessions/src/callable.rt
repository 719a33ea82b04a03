// What sessions need of a hall.
ghost use Rattle.std.specs.Prelude.{◌≡◌, ◌+◌, is_some, if◌then◌else◌};

use cql_core::{Prepared, Standing, TenantId};
use cql_hall::{Demanded, Durability, Filings, Gate, Hall, Journal, Pending, Seat};
use std::alloc::{AllocError, Global};
use std::sync::{Arc, Wait};

/// What takes the calls of seats, as a hall does, whatever that keeps of them. `H` is what a call may
/// wait by, and `G` is told how far it is.
pub trait Callable<H: Wait, G: Gate> {
    /// A seat that has counted nothing. Waits for nobody.
    fn seat(&self, tenant: TenantId) -> Seat
        ensures whose { result.tenant ≡ tenant }
        ensures none { result.count ≡ 0 };

    /// How far the records of calls that changed something are durable, where these are queued with their lines
    /// for a journal's file.
    fn durability(&self) -> &Durability;

    /// All that are queued are to be durable, also where nobody waits for that.
    fn want_all(&self, rt: &H);

    /// Takes the calls that are queued for a journal's file, in order, in the place of those that were taken
    /// before, once somebody waits for some that aren't durable or many are; or none is, and no more are taken.
    fn take_queued(&self, rt: &H, taken: &mut Filings) -> Demanded;

    /// Makes one step of the seat's tenant, which sent the line. What has a place in a journal is counted by
    /// the seat. Where calls are queued for a file and this one changed something, it is queued with the line.
    fn call(
        &self,
        rt: &H,
        gate: &G,
        seat: &mut Seat,
        prepared: Arc<Prepared>,
        line: &[u8],
    ) -> Pending
        ensures tenant { (result.tenant ≡ seat.old.tenant) × (seat.new.tenant ≡ seat.old.tenant) }
        ensures prepared { result.prepared ≡ prepared }
        ensures counted { seat.new.count ≡ seat.old.count + (if is_some result.place then 1 else 0) };

    /// How the tenant stands now.
    fn standing(&self, rt: &H, tenant: TenantId) -> Result<Standing, AllocError>;

    /// Lets go of a few rows that nothing needs any more, as each call does, though nobody calls. Tells
    /// whether some are left.
    fn settle(&self, rt: &H) -> bool;
}

impl<H: Wait, G: Gate, J: Journal> Callable<H, G> for Hall<J> {
    fn seat(&self, tenant: TenantId) -> Seat {
        Hall::seat(self, tenant)
    }

    fn durability(&self) -> &Durability {
        Hall::durability(self)
    }

    fn want_all(&self, rt: &H) {
        Hall::want_all(self, rt);
    }

    fn take_queued(&self, rt: &H, taken: &mut Filings) -> Demanded {
        Hall::take_queued(self, rt, taken)
    }

    fn call(
        &self,
        rt: &H,
        gate: &G,
        seat: &mut Seat,
        prepared: Arc<Prepared>,
        line: &[u8],
    ) -> Pending {
        Hall::call(self, rt, gate, seat, prepared, line)
    }

    fn standing(&self, rt: &H, tenant: TenantId) -> Result<Standing, AllocError> {
        Hall::standing(self, rt, tenant)
    }

    fn settle(&self, rt: &H) -> bool {
        Hall::settle(self, rt)
    }
}
