// What is queued of a book's calls for a journal's file.
ghost use Rattle.std.specs.Prelude.{◌≡◌, ◌+◌, ◌-◌, ◌<◌, ◌++◌, ◌∷◌, [], take, length, OnOk, OnErr};
ghost use Rattle.cql_core.specs.Steps.{stepped_of};
ghost use Rattle.cql_hall.specs.Change.{is_change};

use crate::filings::Filings;
use cql_core::{Reply, Step, TenantId};
use std::alloc::{AllocError, Global};

/// The calls that changed a core and weren't taken yet to be written, in order, and how many there were
/// in all; or calls aren't queued.
pub struct Feed {
    pub(crate) is_on: bool,
    pub(crate) calls: Filings,
    pub(crate) count: u64,
}

impl Drop for Feed {
    fn drop(self) {
        let Feed {
            is_on: _,
            calls: _,
            count: _,
        } = self;
    }
}

impl Feed {
    /// Nothing is queued yet, or calls aren't queued. Takes no memory.
    pub(crate) fn new(alloc: Global, is_on: bool) -> Feed
        ensures { (result.is_on ≡ is_on) × (result.calls ≡ []) × (result.count ≡ 0) }
    {
        Feed {
            is_on,
            calls: Filings::new(alloc),
            count: 0,
        }
    }

    /// Queues a call behind the others. An `Err` changes nothing.
    pub(crate) fn note(&mut self, tenant: TenantId, line: &[u8]) -> Result<(), AllocError>
        ensures is_on { self.new.is_on ≡ self.old.is_on }
        ensures ok { OnOk result ((self.new.calls ≡ self.old.calls ++ record { tenant = tenant; line = line.now } ∷ []) × (self.new.count ≡ self.old.count + 1)) }
        ensures err { OnErr result ((self.new.calls ≡ self.old.calls) × (self.new.count ≡ self.old.count)) }
    {
        if self.count == u64::MAX {
            return Err(AllocError);
        }
        self.calls.push(tenant, line)?;
        self.count += 1;
        Ok(())
    }

    /// Takes back the call that was queued last.
    pub(crate) fn take_back(&mut self)
        requires { 0 < self.old.count }
        ensures { (self.new.is_on ≡ self.old.is_on) × (self.new.calls ≡ take (length self.old.calls - 1) self.old.calls) × (self.new.count ≡ self.old.count - 1) }
    {
        self.calls.pop();
        self.count -= 1;
    }

    /// Takes all that is queued, and queues what it is given in its place.
    pub(crate) fn swap(&mut self, calls: &mut Filings)
        ensures taken { calls.new ≡ self.old.calls }
        ensures given { (self.new.is_on ≡ self.old.is_on) × (self.new.calls ≡ calls.old) × (self.new.count ≡ self.old.count) }
    {
        std::mem::swap(&mut self.calls, calls);
    }
}

/// Whether a step tells that the core may have changed.
pub(crate) fn is_change(step: &Step) -> bool
    ensures { result ≡ is_change (stepped_of step.now) }
{
    matches!(step, Step::Done(Reply::Ok | Reply::Base(_)))
}
