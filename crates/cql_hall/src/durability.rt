// How far a journal's file is durable, and who waits for that.
ghost use Rattle.std.specs.Prelude.{◌≡◌};

use std::sync::atomic::{AtomicBool, AtomicU64, Ordering};
use std::sync::{Condvar, Mutex, Wait};

// Of so many records somebody waits that they are durable; whether many were queued since some were taken; and
// whether no more are.
#[derive(Clone, Copy)]
pub(crate) struct Demand {
    pub wanted: u64,
    pub is_many: bool,
    pub is_ended: bool,
}

/// How many of the records that calls were queued for are durable, for how many somebody waits, and whether so
/// much is queued that who waits is to send no more; or calls aren't queued.
pub struct Durability {
    demand: Mutex<Demand>,
    // tells who writes records that some are wanted or many are queued, or that no more will be
    called: Condvar,
    // so many records are durable; where calls aren't queued, any number
    durable: AtomicU64,
    // whether much is queued
    is_full: AtomicBool,
    // whether calls are queued
    is_filing: bool,
}

impl Drop for Durability {
    fn drop(self) {
        let Durability {
            demand: _,
            called: _,
            durable: _,
            is_full: _,
            is_filing: _,
        } = self;
    }
}

impl Durability {
    /// No record is queued yet, or calls aren't queued.
    pub(crate) fn new(is_filing: bool) -> Durability
        ensures { result.is_filing ≡ is_filing }
    {
        Durability {
            demand: Mutex::new(Demand {
                wanted: 0,
                is_many: false,
                is_ended: false,
            }),
            called: Condvar::new(),
            durable: AtomicU64::new(if is_filing { 0 } else { u64::MAX }),
            is_full: AtomicBool::new(false),
            is_filing,
        }
    }

    /// Whether calls that change the core are queued with their lines.
    pub fn is_filing(&self) -> bool
        ensures { result ≡ self.now.is_filing }
    {
        self.is_filing
    }

    /// How many of the records that were queued are durable; where calls aren't queued, the greatest number.
    pub fn durable(&self) -> u64 {
        self.durable.load(Ordering::SeqCst)
    }

    /// So many records are durable from now on.
    pub fn make_durable(&self, count: u64) {
        self.durable.store(count, Ordering::SeqCst);
    }

    /// Whether lines of more than 8 MiB are queued: who waits for some to be durable is to send no further ones.
    pub fn is_full(&self) -> bool {
        self.is_full.load(Ordering::SeqCst)
    }

    /// From now on much is queued, or it isn't.
    pub(crate) fn set_full(&self, is_full: bool) {
        self.is_full.store(is_full, Ordering::SeqCst);
    }

    /// Many records are queued.
    pub(crate) fn call_many(&self, rt: &impl Wait) {
        self.demand.lock(rt).is_many = true;
        self.called.notify_one();
    }

    /// Somebody waits for so many records to be durable.
    pub fn want(&self, rt: &impl Wait, count: u64) {
        let mut demand = self.demand.lock(rt);
        let was_wanted = demand.wanted > self.durable();
        demand.wanted = demand.wanted.max(count);
        drop(demand);
        if !was_wanted {
            self.called.notify_one();
        }
    }

    // Waits until records are wanted that aren't durable, or many are queued, or the taking is ended.
    pub(crate) fn await_demand(&self, rt: &impl Wait) -> Demand {
        let mut demand = self.demand.lock(rt);
        for _ in rt.forever() {
            if demand.is_ended || demand.is_many || demand.wanted > self.durable() {
                break;
            }
            demand = self.called.wait(rt, demand);
        }
        demand.is_many = false;
        *demand
    }

    /// Ends the taking of records, once none is queued.
    pub fn end_taking(&self, rt: &impl Wait) {
        self.demand.lock(rt).is_ended = true;
        self.called.notify_all();
    }
}
