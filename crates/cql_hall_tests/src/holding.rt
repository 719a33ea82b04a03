//! A gate that holds one call while others are served.
use cql_core::{Answer, Evaluator, Pin};
use cql_hall::{Gate, Point};
use std::alloc::{AllocError, Global};
use std::sync::atomic::{AtomicU64, Ordering};
use std::thread;
use std::time::{Clock, Duration};

const TURNS: u32 = 100_000;

/// Holds the first call at `Pinned` until so many later ones are answered.
#[derive(Drop)]
pub struct Holding<C> {
    clock: C,
    others: u64,
    pinned: AtomicU64,
    answered: AtomicU64,
    expired: AtomicU64,
    seen_pinned: AtomicU64,
    seen_answered: AtomicU64,
}

impl<C: Clock> Holding<C> {
    /// Holds the first call until so many others are answered.
    pub fn new(clock: C, others: u64) -> Holding<C> {
        Holding {
            clock,
            others,
            pinned: AtomicU64::new(0),
            answered: AtomicU64::new(0),
            expired: AtomicU64::new(0),
            seen_pinned: AtomicU64::new(0),
            seen_answered: AtomicU64::new(0),
        }
    }

    /// Waits until a call is pinned.
    pub fn wait_for_pinned(&self) {
        self.wait_for(&self.pinned, 1);
    }

    /// Whether no turn was left.
    pub fn is_expired(&self) -> bool {
        self.expired.load(Ordering::SeqCst) != 0
    }

    /// How many calls were pinned and how many were answered, as it was told, when its looker was
    /// asked last.
    pub fn seen(&self) -> (u64, u64) {
        let pinned = self.seen_pinned.load(Ordering::SeqCst);
        (pinned, self.seen_answered.load(Ordering::SeqCst))
    }

    /// What notes that, in the place of a bench.
    pub fn looker(&self) -> Looker<'_, C> {
        Looker { gate: self }
    }

    fn look(&self) {
        let pinned = self.pinned.load(Ordering::SeqCst);
        self.seen_pinned.store(pinned, Ordering::SeqCst);
        let answered = self.answered.load(Ordering::SeqCst);
        self.seen_answered.store(answered, Ordering::SeqCst);
    }

    // Waits until the number is as great, or the turns of a millisecond are used up.
    fn wait_for(&self, number: &AtomicU64, least: u64) {
        for _ in 0..TURNS {
            if number.load(Ordering::SeqCst) >= least {
                return;
            }
            thread::sleep(&self.clock, Duration::from_millis(1));
        }
        self.expired.store(1, Ordering::SeqCst);
    }
}

impl<C: Clock + Sync> Gate for Holding<C> {
    fn at(&self, point: Point) {
        match point {
            Point::Pinned => {
                // Read first: once `pinned` is told, a later call may be answered at any moment.
                let before = self.answered.load(Ordering::SeqCst);
                if self.pinned.fetch_add(1, Ordering::SeqCst) == 0 {
                    self.wait_for(&self.answered, before.saturating_add(self.others));
                }
            }
            Point::Answered => {
                self.answered.fetch_add(1, Ordering::SeqCst);
            }
            _ => {}
        }
    }
}

/// Gives each pin up, and has the gate note what it was told before.
#[derive(Drop)]
pub struct Looker<'a, C> {
    gate: &'a Holding<C>,
}

impl<C: Clock> Evaluator for Looker<'_, C> {
    fn reply(&mut self, _alloc: Global, _pin: Pin) -> Result<Answer, AllocError> {
        self.gate.look();
        Err(AllocError)
    }
}
