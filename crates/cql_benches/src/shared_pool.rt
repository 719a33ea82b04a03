// Benches that go on, which all threads borrow.

use crate::answers::Answers;
use cql_core::{BenchOf, Lender, Operator, Pin, Pool, Pooled, Warm};
use cql_ops::Cancellation;
use crossbeam_channel::{Receiver, RecvTimeoutError};
use std::alloc::{AllocError, Global};
use std::sync::{Mutex, Wait};
use std::time::{Clock, Duration, Instant};

// For so many seconds a bench stands unused before what it stands for is let go of.
const UNUSED: u64 = 40;

// How often answers are looked at that are to be given up: so many times a second.
const LOOKS: u64 = 10;

/// How many bytes benches may keep together that nobody has borrowed, and how many an answer may weigh,
/// with what its bench keeps for it.
#[derive(Clone, Copy)]
pub struct Rooms {
    pub warm: u64,
    pub answer: u64,
}

/// A pool that threads share.
pub struct SharedPool<O: Operator> {
    alloc: Global,
    pool: Mutex<Pool<O>>,
    count: usize,
    begun: Instant,
    answers: Answers,
    // how many bytes an answer may weigh
    room: u64,
}

impl<O: Operator> Drop for SharedPool<O> {
    fn drop(self) {
        let SharedPool {
            alloc: _,
            pool: _,
            count: _,
            begun: _,
            answers: _,
            room: _,
        } = self;
    }
}

impl<O: Operator> SharedPool<O> {
    /// Of these benches, none of which stands for a query, for threads whose answers are these. What they
    /// keep, and what an answer weighs, stays within these rooms.
    pub fn new<R: Clock>(
        rt: &R,
        alloc: Global,
        benches: Vec<BenchOf<O>>,
        answers: Answers,
        rooms: Rooms,
    ) -> Result<SharedPool<O>, AllocError> {
        let count = benches.len();
        let benches = with_flags(alloc, benches, rooms.answer)?;
        let pool = Pool::new(alloc, benches, rooms.warm)?;
        let Ok(begun) = Instant::now(rt) else {
            return Err(AllocError);
        };
        Ok(SharedPool {
            alloc,
            pool: Mutex::new(pool),
            count,
            begun,
            answers,
            room: rooms.answer,
        })
    }

    /// What the threads compute.
    pub fn answers(&self) -> &Answers {
        &self.answers
    }

    // The seconds since it was made; 0 where the clock can't be read.
    fn seconds<R: Clock>(&self, rt: &R) -> u64 {
        match self.begun.elapsed(rt) {
            Ok(gone) => gone.as_secs(),
            Err(_) => 0,
        }
    }

    // Takes out a bench that keeps something, and that nobody used since then or whose query is gone.
    fn take_unused<R: Wait>(&self, rt: &R, since: u64) -> Option<Warm<O>> {
        self.pool.lock(rt).take_unused(since)
    }

    // Takes out the bench that was used longest ago, where there is no room for so many bytes more.
    fn take_excess<R: Wait>(&self, rt: &R, weight: u64) -> Option<Warm<O>> {
        self.pool.lock(rt).take_excess(weight)
    }

    // Puts a bench back, or gives it back where there is no room for what it keeps, or no place for it.
    fn put<R: Wait + Clock>(&self, rt: &R, bench: Warm<O>) -> Option<Warm<O>> {
        let now = self.seconds(rt);
        self.pool.lock(rt).put(bench, now)
    }

    // Puts a bench back that keeps nothing any more, which is let go of outside the lock.
    fn put_cleared<R: Wait + Clock>(&self, rt: &R, bench: Warm<O>) {
        let mut bench = bench;
        bench.clear(self.alloc);
        let _ = self.put(rt, bench);
    }

    // Whether a bench may be put back once there is room.
    fn has_place_for<R: Wait>(&self, rt: &R, bench: &Warm<O>) -> bool {
        self.pool.lock(rt).has_place_for(bench)
    }

    // Of the benches that were used longest ago so many let go of what they keep that there is room for one
    // that may be put back.
    fn make_room<R: Wait + Clock>(&self, rt: &R, bench: &Warm<O>) {
        if !self.has_place_for(rt, bench) {
            return;
        }
        for _ in 0..self.count {
            let Some(other) = self.take_excess(rt, bench.weight()) else {
                break;
            };
            self.put_cleared(rt, other);
        }
    }

    // Puts a bench back. Others let go of what they keep, where there is no room for it; and it does so
    // itself where others took that room meanwhile, or another one stands for its query.
    fn put_back<R: Wait + Clock>(&self, rt: &R, bench: Warm<O>) {
        self.make_room(rt, &bench);
        if let Some(bench) = self.put(rt, bench) {
            self.put_cleared(rt, bench);
        }
    }

    // What benches keep that nobody used since then, or whose queries are gone, is let go of, outside the
    // lock. Whether there was anything.
    fn let_go<R: Wait + Clock>(&self, rt: &R, since: u64) -> bool {
        let mut some = false;
        for _ in 0..self.count {
            let Some(bench) = self.take_unused(rt, since) else {
                break;
            };
            self.put_cleared(rt, bench);
            some = true;
        }
        some
    }

    /// What benches stand for that nobody used of late, or whose queries are gone, is let go of.
    pub fn sweep<R: Wait + Clock>(&self, rt: &R) {
        let since = self.seconds(rt).saturating_sub(UNUSED);
        let _ = self.let_go(rt, since);
    }

    /// Waits for a second, and gives up answers meanwhile that are late or whose callers have gone. Whether the sender is still there.
    pub fn second<R: Wait + Clock>(&self, rt: &R, stopped: &Receiver<()>) -> bool {
        for _ in 0..LOOKS {
            match stopped.recv_timeout(rt, Duration::from_millis(1000 / LOOKS)) {
                Err(RecvTimeoutError::Timeout) => self.answers.give_up_late(rt),
                _ => return false,
            }
        }
        true
    }
}

// Each bench heeds a flag of its own from now on, and gives up an answer of more than so many bytes.
fn with_flags<O: Operator>(
    alloc: Global,
    benches: Vec<BenchOf<O>>,
    room: u64,
) -> Result<Vec<BenchOf<O>>, AllocError> {
    let mut all = Vec::with_capacity(alloc, benches.len())?;
    for bench in benches {
        let one = with_flag(alloc, bench, room)?;
        all.push(one)?;
    }
    Ok(all)
}

// The bench, which heeds a flag of its own, and gives up an answer of more than so many bytes.
fn with_flag<O: Operator>(
    alloc: Global,
    bench: BenchOf<O>,
    room: u64,
) -> Result<BenchOf<O>, AllocError> {
    let mut bench = bench;
    bench.bound(room);
    bench.heed(Cancellation::new(alloc)?)?;
    Ok(bench)
}

/// Borrows benches of a shared pool for a thread, and tells which of them, or whether the thread's
/// own bench, computes its answer.
#[derive(Drop)]
pub struct Borrower<'a, R, O: Operator> {
    rt: &'a R,
    shared: &'a SharedPool<O>,
    // the thread's index
    thread: usize,
    // the flag of the thread's own bench
    own: Cancellation,
}

impl<R: Wait + Clock, O: Operator> Borrower<'_, R, O> {
    // The bench of this flag begins an answer.
    fn begin(&self, flag: &Cancellation) {
        self.shared.answers.begin(self.rt, self.thread, flag);
    }
}

impl<'a, R: Wait + Clock, O: Operator> Lender<Warm<O>> for Borrower<'a, R, O> {
    fn lend(&mut self, _alloc: Global, pin: &Pin) -> Option<Warm<O>> {
        let bench = self.shared.pool.lock(self.rt).take(pin)?;
        self.begin(bench.cancellation());
        Some(bench)
    }

    fn lend_none(&mut self) {
        self.begin(&self.own);
    }

    // The slot is left before another thread may borrow the bench.
    fn take_back(&mut self, _alloc: Global, bench: Warm<O>) {
        self.shared.answers.end(self.rt, self.thread);
        self.shared.put_back(self.rt, bench);
    }

    fn let_go(&mut self, _alloc: Global) -> bool {
        self.shared.let_go(self.rt, u64::MAX)
    }
}

/// What answers in a thread: a bench of its own, and those of a shared pool.
pub type Borrowing<'a, R, O> = Pooled<O, Borrower<'a, R, O>>;

/// The one of the thread of this index, whose own bench this is.
pub fn borrowing<'a, R, O>(
    rt: &'a R,
    alloc: Global,
    own: BenchOf<O>,
    shared: &'a SharedPool<O>,
    thread: usize,
) -> Result<Borrowing<'a, R, O>, AllocError>
where
    R: Wait + Clock,
    O: Operator,
{
    let bench = with_flag(alloc, own, shared.room)?;
    let own = bench.cancellation().share()?;
    Ok(Pooled::new(
        bench,
        Borrower {
            rt,
            shared,
            thread,
            own,
        },
    ))
}
