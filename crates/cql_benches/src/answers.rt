// The answers that threads compute, and how long one may take.

ghost use Rattle.std.specs.Prelude.{◌≡◌, true};

use cql_ops::Cancellation;
use std::alloc::{AllocError, Global};
use std::sync::{Mutex, Wait};
use std::time::{Clock, Duration, Instant};

// An answer that is computed: the flag by which it is given up, and since when.
struct UnderWay {
    flag: Cancellation,
    since: Instant,
}

impl Drop for UnderWay {
    fn drop(self) {
        let UnderWay { flag: _, since: _ } = self;
    }
}

impl UnderWay {
    // One that begins now. None where the clock can't be read, or the flag has too many holders.
    fn begun<R: Clock>(rt: &R, flag: &Cancellation) -> Option<UnderWay> {
        let since = Instant::now(rt).ok()?;
        let flag = flag.share().ok()?;
        Some(UnderWay { flag, since })
    }

    // Whether it has taken so long.
    fn is_late(&self, now: Option<Instant>, within: Option<Duration>) -> bool {
        match (now, within) {
            (Some(now), Some(within)) => now.saturating_duration_since(self.since) >= within,
            _ => false,
        }
    }
}

// What a thread is at: for which caller it computes, by his key, whether he has gone, and the answer.
struct Desk {
    caller: Option<usize>,
    is_left: bool,
    under_way: Option<UnderWay>,
}

impl Drop for Desk {
    fn drop(self) {
        let Desk {
            caller: _,
            is_left: _,
            under_way: _,
        } = self;
    }
}

impl Desk {
    // The caller has gone: what is computed for him is given up, and what is begun for him yet.
    fn give_up(&mut self)
        ensures left { self.new.is_left ≡ true }
        ensures caller { self.new.caller ≡ self.old.caller }
    {
        self.is_left = true;
        if let Some(under_way) = &self.under_way {
            under_way.flag.set();
        }
    }
}

/// What each thread computes at present, and for whom. An answer that takes longer than it may, or whose
/// caller has gone, is given up by the flag of its bench, which is set only while its thread's desk is
/// locked: so none is set once another answer has begun.
pub struct Answers {
    // how long an answer may take
    within: Option<Duration>,
    desks: Vec<Mutex<Desk>>,
}

impl Drop for Answers {
    fn drop(self) {
        let Answers {
            within: _,
            desks: _,
        } = self;
    }
}

impl Answers {
    /// So many threads compute nothing yet. An answer may take so long, or for ever at `None`.
    pub fn new(
        alloc: Global,
        within: Option<Duration>,
        threads: usize,
    ) -> Result<Answers, AllocError> {
        let mut desks = Vec::with_capacity(alloc, threads)?;
        for _ in 0..threads {
            desks.push(Mutex::new(Desk {
                caller: None,
                is_left: false,
                under_way: None,
            }))?;
        }
        Ok(Answers { within, desks })
    }

    /// The thread of this index computes for the caller of this key from now on.
    pub fn attend<R: Wait>(&self, rt: &R, thread: usize, caller: usize) {
        if let Some(desk) = self.desks.get(thread) {
            let mut desk = desk.lock(rt);
            desk.caller = Some(caller);
            desk.is_left = false;
        }
    }

    /// The thread of this index computes for nobody.
    pub fn leave<R: Wait>(&self, rt: &R, thread: usize) {
        if let Some(desk) = self.desks.get(thread) {
            let mut desk = desk.lock(rt);
            desk.caller = None;
            desk.is_left = false;
            desk.under_way = None;
        }
    }

    /// The caller of this key has gone: what is computed for him is given up.
    pub fn give_up<R: Wait>(&self, rt: &R, caller: usize) {
        for desk in self.desks.iter() {
            let mut desk = desk.lock(rt);
            if desk.caller == Some(caller) {
                desk.give_up();
            }
        }
    }

    /// The thread of this index begins an answer, which is given up by the flag. What it computed
    /// before is no longer given up.
    pub(crate) fn begin<R: Wait + Clock>(&self, rt: &R, thread: usize, flag: &Cancellation) {
        let Some(desk) = self.desks.get(thread) else {
            return;
        };
        let begun = UnderWay::begun(rt, flag);
        let mut desk = desk.lock(rt);
        desk.under_way = begun;
        if desk.is_left {
            desk.give_up();
        }
    }

    /// The answer of the thread of this index has ended.
    pub(crate) fn end<R: Wait>(&self, rt: &R, thread: usize) {
        if let Some(desk) = self.desks.get(thread) {
            desk.lock(rt).under_way = None;
        }
    }

    /// Gives up the answers that have taken longer than they may, and once more those whose callers have
    /// gone: an answer that was about to begin then may have missed it.
    pub(crate) fn give_up_late<R: Wait + Clock>(&self, rt: &R) {
        let now = Instant::now(rt).ok();
        for desk in self.desks.iter() {
            let desk = desk.lock(rt);
            if let Some(under_way) = &desk.under_way
                && (desk.is_left || under_way.is_late(now, self.within))
            {
                under_way.flag.set();
            }
        }
    }
}
