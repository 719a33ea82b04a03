// Benches of which each goes on with the query that it answered last.
ghost use Rattle.std.specs.Prelude.{◌≡◌, None, IfOk};
ghost use Rattle.std.specs.Arc.{arc_value};

use crate::answered::Answer;
use crate::evaluate::answer_shared;
use crate::evaluator::Evaluator;
use crate::pin::Pin;
use crate::query_key::QueryKey;
use crate::warm::Warm;
use cql_ops::{BenchOf, Operator};
use lru::LruCache;
use std::alloc::{AllocError, Global};
use std::marker::Model;
use std::num::NonZeroUsize;
use std::sync::Arc;

/// Benches that stand for different queries, each of which is taken out for an answer: those that
/// nobody has taken out. One is taken out and put back in constant time, however many there are.
pub struct Pool<O: Operator> {
    // those that stand for no query
    spare: Vec<Warm<O>>,
    // those that stand for one, by its key, the one that was put back last before the others
    kept: LruCache<QueryKey, Warm<O>>,
    // how many bytes the benches may keep together, and how many more they may
    room: u64,
    left: u64,
}

impl<O: Operator> Drop for Pool<O> {
    fn drop(self) {
        let Pool {
            spare: _,
            kept: _,
            room: _,
            left: _,
        } = self;
    }
}

impl<O: Operator> Model for Pool<O> {
    ghost use Rattle.cql_plan.specs.contracts.expr.Expr as expr;
    ghost use Rattle.cql_plan.specs.contracts.condition.Condition as condition;
    ghost use Rattle.std.specs.Coded.{codes};
    ghost use Rattle.std.specs.Prelude.{List};
    ghost use Rattle.cql_eval.specs.Warm.{WarmModel};
    ghost use Rattle.cql_eval.specs.Pool.{all_of, AreWithin};

    ghost Value = { List WarmModel };

    ghost coded = { Prim.hlevel (codes, expr.the_row.coded, condition.the_row.coded) };

    ghost view = { λ p. all_of p.spare.items p.kept };

    ghost invariant = { λ p. AreWithin p.spare.items p.kept p.left p.room };
}

impl<O: Operator> Pool<O> {
    /// A pool of these benches, of which none stands for a query. Those that nobody has taken out keep
    /// no more than so many bytes together.
    pub fn new(alloc: Global, benches: Vec<BenchOf<O>>, room: u64) -> Result<Pool<O>, AllocError> {
        let Some(many) = NonZeroUsize::new(benches.len().max(1)) else {
            return Err(AllocError);
        };
        // room for all from the start: what stands above what answers take would keep that from going back
        let mut pool = Pool {
            spare: Vec::with_capacity(alloc, benches.len())?,
            kept: LruCache::new(alloc, many)?,
            room,
            left: room,
        };
        for bench in benches {
            let _ = pool.put(Warm::new(bench), 0);
        }
        Ok(pool)
    }

    /// Takes out the bench that stands for the pin's query, so that a query that is fetched again and
    /// again has no more than it needs; else one that stands for no query, or the one that was put back
    /// before all others, which then goes on with none. None where all are taken out, and where the pin
    /// needs none: what is kept for others stays.
    pub fn take(&mut self, pin: &Pin) -> Option<Warm<O>> {
        if !pin.needs_bench() {
            return None;
        }
        if let Some(bench) = self.take_of(pin.key()) {
            return Some(bench);
        }
        let mut bench = self.take_other()?;
        bench.forget();
        Some(bench)
    }

    // Takes out one that stands for no query, or the one that was put back before all others.
    fn take_other(&mut self) -> Option<Warm<O>> {
        match self.spare.pop() {
            Some(bench) => Some(bench),
            None => self.take_last(),
        }
    }

    // Takes out the bench that stands for the query of a key.
    fn take_of(&mut self, key: QueryKey) -> Option<Warm<O>> {
        let bench = self.kept.pop(&key)?;
        self.left = self.left.saturating_add(bench.weight());
        Some(bench)
    }

    // Takes out the bench that was put back before all others of those that stand for queries.
    fn take_last(&mut self) -> Option<Warm<O>> {
        let (_key, last) = self.kept.pop_lru()?;
        self.left = self.left.saturating_add(last.weight());
        Some(last)
    }

    // The key of a query that is gone.
    fn forsaken(&self) -> Option<QueryKey> {
        for (key, bench) in self.kept.iter() {
            if bench.is_forsaken() {
                return Some(*key);
            }
        }
        None
    }

    // The key of the query whose bench was put back before all others, where that was before the time, or
    // of one that is gone.
    fn unused(&self, since: u64) -> Option<QueryKey> {
        match self.kept.peek_lru() {
            Some((key, bench)) if bench.is_older(since) => Some(*key),
            _ => self.forsaken(),
        }
    }

    /// Takes out a bench that stands for a query and was put back before the time, in seconds, or whose
    /// query is gone: the one that was put back before all others, or else the first of those, for which
    /// all that stand for a query are looked at.
    pub fn take_unused(&mut self, since: u64) -> Option<Warm<O>> {
        let key = self.unused(since)?;
        self.take_of(key)
    }

    /// Takes out a bench that keeps something, the one that was put back before all others, where those
    /// that are there leave no room for so many bytes more. None where all of them left none.
    pub fn take_excess(&mut self, weight: u64) -> Option<Warm<O>> {
        if weight <= self.left || weight > self.room {
            return None;
        }
        self.take_last()
    }

    /// Whether a bench that keeps something may be put back once there is room: it stands for a query, and
    /// no other one for that.
    pub fn has_place_for(&self, bench: &Warm<O>) -> bool {
        match bench.key() {
            Some(key) => !self.kept.contains(&key),
            None => false,
        }
    }

    /// Puts back a bench that was taken out, at the time, in seconds; or gives it back where there is no
    /// room for what it keeps, or no place for it. For one that keeps nothing there is room.
    pub fn put(&mut self, bench: Warm<O>, now: u64) -> Option<Warm<O>>
        ensures { bench.weight ≡ 0 → result ≡ None }
    {
        if bench.weight() == 0 {
            // there was room for all of them from the start
            let _ = self.spare.push(bench);
            return None;
        }
        let Some(key) = bench.key() else {
            return Some(bench);
        };
        let Some(left) = self.left.checked_sub(bench.weight()) else {
            return Some(bench);
        };
        if self.kept.contains(&key) {
            return Some(bench);
        }
        let mut bench = bench;
        bench.used_at(now);
        match self.kept.put(key, bench) {
            Ok(_none) => {
                self.left = left;
                None
            }
            Err(refused) => Some(refused.value.1),
        }
    }

    // Benches that were put back before let go of what they keep, one after another, where a bench that may
    // be put back wants the room.
    fn make_room(&mut self, alloc: Global, bench: &Warm<O>) {
        if !self.has_place_for(bench) {
            return;
        }
        for _ in 0..self.kept.len() {
            let Some(mut other) = self.take_excess(bench.weight()) else {
                break;
            };
            other.clear(alloc);
            let _ = self.put(other, 0);
        }
    }
}

/// Who lends benches that go on, as `Warm`, each to one answer at a time.
pub trait Lender<B: Drop>: Drop {
    /// The bench that stands for the pin's query, or one that then stands for none. None where all are
    /// lent, or where none is needed.
    fn lend(&mut self, alloc: Global, pin: &Pin) -> Option<B>;

    /// An answer begins for which none is lent.
    fn lend_none(&mut self);

    /// Takes back a bench that was lent. It lets go of what others keep that were used before it, as far
    /// as that wants the room; and of what the bench keeps where there is no room for it, or another one
    /// stands for its query: then of nothing that others keep.
    fn take_back(&mut self, alloc: Global, bench: B);

    /// Lets go of what all benches keep that aren't lent. Whether there was anything.
    fn let_go(&mut self, alloc: Global) -> bool;
}

impl<O: Operator> Lender<Warm<O>> for Pool<O> {
    fn lend(&mut self, _alloc: Global, pin: &Pin) -> Option<Warm<O>> {
        self.take(pin)
    }

    fn lend_none(&mut self) {}

    fn take_back(&mut self, alloc: Global, bench: Warm<O>) {
        self.make_room(alloc, &bench);
        if let Some(mut heavy) = self.put(bench, 0) {
            heavy.clear(alloc);
            let _ = self.put(heavy, 0);
        }
    }

    fn let_go(&mut self, alloc: Global) -> bool {
        let mut some = false;
        for _ in 0..self.kept.len() {
            let Some(mut bench) = self.take_unused(u64::MAX) else {
                break;
            };
            bench.clear(alloc);
            let _ = self.put(bench, 0);
            some = true;
        }
        some
    }
}

// Why a pin has no answer.
#[derive(Clone, Copy)]
enum Unanswered {
    // Its answer was given up.
    GivenUp,
    // A request for memory was refused.
    NoMemory,
}

// The answer; else why there is none, where it is known whether it was given up.
fn told(answered: Result<Answer, AllocError>, is_given_up: bool) -> Result<Answer, Unanswered>
    ensures { IfOk result (λ a. answered ≡ Ok a) }
{
    match answered {
        Ok(answer) => Ok(answer),
        Err(AllocError) if is_given_up => Err(Unanswered::GivenUp),
        Err(AllocError) => Err(Unanswered::NoMemory),
    }
}

/// A bench for pins for which none is lent, and a lender of those that go on.
#[derive(Drop)]
pub struct Pooled<O: Operator, L> {
    cold: BenchOf<O>,
    lender: L,
}

impl<O: Operator, L: Lender<Warm<O>>> Pooled<O, L> {
    /// Of a bench and a lender, which may have none.
    pub fn new(cold: BenchOf<O>, lender: L) -> Pooled<O, L> {
        Pooled { cold, lender }
    }

    // The blocks of a pin by the bench that starts anew, or why there are none.
    fn reply_anew(&mut self, alloc: Global, pin: Arc<Pin>) -> Result<Answer, Unanswered>
        ensures { IfOk result (λ a. a.pin ≡ arc_value pin) }
    {
        self.lender.lend_none();
        let answered = answer_shared(alloc, &mut self.cold, pin);
        told(answered, self.cold.cancellation().is_set())
    }

    // The blocks of a pin by a bench that is lent, or why there are none. It stands apart since the room
    // of a bench is set to zero at each call.
    #[inline(never)]
    fn reply_lent(&mut self, alloc: Global, pin: Arc<Pin>) -> Result<Answer, Unanswered>
        ensures { IfOk result (λ a. a.pin ≡ arc_value pin) }
    {
        let Some(mut bench) = self.lender.lend(alloc, &pin) else {
            return self.reply_anew(alloc, pin);
        };
        let answered = bench.answer_shared(alloc, pin);
        let is_given_up = bench.cancellation().is_set();
        self.lender.take_back(alloc, bench);
        told(answered, is_given_up)
    }

    // The blocks of a pin, or why there are none.
    fn try_reply(&mut self, alloc: Global, pin: Arc<Pin>) -> Result<Answer, Unanswered>
        ensures { IfOk result (λ a. a.pin ≡ arc_value pin) }
    {
        if pin.needs_bench() {
            self.reply_lent(alloc, pin)
        } else {
            self.reply_anew(alloc, pin)
        }
    }
}

impl<O: Operator, L: Lender<Warm<O>>> Evaluator for Pooled<O, L> {
    /// Where a request for memory is refused, what other benches keep is let go, and the pin is answered
    /// once more.
    fn reply(&mut self, alloc: Global, pin: Pin) -> Result<Answer, AllocError> {
        let pin = Arc::new(alloc, pin)?;
        match self.try_reply(alloc, Arc::try_clone(&pin)?) {
            Ok(answer) => return Ok(answer),
            Err(Unanswered::GivenUp) => return Err(AllocError),
            Err(Unanswered::NoMemory) => {}
        }
        if !self.lender.let_go(alloc) {
            return Err(AllocError);
        }
        match self.try_reply(alloc, pin) {
            Ok(answer) => Ok(answer),
            Err(_) => Err(AllocError),
        }
    }
}
