// Whose turn it is at the workers.
ghost use Rattle.std.specs.Prelude.{◌≡◌, ◌⊎◌, ◌+◌, ◌-◌, ◌<◌, ◌≤◌, ◌++◌, ◌==◌, ◌&&◌, ◌||◌, ◌^◌, if◌then◌else◌, Bool, true, false, not, [], ◌∷◌, replicate, None, length, map, min, nat_lt, take, drop, slice_index_or, slice_set, is_some, IfErr, IfNone, IfOk, IfSome, OnOk};
ghost use Rattle.std.specs.List.{filter, position};
ghost use Rattle.std.specs.VecDeque.{deque_len, deque_capacity};
ghost use Rattle.cql_connections.specs.Queues.{IsBegun, IsPushed, IsRemoved, IsTaken, busy_with, is_alone, line_of, may_begin, size_of};

use std::alloc::{AllocError, Global};
use std::collections::VecDeque;
use std::marker::Model;

// So many short turns are taken in a row while an answer waits that could be computed.
const IN_A_ROW: u32 = 16;

// An owner whose answers took fewer nanoseconds has a thread that others leave to it.
const LITTLE: u64 = 50_000_000;

// So many nanoseconds no longer count each time that some are forgiven.
const FORGIVEN: u64 = 25_000_000;

// No more nanoseconds count.
const MOST_SPENT: u64 = 60_000_000_000;

// What waits, in a line for each owner. Owners take turns.
#[derive(Drop)]
struct OwnerQueues<T> {
    lines: Vec<VecDeque<T>>,
    // the owners of whom something waits, the next one first
    order: VecDeque<usize>,
    count: usize,
}

impl<T> Model for OwnerQueues<T> {
    ghost use Rattle.std.specs.Prelude.{◌≡◌, map};
    ghost use Rattle.std.specs.Global.{Global};
    ghost use Rattle.std.specs.declared.collections.VecDeque.{VecDeque};
    ghost use Rattle.cql_connections.specs.Turns.{Queues, IsOrder, size_of};

    ghost Value = { Queues T };

    ghost view = { λ q. record { lines = map (λ (line : VecDeque T Global). line.items) q.lines.items; order = q.order.items } };

    ghost invariant = { λ q. IsOrder (map (λ (line : VecDeque T Global). line.items) q.lines.items) q.order.items × (q.count ≡ size_of (map (λ (line : VecDeque T Global). line.items) q.lines.items)) };
}

// A new one's owner has the last turn, if nothing of him waits.
fn join(order: &mut VecDeque<usize>, owner: usize, is_first: bool)
    requires { deque_len order.old < deque_capacity order.old }
    ensures items { order.new.items ≡ order.old.items ++ (if is_first then owner ∷ [] else []) }
{
    if is_first {
        order.push_back_reserved(owner);
    }
}

// Whose turn it was goes behind all others, or leaves the order where it was his last.
fn pass(order: &mut VecDeque<usize>, is_last: bool)
    requires { 0 < length order.old.items }
    ensures items { order.new.items ≡ drop 1 order.old.items ++ (if is_last then [] else take 1 order.old.items) }
{
    if is_last {
        order.pop_front();
    } else {
        order.rotate_left(1);
    }
}

// An owner of whom nothing waits any more leaves the order.
fn leave(order: &mut VecDeque<usize>, owner: usize, is_last: bool)
    ensures items { order.new.items ≡ (if is_last then filter (λ one. not (one == owner)) order.old.items else order.old.items) }
{
    if is_last {
        order.retain(|one| *one != owner);
    }
}

// The first in a line of which this holds.
fn find<T, F: Fn(&T) -> bool>(line: &VecDeque<T>, is_it: &F) -> Option<usize>
    requires { F.IsAlwaysCallable is_it.now }
    ensures found { IfSome result (λ at. at < length line.now.items) }
{
    for at in 0..line.len() {
        if is_it(&line[at]) {
            return Some(at);
        }
    }
    None
}

impl<T: Drop> OwnerQueues<T> {
    fn new(alloc: Global, owners: usize) -> Result<OwnerQueues<T>, AllocError>
        ensures { IfOk result (λ q. (q.lines ≡ replicate owners []) × (q.order ≡ [])) }
    {
        let order = VecDeque::with_capacity(alloc, owners)?;
        let mut lines = Vec::with_capacity(alloc, owners)?;
        for _ in 0..owners {
            lines.push(VecDeque::new(alloc))?;
        }
        Ok(OwnerQueues {
            lines,
            order,
            count: 0,
        })
    }

    // Whether something of another owner waits.
    #[tactic(auto, using(crate::proofs::Alone::many_wait, crate::proofs::Alone::one_waits, crate::proofs::Alone::none_wait))]
    fn has_other(&self, owner: usize) -> bool
        ensures { result ≡ not (is_alone owner self.now.order) }
    {
        if self.order.len() > 1 {
            return true;
        }
        match self.order.front() {
            Some(first) => *first != owner,
            None => false,
        }
    }

    // Whether something of the owner waits.
    fn has(&self, owner: usize) -> bool
        ensures { result ≡ nat_lt 0 (length (line_of self.now.lines owner)) }
    {
        self.lines.get(owner).is_some_and(|line| !line.is_empty())
    }

    // Puts it last in its owner's line. Without memory it comes back.
    fn push(&mut self, owner: usize, item: T) -> Result<(), T>
        ensures pushed { OnOk result (IsPushed self.old owner item self.new) }
        ensures back { IfErr result (λ returned. (returned ≡ item) × (self.new ≡ self.old)) }
    {
        let Some(line) = self.lines.get_mut(owner) else {
            return Err(item);
        };
        if self.count == usize::MAX || self.order.reserve(1).is_err() {
            return Err(item);
        }
        let is_first = line.is_empty();
        if let Err(failed) = line.push_back(item) {
            return Err(failed.value);
        }
        join(&mut self.order, owner, is_first);
        self.count += 1;
        Ok(())
    }

    // The first of the owner whose turn it is, whose turn comes again after all others'.
    fn pop(&mut self) -> Option<T>
        ensures none { IfNone result ((self.old.order ≡ []) × (self.new ≡ self.old)) }
        ensures taken { IfSome result (λ item. IsTaken self.old item self.new) }
    {
        let owner = *self.order.front()?;
        let line = self.lines.get_mut(owner)?;
        let item = line.pop_front()?;
        let is_last = line.is_empty();
        pass(&mut self.order, is_last);
        self.count -= 1;
        Some(item)
    }

    // Passes over so many owners whose turns are next.
    fn pass_over(&mut self, owners: usize)
        requires { owners ≤ length self.old.order }
        ensures lines { self.new.lines ≡ self.old.lines }
        ensures order { self.new.order ≡ drop owners self.old.order ++ take owners self.old.order }
    {
        self.order.rotate_left(owners);
    }

    // Takes out the first of an owner of which this holds.
    fn remove<F: Fn(&T) -> bool>(&mut self, owner: usize, is_it: F) -> Option<T>
        requires { F.IsAlwaysCallable is_it }
        ensures none { IfNone result (self.new ≡ self.old) }
        ensures removed { IfSome result (λ item. IsRemoved self.old owner item self.new) }
    {
        let line = self.lines.get_mut(owner)?;
        let at = find(line, &is_it)?;
        let item = line.remove(at)?;
        let is_last = line.is_empty();
        leave(&mut self.order, owner, is_last);
        self.count -= 1;
        Some(item)
    }
}

/// What a worker is to do.
#[derive(Drop)]
pub struct Task<T> {
    pub item: T,
    /// Whether it is an answer, whose end the turns have to be told.
    pub is_answer: bool,
}

/// What waits for a worker: short turns, and answers. Owners take turns in either. Short turns go
/// first, but for one answer after every sixteen of them. All threads that compute share answers but
/// one, and of these threads one owner has half, rounded up, while an answer of another one waits. The last one
/// begins an answer of an owner of whom none is computed, and whose answers took little lately. Of an owner
/// who is held up no answer is begun.
#[derive(Drop)]
pub struct RunQueue<T> {
    short: OwnerQueues<T>,
    answers: OwnerQueues<T>,
    // how many threads compute answers, how many of these all owners share, and how many compute now, in all
    // and for each owner
    most: usize,
    shared: usize,
    busy: usize,
    busy_of: Vec<usize>,
    // the nanoseconds that answers of each owner took, but for those that no longer count
    spent: Vec<u64>,
    // which owners are held up
    held_up: Vec<bool>,
    // how many short turns were taken since the last answer
    in_a_row: u32,
}

impl<T: Drop> RunQueue<T> {
    /// Nothing waits. Owners are numbers below the given one. So many threads compute answers.
    pub fn new(alloc: Global, owners: usize, threads: usize) -> Result<RunQueue<T>, AllocError>
        ensures short { IfOk result (λ q. (q.short.lines ≡ replicate owners []) × (q.short.order ≡ [])) }
        ensures answers { IfOk result (λ q. (q.answers.lines ≡ replicate owners []) × (q.answers.order ≡ [])) }
        ensures threads { IfOk result (λ q. (q.most ≡ threads) × (q.shared ≡ (if nat_lt 1 threads then threads - 1 else threads))) }
        ensures busy { IfOk result (λ q. q.busy ≡ 0) }
        ensures spent { IfOk result (λ q. q.spent.items ≡ replicate owners 0) }
    {
        let short = OwnerQueues::new(alloc, owners)?;
        let answers = OwnerQueues::new(alloc, owners)?;
        let busy_of = vec![in alloc; 0; owners]?;
        let spent = vec![in alloc; 0; owners]?;
        let held_up = vec![in alloc; false; owners]?;
        let shared = if threads > 1 { threads - 1 } else { threads };
        Ok(RunQueue {
            short,
            answers,
            most: threads,
            shared,
            busy: 0,
            busy_of,
            spent,
            held_up,
            in_a_row: 0,
        })
    }

    /// How much waits that a thread could do now: answers count where one of them may be begun.
    pub fn waiting(&self) -> usize
        ensures { result ≡ min (size_of self.now.short.lines + (if is_some (position (λ owner. may_begin self.now owner) self.now.answers.order) then size_of self.now.answers.lines else 0)) (2 ^ 64 - 1) }
    {
        let answers = if self.next_answer().is_some() {
            self.answers.count
        } else {
            0
        };
        self.short.count.saturating_add(answers)
    }

    /// Whether an answer waits that may be begun now.
    pub(crate) fn has_answer(&self) -> bool
        ensures { result ≡ is_some (position (λ owner. may_begin self.now owner) self.now.answers.order) }
    {
        self.next_answer().is_some()
    }

    /// Whether an answer of the owner has to wait for others.
    pub(crate) fn has_to_wait(&self, owner: usize) -> bool
        ensures { result ≡ (nat_lt 0 (size_of self.now.answers.lines) || not (may_begin self.now owner)) }
    {
        self.answers.count > 0 || !self.may_begin(owner)
    }

    /// Whether a short turn waits.
    pub(crate) fn has_short(&self) -> bool
        ensures { result ≡ nat_lt 0 (size_of self.now.short.lines) }
    {
        self.short.count > 0
    }

    /// A short turn waits. Without memory it comes back.
    pub fn push_short(&mut self, owner: usize, item: T) -> Result<(), T>
        ensures pushed { OnOk result (IsPushed self.old.short owner item self.new.short) }
        ensures back { IfErr result (λ returned. (returned ≡ item) × (self.new.short ≡ self.old.short)) }
        ensures same { (self.new.answers ≡ self.old.answers) × (self.new.busy ≡ self.old.busy) × (self.new.busy_of ≡ self.old.busy_of) }
    {
        self.short.push(owner, item)
    }

    /// An answer waits. Without memory it comes back.
    pub fn push_answer(&mut self, owner: usize, item: T) -> Result<(), T>
        ensures pushed { OnOk result (IsPushed self.old.answers owner item self.new.answers) }
        ensures back { IfErr result (λ returned. (returned ≡ item) × (self.new.answers ≡ self.old.answers)) }
        ensures same { (self.new.short ≡ self.old.short) × (self.new.busy ≡ self.old.busy) × (self.new.busy_of ≡ self.old.busy_of) }
    {
        self.answers.push(owner, item)
    }

    /// Takes out the first of an owner that waits and of which this holds, if there is one.
    pub(crate) fn remove<F: Fn(&T) -> bool>(&mut self, owner: usize, is_it: F) -> Option<T>
        requires { F.IsAlwaysCallable is_it }
        ensures removed { IfSome result (λ item. (IsRemoved self.old.short owner item self.new.short × (self.new.answers ≡ self.old.answers)) ⊎ (IsRemoved self.old.answers owner item self.new.answers × (self.new.short ≡ self.old.short))) }
        ensures busy { (self.new.busy ≡ self.old.busy) × (self.new.busy_of ≡ self.old.busy_of) }
    {
        if let Some(item) = self.short.remove(owner, &is_it) {
            return Some(item);
        }
        self.answers.remove(owner, &is_it)
    }

    /// From now on no answer of the owner is begun, or they are. Whether one waits that may be now.
    pub fn hold_up(&mut self, owner: usize, is_held_up: bool) -> bool
        ensures held_up { self.new.held_up.items ≡ slice_set self.old.held_up.items owner is_held_up }
        ensures freed { result ≡ (slice_index_or self.old.held_up.items owner false && (not is_held_up && nat_lt 0 (length (line_of self.old.answers.lines owner)))) }
        ensures same { (self.new.short ≡ self.old.short) × (self.new.answers ≡ self.old.answers) × (self.new.busy ≡ self.old.busy) × (self.new.busy_of ≡ self.old.busy_of) }
    {
        let Some(held_up) = self.held_up.get_mut(owner) else {
            return false;
        };
        let was_held_up = std::mem::replace(held_up, is_held_up);
        was_held_up && !is_held_up && self.answers.has(owner)
    }

    /// Whether an answer of the owner waits since it is held up.
    pub(crate) fn waits_held_up(&self, owner: usize) -> bool
        ensures { result ≡ (slice_index_or self.now.held_up.items owner false && nat_lt 0 (length (line_of self.now.answers.lines owner))) }
    {
        self.held_up.get(owner).copied().unwrap_or(false) && self.answers.has(owner)
    }

    /// Begins an answer that hasn't waited, where none waits and one more may be computed.
    pub fn begin_answer(&mut self, owner: usize) -> bool
        ensures begins { result ≡ not (nat_lt 0 (size_of self.old.answers.lines) || not (may_begin self.old owner)) }
        ensures begun { result ≡ true → (may_begin self.old owner ≡ true) × (self.new.busy ≡ self.old.busy + 1) }
        ensures none { result ≡ false → self.new ≡ self.old }
        ensures same { (self.new.short ≡ self.old.short) × (self.new.answers ≡ self.old.answers) }
    {
        if self.has_to_wait(owner) {
            return false;
        }
        self.begin(owner);
        true
    }

    // Whether one more answer of the owner may be computed.
    #[tactic(auto, using(crate::proofs::Begins::begins), unfolding(crate::specs::Queues::may_begin))]
    fn may_begin(&self, owner: usize) -> bool
        ensures { result ≡ may_begin self.now owner }
    {
        let spent = self.spent.get(owner).copied().unwrap_or(0);
        let is_held_up = self.held_up.get(owner).copied().unwrap_or(false);
        if owner >= self.busy_of.len() || is_held_up {
            return false;
        }
        let busy = self.busy_of[owner];
        let most = if busy == 0 && spent < LITTLE {
            self.most
        } else {
            self.shared
        };
        let share = self.shared - self.shared / 2;
        self.busy < most && busy < self.shared && (busy < share || !self.answers.has_other(owner))
    }

    // One more answer of the owner is computed from now on.
    #[tactic(auto, using(crate::proofs::Begins::is_free, crate::proofs::Begins::is_known, crate::proofs::Begins::is_few))]
    fn begin(&mut self, owner: usize)
        requires { may_begin self.old owner ≡ true }
        ensures begun { (self.new.busy ≡ self.old.busy + 1) × (self.new.busy_of.items ≡ slice_set self.old.busy_of.items owner (busy_with self.old owner + 1)) }
        ensures same { (self.new.short ≡ self.old.short) × (self.new.answers ≡ self.old.answers) }
    {
        let busy = self.busy_of[owner];
        self.busy_of[owner] = busy + 1;
        self.busy += 1;
        self.in_a_row = 0;
    }

    /// An answer of the owner has ended, and took so many nanoseconds.
    pub fn end_answer(&mut self, owner: usize, nanos: u64)
        ensures ended { 0 < self.old.busy → 0 < busy_with self.old owner → (self.new.busy + 1 ≡ self.old.busy) × (self.new.busy_of.items ≡ slice_set self.old.busy_of.items owner (busy_with self.old owner - 1)) }
        ensures spent { self.new.spent.items ≡ slice_set self.old.spent.items owner (min (slice_index_or self.old.spent.items owner 0 + nanos) MOST_SPENT) }
        ensures same { (self.new.short ≡ self.old.short) × (self.new.answers ≡ self.old.answers) }
    {
        if let Some(spent) = self.spent.get_mut(owner) {
            *spent = spent.saturating_add(nanos).min(MOST_SPENT);
        }
        if owner < self.busy_of.len() && self.busy_of[owner] > 0 && self.busy > 0 {
            self.busy_of[owner] -= 1;
            self.busy -= 1;
        }
    }

    /// Some of what answers took no longer counts: it is done ten times a second, so that a quarter of a
    /// thread's time never counts.
    pub(crate) fn forgive(&mut self)
        ensures spent { self.new.spent.items ≡ map (λ nanos. nanos - FORGIVEN) self.old.spent.items }
        ensures same { (self.new.short ≡ self.old.short) × (self.new.answers ≡ self.old.answers) × (self.new.busy ≡ self.old.busy) × (self.new.busy_of ≡ self.old.busy_of) }
    {
        for owner in 0..self.spent.len() {
            self.spent[owner] = self.spent[owner].saturating_sub(FORGIVEN);
        }
    }

    /// What is to be done next, if anything can be now, by a thread that computes answers or by one
    /// that doesn't.
    pub fn take(&mut self, computes: bool) -> Option<Task<T>>
        ensures none { IfNone result ((self.old.short.order ≡ []) × (computes ≡ true → position (λ owner. may_begin self.old owner) self.old.answers.order ≡ None)) }
        ensures short { IfSome result (λ task. task.is_answer ≡ false → IsTaken self.old.short task.item self.new.short × (self.new.answers ≡ self.old.answers) × (self.new.busy ≡ self.old.busy) × (self.new.busy_of ≡ self.old.busy_of)) }
        ensures answer { IfSome result (λ task. task.is_answer ≡ true → (computes ≡ true) × IsBegun self.old task.item self.new) }
        ensures first { IfSome result (λ task. task.is_answer ≡ true → (self.old.short.order ≡ []) ⊎ (IN_A_ROW ≤ self.old.in_a_row)) }
    {
        if !computes {
            return self.take_short();
        }
        if self.in_a_row >= IN_A_ROW {
            if let Some(task) = self.take_answer() {
                return Some(task);
            }
            self.in_a_row = 0;
            return self.take_short();
        }
        if let Some(task) = self.take_short() {
            self.in_a_row += 1;
            return Some(task);
        }
        let task = self.take_answer();
        self.in_a_row = 0;
        task
    }

    // The next short turn.
    fn take_short(&mut self) -> Option<Task<T>>
        ensures none { IfNone result ((self.old.short.order ≡ []) × (self.new ≡ self.old)) }
        ensures short { IfSome result (λ task. (task.is_answer ≡ false) × IsTaken self.old.short task.item self.new.short) }
        ensures same { (self.new.answers ≡ self.old.answers) × (self.new.busy ≡ self.old.busy) × (self.new.busy_of ≡ self.old.busy_of) × (self.new.most ≡ self.old.most) × (self.new.held_up ≡ self.old.held_up) × (self.new.in_a_row ≡ self.old.in_a_row) }
    {
        let item = self.short.pop()?;
        Some(Task {
            item,
            is_answer: false,
        })
    }

    // How many owners stand in the order before the first of whom an answer may be begun.
    fn next_answer(&self) -> Option<usize>
        ensures { result ≡ position (λ owner. may_begin self.now owner) self.now.answers.order }
    {
        self.answers
            .order
            .iter()
            .position(|owner| self.may_begin(*owner))
    }

    // The next answer that may be computed, and begins it.
    #[tactic(auto, using(crate::proofs::Begins::found_within, crate::proofs::Begins::found_may))]
    fn take_answer(&mut self) -> Option<Task<T>>
        ensures none { IfNone result ((position (λ owner. may_begin self.old owner) self.old.answers.order ≡ None) × (self.new ≡ self.old)) }
        ensures begun { IfSome result (λ task. (task.is_answer ≡ true) × IsBegun self.old task.item self.new) }
    {
        let at = self.next_answer()?;
        let answers = &self.answers;
        let owner = answers.order[at];
        self.begin(owner);
        self.answers.pass_over(at);
        let item = self.answers.pop()?;
        Some(Task {
            item,
            is_answer: true,
        })
    }
}
