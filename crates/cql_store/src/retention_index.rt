// What the stubs need of the store's rows, without a look at them.
ghost use Rattle.std.specs.Prelude.{◌≡◌, ◌≢◌, ◌↔◌, ◌≤◌, ◌<◌, ◌+◌, ℕ, [], IfSome, IfNone, IsTrue, OnOk, length, set, slice_index, min, drop};
ghost use Rattle.std.specs.List.{All, Contains};
ghost use Rattle.cql_bag.specs.Levels.{changed_where};
ghost use Rattle.cql_store.specs.Sequence.{greatest, AreLonger, AreKnown, AreMarkedIn, AreWithin, IsKnown, IsStore, Slots, all_shown, settled, live_count, slot_of};

use crate::stub::{Stub, mark};
use cql_bag::MinTree;
use cql_chunks::{Budget, Chunks, Waste};
use slab::Slab;
use std::alloc::{AllocError, Global};
use std::marker::Model;

// So many stubs that an append overruns are marked one by one.
const FEW: usize = 64;

// Or such a share of all stubs, where that is more. One by one they take less than a walk over all.
const SHARE: usize = 256;

/// By slot, the first row that its stub needs, and how many rows may have come before the stub has
/// one too many. Where no stub lives both are the greatest number.
#[derive(Drop)]
pub(crate) struct RetentionIndex {
    pub(crate) firsts: MinTree,
    pub(crate) limits: MinTree,
    /// From this slot on some stubs that are overrun may not be marked yet, and keep rows; where it is
    /// the greatest number all are marked.
    pub(crate) swept: usize,
}

impl RetentionIndex {
    /// No slots.
    pub(crate) fn new(alloc: Global) -> RetentionIndex
        ensures firsts { result.firsts ≡ [] }
        ensures limits { result.limits ≡ [] }
    {
        RetentionIndex {
            firsts: MinTree::new(alloc),
            limits: MinTree::new(alloc),
            swept: usize::MAX,
        }
    }

    /// Makes room for each slot up to this one.
    pub(crate) fn reach(&mut self, alloc: Global, slot: usize) -> Result<(), AllocError>
        ensures firsts { AreLonger self.old.firsts self.new.firsts }
        ensures limits { AreLonger self.old.limits self.new.limits }
        ensures has_first { OnOk result (slot < length self.new.firsts) }
        ensures has_limit { OnOk result (slot < length self.new.limits) }
    {
        reach_in(&mut self.firsts, alloc, slot)?;
        reach_in(&mut self.limits, alloc, slot)
    }

    /// Changes the numbers of a slot. This takes no memory.
    pub(crate) fn put(&mut self, slot: usize, first: u64, limit: u64)
        requires has_first { slot < length self.old.firsts }
        requires has_limit { slot < length self.old.limits }
        ensures firsts { self.new.firsts ≡ set self.old.firsts slot first }
        ensures limits { self.new.limits ≡ set self.old.limits slot limit }
    {
        self.firsts.set(slot, first);
        self.limits.set(slot, limit);
    }

    /// The first row that some stub needs, or the greatest number.
    pub(crate) fn first(&self) -> u64
        ensures low { All (λ n. result ≤ n) self.now.firsts }
        ensures met { result < greatest → Contains self.now.firsts result }
    {
        match self.firsts.least() {
            Some(first) => first,
            None => u64::MAX,
        }
    }

    /// A slot whose stub has one too many where so many rows have come.
    pub(crate) fn overdue(&self, count: u64) -> Option<usize>
        ensures some { IfSome result (λ slot. (slot < length self.now.limits) × (slice_index self.now.limits slot < count)) }
        ensures none { IfNone result (All (λ n. count ≤ n) self.now.limits) }
    {
        self.limits.below(count)
    }

    /// So many stubs are worth no walk over all.
    pub(crate) fn few(&self) -> usize {
        FEW.max(self.limits.len() / SHARE)
    }

    /// The numbers of each slot whose stub has one too many where so many rows have come become the
    /// greatest, in one walk over all slots. Those stubs aren't marked yet, and may still keep rows.
    /// This takes no memory.
    pub(crate) fn lift(&mut self, count: u64)
        ensures firsts { self.new.firsts ≡ changed_where self.old.limits count greatest self.old.firsts }
        ensures limits { self.new.limits ≡ changed_where self.old.limits count greatest self.old.limits }
        ensures none_swept { self.new.swept ≡ 0 }
    {
        self.firsts
            .set_where(self.limits.numbers(), count, u64::MAX);
        self.limits.set_below(count, u64::MAX);
        self.swept = 0;
    }

    /// Whether all stubs that are overrun are marked, and keep no rows.
    pub(crate) fn is_swept(&self) -> bool
        ensures { IsTrue result ↔ self.now.swept ≡ greatest }
    {
        self.swept == usize::MAX
    }
}

// Makes room for each slot up to this one, with the greatest number.
fn reach_in(numbers: &mut MinTree, alloc: Global, slot: usize) -> Result<(), AllocError>
    ensures same { AreLonger numbers.old numbers.new }
    ensures has { OnOk result (slot < length numbers.new) }
{
    while numbers.len() <= slot {
        numbers.push(alloc, u64::MAX)?;
    }
    Ok(())
}

// Marks the stub of a slot that has one too many with the row behind so many.
fn mark_one(
    stubs: &mut Slab<Stub>,
    retention: &mut RetentionIndex,
    waste: &mut Waste,
    slot: usize,
    came: u64,
)
    requires fits { came < greatest }
    requires known { AreKnown (settled came stubs.old.slots) retention.old.firsts retention.old.limits }
    requires slot { slot < length retention.old.limits }
    requires over { slice_index retention.old.limits slot < came + 1 }
    ensures settled { settled (came + 1) stubs.new.slots ≡ settled (came + 1) stubs.old.slots }
    ensures known { AreKnown (settled came stubs.new.slots) retention.new.firsts retention.new.limits }
    ensures within { AreWithin (settled came stubs.old.slots) → AreWithin (settled came stubs.new.slots) }
    ensures fewer { live_count (settled came stubs.new.slots) < live_count (settled came stubs.old.slots) }
{
    match stubs.get_mut(slot) {
        Some(stub) => mark(stub, waste, came + 1),
        None => unreachable!(),
    }
    retention.put(slot, u64::MAX, u64::MAX);
}

// Marks stubs that have more than they may hold with the row behind so many, one by one: all of
// them where they are few. It looks at no other stub, and tells whether none is left.
fn mark_few(
    stubs: &mut Slab<Stub>,
    retention: &mut RetentionIndex,
    waste: &mut Waste,
    came: u64,
) -> bool
    requires fits { came < greatest }
    requires known { AreKnown (settled came stubs.old.slots) retention.old.firsts retention.old.limits }
    requires within { AreWithin (settled came stubs.old.slots) }
    ensures settled { settled (came + 1) stubs.new.slots ≡ settled (came + 1) stubs.old.slots }
    ensures known { AreKnown (settled came stubs.new.slots) retention.new.firsts retention.new.limits }
    ensures within { AreWithin (settled came stubs.new.slots) }
    ensures none { IsTrue result → All (λ n. came + 1 ≤ n) retention.new.limits }
{
    for _ in 0..retention.few() {
        let Some(slot) = retention.overdue(came + 1) else {
            return true;
        };
        mark_one(stubs, retention, waste, slot, came);
    }
    retention.overdue(came + 1).is_none()
}

// The stub of a slot is marked, and lets its rows go, if it is overrun where so many have come.
fn mark_at(stubs: &mut Slab<Stub>, waste: &mut Waste, slot: usize, count: u64)
    ensures same { settled count stubs.new.slots ≡ settled count stubs.old.slots }
    ensures others { (id : ℕ) → id ≢ slot → slot_of stubs.new.slots id ≡ slot_of stubs.old.slots id }
    ensures marked { AreMarkedIn count stubs.new.slots slot (slot + 1) }
{
    if let Some(stub) = stubs.get_mut(slot) {
        mark(stub, waste, count);
    }
}

/// Marks stubs that are overrun and aren't marked yet, and lets go of what they keep, slot by slot
/// from where it stopped, as far as the budget has units: each slot takes one.
pub(crate) fn sweep(
    stubs: &mut Slab<Stub>,
    retention: &mut RetentionIndex,
    waste: &mut Waste,
    budget: &mut Budget,
    count: u64,
)
    ensures same { settled count stubs.new.slots ≡ settled count stubs.old.slots }
    ensures firsts { retention.new.firsts ≡ retention.old.firsts }
    ensures limits { retention.new.limits ≡ retention.old.limits }
    ensures marked { AreMarkedIn count stubs.new.slots retention.old.swept (min retention.new.swept (length retention.old.limits)) }
    ensures all { 0 < budget.new.units → retention.new.swept ≡ greatest }
{
    for slot in retention.swept..retention.limits.len() {
        if budget.units == 0 {
            return;
        }
        mark_at(stubs, waste, slot, count);
        budget.units -= 1;
        retention.swept = slot + 1;
    }
    retention.swept = usize::MAX;
}

/// With the row behind so many each stub that has more than it may hold is overrun. Where these are
/// few it marks them and looks at no other stub. Where they are many it looks at no stub at all: it
/// walks once over the numbers, and the stubs are marked by `sweep`.
pub(crate) fn overrun_all(
    stubs: &mut Slab<Stub>,
    retention: &mut RetentionIndex,
    waste: &mut Waste,
    came: u64,
)
    requires fits { came < greatest }
    requires known { AreKnown (settled came stubs.old.slots) retention.old.firsts retention.old.limits }
    requires within { AreWithin (settled came stubs.old.slots) }
    ensures settled { settled (came + 1) stubs.new.slots ≡ settled (came + 1) stubs.old.slots }
    ensures known { AreKnown (settled (came + 1) stubs.new.slots) retention.new.firsts retention.new.limits }
{
    if mark_few(stubs, retention, waste, came) {
        return;
    }
    retention.lift(came + 1);
}

// Lets go of so many rows at the front.
fn drop_front(rows: &mut Chunks, behind: usize)
    requires { behind ≤ length rows.old }
    ensures { rows.new ≡ drop behind rows.old }
{
    rows.drop_front(behind);
}

/// Lets go of the rows before the first that some stub needs. Tells how many are gone then.
pub(crate) fn trim(rows: &mut Chunks, gone: usize, retention: &RetentionIndex) -> usize
    requires { gone + length rows.old ≤ greatest }
    ensures count { result + length rows.new ≡ gone + length rows.old }
    ensures store { (slots : Slots) → IsKnown rows.old gone slots retention.now.firsts retention.now.limits → IsStore rows.new result slots retention.now.firsts retention.now.limits }
    ensures same { (slots : Slots) → IsKnown rows.old gone slots retention.now.firsts retention.now.limits → all_shown rows.new result slots ≡ all_shown rows.old gone slots }
{
    let first = retention.first() as usize;
    let behind = first.saturating_sub(gone).min(rows.len());
    drop_front(rows, behind);
    gone + behind
}
