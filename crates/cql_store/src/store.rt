// The store of a stream.
ghost use Rattle.std.specs.Prelude.{◌≡◌, ◌↔◌, ◌≤◌, ◌+◌, IsSomeAnd, IsTrue, false, [], length, map, IsSome, OnOk, OnErr, IfOk, IfSome, None, Some};
ghost use Rattle.cql_store.specs.Held.{Updates, stub_of, opened, fed_at, CanAppend, CanAdvance, IsReady, HasParts, pinned, advanced, IsRowsHeld};
ghost use Rattle.cql_store.specs.Sequence.{all_shown, greatest, settled, shown, shifted, slot_of, IsKnown};

use crate::moves::{go_to, kept_at, pin_of};
use crate::ready::Ready;
use crate::retention_index::{RetentionIndex, overrun_all, sweep, trim};
use crate::row_bytes::{RowBytes, bytes_of};
use crate::stub::{Stub, StubId, StubRows, is_overrun, limit_of};
use cql_chunks::{Budget, Chunks, Waste};
use cql_value::Timed;
use cql_window::{Window, WindowPin};
use slab::Slab;
use std::alloc::{AllocError, Global};
use std::marker::Model;

/// The rows of a stream that some stub on it still needs, and the stubs.
pub struct Store {
    alloc: Global,
    rows: Chunks,
    // So many rows came before them.
    gone: usize,
    stubs: Slab<Stub>,
    retention: RetentionIndex,
    // What stubs kept that are gone.
    waste: Waste,
    upkeep: Upkeep,
}

// What a store notes for itself, of which contracts see nothing.
#[derive(Drop)]
struct Upkeep {
    bytes: RowBytes,
    // So many rows were gone when it was asked last, and whether it waits since to let go of something.
    noted: usize,
    waits: bool,
}

impl Drop for Store {
    fn drop(self) {
        let Store {
            alloc: _,
            rows: _,
            gone: _,
            stubs: _,
            retention: _,
            waste: _,
            upkeep: _,
        } = self;
    }
}

impl Model for Store {
    ghost use Rattle.cql_store.specs.Held.{Stubs};
    ghost use Rattle.std.specs.Prelude.{◌+◌, length};
    ghost use Rattle.cql_store.specs.Sequence.{all_shown, settled, IsStore};

    ghost Value = { Stubs };

    ghost view = { λ s. all_shown s.rows s.gone (settled (s.gone + length s.rows) s.stubs.slots) };

    ghost invariant = { λ s. IsStore s.rows s.gone (settled (s.gone + length s.rows) s.stubs.slots) s.retention.firsts s.retention.limits };
}

impl Store {
    /// A store with no stub.
    pub fn new(alloc: Global) -> Store
        ensures { result ≡ [] }
    {
        Store {
            alloc,
            rows: Chunks::new(alloc),
            gone: 0,
            stubs: Slab::new(alloc),
            retention: RetentionIndex::new(alloc),
            waste: Waste::new(alloc),
            upkeep: Upkeep {
                bytes: RowBytes::new(alloc),
                noted: 0,
                waits: false,
            },
        }
    }

    /// A stub of the window at the cursor `base`, which may hold so many rows. It has none, whatever
    /// the store holds for others. The number of a detached stub is used again, so that a store is
    /// as large as the most stubs that stood at once want it.
    pub fn attach(&mut self, window: Window, base: u64, hold: u64) -> Result<StubId, AllocError>
        ensures was_free { IfOk result (λ id. stub_of self.old id ≡ None) }
        ensures ok { IfOk result (λ id. Updates self.old self.new id (Some (opened window base hold))) }
        ensures err { OnErr result (self.new ≡ self.old) }
    {
        self.stubs.reserve(1)?;
        let slot = self.stubs.vacant_key();
        self.retention.reach(self.alloc, slot)?;
        let seq = self.gone + self.rows.len();
        let stub = Stub {
            window,
            cursor: base,
            hold,
            first: seq,
            read_to: seq,
            counted: seq,
            overrun: false,
            kept: StubRows::new(),
        };
        self.retention.put(slot, seq as u64, limit_of(&stub));
        self.stubs.insert_reserved(stub);
        Ok(StubId { slot })
    }

    /// One more row for every stub that isn't overrun. A stub for which it is one too many is
    /// overrun from then on, and has no rows. It looks at the stubs that it overruns, and at no
    /// other, or where these are many at none, but once at their numbers. No store takes 2^64 rows:
    /// the last is refused as for want of memory.
    pub fn append(&mut self, row: Timed) -> Result<(), AllocError>
        requires { CanAppend self.old row }
        ensures ok { OnOk result (self.new ≡ map (fed_at row) self.old) }
        ensures err { OnErr result (self.new ≡ self.old) }
    {
        let count = self.gone + self.rows.len();
        if count == usize::MAX {
            return Err(AllocError);
        }
        self.upkeep.bytes.reserve()?;
        let bytes = bytes_of(&row);
        self.rows.push(self.alloc, row)?;
        self.upkeep.bytes.add(count, bytes);
        overrun_all(
            &mut self.stubs,
            &mut self.retention,
            &mut self.waste,
            count as u64,
        );
        self.gone = trim(&mut self.rows, self.gone, &self.retention);
        self.upkeep.bytes.let_go(self.gone);
        Ok(())
    }

    /// Whether the stub had to let its rows go.
    pub fn is_overrun(&self, id: StubId) -> bool
        requires { IsSome (stub_of self.now id) }
        ensures { IfSome (stub_of self.now id) (λ s. result ≡ s.overrun) }
    {
        match self.stubs.get(id.slot) {
            Some(stub) => is_overrun(stub, count_of(&self.rows, self.gone)),
            None => false,
        }
    }

    /// The stub's window and content, and its unseen rows before an instant. The rows are shared.
    pub fn pin(&self, id: StubId, until: u64) -> Result<WindowPin, AllocError>
        requires { IsSomeAnd (stub_of self.now id) (λ h. h.overrun ≡ false) }
        ensures { IfOk result (λ p. IfSome (stub_of self.now id) (λ h. p ≡ pinned until h)) }
    {
        match self.stubs.get(id.slot) {
            Some(stub) => pin_of(self.alloc, stub, &self.rows, self.gone, until),
            None => unreachable!(),
        }
    }

    /// All that takes memory for an advance of the stub to a later cursor: none unless its window
    /// is one of parts.
    pub fn ready(&self, id: StubId, to: u64) -> Result<Ready, AllocError>
        requires { IsSomeAnd (stub_of self.now id) (CanAdvance to) }
        ensures id { IfOk result (λ r. r.id ≡ id) }
        ensures to { IfOk result (λ r. r.to ≡ to) }
        ensures kept { IfOk result (λ r. IfSome (stub_of self.now id) (IsReady to r.kept)) }
        ensures err { OnErr result (IfSome (stub_of self.now id) (λ h. HasParts h.window)) }
    {
        match self.stubs.get(id.slot) {
            Some(stub) => {
                let kept = kept_at(self.alloc, stub, &self.rows, self.gone, to)?;
                Ok(Ready { id, to, kept })
            }
            None => unreachable!(),
        }
    }

    /// The stub goes to a later cursor, and the rows that no stub needs any more are let go. It
    /// looks at the rows that the stub passes, and at no other stub.
    pub fn advance(&mut self, ready: Ready)
        requires { IsSomeAnd (stub_of self.old ready.id) (IsReady ready.to ready.kept) }
        ensures { IfSome (stub_of self.old ready.id) (λ h. Updates self.old self.new ready.id (Some (advanced ready.to h))) }
    {
        move_one(
            &mut self.stubs,
            &mut self.retention,
            &self.rows,
            self.gone,
            ready,
        );
        self.gone = trim(&mut self.rows, self.gone, &self.retention);
        self.upkeep.bytes.let_go(self.gone);
    }

    /// Lets go of as much of what no stub needs any more as the budget has units for.
    pub fn settle(&mut self, budget: &mut Budget)
        ensures { self.new ≡ self.old }
    {
        self.rows.settle(&mut self.waste, budget);
        sweep(
            &mut self.stubs,
            &mut self.retention,
            &mut self.waste,
            budget,
            count_of(&self.rows, self.gone),
        );
        self.waste.settle(budget);
    }

    /// Whether it has something to let go of from now on, for which it didn't wait.
    pub(crate) fn begins_to_wait(&mut self) -> bool
        ensures { self.new ≡ self.old }
    {
        let waste = !self.waste.is_empty() || !self.retention.is_swept();
        let waits = self.upkeep.waits || self.gone != self.upkeep.noted || waste;
        let begins = waits && !self.upkeep.waits;
        self.upkeep.noted = self.gone;
        self.upkeep.waits = waits;
        begins
    }

    /// It waits no more: it has let go of all that it needs not.
    pub(crate) fn end_wait(&mut self)
        ensures { self.new ≡ self.old }
    {
        self.upkeep.waits = false;
    }

    /// How many rows the store holds: as many as the stub that needs the most.
    pub fn rows_held(&self) -> u64
        ensures { IsRowsHeld self.now result }
    {
        self.rows.len() as u64
    }

    /// About how many bytes these rows take, with their texts. It looks at 128 of them at most.
    pub fn bytes_held(&self) -> u64 {
        self.upkeep.bytes.of(&self.rows, self.gone)
    }

    /// Whether there is such a stub, isn't overrun, and may go to the cursor: its own is no later.
    pub fn may_advance(&self, id: StubId, to: u64) -> bool
        ensures { IsTrue result ↔ IsSomeAnd (stub_of self.now id) (CanAdvance to) }
    {
        match self.stubs.get(id.slot) {
            Some(stub) => !is_overrun(stub, count_of(&self.rows, self.gone)) && stub.cursor <= to,
            None => false,
        }
    }

    /// Takes the stub away, and lets go of the rows that it alone needed. It looks at no other stub.
    pub fn detach(&mut self, id: StubId)
        requires { IsSome (stub_of self.old id) }
        ensures { Updates self.old self.new id None }
    {
        let_go(self.stubs.try_remove(id.slot), &mut self.waste);
        self.retention.put(id.slot, u64::MAX, u64::MAX);
        self.gone = trim(&mut self.rows, self.gone, &self.retention);
        self.upkeep.bytes.let_go(self.gone);
    }
}

// So many rows came.
fn count_of(rows: &Chunks, gone: usize) -> u64
    requires { gone + length rows.now ≤ greatest }
    ensures { result ≡ gone + length rows.now }
{
    (gone + rows.len()) as u64
}

// Lets go of a stub that was taken away, and of the rows that it kept a few at a time.
fn let_go(stub: Option<Stub>, waste: &mut Waste) {
    if let Some(mut stub) = stub {
        stub.kept.clear(waste);
    }
}

// One stub goes to a later cursor. Of the rows that it kept it lets go of those alone that are not
// among those that it is to keep.
fn move_one(
    stubs: &mut Slab<Stub>,
    retention: &mut RetentionIndex,
    rows: &Chunks,
    gone: usize,
    ready: Ready,
)
    requires known { let count = gone + length rows.now in IsKnown rows.now gone (settled count stubs.old.slots) retention.old.firsts retention.old.limits }
    requires can { let count = gone + length rows.now in IsSomeAnd (slot_of (settled count stubs.old.slots) ready.id) (λ s. IsReady ready.to ready.kept (shown rows.now (shifted gone s))) }
    ensures known { let count = gone + length rows.now in IsKnown rows.now gone (settled count stubs.new.slots) retention.new.firsts retention.new.limits }
    ensures moved { let count = gone + length rows.now in IfSome (slot_of (settled count stubs.old.slots) ready.id) (λ s. Updates (all_shown rows.now gone (settled count stubs.old.slots)) (all_shown rows.now gone (settled count stubs.new.slots)) ready.id (Some (advanced ready.to (shown rows.now (shifted gone s))))) }
{
    let Ready { id, to, kept } = ready;
    match stubs.get_mut(id.slot) {
        Some(stub) => {
            go_to(stub, rows, gone, to, kept);
            retention.put(id.slot, stub.first as u64, limit_of(stub));
        }
        None => unreachable!(),
    }
}
