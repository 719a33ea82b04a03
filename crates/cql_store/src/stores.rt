// The stores of all owners' streams.
ghost use Rattle.std.specs.Prelude.{◌≡◌, ◌<◌, ◌++◌, ◌∷◌, [], length, set, Some, None, IsSome, IsSomeAnd, IfSome, IfOk, OnOk, OnErr, false};
ghost use Rattle.cql_store.specs.Held.{opened, advanced, pinned, CanAppend, CanAdvance, IsReady, HasParts, IsRowsHeld};
ghost use Rattle.cql_store.specs.Stores.{OwnStores, own_at, store_at, held_at, IsStream, Moves, Appends};

use crate::owner_streams::OwnerStreams;
use crate::ready::Ready;
use crate::stub_ref::StubRef;
use cql_chunks::Budget;
use cql_tenants::TenantId;
use cql_value::Timed;
use cql_window::{Window, WindowPin};
use std::alloc::{AllocError, Global};
use std::marker::Model;

// What one call lets go of at most, beside as much as it put in: more than a row of a line weighs.
const UNITS: usize = 1024;

// A stream of an owner.
#[derive(Clone, Copy)]
struct StreamAt {
    owner: usize,
    stream: usize,
}

/// The stores of all owners' streams, the streams of each owner in order of making.
pub struct Stores {
    owners: Vec<OwnerStreams>,
    // The streams whose stores have something to let go of, each once; there is room for all.
    waiting: Vec<StreamAt>,
    // How many streams there are.
    streams: usize,
    // The units of what stubs put in since the stores settled last.
    made: usize,
}

impl Drop for Stores {
    fn drop(self) {
        let Stores {
            owners: _,
            waiting: _,
            streams: _,
            made: _,
        } = self;
    }
}

impl Model for Stores {
    ghost use Rattle.cql_store.specs.Stores.{AllStores};

    ghost Value = { AllStores };

    ghost view = { λ s. s.owners.items };
}

impl Stores {
    /// No owner. Takes no memory.
    pub fn new(alloc: Global) -> Stores
        ensures { result ≡ [] }
    {
        Stores {
            owners: Vec::new(alloc),
            waiting: Vec::new(alloc),
            streams: 0,
            made: 0,
        }
    }

    /// One more owner, with no stream.
    pub fn add_owner(&mut self, alloc: Global) -> Result<(), AllocError>
        ensures ok { OnOk result (self.new ≡ self.old ++ [] ∷ []) }
        ensures err { OnErr result (self.new ≡ self.old) }
    {
        self.owners.push(OwnerStreams::new(alloc))?;
        Ok(())
    }

    /// One more stream of an owner, with no stub.
    pub fn add_stream(&mut self, alloc: Global, owner: TenantId) -> Result<(), AllocError>
        requires { owner < length self.old }
        ensures ok { OnOk result (self.new ≡ set self.old owner (own_at self.old owner ++ [] ∷ [])) }
        ensures err { OnErr result (self.new ≡ self.old) }
    {
        let room = self.streams.saturating_sub(self.waiting.len());
        self.waiting.reserve(room.saturating_add(1))?;
        self.owners[owner.index()].push(alloc)?;
        self.streams = self.streams.saturating_add(1);
        Ok(())
    }

    /// Takes the owner's last stream away, which has no stub. Takes no memory.
    pub fn remove_stream(&mut self, owner: TenantId)
        requires within { owner < length self.old }
        requires last { (front : OwnStores) × (own_at self.old owner ≡ front ++ [] ∷ []) }
        ensures { (front : OwnStores) → own_at self.old owner ≡ front ++ [] ∷ [] → self.new ≡ set self.old owner front }
    {
        self.owners[owner.index()].pop();
        self.streams = self.streams.saturating_sub(1);
    }

    /// One more row for every stub on a stream that isn't overrun. A stub for which it is one too
    /// many is overrun from then on, and has no rows.
    pub fn append(&mut self, owner: TenantId, stream: usize, row: Timed) -> Result<(), AllocError>
        requires there { IsStream self.old owner stream }
        requires can { CanAppend (store_at self.old owner stream) row }
        ensures ok { OnOk result (Appends self.old self.new owner stream row) }
        ensures err { OnErr result (self.new ≡ self.old) }
    {
        self.owners[owner.index()].append(stream, row)?;
        self.note(owner, stream);
        Ok(())
    }

    /// A stub of the window on a stream, at the cursor `base`, which may hold so many rows. It has
    /// none, whatever the stream's store holds for others.
    pub fn attach(
        &mut self,
        owner: TenantId,
        stream: usize,
        window: Window,
        base: u64,
        hold: u64,
    ) -> Result<StubRef, AllocError>
        requires { IsStream self.old owner stream }
        ensures owner { IfOk result (λ p. p.owner ≡ owner) }
        ensures stream { IfOk result (λ p. p.stream ≡ stream) }
        ensures was_free { IfOk result (λ p. held_at self.old p ≡ None) }
        ensures ok { IfOk result (λ p. Moves self.old self.new p (Some (opened window base hold))) }
        ensures err { OnErr result (self.new ≡ self.old) }
    {
        let stub = self.owners[owner.index()].attach(stream, window, base, hold)?;
        Ok(StubRef {
            owner,
            stream,
            stub,
        })
    }

    /// Whether the stub had to let its rows go. Takes no memory.
    pub fn is_overrun(&self, stub_ref: StubRef) -> bool
        requires there { IsStream self.now stub_ref.owner stub_ref.stream }
        requires held { IsSome (held_at self.now stub_ref) }
        ensures { IfSome (held_at self.now stub_ref) (λ h. result ≡ h.overrun) }
    {
        self.owners[stub_ref.owner.index()]
            .store(stub_ref.stream)
            .is_overrun(stub_ref.stub)
    }

    /// The stub's window and content, and its unseen rows before an instant. The rows are shared.
    pub fn pin(&self, stub_ref: StubRef, until: u64) -> Result<WindowPin, AllocError>
        requires there { IsStream self.now stub_ref.owner stub_ref.stream }
        requires held { IsSomeAnd (held_at self.now stub_ref) (λ h. h.overrun ≡ false) }
        ensures { IfOk result (λ w. IfSome (held_at self.now stub_ref) (λ h. w ≡ pinned until h)) }
    {
        self.owners[stub_ref.owner.index()]
            .store(stub_ref.stream)
            .pin(stub_ref.stub, until)
    }

    /// All that takes memory for an advance of the stub to a later cursor: none unless its window
    /// is one of parts.
    pub fn ready(&self, stub_ref: StubRef, to: u64) -> Result<Ready, AllocError>
        requires there { IsStream self.now stub_ref.owner stub_ref.stream }
        requires held { IsSomeAnd (held_at self.now stub_ref) (CanAdvance to) }
        ensures id { IfOk result (λ r. r.id ≡ stub_ref.stub) }
        ensures to { IfOk result (λ r. r.to ≡ to) }
        ensures kept { IfOk result (λ r. IfSome (held_at self.now stub_ref) (IsReady to r.kept)) }
        ensures err { OnErr result (IfSome (held_at self.now stub_ref) (λ h. HasParts h.window)) }
    {
        self.owners[stub_ref.owner.index()]
            .store(stub_ref.stream)
            .ready(stub_ref.stub, to)
    }

    /// The stub goes to a later cursor. Takes no memory.
    pub fn advance(&mut self, stub_ref: StubRef, ready: Ready)
        requires there { IsStream self.old stub_ref.owner stub_ref.stream }
        requires stub { ready.id ≡ stub_ref.stub }
        requires ready { IsSomeAnd (held_at self.old stub_ref) (IsReady ready.to ready.kept) }
        ensures { IfSome (held_at self.old stub_ref) (λ h. Moves self.old self.new stub_ref (Some (advanced ready.to h))) }
    {
        self.made = self.made.saturating_add(ready.made());
        self.owners[stub_ref.owner.index()].advance(stub_ref.stream, ready);
        self.note(stub_ref.owner, stub_ref.stream);
    }

    /// Takes the stub away, and lets go of the rows that it alone needed. Takes no memory.
    pub fn detach(&mut self, stub_ref: StubRef)
        requires there { IsStream self.old stub_ref.owner stub_ref.stream }
        requires held { IsSome (held_at self.old stub_ref) }
        ensures { Moves self.old self.new stub_ref None }
    {
        self.owners[stub_ref.owner.index()].detach(stub_ref.stream, stub_ref.stub);
        self.note(stub_ref.owner, stub_ref.stream);
    }

    /// How many rows the store of a stream holds: as many as the stub that needs the most.
    pub fn rows_held(&self, owner: TenantId, stream: usize) -> u64
        requires { IsStream self.now owner stream }
        ensures { IsRowsHeld (store_at self.now owner stream) result }
    {
        self.owners[owner.index()].store(stream).rows_held()
    }

    /// About how many bytes the rows take that the store of a stream holds, with their texts. It looks at
    /// 128 of them at most.
    pub fn bytes_held(&self, owner: TenantId, stream: usize) -> u64
        requires { IsStream self.now owner stream }
    {
        self.owners[owner.index()].store(stream).bytes_held()
    }

    // Notes whether the store of a stream has something to let go of.
    // Takes no memory: there is room for each stream.
    fn note(&mut self, owner: TenantId, stream: usize)
        ensures { self.new ≡ self.old }
    {
        let owner = owner.index();
        let Some(streams) = self.owners.get_mut(owner) else {
            return;
        };
        if streams.begins_to_wait(stream) {
            drop(self.waiting.push(StreamAt { owner, stream }));
        }
    }

    /// Whether some store has something to let go of.
    pub fn has_waste(&self) -> bool {
        !self.waiting.is_empty()
    }

    /// Lets go of what nothing needs any more, of all stores together so many units and as many as the
    /// calls made since the last one. A row and a node of a tree are one unit, and a text of a row is one
    /// and one more for each further 1,024 bytes.
    pub fn settle(&mut self)
        ensures { self.new ≡ self.old }
    {
        let mut budget = Budget {
            units: UNITS.saturating_add(self.made),
        };
        self.made = 0;
        for _ in 0..self.waiting.len() {
            let Some(next) = self.waiting.last().copied() else {
                return;
            };
            settle_at(&mut self.owners, next, &mut budget);
            if budget.units == 0 {
                return;
            }
            self.waiting.pop();
        }
    }
}

// The store of a stream lets go of what the budget has units for.
fn settle_at(owners: &mut Vec<OwnerStreams>, next: StreamAt, budget: &mut Budget)
    ensures { owners.new.items ≡ owners.old.items }
{
    if let Some(streams) = owners.get_mut(next.owner) {
        streams.settle(next.stream, budget);
    }
}
