// The stores of one owner's streams.
ghost use Rattle.std.specs.Prelude.{◌≡◌, ◌<◌, ◌++◌, ◌∷◌, [], length, get_or, set, map, Some, None, IsSome, IsSomeAnd, IfSome, IfOk, OnOk, OnErr};
ghost use Rattle.cql_store.specs.Held.{Stubs, stub_of, opened, fed_at, CanAppend, IsReady, advanced};
ghost use Rattle.cql_store.specs.Stores.{OwnStores, OwnMoves};

use crate::ready::Ready;
use crate::store::Store;
use crate::stub::StubId;
use cql_chunks::Budget;
use cql_value::Timed;
use cql_window::Window;
use std::alloc::{AllocError, Global};
use std::marker::Model;

/// The stores of one owner's streams, in order of making.
#[derive(Drop)]
pub(crate) struct OwnerStreams {
    stores: Vec<Store>,
}

impl Model for OwnerStreams {
    ghost use Rattle.cql_store.specs.Stores.{OwnStores};

    ghost Value = { OwnStores };

    ghost view = { λ s. s.stores.items };
}

impl OwnerStreams {
    /// No stream.
    pub(crate) fn new(alloc: Global) -> OwnerStreams
        ensures { result ≡ [] }
    {
        OwnerStreams {
            stores: Vec::new(alloc),
        }
    }

    /// One more stream, with no stub.
    pub(crate) fn push(&mut self, alloc: Global) -> Result<(), AllocError>
        ensures ok { OnOk result (self.new ≡ self.old ++ [] ∷ []) }
        ensures err { OnErr result (self.new ≡ self.old) }
    {
        self.stores.push(Store::new(alloc))?;
        Ok(())
    }

    /// Takes the last stream away.
    pub(crate) fn pop(&mut self)
        ensures { (front : OwnStores) → (last : Stubs) → self.old ≡ front ++ last ∷ [] → self.new ≡ front }
    {
        self.stores.pop();
    }

    /// One more row for the stubs of a stream.
    pub(crate) fn append(&mut self, stream: usize, row: Timed) -> Result<(), AllocError>
        requires within { stream < length self.old }
        requires can { CanAppend (get_or self.old stream []) row }
        ensures ok { OnOk result (self.new ≡ set self.old stream (map (fed_at row) (get_or self.old stream []))) }
        ensures err { OnErr result (self.new ≡ self.old) }
    {
        self.stores[stream].append(row)
    }

    /// A stub with nothing in it.
    pub(crate) fn attach(
        &mut self,
        stream: usize,
        window: Window,
        base: u64,
        hold: u64,
    ) -> Result<StubId, AllocError>
        requires { stream < length self.old }
        ensures was_free { IfOk result (λ id. stub_of (get_or self.old stream []) id ≡ None) }
        ensures ok { IfOk result (λ id. OwnMoves self.old self.new stream id (Some (opened window base hold))) }
        ensures err { OnErr result (self.new ≡ self.old) }
    {
        self.stores[stream].attach(window, base, hold)
    }

    /// The store of a stream.
    pub(crate) fn store(&self, stream: usize) -> &Store
        requires { stream < length self.now }
        ensures { result.now ≡ get_or self.now stream [] }
    {
        &self.stores[stream]
    }

    /// The stub goes to a later cursor.
    pub(crate) fn advance(&mut self, stream: usize, ready: Ready)
        requires within { stream < length self.old }
        requires ready { IsSomeAnd (stub_of (get_or self.old stream []) ready.id) (IsReady ready.to ready.kept) }
        ensures { IfSome (stub_of (get_or self.old stream []) ready.id) (λ h. OwnMoves self.old self.new stream ready.id (Some (advanced ready.to h))) }
    {
        self.stores[stream].advance(ready);
    }

    /// Takes a stub away.
    pub(crate) fn detach(&mut self, stream: usize, id: StubId)
        requires within { stream < length self.old }
        requires held { IsSome (stub_of (get_or self.old stream []) id) }
        ensures { OwnMoves self.old self.new stream id None }
    {
        self.stores[stream].detach(id);
    }

    /// Whether the store of a stream has something to let go of from now on.
    pub(crate) fn begins_to_wait(&mut self, stream: usize) -> bool
        ensures { self.new ≡ self.old }
    {
        match self.stores.get_mut(stream) {
            Some(store) => store.begins_to_wait(),
            None => false,
        }
    }

    /// The store of a stream lets go of as much of what nothing needs any more as the budget has units
    /// for. Where some are left it has let go of all of it, and waits no more.
    pub(crate) fn settle(&mut self, stream: usize, budget: &mut Budget)
        ensures { self.new ≡ self.old }
    {
        if let Some(store) = self.stores.get_mut(stream) {
            store.settle(budget);
            if budget.units > 0 {
                store.end_wait();
            }
        }
    }
}
