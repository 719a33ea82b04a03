// A window on the store's rows.
ghost use Rattle.std.specs.Prelude.{◌≡◌, ◌++◌, [], length, nat_lt, IfOk, OnOk};
ghost use Rattle.cql_store.specs.Sequence.{held_count, limit, marked};

use crate::kept_parts::KeptParts;
use cql_chunks::{Chunks, Waste};
use cql_value::Timed;
use cql_window::Window;
use std::alloc::{AllocError, Global};
use std::marker::Model;
use std::sync::Arc;

/// The number of a stub, which its store gave to it. It is given again once the stub is detached.
#[derive(Clone, Copy)]
pub struct StubId {
    pub(crate) slot: usize,
}

impl Model for StubId {
    ghost use Rattle.std.specs.Prelude.{ℕ};

    ghost Value = { ℕ };

    ghost view = { λ i. i.slot };

    ghost inverse = { λ n. record { slot = n } };
}

impl StubId {
    /// The number: no other stub that is attached to its store has it.
    pub fn number(self) -> usize
        ensures { result ≡ self }
    {
        self.slot
    }
}

/// The rows that a stub keeps itself: the content of a window of parts. What is made ready shares
/// them where they stay as they are. There is nothing before the window passes a row.
#[derive(Drop)]
pub(crate) struct StubRows {
    rows: Option<KeptParts>,
}

impl Model for StubRows {
    ghost use Rattle.std.specs.Prelude.{List};
    ghost use Rattle.cql_value.specs.Element.{Element};
    ghost use Rattle.cql_store.specs.Held.{rows_if_any};

    ghost Value = { List Element };

    ghost view = { λ k. rows_if_any k.rows (λ r. r) };
}

impl StubRows {
    /// No rows.
    pub(crate) fn new() -> StubRows
        ensures { result ≡ [] }
    {
        StubRows { rows: None }
    }

    /// These rows.
    pub(crate) fn of(rows: KeptParts) -> StubRows
        ensures { result ≡ rows }
    {
        StubRows { rows: Some(rows) }
    }

    /// The same, with room for a window that parts by these columns.
    pub(crate) fn parts(&self, alloc: Global, columns: &[usize]) -> Result<KeptParts, AllocError>
        ensures { IfOk result (λ k. k ≡ self.now) }
    {
        match &self.rows {
            None => KeptParts::new(alloc, columns),
            Some(rows) => rows.share(),
        }
    }

    /// The same rows with one more holder: no row is looked at, and no memory is taken. It fails
    /// where no more holders can be counted.
    pub(crate) fn share(&self) -> Result<StubRows, AllocError>
        ensures { IfOk result (λ k. k ≡ self.now) }
    {
        match &self.rows {
            None => Ok(StubRows { rows: None }),
            Some(rows) => {
                let rows = rows.share()?;
                Ok(StubRows { rows: Some(rows) })
            }
        }
    }

    /// The rows as a list that shares them: none is looked at.
    pub(crate) fn rows(&self, alloc: Global) -> Result<Chunks, AllocError>
        ensures { IfOk result (λ r. r ≡ self.now) }
    {
        match &self.rows {
            None => Ok(Chunks::new(alloc)),
            Some(rows) => Chunks::of_tree(Arc::try_clone(rows.tree())?),
        }
    }

    /// The rows come behind others. They are shared.
    pub(crate) fn push_rows(&self, all: &mut Vec<Timed>) -> Result<(), AllocError>
        ensures { OnOk result (all.new.items ≡ all.old.items ++ self.now) }
    {
        match &self.rows {
            None => Ok(()),
            Some(rows) => rows.tree().push_rows(all),
        }
    }

    /// How many rows there are.
    pub(crate) fn len(&self) -> usize
        ensures { result ≡ length self.now }
    {
        match &self.rows {
            None => 0,
            Some(rows) => rows.len(),
        }
    }

    /// The units of what was made of these rows since they were shared last.
    pub(crate) fn made(&self) -> usize {
        match &self.rows {
            None => 0,
            Some(rows) => rows.made(),
        }
    }

    /// Lets the rows go, a few of them at a time.
    pub(crate) fn clear(&mut self, waste: &mut Waste)
        ensures { self.new ≡ [] }
    {
        // a stub that keeps none, as most do, isn't written to
        if self.rows.is_none() {
            return;
        }
        if let Some(rows) = self.rows.take() {
            rows.let_go(waste);
        }
    }
}

/// A window on the store's rows. Its numbers are sequence numbers: they count all rows that came to
/// the store.
pub(crate) struct Stub {
    pub(crate) window: Window,
    pub(crate) cursor: u64,
    pub(crate) hold: u64,
    /// Where its content begins.
    pub(crate) first: usize,
    /// Where its content ends and its unseen rows begin.
    pub(crate) read_to: usize,
    /// Before it, the unseen rows are known to have come before the end that the window looks up
    /// to: they wait for a whole slide of rows.
    pub(crate) counted: usize,
    /// It was marked as overrun. One that is overrun and isn't marked yet has more rows than it may
    /// hold.
    pub(crate) overrun: bool,
    pub(crate) kept: StubRows,
}

impl Drop for Stub {
    fn drop(self) {
        let Stub {
            window: _,
            cursor: _,
            hold: _,
            first: _,
            read_to: _,
            counted: _,
            overrun: _,
            kept: _,
        } = self;
    }
}

// Whether a stub that isn't marked has more rows than it may hold where so many have come.
fn is_past(stub: &Stub, count: u64) -> bool
    ensures { result ≡ nat_lt stub.now.hold (held_count count stub.now) }
{
    match stub.hold.checked_sub(stub.kept.len() as u64) {
        Some(room) => room < count.saturating_sub(stub.first as u64),
        None => true,
    }
}

/// Whether the stub is overrun where so many rows have come: it was marked, or has more than it may
/// hold.
pub(crate) fn is_overrun(stub: &Stub, count: u64) -> bool
    ensures { result ≡ (marked count stub.now).overrun }
{
    stub.overrun || is_past(stub, count)
}

/// Marks the stub, and lets its rows go, if it is overrun where so many have come.
pub(crate) fn mark(stub: &mut Stub, waste: &mut Waste, count: u64)
    ensures { stub.new ≡ marked count stub.old }
{
    if is_overrun(stub, count) {
        stub.overrun = true;
        stub.kept.clear(waste);
    }
}

/// So many rows may have come before the stub has one too many.
pub(crate) fn limit_of(stub: &Stub) -> u64
    ensures { result ≡ limit stub.now }
{
    let room = stub.hold.saturating_sub(stub.kept.len() as u64);
    (stub.first as u64).saturating_add(room)
}
