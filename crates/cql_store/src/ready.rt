// An advance for which no memory is missing.
use crate::stub::{StubId, StubRows};
use std::marker::Model;

/// An advance of a stub to a cursor, with the rows that the stub will keep itself.
#[derive(Drop)]
pub struct Ready {
    pub(crate) id: StubId,
    pub(crate) to: u64,
    pub(crate) kept: StubRows,
}

impl Model for Ready {
    ghost use Rattle.cql_store.specs.Held.{Advance};

    ghost Value = { Advance };

    ghost view = { λ r. record { id = r.id; to = r.to; kept = r.kept } };
}

impl Ready {
    /// The units of what was made for it.
    pub(crate) fn made(&self) -> usize {
        self.kept.made()
    }
}
