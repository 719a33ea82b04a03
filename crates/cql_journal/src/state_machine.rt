// What the records of a journal are made on.
use cql_core::{Prepared, Step, TenantId};
use cql_hall::{Book, Entered, Journal};
use std::alloc::Global;
use std::sync::Arc;

/// What steps the commands of a journal's records, one after another.
pub trait StateMachine: Drop {
    ghost use Rattle.std.specs.Arc.{arc_value};
    ghost use Rattle.cql_core.specs.Machine.{State};
    ghost use Rattle.cql_core.specs.Steps.{Steps};

    ghost state: { Self → State };

    /// The machine's step of a tenant's command; or there was no memory (70), and nothing is changed.
    fn step(&mut self, alloc: Global, tenant: TenantId, prepared: &Arc<Prepared>) -> Step
        ensures { Steps (state self.old) tenant (arc_value prepared.now) result (state self.new) };
}

impl<J: Journal> StateMachine for Book<J> {
    ghost state = { λ book. book.state };

    fn step(&mut self, alloc: Global, tenant: TenantId, prepared: &Arc<Prepared>) -> Step {
        let Entered { place: _, step } = self.enter(alloc, tenant, prepared);
        step
    }
}
