// The plan of a query that may lose its streams.
ghost use Rattle.std.specs.Prelude.{◌≡◌, IfOk};
ghost use Rattle.std.specs.Arc.{arc_value};

use cql_plan::Plan;
use std::alloc::AllocError;
use std::marker::Model;
use std::sync::Arc;

/// So many times it holds its plan until it is closed.
pub const HOLDERS: usize = 2;

/// The plan of a query, which it holds twice until it is closed, and once from then on. So a pin that shares
/// the plan knows whether its query can still be fetched. Contracts see the plan.
pub struct LivePlan {
    plan: Arc<Plan>,
    second: Option<Arc<Plan>>,
}

impl Drop for LivePlan {
    fn drop(self) {
        let LivePlan { plan: _, second: _ } = self;
    }
}

impl Model for LivePlan {
    ghost use Rattle.cql_plan.specs.contracts.expr.Expr as expr;
    ghost use Rattle.cql_plan.specs.contracts.condition.Condition as condition;
    ghost use Rattle.std.specs.Coded.{codes};
    ghost use Rattle.std.specs.Arc.{arc_value};
    ghost use Rattle.cql_plan.specs.declared.plan.Planned.{Planned};

    ghost Value = { Planned };

    ghost coded = { Prim.hlevel (codes, expr.the_row.coded, condition.the_row.coded) };

    ghost view = { λ p. arc_value p.plan };
}

impl LivePlan {
    /// The plan of a query that can be fetched. Where no more holders can be counted it is held once.
    pub fn new(plan: Arc<Plan>) -> LivePlan
        ensures { result ≡ arc_value plan }
    {
        let second = Arc::try_clone(&plan).ok();
        LivePlan { plan, second }
    }

    /// The plan.
    pub fn get(&self) -> &Plan
        ensures { result.now ≡ self.now }
    {
        &self.plan
    }

    /// The plan with one more holder.
    pub fn to_arc(&self) -> Result<Arc<Plan>, AllocError>
        ensures { IfOk result (λ arc. arc_value arc ≡ self.now) }
    {
        Arc::try_clone(&self.plan)
    }

    /// The query can't be fetched any more. Takes no memory.
    pub fn close(&mut self)
        ensures { self.new ≡ self.old }
    {
        self.second = None;
    }
}
