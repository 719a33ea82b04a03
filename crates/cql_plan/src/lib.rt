//! What is computed for a query: plans, when a row meets a condition, and how a query is typed and
//! planned.
#![tactic(auto)]

mod block;
pub mod condition;
mod equals;
pub mod error;
pub mod expr;
mod fault;
mod item;
pub mod law;
pub mod lookup;
pub mod node;
pub mod plan;
mod resolution;
mod row;
mod source;
mod typed;

pub use condition::{Condition, Operand, compares, meets};
pub use error::{PlanError, PlanFault};
pub use expr::Expr;
pub use fault::Fault;
pub use lookup::{Lookup, Readable};
pub use node::{Item, Join, Node, OperatorKind, SetOp, Shape};
pub use plan::{Branch, Combined, Input, OutputKind, Plan, Planned};
pub use resolution::resolve;
