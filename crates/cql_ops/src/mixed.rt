// The operators of a bench whose joins and whose shapes are of any make, without a box.
ghost use Rattle.std.specs.Prelude.{◌≡◌};
ghost use Rattle.cql_plan.specs.declared.node.OperatorKind.TheVariants.{Join as join_kind, Shape as shape_kind};
ghost use Rattle.cql_ops.specs.Mixed.{mixed_model};

use crate::bench::{BenchOf, BlockOf};
use crate::cancellation::Cancellation;
use crate::distinct::DistinctOp;
use crate::error::OpError;
use crate::operator::Operator;
use crate::set_operation::SetOperation;
use crate::weight::Weight;
use cql_bag::Change;
use cql_plan::{Fault, Node, OperatorKind};
use std::alloc::Global;

/// An operator: a join and a shape of the caller's choice, and the two that there is one make of.
pub enum Mixed<J, S> {
    Join(J),
    Shape(S),
    Distinct(DistinctOp),
    SetOp(SetOperation),
}

impl<J: Drop, S: Drop> Drop for Mixed<J, S> {
    fn drop(self) {
        match self {
            Mixed::Join(_op) => {}
            Mixed::Shape(_op) => {}
            Mixed::Distinct(_op) => {}
            Mixed::SetOp(_op) => {}
        }
    }
}

impl<J: Operator, S: Operator> Operator for Mixed<J, S> {
    ghost model_of = { mixed_model J.model_of S.model_of };

    fn kind(&self) -> OperatorKind {
        match self {
            Mixed::Join(op) => op.kind(),
            Mixed::Shape(op) => op.kind(),
            Mixed::Distinct(op) => op.kind(),
            Mixed::SetOp(op) => op.kind(),
        }
    }

    fn heed(&mut self, cancellation: Cancellation) {
        match self {
            Mixed::Join(op) => op.heed(cancellation),
            Mixed::Shape(op) => op.heed(cancellation),
            Mixed::Distinct(op) => op.heed(cancellation),
            Mixed::SetOp(op) => op.heed(cancellation),
        }
    }

    fn weight(&self) -> Weight {
        match self {
            Mixed::Join(op) => op.weight(),
            Mixed::Shape(op) => op.weight(),
            Mixed::Distinct(op) => op.weight(),
            Mixed::SetOp(op) => op.weight(),
        }
    }

    fn start(&mut self, node: &Node, limit: u64) -> Result<(), OpError> {
        match self {
            Mixed::Join(op) => op.start(node, limit),
            Mixed::Shape(op) => op.start(node, limit),
            Mixed::Distinct(op) => op.start(node, limit),
            Mixed::SetOp(op) => op.start(node, limit),
        }
    }

    fn push(&mut self, port: usize, change: &Change) -> Result<(), OpError> {
        match self {
            Mixed::Join(op) => op.push(port, change),
            Mixed::Shape(op) => op.push(port, change),
            Mixed::Distinct(op) => op.push(port, change),
            Mixed::SetOp(op) => op.push(port, change),
        }
    }

    fn fault(&self) -> Option<Fault> {
        match self {
            Mixed::Join(op) => op.fault(),
            Mixed::Shape(op) => op.fault(),
            Mixed::Distinct(op) => op.fault(),
            Mixed::SetOp(op) => op.fault(),
        }
    }

    fn lend(&mut self) -> Option<&[Change]> {
        match self {
            Mixed::Join(op) => op.lend(),
            Mixed::Shape(op) => op.lend(),
            Mixed::Distinct(_) | Mixed::SetOp(_) => None,
        }
    }

    fn emit(&mut self, out: &mut Vec<Change>) -> Result<(), OpError> {
        match self {
            Mixed::Join(op) => op.emit(out),
            Mixed::Shape(op) => op.emit(out),
            Mixed::Distinct(op) => op.emit(out),
            Mixed::SetOp(op) => op.emit(out),
        }
    }
}

/// A bench of a join and a shape for each of the two blocks. Takes no memory.
pub fn mixed_bench<J: Operator, S: Operator>(
    alloc: Global,
    joins: (J, J),
    shapes: (S, S),
) -> BenchOf<Mixed<J, S>>
    requires joins { ((J.model_of joins.0).kind ≡ join_kind) × ((J.model_of joins.1).kind ≡ join_kind) }
    requires shapes { ((S.model_of shapes.0).kind ≡ shape_kind) × ((S.model_of shapes.1).kind ≡ shape_kind) }
{
    let (left_join, right_join) = joins;
    let (left_shape, right_shape) = shapes;
    BenchOf::of_blocks(
        BlockOf {
            join: Mixed::Join(left_join),
            shape: Mixed::Shape(left_shape),
            distinct: Mixed::Distinct(DistinctOp::new(alloc)),
        },
        BlockOf {
            join: Mixed::Join(right_join),
            shape: Mixed::Shape(right_shape),
            distinct: Mixed::Distinct(DistinctOp::new(alloc)),
        },
        Mixed::SetOp(SetOperation::new(alloc)),
    )
}
