// The nodes of a plan.
ghost use Rattle.std.specs.Prelude.{◌≡◌};
ghost use Rattle.cql_plan.specs.Node.{kind_of_node};

use crate::condition::Condition;
use crate::expr::Expr;
use cql_syntax::syntax::SetOperator;
use cql_value::{ColumnType, Items};

/// What kind of operator computes a node.
#[derive(Clone, Copy, PartialEq, Eq)]
pub enum OperatorKind {
    Join,
    Shape,
    Distinct,
    SetOp,
}

/// One row from each port, put together in order, where the condition holds. Each port is the
/// list of its columns' types.
#[derive(Drop)]
pub struct Join {
    pub ports: Items<Items<ColumnType>>,
    pub condition: Condition,
}

/// A column of the answer: an expression, or an aggregate of the column counted from 0.
#[derive(Drop)]
pub enum Item {
    Value(Expr),
    Count,
    Sum(usize),
    Min(usize),
    Max(usize),
}

/// The items on each row; or, where there are grouped columns or an aggregate, on each group.
#[derive(Drop)]
pub struct Shape {
    pub columns: Items<ColumnType>,
    pub items: Items<Item>,
    pub groups: Items<usize>,
}

/// A set operation on two ports of the same columns.
#[derive(Drop)]
pub struct SetOp {
    pub kind: SetOperator,
    pub columns: Items<ColumnType>,
}

/// A step of the computation of a block or of two.
pub enum Node {
    Join(Join),
    Shape(Shape),
    Distinct(Items<ColumnType>),
    SetOp(SetOp),
}

impl Drop for Node {
    fn drop(self) {
        match self {
            Node::Join(_join) => {}
            Node::Shape(_shape) => {}
            Node::Distinct(_columns) => {}
            Node::SetOp(_op) => {}
        }
    }
}

impl Node {
    /// The kind of operator that computes it.
    pub fn kind(&self) -> OperatorKind
        ensures { result ≡ kind_of_node self.now }
    {
        match self {
            Node::Join(_) => OperatorKind::Join,
            Node::Shape(_) => OperatorKind::Shape,
            Node::Distinct(_) => OperatorKind::Distinct,
            Node::SetOp(_) => OperatorKind::SetOp,
        }
    }
}
