// A bench lets go of what its operators hold.
ghost use Rattle.std.specs.Prelude.{◌≡◌};
ghost use Rattle.cql_plan.specs.Node.{kind_of_node};
ghost use Rattle.cql_ops.specs.Bench.{AreKinds, block_model};

use crate::bench::{BenchOf, BlockOf};
use crate::operator::Operator;
use crate::running::steps::start;
use crate::weight::Load;
use cql_plan::{Condition, Join, Node, OperatorKind, SetOp, Shape};
use cql_syntax::syntax::SetOperator;
use cql_value::Items;
use std::alloc::Global;

// A node of the kind, without columns. It takes no memory, and nor does a copy of it.
fn empty_node(alloc: Global, kind: OperatorKind) -> Node
    ensures { kind_of_node result ≡ kind }
{
    match kind {
        OperatorKind::Join => Node::Join(Join {
            ports: Items::new(alloc),
            condition: Condition::Always,
        }),
        OperatorKind::Shape => Node::Shape(Shape {
            columns: Items::new(alloc),
            items: Items::new(alloc),
            groups: Items::new(alloc),
        }),
        OperatorKind::Distinct => Node::Distinct(Items::new(alloc)),
        OperatorKind::SetOp => Node::SetOp(SetOp {
            kind: SetOperator::UnionAll,
            columns: Items::new(alloc),
        }),
    }
}

// Started over a node without columns it holds no row.
fn empty<O: Operator>(alloc: Global, op: &mut O)
    ensures { (O.model_of op.new).kind ≡ (O.model_of op.old).kind }
{
    let node = empty_node(alloc, op.kind());
    let _ = start(op, &node, 0);
}

impl<O: Operator> BlockOf<O> {
    // Its operators hold nothing.
    fn clear(&mut self, alloc: Global)
        requires { AreKinds (block_model O.model_of self.old) }
        ensures { AreKinds (block_model O.model_of self.new) }
    {
        empty(alloc, &mut self.join);
        empty(alloc, &mut self.shape);
        empty(alloc, &mut self.distinct);
    }
}

impl<O: Operator> BenchOf<O> {
    /// Lets go of all that its operators hold, whatever plans they ran: each is started over a node
    /// without columns, for which the given ones take no memory.
    pub fn clear(&mut self, alloc: Global) {
        self.load = Load::none();
        self.left.clear(alloc);
        self.right.clear(alloc);
        empty(alloc, &mut self.set_op);
    }
}
