// Whether two plans say the same.
use crate::condition::{Condition, Operand};
use crate::expr::Expr;
use crate::node::{Item, Join, Node, SetOp, Shape};
use crate::plan::{Branch, Combined, Input, Planned};
use cql_value::Equals;

impl Equals for Expr {
    fn is_equal(&self, other: &Expr) -> bool {
        match (self, other) {
            (Expr::Column(a), Expr::Column(b)) => *a == *b,
            (Expr::Constant(a), Expr::Constant(b)) => a.is_equal(b),
            (Expr::Binary(op, left, right), Expr::Binary(o, l, r)) => {
                *op == *o && left.get().is_equal(l.get()) && right.get().is_equal(r.get())
            }
            _ => false,
        }
    }
}

impl Equals for Operand {
    fn is_equal(&self, other: &Operand) -> bool {
        match (self, other) {
            (Operand::Column(a), Operand::Column(b)) => *a == *b,
            (Operand::Constant(a), Operand::Constant(b)) => a.is_equal(b),
            _ => false,
        }
    }
}

impl Equals for Condition {
    fn is_equal(&self, other: &Condition) -> bool {
        match self {
            Condition::Always => match other {
                Condition::Always => true,
                _ => false,
            },
            Condition::Compare(left, how, right) => match other {
                Condition::Compare(l, h, r) => left.is_equal(l) && *how == *h && right.is_equal(r),
                _ => false,
            },
            Condition::Not(inner) => match other {
                Condition::Not(o) => inner.get().is_equal(o.get()),
                _ => false,
            },
            Condition::And(left, right) => match other {
                Condition::And(l, r) => left.get().is_equal(l.get())
                    && right.get().is_equal(r.get()),
                _ => false,
            },
            Condition::Or(left, right) => match other {
                Condition::Or(l, r) => left.get().is_equal(l.get())
                    && right.get().is_equal(r.get()),
                _ => false,
            },
        }
    }
}

impl Equals for Join {
    fn is_equal(&self, other: &Join) -> bool {
        self.ports.is_equal(&other.ports) && self.condition.is_equal(&other.condition)
    }
}

impl Equals for Item {
    fn is_equal(&self, other: &Item) -> bool {
        match (self, other) {
            (Item::Value(a), Item::Value(b)) => a.is_equal(b),
            (Item::Count, Item::Count) => true,
            (Item::Sum(a), Item::Sum(b)) => *a == *b,
            (Item::Min(a), Item::Min(b)) => *a == *b,
            (Item::Max(a), Item::Max(b)) => *a == *b,
            _ => false,
        }
    }
}

impl Equals for Shape {
    fn is_equal(&self, other: &Shape) -> bool {
        self.columns.is_equal(&other.columns)
            && self.items.is_equal(&other.items)
            && self.groups.is_equal(&other.groups)
    }
}

impl Equals for SetOp {
    fn is_equal(&self, other: &SetOp) -> bool {
        self.kind == other.kind && self.columns.is_equal(&other.columns)
    }
}

impl Equals for Node {
    fn is_equal(&self, other: &Node) -> bool {
        match (self, other) {
            (Node::Join(a), Node::Join(b)) => a.is_equal(b),
            (Node::Shape(a), Node::Shape(b)) => a.is_equal(b),
            (Node::Distinct(a), Node::Distinct(b)) => a.is_equal(b),
            (Node::SetOp(a), Node::SetOp(b)) => a.is_equal(b),
            _ => false,
        }
    }
}

impl Equals for Input {
    fn is_equal(&self, other: &Input) -> bool {
        self.owner.is_equal(&other.owner)
            && self.stream.is_equal(&other.stream)
            && self.window.is_equal(&other.window)
            && self.projection.as_slice() == other.projection.as_slice()
    }
}

impl Equals for Branch {
    fn is_equal(&self, other: &Branch) -> bool {
        self.join.is_equal(&other.join)
            && self.shape.is_equal(&other.shape)
            && self.distinct.is_equal(&other.distinct)
    }
}

impl Equals for Combined {
    fn is_equal(&self, other: &Combined) -> bool {
        self.branch.is_equal(&other.branch) && self.set_op.is_equal(&other.set_op)
    }
}

impl Equals for Planned {
    fn is_equal(&self, other: &Planned) -> bool {
        self.inputs.is_equal(&other.inputs)
            && self.first.is_equal(&other.first)
            && self.combined.is_equal(&other.combined)
            && self.output == other.output
    }
}
