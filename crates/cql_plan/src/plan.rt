// What is computed for a query.
ghost use Rattle.std.specs.Prelude.{◌≡◌, ◌↔◌, List, length, IsTrue, IfSome, option_copied};
ghost use Rattle.cql_plan.specs.Plan as spec;
ghost use Rattle.cql_plan.specs.Ports.{ports, columns_from, HavePorts, IsPlain};
ghost use Rattle.cql_value.specs.declared.schema.ColumnType.{ColumnType};

use crate::condition::Condition;
use crate::expr::Expr;
use crate::node::{Item, Node};
use cql_value::{Equals, Items, Name};
use cql_window::Window;
use std::marker::Model;

/// A stream that a plan reads, of an owner or the caller's own, through a window over the stream's
/// whole rows. The columns by which a window parts are those of the whole row, counted from 0.
pub struct Input {
    pub owner: Option<Name>,
    pub stream: Name,
    pub window: Window,
    /// Where the columns that the plan is typed over stand in the whole row.
    pub projection: Items<usize>,
}

/// What is computed of a block: the join of its inputs, its items, and with DISTINCT each row
/// once.
pub struct Branch {
    pub join: Node,
    pub shape: Node,
    pub distinct: Option<Node>,
}

/// What is told of the relation at an instant, beside the relation of the instant before.
#[derive(Clone, Copy, PartialEq, Eq)]
pub enum OutputKind {
    /// The rows that came.
    Istream,
    /// The rows that went.
    Dstream,
    /// All rows.
    Rstream,
    /// The rows that came and those that went.
    Signed,
}

/// A second block, and the set operation on what both blocks give.
pub struct Combined {
    pub branch: Branch,
    pub set_op: Node,
}

/// What a plan says: the inputs of its blocks in order, the first block, and the second where there
/// is one.
pub struct Planned {
    pub inputs: Items<Input>,
    pub first: Branch,
    pub combined: Option<Combined>,
    pub output: OutputKind,
}

/// What is computed for a query: 1 or 2 blocks over its inputs. It is made of what keeps a plan's
/// form alone, and contracts see what it says.
pub struct Plan {
    planned: Planned,
}

impl Model for Plan {
    ghost use Rattle.cql_plan.specs.declared.plan.Planned.{Planned};
    ghost use Rattle.cql_plan.specs.Plan.{IsPlan};
    ghost use Rattle.cql_plan.specs.contracts.expr.Expr as expr;
    ghost use Rattle.cql_plan.specs.contracts.condition.Condition as condition;
    ghost use Rattle.std.specs.Coded.{codes};

    ghost Value = { Planned };

    ghost coded = { Prim.hlevel (codes, expr.the_row.coded, condition.the_row.coded) };

    ghost view = { λ p. p.planned };

    ghost invariant = { λ p. IsPlan p.planned };
}

impl Drop for Input {
    fn drop(self) {
        let Input {
            owner: _,
            stream: _,
            window: _,
            projection: _,
        } = self;
    }
}

impl Drop for Branch {
    fn drop(self) {
        let Branch {
            join: _,
            shape: _,
            distinct: _,
        } = self;
    }
}

impl Drop for Combined {
    fn drop(self) {
        let Combined {
            branch: _,
            set_op: _,
        } = self;
    }
}

impl Drop for Planned {
    fn drop(self) {
        let Planned {
            inputs: _,
            first: _,
            combined: _,
            output: _,
        } = self;
    }
}

impl Drop for Plan {
    fn drop(self) {
        let Plan { planned: _ } = self;
    }
}

// Whether the items are so many columns, each at its index.
fn are_columns(items: &[Item], many: usize) -> bool
    ensures { IsTrue result → (columns : List ColumnType) → length columns ≡ many → items.now ≡ columns_from 0 columns }
{
    if items.len() != many {
        return false;
    }
    for (index, item) in items.iter().enumerate() {
        let Item::Value(value) = item else {
            return false;
        };
        let Expr::Column(column) = value else {
            return false;
        };
        if *column != index {
            return false;
        }
    }
    true
}

impl Plan {
    /// The plan that says this.
    pub fn new(planned: Planned) -> Plan
        requires { spec.IsPlan planned }
        ensures { result ≡ planned }
    {
        Plan { planned }
    }

    /// Its inputs, 1 to 6, in order: those of the first block, then those of the second. Each
    /// stands beside a port of a join, and parts by columns of its own.
    pub fn inputs(&self) -> &[Input]
        ensures value { result.now ≡ self.now.inputs }
        ensures few { spec.IsFew self.now }
        ensures ports { HavePorts self.now.inputs (ports self.now) }
    {
        self.planned.inputs.as_slice()
    }

    /// Its first block.
    pub fn first(&self) -> &Branch
        ensures value { result.now ≡ self.now.first }
        ensures block { spec.IsBlock result.now }
    {
        &self.planned.first
    }

    /// Its second block with the set operation on both, where there is one.
    pub fn combined(&self) -> Option<&Combined>
        ensures value { option_copied result ≡ self.now.combined }
        ensures valid { IfSome self.now.combined (spec.IsCombined self.now.first) }
    {
        self.planned.combined.as_ref()
    }

    /// That it is a plan: each node is of its place's kind and fits the columns that go in, what
    /// one gives goes into the next, and each input stands beside a port of a join.
    pub fn keeps_form(&self)
        ensures { spec.IsPlan self.now }
    {
        let _ = &self.planned;
    }

    /// What it tells at each instant.
    pub fn output(&self) -> OutputKind
        ensures { result ≡ self.now.output }
    {
        self.planned.output
    }

    /// Whether it shows all columns of all rows of one input's window, and no others. It may say no of
    /// one that does. Takes no memory.
    pub fn is_plain(&self) -> bool
        ensures { IsTrue result → IsPlain self.now }
    {
        let Planned {
            first,
            combined,
            ..
        } = &self.planned;
        let (Node::Join(join), Node::Shape(shape), None, None) = (
            &first.join,
            &first.shape,
            &first.distinct,
            combined,
        ) else {
            return false;
        };
        let Condition::Always = &join.condition else {
            return false;
        };
        if join.ports.len() != 1 || !shape.groups.is_empty() {
            return false;
        }
        are_columns(shape.items.as_slice(), shape.columns.len())
    }

    /// Whether both say the same. Takes no memory.
    pub fn is_equal(&self, other: &Plan) -> bool
        ensures { IsTrue result ↔ (self.now ≡ other.now) }
    {
        self.planned.is_equal(&other.planned)
    }
}
