// What a query tells at an instant.
ghost use Rattle.std.specs.Prelude.{◌≡◌, ◌↔◌, IsTrue};
ghost use Rattle.cql_algebra.specs.Output.{tells_no_row};

use cql_plan::Fault;
use cql_value::{Items, Row};

/// What a query tells at an instant. Rows ascend, each as often as it counts.
pub enum Output {
    /// Rows.
    Rows(Items<Row>),
    /// The rows that came, and those that went.
    Signed {
        /// The rows that came.
        plus: Items<Row>,
        /// The rows that went.
        minus: Items<Row>,
    },
    /// A relation that was asked has no value.
    Fault(Fault),
}

// One call drops an output, wherever one is let go.
impl Drop for Output {
    fn drop(self) {
        match self {
            Output::Rows(_rows) => {}
            Output::Signed {
                plus: _plus,
                minus: _minus,
            } => {}
            Output::Fault(_fault) => {}
        }
    }
}

impl Output {
    /// Whether no row is told. A fault isn't empty.
    pub fn is_empty(&self) -> bool
        ensures { result ≡ tells_no_row self.now }
    {
        match self {
            Output::Rows(rows) => rows.is_empty(),
            Output::Signed { plus, minus } => plus.is_empty() && minus.is_empty(),
            Output::Fault(_) => false,
        }
    }

    /// Whether both are the same output.
    pub fn is(&self, other: &Output) -> bool
        ensures { IsTrue result ↔ (self.now ≡ other.now) }
    {
        match (self, other) {
            (Output::Rows(a), Output::Rows(b)) => are_equal(a.as_slice(), b.as_slice()),
            (Output::Signed { plus: p, minus: m }, Output::Signed { plus: q, minus: n }) => {
                are_equal(p.as_slice(), q.as_slice()) && are_equal(m.as_slice(), n.as_slice())
            }
            (Output::Fault(a), Output::Fault(b)) => *a == *b,
            _ => false,
        }
    }
}

fn are_equal(a: &[Row], b: &[Row]) -> bool
    ensures { IsTrue result ↔ (a.now ≡ b.now) }
{
    a == b
}

/// A run of instants with equal output, both ends in ticks and among them.
#[derive(Drop)]
pub struct Block {
    /// The first instant.
    pub from: u64,
    /// The last instant.
    pub to: u64,
    /// What is told at each of them.
    pub output: Output,
}
