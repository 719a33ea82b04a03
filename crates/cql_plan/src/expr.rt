// Expressions over the columns of a row.

use cql_syntax::syntax::Operation;
use cql_value::{Boxed, Value};

/// An expression over the columns of one row, counted from 0.
#[derive(Drop)]
pub enum Expr {
    Column(usize),
    Constant(Value),
    Binary(Operation, Boxed<Expr>, Boxed<Expr>),
}
