// The relation of a query at an instant.

use cql_bag::Bag;
use cql_plan::Fault;

/// The relation of a query at an instant.
#[derive(Drop)]
pub enum Relation {
    /// Its rows.
    Bag(Bag),
    /// It has no value.
    Fault(Fault),
}
