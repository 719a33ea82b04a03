//! The plain operators: a join and a shape that keep nothing by key, which keyed ones may replace,
//! and the bench of them.
#![tactic(auto)]

mod difference;
mod filtered;
mod group;
mod items;
mod join;
mod join_copy;
mod join_rows;
mod last_port;
mod log;
mod made;
mod once;
mod plain;
mod plain_join;
mod plain_shape;
mod projected;
mod recomputed;
mod shape;
mod shape_copy;

pub use group::{choose, key};
pub use join_copy::copy_of_join;
pub use once::said_once;
pub use plain::{PlainOperator, plain_bench};
pub use plain_join::PlainJoin;
pub use plain_shape::PlainShape;
pub use shape_copy::copy_of_shape;
