//! The operator of a shape that keeps a state for each group, and at `emit` computes rows only of
//! the groups that were pushed.
#![tactic(auto)]

mod accumulator;
mod group;
mod group_key;
mod group_map;
mod group_shape;
mod keyed_shape;
mod layout;
mod row;

pub use group_shape::GroupShape;
