//! Rows in chunks that those who hold them share; and lists of numbered rows that share what they have
//! in common.
//!
//! Such a list is a balanced tree whose parts are shared: one with a row more or a row fewer is made
//! beside it, in a time that grows with the logarithm of its length.
#![tactic(auto)]

mod budget;
mod chunk;
mod chunks;
mod equals;
mod plain;
mod run;
mod seq;
mod stretch;
mod tree_rows;
mod waste;
mod words;

pub use budget::{Budget, weight};
pub use chunks::Chunks;
pub use equals::are_joined_equal;
pub use seq::{Numbered, Seq};
pub use stretch::Stretch;
pub use waste::Waste;
