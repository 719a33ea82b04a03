//! Reads queries of the continuous query language.
#![tactic(auto)]

mod block;
mod condition;
mod constant;
mod expression;
mod item;
mod query;
mod reader;
mod window;

pub use reader::{ReadError, Syntax, read, read_law};
