//! The syntax of the continuous query language: tokens and a cursor over them, what a query text
//! says, and its canonical spelling.
#![tactic(auto)]

pub mod cursor;
mod lex;
mod print;
mod printer;
pub mod syntax;
pub mod token;

pub use lex::{Scanned, lexed, reserved_law};
pub use print::text_of;
