//! Answers: the blocks of a query's output over the rows that were taken out for it, in one walk
//! over these rows.
#![tactic(auto)]

mod answered;
mod evaluate;
mod evaluator;
mod passing;
mod pin;
mod pool;
mod projected_walk;
mod query_key;
mod shown;
mod walks;
mod warm;

pub use answered::Answer;
pub use evaluate::answer;
pub use evaluator::Evaluator;
pub use pin::Pin;
pub use pool::{Lender, Pool, Pooled};
pub use query_key::{NO_QUERY, QueryKey};
pub use warm::{LastAnswer, MOST, Warm};
