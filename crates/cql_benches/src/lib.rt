//! The benches that threads borrow for the answers that they compute, and what each thread computes at
//! present: by that an answer is given up which takes too long, or whose caller has gone.
#![tactic(auto)]

mod answers;
mod benches;
mod shared_pool;

pub use answers::Answers;
pub use benches::benches_of;
pub use shared_pool::{Borrowing, Rooms, SharedPool, borrowing};
