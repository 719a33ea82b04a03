//! The callers who are connected: how many there may be of each tenant, who looks what they send and who
//! has gone, who waits for a worker and whose turn it is, and whose time has passed.
#![tactic(auto)]

mod connection_table;
mod driver;
mod limits;
mod places;
mod poller;
mod run_queue;
mod scheduler;

pub use connection_table::{ConnectionTable, Turn};
pub use driver::Driver;
pub use limits::Limits;
pub use run_queue::{RunQueue, Task};
pub use scheduler::Scheduler;
