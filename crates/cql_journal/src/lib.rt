//! A journal of the calls that changed a core, as bytes: how calls are written, in batches that count
//! whole or not at all, and how they are read again.
#![tactic(auto)]

mod batch;
pub mod law;
mod reading;
mod record;
mod recovery;
mod replaying;
mod searching;
mod starting;
mod state_machine;

pub use batch::{Batch, BatchFault};
pub use reading::MAX_BATCH;
pub use record::{CHAIN, Chain, FIRST, Record};
pub use recovery::{Onlooker, Recovered, RecoveryFault, Untold, recover};
pub use replaying::{Unfit, UnfitRecord};
pub use starting::HEADING;
pub use state_machine::StateMachine;
