//! The hall: many callers, and one core under a lock. A call holds the lock for one step and its
//! entry in the journal; what a fetch pins is answered outside it.
#![tactic(auto)]

mod audits;
mod book;
mod claims;
mod durability;
mod feed;
mod filed_book;
mod filings;
mod gate;
mod hall;
mod journal;
pub mod law;
mod one_tenant;
mod replaying;
mod sent;

pub use audits::{AuditError, audit};
pub use book::{Book, Entered};
pub use cql_asked::Kind;
pub use durability::Durability;
pub use filings::{Filing, Filings, FilingsIter};
pub use gate::{EndReason, Gate, OpenGate, Point};
pub use hall::{Demanded, Ended, Hall, Pending, Receipt, Seat, SeatsMissing};
pub use journal::{Bare, Entry, Journal, Kept};
pub use one_tenant::audit_alone;
