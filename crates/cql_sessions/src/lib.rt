//! Sessions of callers: one over any reader and writer, and one between two pieces of its input, at a
//! connection that never waits for long.
#![tactic(auto)]

mod callable;
mod caller;
mod connection;
mod ending;
mod in_hand;
mod login;
mod parting;
mod request;
mod session_buffers;
mod session_state;
mod sessions;
mod socket;
mod spare_room;
mod turn_length;
mod withheld;

pub use callable::Callable;
pub use caller::Service;
pub use connection::{Connected, Connection, Permit, WaitsFor};
pub use ending::Ending;
pub use session_buffers::SessionBuffers;
pub use sessions::{SessionEnd, session};
pub use socket::Socket;
