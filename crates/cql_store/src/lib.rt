//! One list of rows for all windows on a stream, and the stores of all streams, by owner and in order
//! of making.
//!
//! A store keeps the rows of a stream once, for every window of every query on it. A window is
//! attached as a stub, which knows where its content and its unseen rows stand among the store's
//! rows. A row goes once every stub has let it go. Who needs it longest is the least of many numbers,
//! of which one at a time is changed.
//!
//! What a window of parts keeps, the newest rows of each part, stands in trees whose parts are shared,
//! so that those after some more rows are made beside those before, in a time that grows with the
//! logarithm of how many there are.
//!
//! Each stream has a store of its own; a stub on it has a `StubRef`: the owner, the index of
//! the stream among the owner's, and the stub's number in the store.
//!
//! Contracts see a store as its stubs, each under its number: its window, its cursor, its hold,
//! its content, its unseen rows, and whether it is overrun; and all stores as the stubs of each, by
//! owner and stream.
#![tactic(auto)]

mod coming;
mod kept_parts;
pub mod law;
mod made;
mod moves;
mod owner_streams;
mod part;
mod parted;
pub mod ready;
mod retention_index;
mod row_bytes;
pub mod store;
mod stores;
pub mod streams_law;
mod stub;
mod stub_ref;

pub use ready::Ready;
pub use store::Store;
pub use stores::Stores;
pub use stub::StubId;
pub use stub_ref::StubRef;
