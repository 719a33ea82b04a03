// Where a stub stands.
use crate::stub::StubId;
use cql_tenants::TenantId;

/// A stub among those of all streams.
#[derive(Clone, Copy)]
pub struct StubRef {
    /// The owner of its stream.
    pub owner: TenantId,
    /// The index of its stream among the owner's, of which 0 is the first.
    pub stream: usize,
    /// Its number in the stream's store.
    pub stub: StubId,
}
