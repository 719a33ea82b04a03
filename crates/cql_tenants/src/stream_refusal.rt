// Why commands on streams are refused.

use crate::clock::ClockError;
use thiserror::Error;

/// Why a command on streams is refused. A refusal changes nothing.
#[derive(Clone, Copy, Debug, PartialEq, Eq, Error)]
pub enum StreamRefusal {
    /// The tenant has a stream of that name (20).
    #[error("stream exists")]
    StreamExists,
    /// A stream's new name is no name (21).
    #[error("bad name")]
    BadName,
    /// The columns are no schema (22).
    #[error("bad columns")]
    BadColumns,
    /// The tenant's quota of streams is used up (23).
    #[error("too many streams")]
    TooManyStreams,
    /// The tenant has no stream of that name (30).
    #[error("unknown stream")]
    UnknownStream,
    /// The tenant isn't in the table (31).
    #[error("unknown tenant")]
    UnknownTenant,
    /// The stream was granted to that tenant before (32).
    #[error("already granted")]
    AlreadyGranted,
    /// A stream is granted to its own owner (33).
    #[error("granted to itself")]
    SelfGrant,
    /// A grant names no column, one that the stream hasn't, or one twice (34).
    #[error("bad grant columns")]
    BadGrantColumns,
    /// The stream isn't granted to that tenant (35).
    #[error("not granted")]
    NotGranted,
    /// The row isn't one of the stream's schema (40).
    #[error("wrong row")]
    WrongRow,
    /// The time is below the least that the stream still takes (41).
    #[error("late")]
    Late,
    /// The time is above 2^62 - 1 (42).
    #[error("time too large")]
    AtTooLarge,
}

impl From<ClockError> for StreamRefusal {
    ghost use Rattle.std.specs.Prelude.{◌≡◌};
    ghost use Rattle.cql_tenants.specs.Refusal.{clock_refusal};

    ghost from_gives = { λ error refusal. refusal ≡ clock_refusal error };

    fn from(error: ClockError) -> StreamRefusal {
        match error {
            ClockError::Late => StreamRefusal::Late,
            ClockError::AtTooLarge => StreamRefusal::AtTooLarge,
        }
    }
}
