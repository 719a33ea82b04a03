// Why commands are refused.
ghost use Rattle.std.specs.Prelude.{◌≡◌};
ghost use Rattle.cql_core.specs.Refusal.{number_of, name_of};

use cql_tenants::StreamRefusal;

/// Why a command is refused. A refusal changes nothing.
#[derive(Clone, Copy, PartialEq, Eq, Drop)]
pub enum Refusal {
    /// The tenant has a stream of that name (20).
    StreamExists,
    /// A stream's or query's new name is no name (21).
    BadName,
    /// No column or more than 16, a column's name that is none, two equal names, or a type other
    /// than `int` and `text` (22).
    BadColumns,
    /// The tenant's quota of streams is used up (23).
    TooManyStreams,
    /// No such stream, or none that the tenant may read; for a put or a heartbeat none of its own
    /// (30).
    UnknownStream,
    /// The tenant isn't in the table (31).
    UnknownTenant,
    /// The stream was granted to that tenant before (32).
    AlreadyGranted,
    /// A stream is granted to its own owner (33).
    SelfGrant,
    /// A grant names no column, one that the stream hasn't, or one twice (34).
    BadGrantColumns,
    /// The stream isn't granted to that tenant (35).
    NotGranted,
    /// Another number of values than of columns, or a value of another type (40).
    WrongRow,
    /// The time is below the least that the stream still takes (41).
    Late,
    /// The time is above 2^62 - 1 (42).
    AtTooLarge,
    /// The text is no query, first at this byte (50).
    BadQuery { at: usize },
    /// No input has the column (52).
    UnknownColumn,
    /// More than one input has the column, or two inputs have one alias (53).
    AmbiguousColumn,
    /// Types that don't go together (54).
    TypeMismatch,
    /// The tenant's quota of queries is used up (55).
    TooManyQueries,
    /// The tenant has a query of that name (56).
    QueryExists,
    /// The tenant has no query of that name (57).
    UnknownQuery,
    /// A window of the query had more rows to hold than its tenant may have (60).
    Overrun,
    /// The instant is above the query's limit (61).
    Ahead,
    /// The instant is below the query's cursor (62).
    Behind,
    /// The grant of one of the query's streams was taken back (63).
    Revoked,
    /// There was no memory (70).
    NoMemory,
}

impl Refusal {
    /// The number by which a line tells it.
    pub fn number(self) -> u64
        ensures { result ≡ number_of self }
    {
        match self {
            Refusal::StreamExists => 20,
            Refusal::BadName => 21,
            Refusal::BadColumns => 22,
            Refusal::TooManyStreams => 23,
            Refusal::UnknownStream => 30,
            Refusal::UnknownTenant => 31,
            Refusal::AlreadyGranted => 32,
            Refusal::SelfGrant => 33,
            Refusal::BadGrantColumns => 34,
            Refusal::NotGranted => 35,
            Refusal::WrongRow => 40,
            Refusal::Late => 41,
            Refusal::AtTooLarge => 42,
            Refusal::BadQuery { .. } => 50,
            Refusal::UnknownColumn => 52,
            Refusal::AmbiguousColumn => 53,
            Refusal::TypeMismatch => 54,
            Refusal::TooManyQueries => 55,
            Refusal::QueryExists => 56,
            Refusal::UnknownQuery => 57,
            Refusal::Overrun => 60,
            Refusal::Ahead => 61,
            Refusal::Behind => 62,
            Refusal::Revoked => 63,
            Refusal::NoMemory => 70,
        }
    }

    /// The name by which a line tells it.
    pub fn name(self) -> &'static str
        ensures { result.now ≡ name_of self }
    {
        match self {
            Refusal::StreamExists => "StreamExists",
            Refusal::BadName => "BadName",
            Refusal::BadColumns => "BadColumns",
            Refusal::TooManyStreams => "TooManyStreams",
            Refusal::UnknownStream => "UnknownStream",
            Refusal::UnknownTenant => "UnknownTenant",
            Refusal::AlreadyGranted => "AlreadyGranted",
            Refusal::SelfGrant => "SelfGrant",
            Refusal::BadGrantColumns => "BadGrantColumns",
            Refusal::NotGranted => "NotGranted",
            Refusal::WrongRow => "WrongRow",
            Refusal::Late => "Late",
            Refusal::AtTooLarge => "AtTooLarge",
            Refusal::BadQuery { .. } => "BadQuery",
            Refusal::UnknownColumn => "UnknownColumn",
            Refusal::AmbiguousColumn => "AmbiguousColumn",
            Refusal::TypeMismatch => "TypeMismatch",
            Refusal::TooManyQueries => "TooManyQueries",
            Refusal::QueryExists => "QueryExists",
            Refusal::UnknownQuery => "UnknownQuery",
            Refusal::Overrun => "Overrun",
            Refusal::Ahead => "Ahead",
            Refusal::Behind => "Behind",
            Refusal::Revoked => "Revoked",
            Refusal::NoMemory => "NoMemory",
        }
    }
}

impl From<StreamRefusal> for Refusal {
    ghost use Rattle.std.specs.Prelude.{◌≡◌};
    ghost use Rattle.cql_core.specs.Refusal.{refusal_of};

    ghost from_gives = { λ refused refusal. refusal ≡ refusal_of refused };

    fn from(refused: StreamRefusal) -> Refusal {
        match refused {
            StreamRefusal::StreamExists => Refusal::StreamExists,
            StreamRefusal::BadName => Refusal::BadName,
            StreamRefusal::BadColumns => Refusal::BadColumns,
            StreamRefusal::TooManyStreams => Refusal::TooManyStreams,
            StreamRefusal::UnknownStream => Refusal::UnknownStream,
            StreamRefusal::UnknownTenant => Refusal::UnknownTenant,
            StreamRefusal::AlreadyGranted => Refusal::AlreadyGranted,
            StreamRefusal::SelfGrant => Refusal::SelfGrant,
            StreamRefusal::BadGrantColumns => Refusal::BadGrantColumns,
            StreamRefusal::NotGranted => Refusal::NotGranted,
            StreamRefusal::WrongRow => Refusal::WrongRow,
            StreamRefusal::Late => Refusal::Late,
            StreamRefusal::AtTooLarge => Refusal::AtTooLarge,
        }
    }
}
