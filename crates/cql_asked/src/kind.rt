// The kinds of commands.
use cql_core::Command;

/// What a command is, without its fields.
#[derive(Clone, Copy, PartialEq, Eq)]
pub enum Kind {
    Stream,
    Grant,
    Revoke,
    Put,
    Beat,
    Query,
    Fetch,
    Ack,
    Drop,
    List,
}

impl Kind {
    /// All of them, in order.
    pub const ALL: [Kind; 10] = [
        Kind::Stream,
        Kind::Grant,
        Kind::Revoke,
        Kind::Put,
        Kind::Beat,
        Kind::Query,
        Kind::Fetch,
        Kind::Ack,
        Kind::Drop,
        Kind::List,
    ];

    /// That of a command.
    pub fn of(command: &Command) -> Kind {
        match command {
            Command::Stream { .. } => Kind::Stream,
            Command::Grant { .. } => Kind::Grant,
            Command::Revoke { .. } => Kind::Revoke,
            Command::Put { .. } => Kind::Put,
            Command::Beat { .. } => Kind::Beat,
            Command::Query { .. } => Kind::Query,
            Command::Fetch { .. } => Kind::Fetch,
            Command::Ack { .. } => Kind::Ack,
            Command::Drop { .. } => Kind::Drop,
            Command::List => Kind::List,
        }
    }

    /// Its index among all, of which 0 is the first.
    pub fn index(self) -> usize {
        self as usize
    }

    /// The word of its lines.
    pub fn word(self) -> &'static str {
        match self {
            Kind::Stream => "stream",
            Kind::Grant => "grant",
            Kind::Revoke => "revoke",
            Kind::Put => "put",
            Kind::Beat => "beat",
            Kind::Query => "query",
            Kind::Fetch => "fetch",
            Kind::Ack => "ack",
            Kind::Drop => "drop",
            Kind::List => "list",
        }
    }
}
