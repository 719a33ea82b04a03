// Replies that wait until what they rest on is durable.
ghost use Rattle.std.specs.Prelude.{◌≡◌, ◌-◌, ◌&&◌, ◌||◌, false, nat_lt};

use cql_hall::Durability;

// While so many records more wait to be durable, no further line is answered.
const MOST_WAITING: u64 = 4_096;

/// How many records of a journal's file the replies of a caller rest on, how many are durable, whether so much
/// is queued that no more is to come, and whether there is such a file.
#[derive(Clone, Copy)]
pub(crate) struct Withheld {
    pub is_filing: bool,
    pub due: u64,
    pub durable: u64,
    pub is_full: bool,
}

impl Withheld {
    /// No reply rests on any record.
    pub(crate) fn new() -> Withheld
        ensures { result ≡ record { is_filing = false; due = 0; durable = 0; is_full = false } }
    {
        Withheld {
            is_filing: false,
            due: 0,
            durable: 0,
            is_full: false,
        }
    }

    /// What replies rest on that rest on so many records.
    pub(crate) fn of(due: u64, durability: &Durability) -> Withheld
        ensures { (result.due ≡ due) × (result.is_filing ≡ durability.now.is_filing) }
    {
        Withheld {
            is_filing: durability.is_filing(),
            due,
            durable: durability.durable(),
            is_full: durability.is_full(),
        }
    }

    /// Whether no reply may be let go yet: one rests on a record that isn't durable.
    pub(crate) fn holds(self) -> bool
        ensures { result ≡ nat_lt self.durable self.due }
    {
        self.due > self.durable
    }

    /// Whether so many records wait to be durable, or some do and so much is queued, that no further line is
    /// answered.
    pub(crate) fn is_far(self) -> bool
        ensures { result ≡ (nat_lt MOST_WAITING (self.due - self.durable) || (nat_lt self.durable self.due && self.is_full)) }
    {
        self.due.saturating_sub(self.durable) > MOST_WAITING || self.holds() && self.is_full
    }
}
