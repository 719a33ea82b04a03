// The clock of a stream.
ghost use Rattle.std.specs.Prelude.{◌≡◌, ◌+◌, ◌≤◌, ◌^◌, None, OnOk, OnErr};
ghost use Rattle.std.specs.Result.{result_err};
ghost use Rattle.cql_tenants.specs.Clock.{time_fault};

use std::marker::Model;
use thiserror::Error;

/// The greatest instant, in ticks.
const GREATEST: u64 = 4_611_686_018_427_387_903;

/// The least time, in ticks, that a stream still takes: at first 0, at most 2^62. Contracts see
/// that number.
#[derive(Drop)]
pub struct Clock {
    opened: u64,
}

impl Model for Clock {
    ghost use Rattle.std.specs.Prelude.{ℕ, ◌≤◌, ◌^◌};

    ghost Value = { ℕ };

    ghost view = { λ c. c.opened };

    ghost invariant = { λ c. c.opened ≤ 2 ^ 62 };
}

/// Why a stream doesn't take a time.
#[derive(Clone, Copy, Debug, PartialEq, Eq, Error)]
pub enum ClockError {
    /// The time is below the least that the stream still takes (41).
    #[error("late")]
    Late,
    /// The time is above 2^62 - 1 (42).
    #[error("time too large")]
    AtTooLarge,
}

impl Clock {
    /// The clock of a stream to which nothing has come.
    pub fn new() -> Clock
        ensures { result ≡ 0 }
    {
        Clock { opened: 0 }
    }

    /// The least time, in ticks, that the stream still takes.
    pub fn opened(&self) -> u64
        ensures value { result ≡ self.now }
        ensures bounded { self.now ≤ 2 ^ 62 }
    {
        self.opened
    }

    // Whether the stream takes the time.
    pub(crate) fn takes(&self, at: u64) -> Result<(), ClockError>
        ensures { result_err result ≡ time_fault self.now at }
    {
        if at > GREATEST {
            Err(ClockError::AtTooLarge)
        } else if at < self.opened {
            Err(ClockError::Late)
        } else {
            Ok(())
        }
    }

    // A row came at a time that the stream takes.
    pub(crate) fn came(&mut self, at: u64)
        requires { time_fault self.old at ≡ None }
        ensures { self.new ≡ at }
    {
        self.opened = at;
    }

    /// A row comes at this time: no earlier one is taken any more. One that is refused changes
    /// nothing, by `AtTooLarge` (42) before `Late` (41).
    pub fn put(&mut self, at: u64) -> Result<(), ClockError>
        ensures fault { result_err result ≡ time_fault self.old at }
        ensures ok { OnOk result (self.new ≡ at) }
        ensures err { OnErr result (self.new ≡ self.old) }
    {
        self.takes(at)?;
        self.opened = at;
        Ok(())
    }

    /// A heartbeat: only later times than this one are taken any more. One that is refused changes
    /// nothing, by `AtTooLarge` (42) before `Late` (41).
    pub fn beat(&mut self, at: u64) -> Result<(), ClockError>
        ensures fault { result_err result ≡ time_fault self.old at }
        ensures ok { OnOk result (self.new ≡ at + 1) }
        ensures err { OnErr result (self.new ≡ self.old) }
    {
        self.takes(at)?;
        self.opened = at + 1;
        Ok(())
    }
}
