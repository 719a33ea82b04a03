// How long a turn is, by what it does.

ghost use Rattle.std.specs.Prelude.{◌≡◌, ◌≤◌, true};

use cql_hall::Gate;

/// The most lines of one turn.
pub(crate) const LINES: u32 = 256;

// Behind so many bytes of replies a turn ends.
const BYTES: usize = 64 << 10;

// Behind so many nanoseconds a turn ends, by the gate's clock.
const NANOS: u64 = 1_000_000;

// The clock is read once in so many lines.
const LOOK: u32 = 4;

/// When a turn has begun, which ends behind so many lines, bytes or nanoseconds, whichever come first.
#[derive(Clone, Copy)]
pub(crate) struct TurnLength {
    begun: u64,
}

impl TurnLength {
    /// One that begins now.
    pub(crate) fn begin<G: Gate>(gate: &G) -> TurnLength {
        TurnLength {
            begun: gate.nanos(),
        }
    }

    /// Whether it ends before the line of this index, where so many bytes were written.
    pub(crate) fn is_over<G: Gate>(self, gate: &G, line: u32, written: usize) -> bool
        ensures { BYTES ≤ written → result ≡ true }
    {
        let looks = line > 0 && line % LOOK == 0;
        written >= BYTES || looks && gate.nanos().saturating_sub(self.begun) >= NANOS
    }
}
