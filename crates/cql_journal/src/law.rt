//! The laws of a journal: functions that do nothing, whose contracts are the laws.
ghost use Rattle.cql_journal.specs.Law.{IsRecordedLaw, IsRestartLaw};
ghost use Rattle.cql_journal.specs.Splits.{IsAppendLaw, IsFrontLaw, IsOneReadingLaw, IsRoundTripLaw};

use cql_core::law::{fetch_law, refusal_law, solo_law};

/// A text has one list of whole batches, and one rest behind them.
pub fn one_reading_law()
    ensures { IsOneReadingLaw }
{}

/// What is read of a file that was written are its batches, and nothing is left.
pub fn round_trip_law()
    ensures { IsRoundTripLaw }
{}

/// What is read of a file with a batch more, written behind its last chain, are its batches and this one.
pub fn append_law()
    ensures { IsAppendLaw }
{}

/// What is read of any front of a file that has its heading are the batches that are whole in it.
pub fn front_law()
    ensures { IsFrontLaw }
{}

/// Calls without those that are refused, fetches and lists lead to the same state.
pub fn recorded_law()
    ensures { IsRecordedLaw }
{
    refusal_law();
    fetch_law();
}

/// Whatever is called of servers of which each begins at what the journal leads to that those before it
/// have left, each tenant is told what its view of all their calls means: as if the first had never ended.
pub fn restart_law()
    ensures { IsRestartLaw }
{
    solo_law();
    recorded_law();
}
