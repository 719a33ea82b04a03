//! The first line of a journal's file.
ghost use Rattle.std.specs.Prelude.{◌≡◌, ◌≢◌, ◌++◌, List, ℕ, true, false, IfSome, IfNone, MatchResult};
ghost use Rattle.std.specs.Io.KnownBytes.{prepend_known};
ghost use Rattle.cql_lines.specs.Watched.{inner_of, has_failed};
ghost use Rattle.cql_journal.specs.Record.{heading};
ghost use Rattle.cql_journal.specs.Starting.{Begins, IsNoFile};

use crate::reading::ReadAhead;
use crate::recovery::RecoveryFault;
use cql_lines::Watched;
use std::io::Read;

/// A file's first line, with its line feed: the format's number.
pub const HEADING: [u8; 17] = *b"0000000000000001\n";

// What is behind these bytes in the first line; none where it doesn't begin with them.
fn lost_of(held: &[u8]) -> Option<&'static [u8]>
    ensures some { IfSome result (λ lost. heading ≡ held.now ++ lost.now) }
    ensures none { IfNone result ((lost : List ℕ) → heading ≢ held.now ++ lost) }
{
    HEADING.as_slice().strip_prefix(held)
}

// Whether these bytes begin with the first line.
fn has_heading(held: &[u8]) -> bool
    ensures some { result ≡ true → (behind : List ℕ) × (held.now ≡ heading ++ behind) }
    ensures none { result ≡ false → (behind : List ℕ) → held.now ≢ heading ++ behind }
{
    match held.strip_prefix(HEADING.as_slice()) {
        Some(_) => true,
        None => false,
    }
}

/// Takes the first line, where the file begins with it; tells whether it does. Else the file is empty, or a part
/// of the first line.
pub(crate) fn take_heading<R: Read>(
    ahead: &mut ReadAhead,
    reader: &mut Watched<R>,
) -> Result<bool, RecoveryFault>
    ensures { MatchResult result (Begins (prepend_known ahead.old (R.remaining (inner_of reader.old))) (prepend_known ahead.new (R.remaining (inner_of reader.new)))) (IsNoFile (prepend_known ahead.old (R.remaining (inner_of reader.old))) (has_failed reader.new)) }
{
    match ahead.reach(reader, HEADING.len()) {
        Err(fault) => Err(fault),
        Ok(false) => match lost_of(ahead.as_slice()) {
            Some(_) => Ok(false),
            None => Err(RecoveryFault::OtherFormat),
        },
        Ok(true) => {
            if !has_heading(ahead.as_slice()) {
                return Err(RecoveryFault::OtherFormat);
            }
            ahead.consume(HEADING.len());
            Ok(true)
        }
    }
}
