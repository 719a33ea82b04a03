//! Whether a whole batch stands behind one that isn't whole.
//!
//! A batch is written only behind the sync of the one before it. So a front that is no batch, with a
//! whole one behind it, was damaged later; where none stands behind it, it may be the last one, torn.
ghost use Rattle.std.specs.Prelude.{◌≡◌, ◌≤◌, ◌++◌, List, ℕ, length, true, false, MatchResult};
ghost use Rattle.std.specs.Io.KnownBytes.{prepend_known};
ghost use Rattle.cql_lines.specs.Watched.{inner_of, has_failed};
ghost use Rattle.cql_journal.specs.Reading.{Stops};
ghost use Rattle.cql_journal.specs.Hidden.{ChainAt, Finds, GivesUp, NoFirst, Sees, Skips, Tells};

use crate::reading::{Front, ReadAhead, front_at, no_batch};
use crate::record::{CHAIN, Chain, FIRST, split_line};
use crate::recovery::RecoveryFault;
use cql_lines::Watched;
use std::io::Read;

/// What one step of a search tells.
#[derive(Clone, Copy)]
pub(crate) enum Searched {
    /// A whole batch stands at the front.
    Found,
    /// None begins in a front, which was taken.
    On,
    /// There is none.
    Over,
}

// Takes a line off the front, however long it is; tells whether there is one.
fn skip_line<R: Read>(ahead: &mut ReadAhead, reader: &mut Watched<R>) -> Result<bool, RecoveryFault>
    ensures { MatchResult result (Skips (prepend_known ahead.old (R.remaining (inner_of reader.old))) (prepend_known ahead.new (R.remaining (inner_of reader.new)))) (GivesUp (prepend_known ahead.old (R.remaining (inner_of reader.old))) (has_failed reader.new)) }
{
    for _ in 0..u64::MAX {
        let held = ahead.as_slice();
        if let Some((line, _)) = split_line(held) {
            let size = line.len() + 1;
            ahead.consume(size);
            return Ok(true);
        }
        let size = held.len();
        ahead.consume(size);
        match ahead.fill(reader) {
            Ok(true) => {}
            Ok(false) => return Ok(false),
            Err(fault) => return Err(fault),
        }
    }
    Err(RecoveryFault::TooMany)
}

// The chain that records at a front stand behind, if any do; it tells whether it is one.
fn chain_at(held: &[u8], chain: &mut Chain) -> bool
    requires { CHAIN ≤ length held.now }
    ensures some { result ≡ true → ChainAt held.now chain.new }
    ensures none { result ≡ false → (more : List ℕ) → NoFirst (held.now ++ more) }
{
    let (front, _) = held.split_at(CHAIN);
    chain.copy_from_slice(front);
    match split_line(front) {
        Some(_) => false,
        None => true,
    }
}

// What the front is, of whichever chain.
fn see<R: Read>(ahead: &mut ReadAhead, reader: &mut Watched<R>) -> Result<Front, RecoveryFault>
    requires { CHAIN ≤ length ahead.old }
    ensures { MatchResult result (Sees (prepend_known ahead.old (R.remaining (inner_of reader.old))) ahead.new (R.remaining (inner_of reader.new))) (Stops (has_failed reader.new)) }
{
    let mut chain = FIRST;
    if chain_at(ahead.as_slice(), &mut chain) {
        front_at(ahead, reader, &chain)
    } else {
        Ok(no_batch(0))
    }
}

// Takes the records of one chain off the front, or one line, where no whole batch stands there.
fn search_on<R: Read>(
    ahead: &mut ReadAhead,
    reader: &mut Watched<R>,
) -> Result<Searched, RecoveryFault>
    ensures { MatchResult result (Tells (prepend_known ahead.old (R.remaining (inner_of reader.old))) (prepend_known ahead.new (R.remaining (inner_of reader.new)))) (GivesUp (prepend_known ahead.old (R.remaining (inner_of reader.old))) (has_failed reader.new)) }
{
    match ahead.reach(reader, CHAIN) {
        Ok(true) => {}
        Ok(false) => return Ok(Searched::Over),
        Err(fault) => return Err(fault),
    }
    let front = match see(ahead, reader) {
        Ok(front) => front,
        Err(fault) => return Err(fault),
    };
    if front.size == 0 {
        return match skip_line(ahead, reader) {
            Ok(true) => Ok(Searched::On),
            Ok(false) => Ok(Searched::Over),
            Err(fault) => Err(fault),
        };
    }
    if front.is_batch {
        return Ok(Searched::Found);
    }
    ahead.consume(front.size);
    Ok(Searched::On)
}

/// Whether a whole batch with a record stands anywhere in what is to come, at the beginning of a line
/// and behind whichever chain. Memory stays flat, and no byte is read more than twice.
pub(crate) fn hides_batch<R: Read>(
    ahead: &mut ReadAhead,
    reader: &mut Watched<R>,
) -> Result<bool, RecoveryFault>
    ensures { MatchResult result (Finds (prepend_known ahead.old (R.remaining (inner_of reader.old)))) (GivesUp (prepend_known ahead.old (R.remaining (inner_of reader.old))) (has_failed reader.new)) }
{
    for _ in 0..u64::MAX {
        match search_on(ahead, reader) {
            Ok(Searched::Found) => return Ok(true),
            Ok(Searched::On) => {}
            Ok(Searched::Over) => return Ok(false),
            Err(fault) => return Err(fault),
        }
    }
    Err(RecoveryFault::TooMany)
}
