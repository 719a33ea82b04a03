//! Bytes that are read in blocks, ahead of what is taken of them, and the batch that they begin with.
ghost use Rattle.std.specs.Prelude.{◌≡◌, ◌≤◌, ◌++◌, [], drop, length, true, false, IfOk, MatchResult};
ghost use Rattle.std.specs.Io.KnownBytes.{prepend_known};
ghost use Rattle.cql_lines.specs.Watched.{inner_of, has_failed};
ghost use Rattle.cql_journal.specs.Record.{IsChain};
ghost use Rattle.cql_journal.specs.Reading.{Fills, Follows, Fronts, Reaches, Stops};

use crate::record::{CHAIN, Chain, chain_after, record_in, split_line};
use crate::recovery::RecoveryFault;
use cql_lines::Watched;
use std::alloc::{AllocError, Global};
use std::io::Read;
use std::marker::Model;

/// How many bytes are read at once.
const BLOCK: usize = 65_536;

/// The most bytes that a batch has.
pub const MAX_BATCH: usize = 16_777_216;

// Puts a piece behind the bytes from a place on, and lets go of those before it; tells whether there was memory.
fn grow(held: &mut Vec<u8>, start: usize, piece: &[u8]) -> bool
    requires { start ≤ length held.old.items }
    ensures { result ≡ true → held.new.items ≡ drop start held.old.items ++ piece.now }
{
    if start == 0 {
        return held.extend_from_slice(piece).is_ok();
    }
    let Ok(rest) = held.split_off(start) else {
        return false;
    };
    *held = rest;
    held.extend_from_slice(piece).is_ok()
}

/// The bytes that were read and not yet taken.
#[derive(Drop)]
pub(crate) struct ReadAhead {
    block: Vec<u8>,
    held: Vec<u8>,
    start: usize,
}

impl Model for ReadAhead {
    ghost use Rattle.std.specs.Prelude.{List, ℕ, ◌≡◌, ◌≤◌, drop, length};
    ghost use Rattle.cql_journal.specs.declared.reading.TheConstants.{BLOCK};

    ghost Value = { List ℕ };

    ghost view = { λ a. drop a.start a.held.items };

    ghost invariant = { λ a. (a.start ≤ length a.held.items) × (length a.block.items ≡ BLOCK) };
}

impl ReadAhead {
    /// Nothing is read yet.
    pub fn new(alloc: Global) -> Result<ReadAhead, AllocError>
        ensures { IfOk result (λ ahead. ahead ≡ []) }
    {
        Ok(ReadAhead {
            block: vec![in alloc; 0; BLOCK]?,
            held: Vec::new(alloc),
            start: 0,
        })
    }

    /// The bytes themselves.
    pub fn as_slice(&self) -> &[u8]
        ensures { result.now ≡ self.now }
    {
        &self.held[self.start..]
    }

    /// Takes bytes off the front.
    pub fn consume(&mut self, count: usize)
        requires { count ≤ length self.old }
        ensures { self.new ≡ drop count self.old }
    {
        self.start += count;
    }

    /// Reads a block more, and tells whether anything came. After an `Err` nothing is to be taken.
    pub fn fill<R: Read>(&mut self, reader: &mut Watched<R>) -> Result<bool, RecoveryFault>
        ensures { MatchResult result (λ more. Fills self.old self.new (R.remaining (inner_of reader.old)) (R.remaining (inner_of reader.new)) more) (Stops (has_failed reader.new)) }
    {
        let Ok(count) = reader.read(&mut self.block) else {
            return Err(RecoveryFault::Failed);
        };
        let is_grown = grow(&mut self.held, self.start, &self.block[..count]);
        self.start = 0;
        if is_grown {
            Ok(count > 0)
        } else {
            Err(RecoveryFault::NoMemory)
        }
    }

    /// Reads until so many bytes are there; tells whether they are.
    pub fn reach<R: Read>(
        &mut self,
        reader: &mut Watched<R>,
        count: usize,
    ) -> Result<bool, RecoveryFault>
        ensures { MatchResult result (Reaches self.old (R.remaining (inner_of reader.old)) self.new (R.remaining (inner_of reader.new)) count) (Stops (has_failed reader.new)) }
    {
        while self.as_slice().len() < count {
            match self.fill(reader) {
                Ok(true) => {}
                Ok(false) => return Ok(false),
                Err(fault) => return Err(fault),
            }
        }
        Ok(true)
    }
}

/// What stands behind the records at a front.
#[derive(Clone, Copy)]
enum Next {
    /// A record more, of so many bytes with its line feed.
    Record(usize),
    /// The commit line, and the batch isn't too long.
    Commit,
    /// A line that is neither.
    Wrong,
    /// No whole line.
    Part,
}

// What stands behind the records of a batch behind a chain.
fn next_line(chain: &Chain, before: &[u8], rest: &[u8]) -> Next
    ensures { Follows chain.now before.now rest.now result }
{
    let Some((line, _)) = split_line(rest) else {
        return Next::Part;
    };
    if record_in(chain, line).is_some() {
        return Next::Record(line.len() + 1);
    }
    if before.len() + CHAIN < MAX_BATCH && line == chain_after(chain, before).as_slice() {
        return Next::Commit;
    }
    Next::Wrong
}

/// What stands at a front.
#[derive(Clone, Copy)]
pub(crate) struct Front {
    /// So many bytes are records of a batch behind the chain.
    pub(crate) size: usize,
    /// A commit line stands behind them: they are a whole batch.
    pub(crate) is_batch: bool,
}

// So many bytes of records, and no commit line.
pub(crate) fn no_batch(size: usize) -> Front
    ensures { result ≡ record { size = size; is_batch = false } }
{
    Front {
        size,
        is_batch: false,
    }
}

/// What stands at the front behind a chain: as many records as there are, and whether they are a whole
/// batch. It reads as far as it has to.
pub(crate) fn front_at<R: Read>(
    ahead: &mut ReadAhead,
    reader: &mut Watched<R>,
    chain: &Chain,
) -> Result<Front, RecoveryFault>
    requires { IsChain chain.now }
    ensures { MatchResult result (Fronts chain.now (prepend_known ahead.old (R.remaining (inner_of reader.old))) ahead.new (R.remaining (inner_of reader.new))) (Stops (has_failed reader.new)) }
{
    let mut size = 0;
    loop {
        let held = ahead.as_slice();
        let (before, rest) = held.split_at(size);
        match next_line(chain, before, rest) {
            Next::Record(more) => size += more,
            Next::Commit => {
                return Ok(Front {
                    size,
                    is_batch: true,
                });
            }
            Next::Wrong => return Ok(no_batch(size)),
            Next::Part => {
                if held.len() >= MAX_BATCH {
                    return Ok(no_batch(size));
                }
                match ahead.fill(reader) {
                    Ok(true) => {}
                    Ok(false) => return Ok(no_batch(size)),
                    Err(fault) => return Err(fault),
                }
            }
        }
    }
}
