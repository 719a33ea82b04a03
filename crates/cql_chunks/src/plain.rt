// Rows in chunks.
ghost use Rattle.std.specs.Prelude.{◌≡◌, ◌≤◌, ◌<◌, ◌^◌, ◌+◌, ◌-◌, [], ◌∷◌, ◌++◌, IfOk, OnOk, OnErr, length, drop, take, slice_index_or};
ghost use Rattle.cql_chunks.specs.Chunks.{rows_of, chunk_at, AreFull};

use crate::budget::{Budget, weight};
use crate::chunk::{Chunk, SIZE};
use crate::run::Run;
use crate::waste::Waste;
use cql_value::{Timed, copies_of};
use std::alloc::{AllocError, Global};
use std::collections::VecDeque;
use std::marker::Model;
use std::mem;

/// No list has more rows.
pub(crate) const LIMIT: usize = usize::MAX / 2;

// Last rows that are gone are kept, until all are gone, while they weigh fewer units.
const HEAVY: usize = 256;

// Of the last rows, where there are no others: so many are gone and weighed, and what they weigh.
#[derive(Clone, Copy)]
struct Weighed {
    rows: usize,
    units: usize,
}

const UNWEIGHED: Weighed = Weighed { rows: 0, units: 0 };

/// A list of rows. Full chunks of it are shared with those who take a part of it; the last rows,
/// fewer than a chunk, are its own.
#[derive(Drop)]
pub(crate) struct Plain {
    full: VecDeque<Chunk>,
    last: Vec<Timed>,
    // So many rows at the front are gone.
    gone: usize,
    // So many rows are in the chunks and the last.
    end: usize,
    weighed: Weighed,
}

impl Model for Plain {
    ghost use Rattle.std.specs.Prelude.{List, drop};
    ghost use Rattle.cql_value.specs.Element.{Element};
    ghost use Rattle.cql_chunks.specs.Chunks.{rows_of, AreChunks};

    ghost Value = { List Element };

    ghost view = { λ c. drop c.gone (rows_of c.full.items c.last.items) };

    ghost invariant = { λ c. AreChunks c.full.items c.last.items c.gone c.end };
}

// Makes room for one more of the last rows: where they are a whole chunk, they are put behind the
// full ones.
fn close(alloc: Global, full: &mut VecDeque<Chunk>, last: &mut Vec<Timed>) -> Result<(), AllocError>
    requires are_full { AreFull full.old.items }
    requires short { length last.old.items ≤ SIZE }
    ensures rows { rows_of full.new.items last.new.items ≡ rows_of full.old.items last.old.items }
    ensures are_full { AreFull full.new.items }
    ensures short { length last.new.items ≤ SIZE }
    ensures room { OnOk result (length last.new.items < SIZE) }
{
    if last.len() < SIZE {
        return Ok(());
    }
    full.reserve(1)?;
    let spare = Vec::with_capacity(alloc, SIZE)?;
    match Chunk::new(alloc, mem::replace(last, spare)) {
        Ok(chunk) => {
            match full.push_back(chunk) {
                Ok(()) => Ok(()),
                Err(_) => unreachable!(),
            }
        }
        Err(rows) => {
            *last = rows;
            Err(AllocError)
        }
    }
}

// Shares of so many chunks from an index on.
fn shares(
    alloc: Global,
    full: &VecDeque<Chunk>,
    from: usize,
    to: usize,
) -> Result<VecDeque<Chunk>, AllocError>
    requires order { from ≤ to }
    requires within { to ≤ length full.now.items }
    ensures { IfOk result (λ r. r.items ≡ take (to - from) (drop from full.now.items)) }
{
    let mut shared = VecDeque::with_capacity(alloc, to - from)?;
    for chunk in full.range(from..to) {
        shared.push_back(chunk.share()?)?;
    }
    Ok(shared)
}

// The rows of one chunk: behind the full ones it is the last rows.
fn chunk_of<'a>(full: &'a VecDeque<Chunk>, last: &'a [Timed], chunk: usize) -> &'a [Timed]
    requires { chunk ≤ length full.now.items }
    ensures { result.now ≡ chunk_at full.now.items last.now chunk }
{
    match full.get(chunk) {
        Some(full) => full.rows(),
        None => last,
    }
}

// The rows of one chunk as a run: behind the full ones it is the last rows, whose words aren't known.
fn run_of<'a>(full: &'a VecDeque<Chunk>, last: &'a [Timed], chunk: usize) -> Run<'a>
    requires { chunk ≤ length full.now.items }
    ensures { result ≡ chunk_at full.now.items last.now chunk }
{
    match full.get(chunk) {
        Some(full) => full.run(),
        None => Run::plain(last),
    }
}

// The row at an index of a chunk.
fn row_in(chunk: &[Timed], index: usize) -> &Timed
    requires { index < length chunk.now }
    ensures { result.now ≡ slice_index_or chunk.now index result.now }
{
    &chunk[index]
}

// The rows of a chunk from one index to another.
fn slice_in(chunk: &[Timed], from: usize, to: usize) -> &[Timed]
    requires order { from ≤ to }
    requires within { to ≤ length chunk.now }
    ensures { result.now ≡ take (to - from) (drop from chunk.now) }
{
    &chunk[from..to]
}

// The rows of a chunk from one index to another. They are shared.
fn copies_in(
    alloc: Global,
    chunk: &[Timed],
    from: usize,
    to: usize,
) -> Result<Vec<Timed>, AllocError>
    requires order { from ≤ to }
    requires within { to ≤ length chunk.now }
    ensures { IfOk result (λ r. r.items ≡ take (to - from) (drop from chunk.now)) }
{
    copies_of(alloc, slice_in(chunk, from, to))
}

// How many rows at the front the budget has units for, which it spends.
fn affordable(rows: &[Timed], budget: &mut Budget) -> usize
    ensures { result ≤ length rows.now }
{
    for (index, row) in rows.iter().enumerate() {
        if budget.units == 0 {
            return index;
        }
        budget.units = budget.units.saturating_sub(weight(row));
    }
    rows.len()
}

impl Plain {
    /// No rows.
    pub(crate) fn new(alloc: Global) -> Plain
        ensures { result ≡ [] }
    {
        Plain {
            full: VecDeque::new(alloc),
            last: Vec::new(alloc),
            gone: 0,
            end: 0,
            weighed: UNWEIGHED,
        }
    }

    /// How many rows there are.
    pub(crate) fn len(&self) -> usize
        ensures value { result ≡ length self.now }
        ensures small { result < 2 ^ 63 }
    {
        self.end - self.gone
    }

    /// One more row at the end. Memory for the rows of a chunk is taken once for each chunk. No
    /// list takes 2^63 rows: the last is refused as for want of memory.
    pub(crate) fn push(&mut self, alloc: Global, row: Timed) -> Result<(), AllocError>
        ensures ok { OnOk result (self.new ≡ self.old ++ row ∷ []) }
        ensures err { OnErr result (self.new ≡ self.old) }
    {
        if self.end == LIMIT {
            return Err(AllocError);
        }
        close(alloc, &mut self.full, &mut self.last)?;
        self.weighed = if self.last.is_empty() {
            UNWEIGHED
        } else {
            self.weighed
        };
        self.last.push(row)?;
        self.end += 1;
        Ok(())
    }

    /// So many rows at the front go. They are let go by `settle`.
    pub(crate) fn drop_front(&mut self, count: usize)
        requires { count ≤ length self.old }
        ensures { self.new ≡ drop count self.old }
    {
        if count == 0 {
            return;
        }
        self.gone += count;
        self.weigh();
    }

    // Weighs those of the last rows that went since, where there are no others. Each is weighed once.
    fn weigh(&mut self)
        ensures { self.new ≡ self.old }
    {
        if !self.full.is_empty() {
            return;
        }
        let rows = self.gone.min(self.last.len());
        let from = self.weighed.rows.min(rows);
        let mut units = self.weighed.units;
        for row in &self.last[from..rows] {
            units = units.saturating_add(weight(row));
        }
        self.weighed = Weighed { rows, units };
    }

    // Takes the first chunk out, where no row of it is left.
    fn take_chunk(&mut self) -> Option<Chunk>
        ensures { self.new ≡ self.old }
    {
        if self.gone < SIZE {
            return None;
        }
        let chunk = self.full.pop_front()?;
        self.gone -= SIZE;
        self.end -= SIZE;
        Some(chunk)
    }

    // Lets go of so many of the last rows that are gone as the budget has units for, where there are no
    // others and these are all or heavy.
    fn settle_last(&mut self, budget: &mut Budget)
        ensures { self.new ≡ self.old }
    {
        self.weigh();
        let is_heavy = self.weighed.units >= HEAVY;
        if !self.full.is_empty() || (!is_heavy && self.gone < self.end) {
            return;
        }
        let count = affordable(&self.last[..self.gone], budget);
        self.last.drain(..count);
        self.gone -= count;
        self.end -= count;
        self.weighed = UNWEIGHED;
        self.weigh();
        // room that stays amid heavy rows keeps what they took from the system
        if self.end == 0 && is_heavy {
            self.last.shrink_to_fit();
            self.full.shrink_to_fit();
        }
    }

    /// Lets go of the chunks of which no row is left, as far as the budget has units.
    pub(crate) fn settle(&mut self, waste: &mut Waste, budget: &mut Budget)
        ensures { self.new ≡ self.old }
    {
        waste.settle_rows(budget);
        for _ in 0..self.gone / SIZE {
            if budget.units == 0 {
                return;
            }
            let Some(chunk) = self.take_chunk() else {
                break;
            };
            // unless another holds the chunk
            waste.rows = chunk.into_rows();
            waste.settle_rows(budget);
        }
        self.settle_last(budget);
    }

    /// The row at an index.
    pub(crate) fn get(&self, index: usize) -> &Timed
        requires { index < length self.now }
        ensures { result.now ≡ slice_index_or self.now index result.now }
    {
        let at = self.gone + index;
        let chunk = (at / SIZE).min(self.full.len());
        row_in(chunk_of(&self.full, &self.last, chunk), at - SIZE * chunk)
    }

    /// Rows from an index on that lie in one chunk: one at least, and none from another index on.
    pub(crate) fn run(&self, from: usize, to: usize) -> Run<'_>
        requires order { from < to }
        requires within { to ≤ length self.now }
        ensures some { 0 < length result }
        ensures rows { result ≡ take (length result) (drop from self.now) }
        ensures within { from + length result ≤ to }
    {
        let start = self.gone + from;
        let chunk = (start / SIZE).min(self.full.len());
        let rows = run_of(&self.full, &self.last, chunk);
        let first = start - SIZE * chunk;
        rows.part(first, rows.len().min(first + (to - from)))
    }

    /// The rows of such a run, without their words.
    pub(crate) fn near(&self, from: usize, to: usize) -> &[Timed]
        requires order { from < to }
        requires within { to ≤ length self.now }
        ensures some { 0 < length result.now }
        ensures rows { result.now ≡ take (length result.now) (drop from self.now) }
        ensures within { from + length result.now ≤ to }
    {
        let start = self.gone + from;
        let chunk = (start / SIZE).min(self.full.len());
        let rows = chunk_of(&self.full, &self.last, chunk);
        let first = start - SIZE * chunk;
        slice_in(rows, first, rows.len().min(first + (to - from)))
    }

    /// The list of these rows.
    pub(crate) fn of(alloc: Global, rows: Vec<Timed>) -> Result<Plain, AllocError>
        ensures { IfOk result (λ r. r ≡ rows.items) }
    {
        let mut chunks = Plain::new(alloc);
        for row in rows {
            chunks.push(alloc, row)?;
        }
        Ok(chunks)
    }

    /// The same list. What is full is shared.
    pub(crate) fn share(&self, alloc: Global) -> Result<Plain, AllocError>
        ensures { IfOk result (λ r. r ≡ self.now) }
    {
        self.part(alloc, 0, self.len())
    }

    /// The rows from one index to another. Full chunks are shared, and rows that make no whole
    /// chunk at the end, fewer than 128, one by one.
    pub(crate) fn part(&self, alloc: Global, from: usize, to: usize) -> Result<Plain, AllocError>
        requires order { from ≤ to }
        requires within { to ≤ length self.now }
        ensures { IfOk result (λ r. r ≡ take (to - from) (drop from self.now)) }
    {
        let start = self.gone + from;
        let stop = self.gone + to;
        let whole = (stop / SIZE).min(self.full.len());
        let first = start / SIZE;
        let rest = chunk_of(&self.full, &self.last, whole);
        let over = stop - SIZE * whole;
        if whole <= first {
            let last = copies_in(alloc, rest, start - SIZE * whole, over)?;
            let end = last.len();
            let full = VecDeque::new(alloc);
            return Ok(Plain {
                full,
                last,
                gone: 0,
                end,
                weighed: UNWEIGHED,
            });
        }
        let full = shares(alloc, &self.full, first, whole)?;
        let last = copies_in(alloc, rest, 0, over)?;
        Ok(Plain {
            full,
            last,
            gone: start - SIZE * first,
            end: stop - SIZE * first,
            weighed: UNWEIGHED,
        })
    }
}
