// What the rows of a store take.

use cql_chunks::Chunks;
use cql_value::{Timed, Value};
use std::alloc::{AllocError, Global};
use std::collections::VecDeque;

// A row takes about so many bytes, each of its values so many more, and a text these beside its own.
const ROW: u64 = 96;

const VALUE: u64 = 16;

const TEXT: u64 = 48;

// So many rows are counted together.
const TOGETHER: usize = 128;

/// Counts about how many bytes the rows of a store take, as they come and so many together. So none
/// is looked at when it goes.
#[derive(Drop)]
pub(crate) struct RowBytes {
    // Of each so many rows of which one is left, in order of coming.
    counts: VecDeque<u64>,
    // So many counts are gone.
    gone: usize,
    // What is counted in all.
    sum: u64,
}

impl RowBytes {
    /// No rows.
    pub(crate) fn new(alloc: Global) -> RowBytes {
        RowBytes {
            counts: VecDeque::new(alloc),
            gone: 0,
            sum: 0,
        }
    }

    /// Makes room for one more row.
    pub(crate) fn reserve(&mut self) -> Result<(), AllocError> {
        self.counts.reserve(1)
    }

    /// A row of so many bytes comes behind so many others. Takes no memory where there is room.
    pub(crate) fn add(&mut self, came: usize, bytes: u64) {
        if came / TOGETHER >= self.gone.saturating_add(self.counts.len()) {
            drop(self.counts.push_back(0));
        }
        if let Some(last) = self.counts.back_mut() {
            *last = last.saturating_add(bytes);
            self.sum = self.sum.saturating_add(bytes);
        }
    }

    /// So many rows are gone.
    pub(crate) fn let_go(&mut self, rows: usize) {
        let gone = rows / TOGETHER;
        for _ in self.gone..gone {
            if let Some(bytes) = self.counts.pop_front() {
                self.sum = self.sum.saturating_sub(bytes);
            }
        }
        self.gone = self.gone.max(gone);
    }

    /// About how many bytes the rows take that are left behind so many. It looks at rows of the first
    /// count alone.
    pub(crate) fn of(&self, rows: &Chunks, gone: usize) -> u64 {
        let first = (TOGETHER - gone % TOGETHER).min(rows.len());
        let counted = self.counts.front().copied().unwrap_or(0);
        let mut bytes = self.sum.saturating_sub(counted);
        for row in rows.range(0, first) {
            bytes = bytes.saturating_add(bytes_of(row));
        }
        bytes
    }
}

/// About how many bytes a row takes that no other holds, with its texts.
pub(crate) fn bytes_of(row: &Timed) -> u64 {
    let mut bytes = ROW;
    for value in row.row().values() {
        bytes = bytes.saturating_add(VALUE);
        if let Value::Text(text) = value {
            let text = TEXT.saturating_add(text.len() as u64);
            bytes = bytes.saturating_add(text);
        }
    }
    bytes
}
