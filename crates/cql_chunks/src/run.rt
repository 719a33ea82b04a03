// Rows that lie together.
ghost use Rattle.std.specs.Prelude.{◌≡◌, ◌↔◌, ◌≤◌, ◌-◌, [], IsTrue, length, drop, take};
ghost use Rattle.cql_chunks.specs.Beside.{IsBeside};

use crate::words::are_equal;
use cql_value::{Timed, slices_equal};
use std::marker::Model;

/// Rows that lie together, and beside them their words, where these are known.
pub(crate) struct Run<'a> {
    rows: &'a [Timed],
    // So many words has each row; 0 where they aren't known.
    width: usize,
    words: &'a [i64],
}

impl<'a> Drop for Run<'a> {
    fn drop(self) {
        let Run {
            rows: _,
            width: _,
            words: _,
        } = self;
    }
}

impl<'a> Model for Run<'a> {
    ghost use Rattle.std.specs.Prelude.{List};
    ghost use Rattle.cql_value.specs.Element.{Element};
    ghost use Rattle.cql_chunks.specs.Beside.{IsBeside};

    ghost Value = { List Element };

    ghost view = { λ r. r.rows.now };

    ghost invariant = { λ r. IsBeside r.width r.words.now r.rows.now };
}

impl<'a> Run<'a> {
    /// Rows with so many words each, which lie beside them.
    pub(crate) fn new(rows: &'a [Timed], width: usize, words: &'a [i64]) -> Run<'a>
        requires { IsBeside width words.now rows.now }
        ensures { result ≡ rows.now }
    {
        Run { rows, width, words }
    }

    /// Rows whose words aren't known.
    pub(crate) fn plain(rows: &'a [Timed]) -> Run<'a>
        ensures { result ≡ rows.now }
    {
        Run::new(rows, 0, &[])
    }

    /// The rows.
    pub(crate) fn rows(&self) -> &'a [Timed]
        ensures { result.now ≡ self.now }
    {
        self.rows
    }

    /// How many rows there are.
    pub(crate) fn len(&self) -> usize
        ensures { result ≡ length self.now }
    {
        self.rows.len()
    }

    /// Whether there is none.
    pub(crate) fn is_empty(&self) -> bool
        ensures { IsTrue result ↔ (self.now ≡ []) }
    {
        self.rows.is_empty()
    }

    /// The rows from one index to another.
    pub(crate) fn part(&self, from: usize, to: usize) -> Run<'a>
        requires order { from ≤ to }
        requires within { to ≤ length self.now }
        ensures { result ≡ take (to - from) (drop from self.now) }
    {
        let begin = self.width * from;
        let end = self.width * to;
        Run {
            rows: &self.rows[from..to],
            width: self.width,
            words: &self.words[begin..end],
        }
    }

    /// The rows from an index on.
    pub(crate) fn behind(&self, index: usize) -> Run<'a>
        requires { index ≤ length self.now }
        ensures { result ≡ drop index self.now }
    {
        self.part(index, self.len())
    }

    /// Whether the first rows, so many, are another's first. Where both have words these are
    /// compared, and no row is looked at.
    pub(crate) fn begins_as(&self, other: &Run<'_>, count: usize) -> bool
        requires own { count ≤ length self.now }
        requires others { count ≤ length other.now }
        ensures { IsTrue result ↔ (take count self.now ≡ take count other.now) }
    {
        if self.width == 0 || self.width != other.width {
            return slices_equal(&self.rows[..count], &other.rows[..count]);
        }
        let end = self.width * count;
        are_equal(&self.words[..end], &other.words[..end])
    }
}
