// The rows of a list from one index to another, one after another.
ghost use Rattle.std.specs.Prelude.{◌≡◌, [], ◌++◌, length};
ghost use Rattle.std.specs.Iterator.{YieldsFirstRef, item_count};

use crate::chunks::Chunks;
use crate::run::Run;
use cql_value::Timed;
use std::marker::Model;

/// Rows of a list that are still to come.
pub struct Stretch<'a> {
    pub(crate) chunks: &'a Chunks,
    // The next rows, of one chunk.
    pub(crate) near: &'a [Timed],
    // The index behind them.
    pub(crate) at: usize,
    pub(crate) to: usize,
}

impl<'a> Drop for Stretch<'a> {
    fn drop(self) {
        let Stretch {
            chunks: _,
            near: _,
            at: _,
            to: _,
        } = self;
    }
}

impl<'a> Model for Stretch<'a> {
    ghost use Rattle.std.specs.Prelude.{◌-◌, ◌^◌, ◌≤◌, ◌<◌, ◌++◌, List, take, drop, length};
    ghost use Rattle.cql_value.specs.Element.{Element};

    ghost Value = { List Element };

    ghost view = { λ s. s.near.now ++ take (s.to - s.at) (drop s.at s.chunks.now) };

    ghost invariant = { λ s. (s.at ≤ s.to) × (s.to ≤ length s.chunks.now) × (s.to < 2 ^ 63) × (length s.near.now < 2 ^ 63) };
}

impl<'a> Stretch<'a> {
    /// How many rows there are.
    pub fn len(&self) -> usize
        ensures { result ≡ length self.now }
    {
        self.near.len() + (self.to - self.at)
    }

    /// Takes the next rows that lie together: none only where no row is left.
    pub(crate) fn take_run(&mut self) -> Run<'a>
        ensures rows { self.old ≡ result ++ self.new }
        ensures none { result ≡ [] → self.new ≡ [] }
    {
        if !self.near.is_empty() {
            let near = self.near;
            self.near = &[];
            return Run::plain(near);
        }
        if self.at == self.to {
            return Run::plain(&[]);
        }
        let run = self.chunks.run(self.at, self.to);
        self.at += run.len();
        run
    }
}

impl<'a> Iterator for Stretch<'a> {
    type Item = &'a Timed;

    ghost next_gives = { YieldsFirstRef (λ s. s) };

    ghost remaining = { item_count (λ s. s) };

    // Most rows are near: what takes the next ones stays a call.
    #[inline(always)]
    fn next(&mut self) -> Option<&'a Timed> {
        if let Some((row, rest)) = self.near.split_first() {
            self.near = rest;
            return Some(row);
        }
        if self.at == self.to {
            return None;
        }
        let near = self.chunks.near(self.at, self.to);
        self.at += near.len();
        match near.split_first() {
            Some((row, rest)) => {
                self.near = rest;
                Some(row)
            }
            None => unreachable!(),
        }
    }
}
