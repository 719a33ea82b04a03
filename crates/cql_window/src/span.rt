// Rows of a pin between two indices, of which none is copied.
ghost use Rattle.std.specs.Prelude.{◌≡◌, ◌++◌};
ghost use Rattle.std.specs.Iterator.{YieldsFirstRef, item_count};
ghost use Rattle.cql_window.specs.Span.{rows_of, rows_in, IsWithin};

use crate::window_pin::WindowPin;
use cql_value::Timed;
use std::marker::Model;

/// The rows from one index on and before another; an index counts the content of a pin and then
/// its unseen rows.
#[derive(Clone, Copy)]
pub struct Span {
    /// The first row's index.
    pub from: usize,
    /// The index behind the last.
    pub to: usize,
}

impl Span {
    /// No rows.
    pub fn none() -> Span
        ensures { result ≡ record { from = 0; to = 0 } }
    {
        Span { from: 0, to: 0 }
    }
}

/// The rows that came into a window and those that left it, from one cursor to another.
#[derive(Drop)]
pub struct Moved {
    /// The rows that came.
    pub came: Span,
    /// Rows that left.
    pub left: Span,
    /// The other rows that left: those of a window of parts.
    pub gone: Vec<Timed>,
}

/// Some rows, one after another: those of a list, and then those between two indices of a pin.
pub struct Part<'a> {
    // The next rows.
    near: &'a [Timed],
    pin: &'a WindowPin,
    // The rows behind them.
    span: Span,
}

impl<'a> Drop for Part<'a> {
    fn drop(self) {
        let Part {
            near: _,
            pin: _,
            span: _,
        } = self;
    }
}

impl<'a> Model for Part<'a> {
    ghost use Rattle.std.specs.Prelude.{◌++◌, List};
    ghost use Rattle.cql_value.specs.Element.{Element};
    ghost use Rattle.cql_window.specs.Span.{rows_of, rows_in, IsWithin};

    ghost Value = { List Element };

    ghost view = { λ p. p.near.now ++ rows_in p.span (rows_of p.pin.now) };

    ghost invariant = { λ p. IsWithin p.span (rows_of p.pin.now) };
}

impl<'a> Part<'a> {
    /// A list's rows, and then those between two indices of a pin.
    pub(crate) fn new(near: &'a [Timed], pin: &'a WindowPin, span: Span) -> Part<'a>
        requires { IsWithin span (rows_of pin.now) }
        ensures { result ≡ near.now ++ rows_in span (rows_of pin.now) }
    {
        Part { near, pin, span }
    }
}

impl<'a> Iterator for Part<'a> {
    type Item = &'a Timed;

    ghost next_gives = { YieldsFirstRef (λ s. s) };

    ghost remaining = { item_count (λ s. s) };

    #[inline(always)]
    fn next(&mut self) -> Option<&'a Timed> {
        if let Some((row, rest)) = self.near.split_first() {
            self.near = rest;
            return Some(row);
        }
        let Span { from, to } = self.span;
        if from == to {
            return None;
        }
        let near = self.pin.near(from, to);
        self.span.from += near.len();
        match near.split_first() {
            Some((row, rest)) => {
                self.near = rest;
                Some(row)
            }
            None => unreachable!(),
        }
    }
}
