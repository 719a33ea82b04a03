// The rows of a window that an answer needs.
ghost use Rattle.std.specs.Prelude.{◌≡◌, ◌≤◌, ◌<◌, ◌+◌, drop, length, take};
ghost use Rattle.cql_window.specs.Pin.{IsPinned};
ghost use Rattle.cql_window.specs.Span.{rows_of};

use crate::window::Window;
use cql_chunks::Chunks;
use cql_value::{Equals, Timed};
use std::marker::Model;

/// A window, its content at some cursor and the rows that came after, in order of their times.
pub struct WindowPin {
    window: Window,
    content: Chunks,
    unseen: Chunks,
}

impl Drop for WindowPin {
    fn drop(self) {
        let WindowPin {
            window: _,
            content: _,
            unseen: _,
        } = self;
    }
}

impl Model for WindowPin {
    ghost use Rattle.cql_window.specs.Pin.{Pinned, IsPinned};

    ghost Value = { Pinned };

    ghost view = { λ p. record { window = p.window; content = p.content; unseen = p.unseen } };

    ghost invariant = { λ p. IsPinned (record { window = p.window; content = p.content; unseen = p.unseen }) };
}

impl WindowPin {
    /// The pin of a window's content and the rows after it: their times never fall and are at most
    /// 2^62 - 1, and each row has the columns by which the window parts.
    pub fn new(window: Window, content: Chunks, unseen: Chunks) -> WindowPin
        requires { IsPinned (record { window = window; content = content; unseen = unseen }) }
        ensures { result ≡ record { window = window; content = content; unseen = unseen } }
    {
        WindowPin {
            window,
            content,
            unseen,
        }
    }

    /// Its window.
    pub fn window(&self) -> &Window
        ensures value { result.now ≡ self.now.window }
        ensures pinned { IsPinned self.now }
    {
        &self.window
    }

    /// The content.
    pub fn content(&self) -> &Chunks
        ensures value { result.now ≡ self.now.content }
        ensures pinned { IsPinned self.now }
    {
        &self.content
    }

    /// The rows that came after the content.
    pub fn unseen(&self) -> &Chunks
        ensures value { result.now ≡ self.now.unseen }
        ensures pinned { IsPinned self.now }
    {
        &self.unseen
    }

    /// Rows from an index on that lie together: one at least, and none from another index on. An
    /// index counts the content and then the unseen rows.
    pub(crate) fn near(&self, from: usize, to: usize) -> &[Timed]
        requires order { from < to }
        requires within { to ≤ length (rows_of self.now) }
        ensures some { 0 < length result.now }
        ensures rows { result.now ≡ take (length result.now) (drop from (rows_of self.now)) }
        ensures within { from + length result.now ≤ to }
    {
        let settled = self.content.len();
        if from < settled {
            self.content.near(from, to.min(settled))
        } else {
            self.unseen.near(from - settled, to - settled)
        }
    }
}

impl Equals for WindowPin {
    fn is_equal(&self, other: &WindowPin) -> bool {
        self.window.is_equal(&other.window)
            && self.content.is_equal(&other.content)
            && self.unseen.is_equal(&other.unseen)
    }
}
