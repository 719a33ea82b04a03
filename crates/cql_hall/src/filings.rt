// Calls that are queued for a journal's file, with their lines behind each other in one text.
ghost use Rattle.std.specs.Prelude.{◌≡◌, ◌-◌, ◌++◌, ◌∷◌, [], take, length, sum_by, ◌==◌, MatchOption, OnOk, OnErr};
ghost use Rattle.cql_hall.specs.Queue.{queued};

use cql_core::TenantId;
use std::alloc::{AllocError, Global};
use std::marker::Model;

// Room for so many bytes of lines is kept for lines to come.
const KEPT: usize = 1 << 20;

/// A call that changed the core: whose it is, and the line that its caller sent.
#[derive(Clone, Copy)]
pub struct Filing<'a> {
    pub tenant: TenantId,
    pub line: &'a [u8],
}

// A piece of a text: the line of a tenant's call.
#[derive(Clone, Copy)]
pub(crate) struct FiledLine {
    pub tenant: TenantId,
    pub len: usize,
}

/// Calls in order, each with its line.
pub struct Filings {
    pieces: Vec<FiledLine>,
    // their lines, one behind the other
    text: Vec<u8>,
}

impl Drop for Filings {
    fn drop(self) {
        let Filings { pieces: _, text: _ } = self;
    }
}

impl Model for Filings {
    ghost use Rattle.std.specs.Prelude.{List};
    ghost use Rattle.cql_hall.specs.Queue.{Queued, calls_in, AreOf};

    ghost Value = { List Queued };

    ghost view = { λ f. calls_in f.pieces.items f.text.items };

    ghost invariant = { λ f. AreOf f.pieces.items f.text.items };
}

impl Filings {
    /// There is no call yet. Takes no memory.
    pub fn new(alloc: Global) -> Filings
        ensures { result ≡ [] }
    {
        Filings {
            pieces: Vec::new(alloc),
            text: Vec::new(alloc),
        }
    }

    /// How many there are.
    pub fn len(&self) -> usize
        ensures { result ≡ length self.now }
    {
        self.pieces.len()
    }

    /// Whether there is none.
    pub fn is_empty(&self) -> bool
        ensures { result ≡ (length self.now == 0) }
    {
        self.pieces.is_empty()
    }

    /// How many bytes their lines have.
    pub(crate) fn bytes(&self) -> usize
        ensures { result ≡ sum_by (λ call. length call.line) self.now }
    {
        self.text.len()
    }

    /// Puts a call behind the others. An `Err` changes nothing.
    pub(crate) fn push(&mut self, tenant: TenantId, line: &[u8]) -> Result<(), AllocError>
        ensures ok { OnOk result (self.new ≡ self.old ++ record { tenant = tenant; line = line.now } ∷ []) }
        ensures err { OnErr result (self.new ≡ self.old) }
    {
        self.pieces.reserve(1)?;
        self.text.extend_from_slice(line)?;
        self.pieces.push_reserved(FiledLine {
            tenant,
            len: line.len(),
        });
        Ok(())
    }

    /// Takes the last call away, if there is one.
    pub(crate) fn pop(&mut self)
        ensures { self.new ≡ take (length self.old - 1) self.old }
    {
        if let Some(last) = self.pieces.pop() {
            self.text.truncate(self.text.len() - last.len);
        }
    }

    /// There is none any more. Room for a mebibyte of lines at most is kept for others.
    pub fn clear(&mut self, alloc: Global)
        ensures { self.new ≡ [] }
    {
        if self.text.capacity() > KEPT {
            self.pieces = Vec::new(alloc);
            self.text = Vec::new(alloc);
        }
        self.text.clear();
        self.pieces.clear();
    }

    /// All of them, from the first on.
    pub fn iter(&self) -> FilingsIter<'_>
        ensures { result ≡ self.now }
    {
        FilingsIter {
            pieces: self.pieces.as_slice(),
            text: self.text.as_slice(),
        }
    }
}

/// Calls that are still to come.
pub struct FilingsIter<'a> {
    pieces: &'a [FiledLine],
    text: &'a [u8],
}

impl<'a> Drop for FilingsIter<'a> {
    fn drop(self) {
        let FilingsIter { pieces: _, text: _ } = self;
    }
}

impl<'a> Model for FilingsIter<'a> {
    ghost use Rattle.std.specs.Prelude.{List};
    ghost use Rattle.cql_hall.specs.Queue.{Queued, calls_in, AreOf};

    ghost Value = { List Queued };

    ghost view = { λ f. calls_in f.pieces.now f.text.now };

    ghost invariant = { λ f. AreOf f.pieces.now f.text.now };
}

impl<'a> FilingsIter<'a> {
    /// The next one.
    pub fn next_call(&mut self) -> Option<Filing<'a>>
        ensures { MatchOption result ((self.old ≡ []) × (self.new ≡ [])) (λ call. self.old ≡ queued call ∷ self.new) }
    {
        let (first, pieces) = self.pieces.split_first()?;
        let (line, text) = self.text.split_at(first.len);
        self.pieces = pieces;
        self.text = text;
        Some(Filing {
            tenant: first.tenant,
            line,
        })
    }
}
