// What a server begins with.
use crate::callers::serve;
use crate::failure::Failure;
use crate::filing::{serve_filing, serve_filing_kept};
use crate::journal_file::{Opened, open_journal};
use crate::serving::Serving;
use cql_core::{Operator, TenantTable};
use cql_hall::{Bare, Book, Gate, Kept};
use cql_wire::Config;
use std::alloc::Global;
use std::fs::{File, Files};
use std::io;
use std::sync::Wait;
use std::thread::Threads;
use std::time::Clock;

/// What the first callers of a server find.
pub(crate) enum Start {
    /// Nothing, and nothing is kept for another start.
    Empty,
    /// What a journal's file leads to, which goes on.
    Filed(Opened<Book<Bare>>),
    /// The same, and each call is kept for an audit.
    Kept(Opened<Book<Kept>>),
}

impl Drop for Start {
    fn drop(self) {
        match self {
            Start::Empty => {}
            Start::Filed(_opened) => {}
            Start::Kept(_opened) => {}
        }
    }
}

impl Start {
    /// What the words say: where they name a journal's file, it is opened and read.
    pub(crate) fn of<R>(
        rt: &R,
        alloc: Global,
        config: &Config,
        table: &TenantTable,
    ) -> Result<Start, Failure>
    where
        R: Files<File = File> + Clock + Eprint,
    {
        let Some(path) = &config.journal else {
            return Ok(Start::Empty);
        };
        let table_too = table.try_clone(alloc)?;
        if config.audit {
            let book: Book<Kept> = Book::new(alloc, table_too)?;
            let opened = open_journal(rt, alloc, table, book, path.as_str())?;
            Ok(Start::Kept(opened))
        } else {
            let book: Book<Bare> = Book::new(alloc, table_too)?;
            let opened = open_journal(rt, alloc, table, book, path.as_str())?;
            Ok(Start::Filed(opened))
        }
    }

    /// Serves callers who find this.
    pub(crate) fn serve<R, G, O>(
        self,
        rt: &R,
        alloc: Global,
        table: &TenantTable,
        serving: Serving<'_, O>,
        gate: &G,
    ) -> Result<(), Failure>
    where
        R: Threads + Wait + Clock + Print + Sync,
        G: Gate + Sync,
        O: Operator + Send,
    {
        let mut out = io::writer(rt);
        match self {
            Start::Empty => serve(rt, alloc, table, serving, &mut out, gate),
            Start::Filed(opened) => serve_filing(rt, alloc, table, serving, opened, gate),
            Start::Kept(opened) => {
                serve_filing_kept(rt, alloc, table, serving, opened, &mut out, gate)
            }
        }
    }
}
