// A book, and what is queued of its calls.
ghost use Rattle.std.specs.Prelude.{◌≡◌, [], true, false, IfOk, if◌then◌else◌};
ghost use Rattle.std.specs.Arc.{arc_value};
ghost use Rattle.cql_core.specs.Machine.{opening};
ghost use Rattle.cql_hall.specs.Filing.{EntersFiled};

use crate::book::{Book, Entered, no_entry};
use crate::feed::{Feed, is_change};
use crate::journal::Journal;
use cql_core::{Prepared, TenantId};
use std::alloc::{AllocError, Global};
use std::sync::Arc;

/// A book, and its calls that are queued for a journal's file, if they are.
pub(crate) struct FiledBook<J: Journal> {
    pub book: Book<J>,
    pub feed: Feed,
}

impl<J: Journal> Drop for FiledBook<J> {
    fn drop(self) {
        let FiledBook {
            book: _book,
            feed: _,
        } = self;
    }
}

impl<J: Journal> FiledBook<J> {
    /// The book.
    pub fn into_book(self) -> Book<J>
        ensures { result ≡ self.book }
    {
        let FiledBook { book, feed: _ } = self;
        book
    }

    /// Makes one step of the book, as it does; and where calls are queued and this one may have changed the
    /// core, it is queued with its line. Without room for that there is no step, and the call is told so (70).
    pub fn enter(
        &mut self,
        alloc: Global,
        prepared: &Arc<Prepared>,
        tenant: TenantId,
        line: &[u8],
    ) -> Entered
        ensures { EntersFiled J.keeps self.old.book self.old.feed tenant (arc_value prepared.now) (record { tenant = tenant; line = line.now }) result self.new.book self.new.feed }
    {
        let FiledBook { book, feed } = self;
        if !feed.is_on {
            return book.enter(alloc, tenant, prepared);
        }
        let Ok(()) = feed.note(tenant, line) else {
            return no_entry();
        };
        let entered = book.enter(alloc, tenant, prepared);
        if !is_change(&entered.step) {
            feed.take_back();
        }
        entered
    }
}
