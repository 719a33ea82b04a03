// Whether two commands, or two lists' tellings, are the same.
use crate::command::ColumnText;
use crate::listing::{Listing, OwnQuery};
use cql_value::Equals;

impl Equals for ColumnText {
    fn is_equal(&self, other: &ColumnText) -> bool {
        self.name.as_str() == other.name.as_str() && self.kind.as_str() == other.kind.as_str()
    }
}

impl Equals for OwnQuery {
    fn is_equal(&self, other: &OwnQuery) -> bool {
        self.name.as_str() == other.name.as_str()
            && self.text.as_str() == other.text.as_str()
            && self.base == other.base
            && self.next == other.next
    }
}

impl Equals for Listing {
    fn is_equal(&self, other: &Listing) -> bool {
        self.streams.is_equal(&other.streams)
            && self.readable.is_equal(&other.readable)
            && self.queries.is_equal(&other.queries)
    }
}
