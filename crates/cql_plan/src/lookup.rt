// What streams a caller may read.
ghost use Rattle.std.specs.Prelude.{◌≡◌, ℕ, List, Option, option_copied, option_map};
ghost use Rattle.cql_plan.specs.VisibleColumns.{VisibleColumns, visible_of};

use cql_value::Schema;

/// What a caller may read of a stream.
#[derive(Clone, Copy)]
pub struct Readable<'a> {
    /// The columns that the caller sees.
    pub schema: &'a Schema,
    /// Where each of them stands in the stream's whole row, counted from 0.
    pub places: &'a [usize],
}

/// The streams that a caller may read.
pub trait Lookup {
    /// The columns and their indices of a stream of an owner, or with no owner of the caller's own
    /// stream of that name, where it may be read.
    ghost readable: { Self → Option (List ℕ) → List ℕ → Option VisibleColumns };

    /// What may be read of the stream of this owner, or with no owner of the caller's own stream:
    /// none where there is no such stream, or the caller may not read it.
    fn schema(&self, owner: Option<&str>, stream: &str) -> Option<Readable<'_>>
        ensures { option_map visible_of result ≡ readable self.now (option_copied owner.entry) stream.now };
}
