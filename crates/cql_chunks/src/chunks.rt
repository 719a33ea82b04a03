// A list of rows.
ghost use Rattle.std.specs.Prelude.{◌≡◌, ◌≤◌, ◌<◌, ◌^◌, ◌+◌, ◌-◌, [], ◌∷◌, ◌++◌, IfOk, OnOk, OnErr, length, map, drop, take, slice_index_or};
ghost use Rattle.std.specs.Arc.{arc_value};
ghost use Rattle.cql_chunks.specs.Seq.{row_in};

use crate::budget::Budget;
use crate::equals::are_joined_equal;
use crate::plain::Plain;
use crate::run::Run;
use crate::seq::Seq;
use crate::stretch::Stretch;
use crate::tree_rows::TreeRows;
use crate::waste::Waste;
use cql_value::{Equals, Timed};
use std::alloc::{AllocError, Global};
use std::marker::Model;
use std::sync::Arc;

/// A list of rows. Full chunks of it are shared with those who take a part of it; the last rows,
/// fewer than a chunk, are its own. The list of a tree's rows shares the tree.
pub struct Chunks {
    form: Form,
}

impl Drop for Chunks {
    fn drop(self) {
        let Chunks { form: _ } = self;
    }
}

#[derive(Drop)]
enum Form {
    Plain(Plain),
    Tree(TreeRows),
}

impl Equals for Chunks {
    fn is_equal(&self, other: &Chunks) -> bool {
        let (end, far) = (self.len(), other.len());
        end == far
            && are_joined_equal(
                (self.iter(), self.range(end, end)),
                (other.iter(), other.range(far, far)),
            )
    }
}

impl Model for Chunks {
    ghost use Rattle.std.specs.Prelude.{List};
    ghost use Rattle.cql_value.specs.Element.{Element};

    ghost Value = { List Element };

    ghost use Rattle.cql_chunks.specs.Form.{rows_in};

    ghost view = { λ c. rows_in c.form };
}

impl Chunks {
    /// No rows.
    pub fn new(alloc: Global) -> Chunks
        ensures { result ≡ [] }
    {
        let form = Form::Plain(Plain::new(alloc));
        Chunks { form }
    }

    /// How many rows there are.
    pub fn len(&self) -> usize
        ensures value { result ≡ length self.now }
        ensures small { result < 2 ^ 63 }
    {
        match &self.form {
            Form::Plain(plain) => plain.len(),
            Form::Tree(tree) => tree.len(),
        }
    }

    /// One more row at the end. Memory for the rows of a chunk is taken once for each chunk; a list
    /// of a tree's rows is copied once. No list takes 2^63 rows: the last is refused as for want of
    /// memory.
    pub fn push(&mut self, alloc: Global, row: Timed) -> Result<(), AllocError>
        ensures ok { OnOk result (self.new ≡ self.old ++ row ∷ []) }
        ensures err { OnErr result (self.new ≡ self.old) }
    {
        match &mut self.form {
            Form::Plain(plain) => plain.push(alloc, row),
            Form::Tree(_) => self.push_behind(alloc, row),
        }
    }

    // One more row at the end of a copy.
    fn push_behind(&mut self, alloc: Global, row: Timed) -> Result<(), AllocError>
        ensures ok { OnOk result (self.new ≡ self.old ++ row ∷ []) }
        ensures err { OnErr result (self.new ≡ self.old) }
    {
        let mut plain = self.copied(alloc, 0, self.len())?;
        plain.push(alloc, row)?;
        self.form = Form::Plain(plain);
        Ok(())
    }

    // The rows from one index to another, each shared by itself.
    fn copied(&self, alloc: Global, from: usize, to: usize) -> Result<Plain, AllocError>
        requires order { from ≤ to }
        requires within { to ≤ length self.now }
        ensures { IfOk result (λ r. r ≡ take (to - from) (drop from self.now)) }
    {
        let mut plain = Plain::new(alloc);
        for row in self.range(from, to) {
            plain.push(alloc, row.try_clone()?)?;
        }
        Ok(plain)
    }

    /// So many rows at the front go. They are let go by `settle`: none is looked at but of the last
    /// rows, fewer than a chunk.
    pub fn drop_front(&mut self, count: usize)
        requires { count ≤ length self.old }
        ensures { self.new ≡ drop count self.old }
    {
        match &mut self.form {
            Form::Plain(plain) => plain.drop_front(count),
            Form::Tree(tree) => tree.drop_front(count),
        }
    }

    /// Lets go of the chunks of which no row is left, as far as the budget has units, and of heavy rows
    /// at the front where there is no full chunk. The rows of a chunk that it has too few units for are
    /// in the waste then.
    pub fn settle(&mut self, waste: &mut Waste, budget: &mut Budget)
        ensures { self.new ≡ self.old }
    {
        match &mut self.form {
            Form::Plain(plain) => plain.settle(waste, budget),
            Form::Tree(_) => {}
        }
    }

    /// The row at an index.
    pub fn get(&self, index: usize) -> &Timed
        requires { index < length self.now }
        ensures { result.now ≡ slice_index_or self.now index result.now }
    {
        match &self.form {
            Form::Plain(plain) => plain.get(index),
            Form::Tree(tree) => tree.get(index),
        }
    }

    /// The rows from one index to another, one after another.
    pub fn range(&self, from: usize, to: usize) -> Stretch<'_>
        requires order { from ≤ to }
        requires within { to ≤ length self.now }
        ensures { result ≡ take (to - from) (drop from self.now) }
    {
        let _count = self.len();
        Stretch {
            chunks: self,
            near: &[],
            at: from,
            to,
        }
    }

    /// Rows from an index on that lie together: one at least, and none from another index on.
    #[inline(never)]
    pub fn near(&self, from: usize, to: usize) -> &[Timed]
        requires order { from < to }
        requires within { to ≤ length self.now }
        ensures some { 0 < length result.now }
        ensures rows { result.now ≡ take (length result.now) (drop from self.now) }
        ensures within { from + length result.now ≤ to }
    {
        match &self.form {
            Form::Plain(plain) => plain.near(from, to),
            Form::Tree(tree) => tree.run(from).rows(),
        }
    }

    /// The same as a run, with their words where these are known.
    pub(crate) fn run(&self, from: usize, to: usize) -> Run<'_>
        requires order { from < to }
        requires within { to ≤ length self.now }
        ensures some { 0 < length result }
        ensures rows { result ≡ take (length result) (drop from self.now) }
        ensures within { from + length result ≤ to }
    {
        match &self.form {
            Form::Plain(plain) => plain.run(from, to),
            Form::Tree(tree) => tree.run(from),
        }
    }

    /// All rows, one after another.
    pub fn iter(&self) -> Stretch<'_>
        ensures { result ≡ self.now }
    {
        self.range(0, self.len())
    }

    /// The list of these rows.
    pub fn of(alloc: Global, rows: Vec<Timed>) -> Result<Chunks, AllocError>
        ensures { IfOk result (λ r. r ≡ rows.items) }
    {
        let form = Form::Plain(Plain::of(alloc, rows)?);
        Ok(Chunks { form })
    }

    /// The list of a tree's rows: none is looked at, and no memory is taken. A tree of 2^63 rows is
    /// refused as for want of memory.
    pub fn of_tree(tree: Arc<Seq>) -> Result<Chunks, AllocError>
        ensures { IfOk result (λ r. r ≡ map row_in (arc_value tree)) }
    {
        let form = Form::Tree(TreeRows::of(tree)?);
        Ok(Chunks { form })
    }

    /// The same list. What is full is shared.
    pub fn share(&self, alloc: Global) -> Result<Chunks, AllocError>
        ensures { IfOk result (λ r. r ≡ self.now) }
    {
        let form = match &self.form {
            Form::Plain(plain) => Form::Plain(plain.share(alloc)?),
            Form::Tree(tree) => Form::Tree(tree.share()?),
        };
        Ok(Chunks { form })
    }

    /// The rows from one index to another. Full chunks are shared, and rows that make no whole
    /// chunk at the end, fewer than 128, one by one; those of a tree one by one.
    pub fn part(&self, alloc: Global, from: usize, to: usize) -> Result<Chunks, AllocError>
        requires order { from ≤ to }
        requires within { to ≤ length self.now }
        ensures { IfOk result (λ r. r ≡ take (to - from) (drop from self.now)) }
    {
        let plain = match &self.form {
            Form::Plain(plain) => plain.part(alloc, from, to)?,
            Form::Tree(_) => self.copied(alloc, from, to)?,
        };
        let form = Form::Plain(plain);
        Ok(Chunks { form })
    }
}
