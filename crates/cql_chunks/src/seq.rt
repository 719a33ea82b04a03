// A list of numbered rows, as a tree whose parts are shared.
ghost use Rattle.std.specs.Prelude.{◌≡◌, ◌≤◌, ◌<◌, [], ◌∷◌, ◌++◌, length, IfOk, IfSome, IfNone, OnOk, map, slice_get, nat_lt};
ghost use Rattle.std.specs.List.{insert, remove, prefix_len};
ghost use Rattle.std.specs.Option.{option_map};
ghost use Rattle.std.specs.Arc.{arc_value};
ghost use Rattle.cql_chunks.specs.Seq.{row_in, IsDown};
ghost use Rattle.cql_chunks.specs.Taken.{IsBare, listed_of, listed_in};

use cql_value::Timed;
use std::alloc::{AllocError, Global};
use std::marker::Model;
use std::mem;
use std::sync::Arc;

/// A row with its number: so many rows came before it.
pub struct Numbered {
    pub number: u64,
    pub row: Timed,
}

impl Drop for Numbered {
    fn drop(self) {
        let Numbered { number: _, row: _ } = self;
    }
}

impl Numbered {
    // The same, its row with one more holder.
    pub fn share(&self) -> Result<Numbered, AllocError>
        ensures { IfOk result (λ n. n ≡ self.now) }
    {
        let row = self.row.try_clone()?;
        Ok(Numbered {
            number: self.number,
            row,
        })
    }
}

/// A list of numbered rows. A list with one more or one fewer shares the rest with it.
#[cycle(seq)]
#[derive(Drop)]
pub struct Seq {
    node: SeqNode,
}

#[cycle(seq)]
#[derive(Drop)]
enum SeqNode {
    Leaf,
    // Left, a row, how many there are in all, the height, right.
    Fork(Arc<Seq>, Numbered, usize, u8, Arc<Seq>),
}

impl Model for Seq {
    ghost use Rattle.std.specs.Prelude.{List, length};
    ghost use Rattle.cql_chunks.specs.declared.seq.Numbered.{Numbered as Entry};

    ghost Value = { List Entry };

    ghost use Rattle.cql_chunks.specs.Seq.{listed, IsCounted};

    ghost view = { λ s. listed s.node };

    ghost invariant = { λ s. IsCounted s.node };

    ghost size = { length };

    ghost use Rattle.std.proofs.Common.{arith, length-append};

    ghost size_decreases = { λ a h. Prim.grind (arith, length-append) };
}

impl Seq {
    /// No rows.
    pub fn new(alloc: Global) -> Result<Arc<Seq>, AllocError>
        ensures { IfOk result (λ s. arc_value s ≡ []) }
    {
        Ok(Arc::new(
            alloc,
            Seq {
                node: SeqNode::Leaf,
            },
        )?)
    }

    /// These rows.
    pub fn of(alloc: Global, leaf: &Arc<Seq>, rows: &[Numbered]) -> Result<Arc<Seq>, AllocError>
        requires { arc_value leaf.now ≡ [] }
        ensures { IfOk result (λ s. arc_value s ≡ rows.now) }
    {
        let (front, rest) = rows.split_at(rows.len() / 2);
        match rest.split_first() {
            None => Ok(Arc::try_clone(leaf)?),
            Some((own, back)) => {
                let left = Seq::of(alloc, leaf, front)?;
                let right = Seq::of(alloc, leaf, back)?;
                let own = own.share()?;
                let shell = None;
                fork(
                    alloc,
                    Parts {
                        shell,
                        left,
                        own,
                        right,
                    },
                )
            }
        }
    }

    /// How many there are.
    pub fn len(&self) -> usize
        ensures { result ≡ length self.now }
    {
        match &self.node {
            SeqNode::Leaf => 0,
            SeqNode::Fork(_, _, count, _, _) => *count,
        }
    }

    // How high the tree is. This is for speed alone: nothing is said of it.
    fn height(&self) -> u8 {
        match &self.node {
            SeqNode::Leaf => 0,
            SeqNode::Fork(_, _, _, height, _) => *height,
        }
    }

    /// The row at an index.
    pub fn get(&self, index: usize) -> Option<&Numbered>
        ensures { option_map (λ n. n.now) result ≡ slice_get self.now index }
    {
        match &self.node {
            SeqNode::Leaf => None,
            SeqNode::Fork(left, entry, _, _, right) => {
                let here = left.len();
                if index < here {
                    left.get(index)
                } else if index == here {
                    Some(entry)
                } else {
                    right.get(index - here - 1)
                }
            }
        }
    }

    /// With one more at an index. What nobody else holds of the list is used again.
    pub fn insert(
        tree: Arc<Seq>,
        alloc: Global,
        leaf: &Arc<Seq>,
        index: usize,
        entry: Numbered,
    ) -> Result<Arc<Seq>, AllocError>
        requires leaf { arc_value leaf.now ≡ [] }
        requires index { index ≤ length (arc_value tree) }
        ensures { IfOk result (λ s. arc_value s ≡ insert (arc_value tree) index entry) }
    {
        match cut(tree)? {
            TakenTree::Leaf(_) => alone(alloc, leaf, entry),
            TakenTree::Fork(
                Parts {
                    shell,
                    left,
                    own,
                    right,
                },
            ) => {
                let here = left.len();
                if index <= here {
                    let side = Side::new(shell, own, right);
                    let more = Seq::insert(left, alloc, leaf, index, entry)?;
                    balanced(alloc, side.behind(more))
                } else {
                    let side = Side::new(shell, own, left);
                    let more = Seq::insert(right, alloc, leaf, index - here - 1, entry)?;
                    balanced(alloc, side.before(more))
                }
            }
        }
    }

    /// Without the one at an index. What nobody else holds of the list is used again.
    pub fn remove(tree: Arc<Seq>, alloc: Global, index: usize) -> Result<Arc<Seq>, AllocError>
        requires { index < length (arc_value tree) }
        ensures { IfOk result (λ s. arc_value s ≡ remove (arc_value tree) index) }
    {
        match cut(tree)? {
            TakenTree::Leaf(_) => unreachable!(),
            TakenTree::Fork(
                Parts {
                    shell,
                    left,
                    own,
                    right,
                },
            ) => {
                let here = left.len();
                if index < here {
                    let side = Side::new(shell, own, right);
                    let less = Seq::remove(left, alloc, index)?;
                    balanced(alloc, side.behind(less))
                } else if index > here {
                    let side = Side::new(shell, own, left);
                    let less = Seq::remove(right, alloc, index - here - 1)?;
                    balanced(alloc, side.before(less))
                } else {
                    match right.get(0) {
                        None => Ok(left),
                        Some(next) => {
                            let side = Side::new(shell, next.share()?, left);
                            let less = Seq::remove(right, alloc, 0)?;
                            balanced(alloc, side.before(less))
                        }
                    }
                }
            }
        }
    }

    /// The rows come behind others, in order. They are shared.
    pub fn push_rows(&self, rows: &mut Vec<Timed>) -> Result<(), AllocError>
        ensures { OnOk result (rows.new.items ≡ rows.old.items ++ map row_in self.now) }
    {
        match &self.node {
            SeqNode::Leaf => Ok(()),
            SeqNode::Fork(left, own, _, _, right) => {
                left.push_rows(rows)?;
                rows.push(own.row.try_clone()?)?;
                right.push_rows(rows)
            }
        }
    }

    /// How many rows at the front have a lower number.
    pub fn below(&self, number: u64) -> usize
        ensures value { IsDown (λ e. nat_lt e.number number) self.now → result ≡ prefix_len (λ e. nat_lt e.number number) self.now }
        ensures within { result ≤ length self.now }
    {
        match &self.node {
            SeqNode::Leaf => 0,
            SeqNode::Fork(left, own, _, _, right) => {
                if own.number < number {
                    let here = self.len() - right.len();
                    here + right.below(number)
                } else {
                    left.below(number)
                }
            }
        }
    }

    /// The lists on both sides of a row in its midst: the tree as it stands.
    pub fn halves(&self) -> Option<(&Arc<Seq>, &Numbered, &Arc<Seq>)>
        ensures some { IfSome result (λ r. self.now ≡ arc_value r.0.now ++ r.1.now ∷ arc_value r.2.now) }
        ensures none { IfNone result (self.now ≡ []) }
    {
        match &self.node {
            SeqNode::Leaf => None,
            SeqNode::Fork(left, own, _, _, right) => Some((left, own, right)),
        }
    }

    /// The same of a tree that nobody else holds.
    pub(crate) fn into_halves(self) -> Option<(Arc<Seq>, Numbered, Arc<Seq>)>
        ensures some { IfSome result (λ r. self ≡ arc_value r.0 ++ r.1 ∷ arc_value r.2) }
        ensures none { IfNone result (self ≡ []) }
    {
        match self.node {
            SeqNode::Leaf => None,
            SeqNode::Fork(left, own, _, _, right) => Some((left, own, right)),
        }
    }
}

// A row between two lists, and a shell that is at hand where nobody else holds that.
#[derive(Drop)]
struct Parts {
    shell: Option<Arc<Seq>>,
    left: Arc<Seq>,
    own: Numbered,
    right: Arc<Seq>,
}

impl Parts {
    // How many rows they are together.
    fn count(&self) -> Result<usize, AllocError>
        ensures { IfOk result (λ n. n ≡ length (listed_in self.now)) }
    {
        let Some(both) = self.left.len().checked_add(self.right.len()) else {
            return Err(AllocError);
        };
        match both.checked_add(1) {
            Some(count) => Ok(count),
            None => Err(AllocError),
        }
    }
}

// The same, where the list on one side is still to come.
struct Side {
    shell: Option<Arc<Seq>>,
    own: Numbered,
    list: Arc<Seq>,
}

impl Drop for Side {
    fn drop(self) {
        let Side {
            shell: _,
            own: _,
            list: _,
        } = self;
    }
}

impl Side {
    fn new(shell: Option<Arc<Seq>>, own: Numbered, list: Arc<Seq>) -> Side
        ensures own { result.own ≡ own }
        ensures list { arc_value result.list ≡ arc_value list }
    {
        Side { shell, own, list }
    }

    // With the list before the row.
    fn behind(self, left: Arc<Seq>) -> Parts
        ensures { listed_in result ≡ arc_value left ++ self.own ∷ arc_value self.list }
    {
        let Side { shell, own, list } = self;
        Parts {
            shell,
            left,
            own,
            right: list,
        }
    }

    // With another list in place of its own, and its own.
    fn turned(self, list: Arc<Seq>) -> (Side, Arc<Seq>)
        ensures own { result.0.own ≡ self.own }
        ensures list { arc_value result.0.list ≡ arc_value list }
        ensures turned { arc_value result.1 ≡ arc_value self.list }
    {
        let Side {
            shell,
            own,
            list: turned,
        } = self;
        (Side { shell, own, list }, turned)
    }

    // With the list behind the row.
    fn before(self, right: Arc<Seq>) -> Parts
        ensures { listed_in result ≡ arc_value self.list ++ self.own ∷ arc_value right }
    {
        let Side { shell, own, list } = self;
        Parts {
            shell,
            left: list,
            own,
            right,
        }
    }
}

// A row between two lists, as one list.
fn fork(alloc: Global, parts: Parts) -> Result<Arc<Seq>, AllocError>
    ensures { IfOk result (λ s. arc_value s ≡ listed_in parts) }
{
    let count = parts.count()?;
    let Parts {
        shell,
        left,
        own,
        right,
    } = parts;
    let height = left.height().max(right.height()).saturating_add(1);
    let node = SeqNode::Fork(left, own, count, height, right);
    put_in(alloc, shell, Seq { node })
}

// The list of one row.
fn alone(alloc: Global, leaf: &Arc<Seq>, own: Numbered) -> Result<Arc<Seq>, AllocError>
    requires { arc_value leaf.now ≡ [] }
    ensures { IfOk result (λ s. arc_value s ≡ own ∷ []) }
{
    let left = Arc::try_clone(leaf)?;
    let right = Arc::try_clone(leaf)?;
    let shell = None;
    fork(
        alloc,
        Parts {
            shell,
            left,
            own,
            right,
        },
    )
}

// A list in a shell that is at hand, or in one of its own.
fn put_in(alloc: Global, shell: Option<Arc<Seq>>, seq: Seq) -> Result<Arc<Seq>, AllocError>
    ensures { IfOk result (λ s. arc_value s ≡ seq) }
{
    if let Some(mut shell) = shell {
        if let Some(inside) = Arc::get_mut(&mut shell) {
            *inside = seq;
            return Ok(shell);
        }
    }
    Ok(Arc::new(alloc, seq)?)
}

// A tree as it stands, with its shell where nobody else holds that.
#[derive(Drop)]
enum TakenTree {
    Leaf(Arc<Seq>),
    Fork(Parts),
}

// Takes a tree apart; where another holds it too, shares of its parts are taken.
fn cut(tree: Arc<Seq>) -> Result<TakenTree, AllocError>
    ensures list { IfOk result (λ taken. listed_of taken ≡ arc_value tree) }
    ensures bare { IfOk result IsBare }
{
    if tree.len() == 0 {
        return Ok(TakenTree::Leaf(tree));
    }
    let mut tree = tree;
    if let Some(seq) = Arc::get_mut(&mut tree) {
        return match mem::replace(&mut seq.node, SeqNode::Leaf) {
            SeqNode::Leaf => unreachable!(),
            SeqNode::Fork(left, own, _, _, right) => {
                let shell = Some(tree);
                Ok(TakenTree::Fork(Parts {
                    shell,
                    left,
                    own,
                    right,
                }))
            }
        };
    }
    match &tree.node {
        SeqNode::Leaf => unreachable!(),
        SeqNode::Fork(left, own, _, _, right) => Ok(TakenTree::Fork(shared(left, own, right)?)),
    }
}

// Shares of a row and of the lists on both sides of it.
fn shared(left: &Arc<Seq>, own: &Numbered, right: &Arc<Seq>) -> Result<Parts, AllocError>
    ensures { IfOk result (λ p. listed_in p ≡ arc_value left.now ++ own.now ∷ arc_value right.now) }
{
    let left = Arc::try_clone(left)?;
    let right = Arc::try_clone(right)?;
    let own = own.share()?;
    let shell = None;
    Ok(Parts {
        shell,
        left,
        own,
        right,
    })
}

// A row between two lists, of which the left is too high.
fn fork_left(alloc: Global, left: Arc<Seq>, high: Side) -> Result<Arc<Seq>, AllocError>
    ensures { IfOk result (λ s. arc_value s ≡ arc_value left ++ high.own ∷ arc_value high.list) }
{
    match cut(left)? {
        TakenTree::Leaf(left) => fork(alloc, high.behind(left)),
        TakenTree::Fork(
            Parts {
                shell,
                left,
                own,
                right,
            },
        ) => {
            let is_outer = left.height() >= right.height();
            let low = Side::new(shell, own, left);
            if is_outer {
                let right = fork(alloc, high.behind(right))?;
                return fork(alloc, low.before(right));
            }
            fork_midst(alloc, low, right, high)
        }
    }
}

// A row between two lists, of which the right is too high.
fn fork_right(alloc: Global, low: Side, right: Arc<Seq>) -> Result<Arc<Seq>, AllocError>
    ensures { IfOk result (λ s. arc_value s ≡ arc_value low.list ++ low.own ∷ arc_value right) }
{
    match cut(right)? {
        TakenTree::Leaf(right) => fork(alloc, low.before(right)),
        TakenTree::Fork(
            Parts {
                shell,
                left,
                own,
                right,
            },
        ) => {
            let is_outer = right.height() >= left.height();
            let high = Side::new(shell, own, right);
            if is_outer {
                let left = fork(alloc, low.before(left))?;
                return fork(alloc, high.behind(left));
            }
            fork_midst(alloc, low, left, high)
        }
    }
}

// A list between two rows with the lists on their other sides: its own parts go to both.
fn fork_midst(alloc: Global, low: Side, midst: Arc<Seq>, high: Side) -> Result<Arc<Seq>, AllocError>
    ensures { IfOk result (λ s. arc_value s ≡ arc_value low.list ++ low.own ∷ (arc_value midst ++ high.own ∷ arc_value high.list)) }
{
    match cut(midst)? {
        TakenTree::Leaf(midst) => {
            let right = fork(alloc, high.behind(midst))?;
            fork(alloc, low.before(right))
        }
        TakenTree::Fork(
            Parts {
                shell,
                left,
                own,
                right,
            },
        ) => {
            let top = Side::new(shell, own, right);
            let left = fork(alloc, low.before(left))?;
            fork_top(alloc, left, top, high)
        }
    }
}

// A list, and two rows with the lists behind them.
fn fork_top(alloc: Global, left: Arc<Seq>, top: Side, high: Side) -> Result<Arc<Seq>, AllocError>
    ensures { IfOk result (λ s. arc_value s ≡ arc_value left ++ top.own ∷ (arc_value top.list ++ high.own ∷ arc_value high.list)) }
{
    let (top, midst) = top.turned(left);
    let right = fork(alloc, high.behind(midst))?;
    fork(alloc, top.before(right))
}

// A row between two lists, of which one may be two levels higher.
fn balanced(alloc: Global, parts: Parts) -> Result<Arc<Seq>, AllocError>
    ensures { IfOk result (λ s. arc_value s ≡ listed_in parts) }
{
    let on_left = parts.left.height();
    let on_right = parts.right.height();
    let is_left_high = on_left > on_right.saturating_add(1);
    let is_right_high = on_right > on_left.saturating_add(1);
    if !is_left_high && !is_right_high {
        return fork(alloc, parts);
    }
    let Parts {
        shell,
        left,
        own,
        right,
    } = parts;
    if is_left_high {
        fork_left(alloc, left, Side::new(shell, own, right))
    } else {
        fork_right(alloc, Side::new(shell, own, left), right)
    }
}
