// The changes of a bag, kept until they are told and behind.
ghost use Rattle.std.specs.Prelude.{◌≡◌, ◌++◌, [], ◌∷◌, OnOk, OnErr};
ghost use Rattle.cql_plain.specs.Logs.{logged, told_all, IsTellsLaw, IsAddsLaw};

use cql_bag::Change;
use cql_bag::law::{put_all_counts, same_counts, take_counts};
use std::alloc::{AllocError, Global};
use std::marker::Model;
use std::mem;
use std::snapshot::Snapshot;

/// Changes that were told and are let go. Clauses alone read them: of those before the last ones no byte is
/// kept.
#[derive(Drop)]
struct Past {
    last: Option<(Snapshot<Past>, Vec<Change>)>,
}

impl Model for Past {
    ghost use Rattle.std.specs.Prelude.{◌<◌, List, [], ◌++◌, length, IfSome};
    ghost use Rattle.std.specs.Option.{unwrap_or, option_map};
    ghost use Rattle.std.proofs.Common.{arith, length-append};
    ghost use Rattle.cql_bag.specs.declared.change.Change.{Change};

    ghost Value = { List Change };

    ghost view = { λ p. unwrap_or (option_map (λ t. t.0.value ++ t.1.items) p.last) [] };

    ghost invariant = { λ p. IfSome p.last (λ t. 0 < length t.1.items) };

    ghost size = { length };

    ghost size_decreases = { λ a h. Prim.grind (arith, length-append) };
}

// No change was told.
fn nothing() -> Snapshot<Past>
    ensures { result.value ≡ [] }
{
    Snapshot::of(&Past { last: None })
}

// These changes behind those that were told before; and the room of the list, which lets go of them.
fn let_go(alloc: Global, before: Snapshot<Past>, told: Vec<Change>) -> (Snapshot<Past>, Vec<Change>)
    ensures past { result.0.value ≡ before.value ++ told.items }
    ensures room { result.1.items ≡ [] }
{
    if told.is_empty() {
        return (before, told);
    }
    let past = Past {
        last: Some((before, told)),
    };
    let all = Snapshot::of(&past);
    let Past { last } = past;
    let mut room = match last {
        Some((_before, told)) => told,
        None => Vec::new(alloc),
    };
    room.clear();
    (all, room)
}

/// All changes of a bag since a start, and how many of them were told. Those are kept that came since all were
/// told.
#[derive(Drop)]
pub(crate) struct Log {
    past: Snapshot<Past>,
    pub changes: Vec<Change>,
    told: usize,
}

impl Model for Log {
    ghost use Rattle.std.specs.Prelude.{◌≤◌, ◌++◌, length, take, drop};
    ghost use Rattle.cql_plain.specs.Logs.{Logged};

    ghost Value = { Logged };

    ghost view = { λ l. record { told = l.past.value ++ take l.told l.changes.items; untold = drop l.told l.changes.items } };

    ghost invariant = { λ l. l.told ≤ length l.changes.items };
}

/// A copy of the change at the end.
#[inline(always)]
pub(crate) fn add_copy(
    alloc: Global,
    change: &Change,
    changes: &mut Vec<Change>,
) -> Result<(), AllocError>
    ensures ok { OnOk result (changes.new.items ≡ changes.old.items ++ change.now ∷ []) }
    ensures err { OnErr result (changes.new.items ≡ changes.old.items) }
{
    let row = change.row.try_clone(alloc)?;
    changes.push(Change {
        plus: change.plus,
        row,
    })?;
    Ok(())
}

impl Log {
    ghost use Rattle.std.specs.Borrow.{sem};
    ghost use Rattle.std.specs.Io.BufRead.{Rests};
    ghost use Rattle.cql_plain.specs.contracts.log.Log.{the_row};

    /// No change.
    pub fn new(alloc: Global) -> Log
        ensures { result ≡ record { told = []; untold = [] } }
    {
        Log {
            past: nothing(),
            changes: Vec::new(alloc),
            told: 0,
        }
    }

    /// One change more, which is not told.
    pub fn push(&mut self, alloc: Global, change: Change) -> Result<(), AllocError>
        ensures { OnOk result (self.new ≡ logged change self.old) }
    {
        if 0 < self.told && self.told == self.changes.len() {
            self.forget(alloc);
        }
        self.changes.push(change)?;
        Ok(())
    }

    // Lets go of its changes, all of which were told.
    fn forget(&mut self, alloc: Global)
        requires { self.old.untold ≡ [] }
        ensures { self.new ≡ self.old }
    {
        self.told = 0;
        let before = mem::replace(&mut self.past, nothing());
        let told = mem::replace(&mut self.changes, Vec::new(alloc));
        let (past, room) = let_go(alloc, before, told);
        self.past = past;
        self.changes = room;
    }

    /// Tells its changes, and lets go of them.
    pub fn pass(&mut self, alloc: Global)
        ensures { self.new ≡ told_all self.old }
    {
        self.told = self.changes.len();
        self.forget(alloc);
    }

    /// The changes that were not told, in order. Now all are told.
    pub fn tell(&mut self) -> &[Change]
        ensures* all { sem 𝓛 (Rests the_row self.entry (λ new. new ≡ told_all self.old)) }
        ensures untold { result.now ≡ self.old.untold }
    {
        let from = self.told;
        self.told = self.changes.len();
        &self.changes[from..]
    }
}

/// What is left to tell of a log leads from what was told to what the log's bag is turned to.
pub(crate) fn tells_law()
    ensures { IsTellsLaw }
{
    same_counts();
    put_all_counts();
    take_counts();
}

/// A change of a log is a change of its bag.
pub(crate) fn adds_law()
    ensures { IsAddsLaw }
{
    same_counts();
    put_all_counts();
    take_counts();
}
