// The groups of a shape, each with what its row needs.
ghost use Rattle.std.specs.Prelude.{◌≡◌, ◌+◌, ◌<◌, ◌≤◌, ◌^◌, ◌⊎◌, ◌++◌, [], ◌∷◌, Some, true, false, if◌then◌else◌, IfOk, IfErr, OnOk, OnErr, vec_len, vec_capacity};
ghost use Rattle.cql_bag.specs.Changes.{changed, CanChange, Grows};
ghost use Rattle.cql_value.specs.Schema.{HasTypes};
ghost use Rattle.cql_groups.specs.Grouped.{IsNew, at_key, IsChangedGroup, CanChangeAt, IsChangedAt, IsDue, IsLacking, IsChangedOne, IsGrouping, IsPushed, IsSettled, IsToldAll, IsToldOf, lacking_groups, one_if, told_of};
ghost use Rattle.cql_groups.specs.Filed.{IsFiled, groups_in, keys_in};
ghost use Rattle.cql_groups.specs.GroupLaws.{Laws};
ghost use Rattle.cql_ops.specs.Linear.{with_change};
ghost use Rattle.cql_ops.specs.declared.error.OpError.TheVariants.{NoMemory, Overflow};
ghost use Rattle.cql_plain.specs.Shaped.{FailsToShape};

use crate::accumulator::{Accumulator, AccumulatorKind, change_parts, new_parts, some_outside};
use crate::group_key::GroupKey;
use crate::group_map::{GroupMap, Touched, find_at, find_recent, let_go, note_slot, put_group};
use crate::layout::{ItemSource, Layout};
use crate::row::row_of_parts;
use cql_algebra::law::{
    change_types_law, group_law, group_types_law, grouped_column_law, key_law, max_law, min_law,
};
use cql_algebra::pushed_law::{
    ends_law, fewer_law, key_change_law, key_count_law, more_law, of_groups_law, one_group_law,
};
use cql_bag::law::{own_entries, put_all_counts, same_counts, take_counts};
use cql_bag::{Change, RowQueue};
use cql_ops::{Meter, OpError};
use cql_value::Row;
use std::alloc::{AllocError, Global};

/// How many rows a group may have.
const MAX_SIZE: u64 = 9_223_372_036_854_775_807;

/// What is kept of the rows of a key: the key, how many rows there are, one of them, a part for each
/// thing that is asked, and whether some sum is outside i64; the row that was told, and whether rows
/// came or went since.
pub(crate) struct Group {
    pub key: GroupKey,
    pub size: u64,
    pub sample: Row,
    pub parts: Vec<Accumulator>,
    pub lacks: bool,
    pub told: Option<Row>,
    pub pushed: bool,
}

impl Drop for Group {
    fn drop(self) {
        let Group {
            key: _,
            size: _,
            sample: _,
            parts: _,
            lacks: _,
            told: _,
            pushed: _,
        } = self;
    }
}

/// What is kept of groups rests on these laws.
pub(crate) fn group_laws()
    ensures { Laws }
{
    same_counts();
    put_all_counts();
    take_counts();
    own_entries();
    key_law();
    group_law();
    grouped_column_law();
    key_change_law();
    key_count_law();
    more_law();
    fewer_law();
    ends_law();
    min_law();
    max_law();
    one_group_law();
    of_groups_law();
    group_types_law();
    change_types_law();
}

impl Group {
    // Without a row, and none was told.
    fn new(
        alloc: Global,
        asked: &[AccumulatorKind],
        key: &GroupKey,
        sample: &Row,
    ) -> Result<Group, AllocError>
        ensures { IfOk result (IsNew asked.now key.now sample.now) }
    {
        let key = key.share()?;
        let sample = sample.try_clone(alloc)?;
        let parts = new_parts(alloc, asked)?;
        Ok(Group {
            key,
            size: 0,
            sample,
            parts,
            lacks: false,
            told: None,
            pushed: false,
        })
    }

    // A row comes or goes.
    fn change(&mut self, alloc: Global, change: &Change) -> Result<(), AllocError>
        requires few { self.old.size < 2 ^ 63 }
        requires some { change.now.plus ≡ false → 1 ≤ self.old.size }
        ensures { OnOk result (IsChangedGroup change.now self.old self.new) }
    {
        if change.plus {
            if self.size == MAX_SIZE {
                return Err(AllocError);
            }
            self.size += 1;
        } else {
            self.size -= 1;
        }
        change_parts(alloc, &mut self.parts, change)?;
        self.lacks = self.size > 0 && some_outside(self.parts.as_slice());
        Ok(())
    }

    // Its row, where it has rows; or `Overflow`.
    fn row(
        &self,
        alloc: Global,
        sources: &[ItemSource],
        remade: &mut Meter,
    ) -> Result<Option<Row>, OpError>
        requires { self.now.size < 2 ^ 63 }
        ensures ok { IfOk result (IsDue sources.now self.now) }
        ensures err { IfErr result (λ e. (e ≡ NoMemory) ⊎ ((e ≡ Overflow) × IsLacking sources.now self.now)) }
    {
        if self.size == 0 {
            return Ok(None);
        }
        remade.step()?;
        match row_of_parts(
            alloc,
            sources,
            self.size,
            &self.sample,
            self.parts.as_slice(),
        )? {
            Some(row) => Ok(Some(row)),
            None => Err(OpError::Overflow),
        }
    }
}

// Tells that a row came or went, where there is one. There is room for it.
fn tell_any(plus: bool, row: Option<Row>, out: &mut Vec<Change>)
    requires { vec_len out.old < vec_capacity out.old }
    ensures out { out.new.items ≡ out.old.items ++ with_change plus row [] }
    ensures room { (vec_capacity out.new ≡ vec_capacity out.old) × (vec_len out.new ≤ vec_len out.old + 1) }
{
    if let Some(row) = row {
        out.push_reserved(Change { plus, row });
    }
}

// The same row with one more holder, where there is one.
fn shared(row: &Option<Row>) -> Result<Option<Row>, AllocError>
    ensures { IfOk result (λ r. r ≡ row.now) }
{
    match row {
        Some(row) => Ok(Some(row.share()?)),
        None => Ok(None),
    }
}

// Notes that the group in a slot was pushed.
fn mark(slot: usize, group: &mut Group, touched: &mut Vec<Touched>) -> Result<(), AllocError>
    ensures { OnOk result ((group.new ≡ record group.old { pushed = true }) × (keys_in touched.new.items ≡ (if group.old.pushed then keys_in touched.old.items else keys_in touched.old.items ++ group.old.key ∷ []))) }
{
    if !group.pushed {
        let key = group.key.share()?;
        touched.push(Touched { key, slot })?;
        group.pushed = true;
    }
    Ok(())
}

// How many groups lack a value, after one of them changed.
fn counted(lacking: u64, lacked: bool, lacks: bool) -> Result<u64, AllocError>
    requires { lacked ≡ true → 1 ≤ lacking }
    ensures { IfOk result (λ n. n + one_if lacked ≡ lacking + one_if lacks) }
{
    match (lacked, lacks) {
        (false, true) => lacking.checked_add(1).ok_or(AllocError),
        (true, false) => Ok(lacking - 1),
        _ => Ok(lacking),
    }
}

// A row comes or goes in the group of a slot, and that it waits is noted.
fn change_group(
    alloc: Global,
    change: &Change,
    slot: usize,
    group: &mut Group,
    touched: &mut Vec<Touched>,
    lacking: &mut u64,
) -> Result<(), AllocError>
    requires few { group.old.size < 2 ^ 63 }
    requires some { change.now.plus ≡ false → 1 ≤ group.old.size }
    requires among { group.old.lacks ≡ true → 1 ≤ lacking.old }
    ensures { OnOk result (IsChangedOne change.now group.old group.new (keys_in touched.old.items) (keys_in touched.new.items) lacking.old lacking.new) }
{
    mark(slot, group, touched)?;
    let lacked = group.lacks;
    group.change(alloc, change)?;
    *lacking = counted(*lacking, lacked, group.lacks)?;
    Ok(())
}

// The group of the row's key is changed where it stands; where there is none, one is put in.
fn change_at(
    alloc: Global,
    asked: &[AccumulatorKind],
    key: &GroupKey,
    change: &Change,
    groups: &mut GroupMap,
    touched: &mut Vec<Touched>,
    lacking: &mut u64,
) -> Result<(), AllocError>
    requires filed { IsFiled groups.old }
    requires can { CanChangeAt asked.now change.now key.now (at_key key.now (groups_in groups.old)) lacking.old }
    ensures { OnOk result (IsChangedAt asked.now change.now key.now (groups_in groups.old) (groups_in groups.new) (keys_in touched.old.items) (keys_in touched.new.items) lacking.old lacking.new × IsFiled groups.new) }
{
    match find_recent(key, groups) {
        Some(slot) => {
            note_slot(key, slot, &mut groups.recent);
            let Some(group) = groups.slots.get_mut(slot) else {
                unreachable!();
            };
            change_group(alloc, change, slot, group, touched, lacking)
        }
        None => {
            let slot = groups.slots.vacant_key();
            let mut group = Group::new(alloc, asked, key, &change.row)?;
            change_group(alloc, change, slot, &mut group, touched, lacking)?;
            put_group(key, group, groups)
        }
    }
}

/// A row of the port comes or goes. Its key is written into `key`.
pub(crate) fn push_row(
    alloc: Global,
    layout: &Layout,
    change: &Change,
    key: &mut GroupKey,
    port: &mut RowQueue,
    groups: &mut GroupMap,
    touched: &mut Vec<Touched>,
    lacking: &mut u64,
) -> Result<(), AllocError>
    requires held { IsGrouping layout.now port.old (told_of (groups_in groups.old)) (groups_in groups.old) (keys_in touched.old.items) }
    requires filed { IsFiled groups.old }
    requires lacking { lacking.old ≡ lacking_groups layout.now.shape port.old }
    requires types { HasTypes layout.now.shape.columns change.now.row }
    requires there { CanChange change.now port.old }
    ensures { OnOk result (IsPushed layout.now (changed change.now port.old) (told_of (groups_in groups.old)) port.new (groups_in groups.new) (keys_in touched.new.items) lacking.new × IsFiled groups.new) }
{
    group_laws();
    key.set(alloc, layout.shape.groups.as_slice(), change.row.values())?;
    change_at(
        alloc,
        layout.asked.as_slice(),
        key,
        change,
        groups,
        touched,
        lacking,
    )?;
    port.change(alloc, change)
}

// Computes the row of a group, and tells it in the place of the one told before. Whether it has one.
fn settle_group(
    alloc: Global,
    sources: &[ItemSource],
    group: &mut Group,
    remade: &mut Meter,
    out: &mut Vec<Change>,
) -> Result<bool, OpError>
    requires { group.old.size < 2 ^ 63 }
    ensures settled { IfOk result (λ some. IsSettled sources.now group.old group.new some × (out.new.items ≡ (out.old.items ++ with_change false group.old.told []) ++ with_change true group.new.told [])) }
    ensures err { IfErr result (λ e. Grows out.old.items out.new.items × ((e ≡ NoMemory) ⊎ ((e ≡ Overflow) × IsLacking sources.now group.old))) }
{
    let row = group.row(alloc, sources, remade)?;
    let told = shared(&row)?;
    out.reserve(2)?;
    tell_any(false, group.told.take(), out);
    tell_any(true, told, out);
    let some = row.is_some();
    group.told = row;
    group.pushed = false;
    Ok(some)
}

// The group of a key, where there is one, tells its row; without rows it goes.
fn settle_key(
    alloc: Global,
    layout: &Layout,
    port: &RowQueue,
    touched: &Touched,
    rest: &[Touched],
    groups: &mut GroupMap,
    remade: &mut Meter,
    out: &mut Vec<Change>,
) -> Result<(), OpError>
    requires held { IsGrouping layout.now port.now (told_of (groups_in groups.old)) (groups_in groups.old) (touched.now.key ∷ keys_in rest.now) }
    requires filed { IsFiled groups.old }
    ensures told { OnOk result (IsToldOf layout.now port.now (groups_in groups.old) (groups_in groups.new) (keys_in rest.now) out.old.items out.new.items × IsFiled groups.new) }
    ensures err { IfErr result (λ e. Grows out.old.items out.new.items × FailsToShape layout.now.shape port.now e) }
{
    group_laws();
    let Some(slot) = find_at(&touched.key, touched.slot, groups) else {
        return Ok(());
    };
    let Some(group) = groups.slots.get_mut(slot) else {
        unreachable!();
    };
    if !settle_group(alloc, layout.sources.as_slice(), group, remade, out)? {
        let_go(&touched.key, slot, groups);
    }
    Ok(())
}

/// Tells what the groups that were pushed have more or less than was told of them; or `Overflow`.
pub(crate) fn tell_groups(
    alloc: Global,
    layout: &Layout,
    port: &RowQueue,
    groups: &mut GroupMap,
    touched: &mut Vec<Touched>,
    remade: &mut Meter,
    out: &mut Vec<Change>,
) -> Result<(), OpError>
    requires held { IsGrouping layout.now port.now (told_of (groups_in groups.old)) (groups_in groups.old) (keys_in touched.old.items) }
    requires filed { IsFiled groups.old }
    ensures told { OnOk result (IsToldAll layout.now port.now (groups_in groups.old) (groups_in groups.new) (keys_in touched.new.items) out.old.items out.new.items × IsFiled groups.new) }
    ensures err { IfErr result (λ e. Grows out.old.items out.new.items × FailsToShape layout.now.shape port.now e) }
{
    group_laws();
    let mut left = touched.as_slice();
    while let Some((first, rest)) = left.split_first() {
        settle_key(alloc, layout, port, first, rest, groups, remade, out)?;
        left = rest;
    }
    touched.clear();
    Ok(())
}
