// Groups in slots, with an index of their keys.
ghost use Rattle.std.specs.Prelude.{◌≡◌, None, IsTrue, OnOk};
ghost use Rattle.cql_groups.specs.Grouped.{at_key};
ghost use Rattle.cql_groups.specs.Filed.{Finds, HasRoom, IsAt, IsFiled, IsLetGo, IsPut, IsSlotOf, groups_in};

use crate::group::Group;
use crate::group_key::GroupKey;
use slab::Slab;
use std::alloc::AllocError;
use std::collections::BTreeMap;

/// The groups of a shape, each in a slot, where it stays while it has rows; the slot of each key; and
/// by the places of keys that are numbers the slots that were noted for them last.
pub(crate) struct GroupMap {
    pub index: BTreeMap<GroupKey, usize>,
    pub slots: Slab<Group>,
    pub recent: Vec<usize>,
}

impl Drop for GroupMap {
    fn drop(self) {
        let GroupMap {
            index: _,
            slots: _,
            recent: _,
        } = self;
    }
}

/// The key of a group that waits to be told, and where it stood as its row came or went.
pub(crate) struct Touched {
    pub key: GroupKey,
    pub slot: usize,
}

impl Drop for Touched {
    fn drop(self) {
        let Touched { key: _, slot: _ } = self;
    }
}

// Whether the slot has the group of the key.
fn is_at(slots: &Slab<Group>, slot: usize, key: &GroupKey) -> bool
    ensures { IsTrue result → IsAt slots.now slot key.now }
{
    match slots.get(slot) {
        Some(group) => group.key == *key,
        None => false,
    }
}

// The slot of a key, if there is a group.
fn find(key: &GroupKey, groups: &GroupMap) -> Option<usize>
    requires { IsFiled groups.now }
    ensures { Finds key.now groups.now result }
{
    match groups.index.get(key) {
        Some(slot) => Some(*slot),
        None => None,
    }
}

/// The slot of a key, if there is a group, which stood in a slot: the index is only asked where it
/// stands there no more.
pub(crate) fn find_at(key: &GroupKey, slot: usize, groups: &GroupMap) -> Option<usize>
    requires { IsFiled groups.now }
    ensures { Finds key.now groups.now result }
{
    if is_at(&groups.slots, slot, key) {
        return Some(slot);
    }
    find(key, groups)
}

/// The next key of its place is looked for in this slot first.
pub(crate) fn note_slot(key: &GroupKey, slot: usize, recent: &mut Vec<usize>) {
    if let Some(place) = key.place(recent.len()) {
        recent[place] = slot;
    }
}

// There is to be room for one group more, and as many places as there were groups at once.
fn make_room(groups: &mut GroupMap) -> Result<(), AllocError>
    ensures { OnOk result (HasRoom groups.old groups.new) }
{
    if groups.recent.len() <= groups.index.len() {
        groups.recent.push(0)?;
    }
    groups.slots.reserve(1)
}

/// The slot of a key, if there is a group. It is looked for where one of its place was noted last.
pub(crate) fn find_recent(key: &GroupKey, groups: &GroupMap) -> Option<usize>
    requires { IsFiled groups.now }
    ensures { Finds key.now groups.now result }
{
    match key.place(groups.recent.len()) {
        Some(place) => find_at(key, groups.recent[place], groups),
        None => find(key, groups),
    }
}

/// Puts a group in a slot, where there is none of its key.
pub(crate) fn put_group(
    key: &GroupKey,
    group: Group,
    groups: &mut GroupMap,
) -> Result<(), AllocError>
    requires filed { IsFiled groups.old }
    requires none { at_key key.now (groups_in groups.old) ≡ None }
    requires name { group.key ≡ key.now }
    ensures { OnOk result (IsPut key.now group groups.old groups.new) }
{
    make_room(groups)?;
    let key = key.share()?;
    let slot = groups.slots.vacant_key();
    groups.index.insert(key, slot)?;
    let _ = groups.slots.insert_reserved(group);
    Ok(())
}

/// Takes the group of a key out of its slot.
pub(crate) fn let_go(key: &GroupKey, slot: usize, groups: &mut GroupMap)
    requires filed { IsFiled groups.old }
    requires there { IsSlotOf key.now slot groups.old }
    ensures { IsLetGo key.now groups.old groups.new }
{
    let _ = groups.index.remove(key);
    let _ = groups.slots.try_remove(slot);
}
