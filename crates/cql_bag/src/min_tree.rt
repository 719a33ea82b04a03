// The numbers of a list, with the least of each two neighbours above them, and so on.
ghost use Rattle.std.specs.Prelude.{◌≡◌, ◌/◌, ◌<◌, ◌≤◌, [], IfSome, IfNone, OnOk, length, slice_index, set, vec_len, vec_capacity, is_ok, ◌++◌, ◌∷◌, if◌then◌else◌};
ghost use Rattle.std.specs.List.{All, Contains};
ghost use Rattle.cql_bag.specs.Levels.{pair_least, least_of, put, changed_where, lists_of, level_at, HasRoom, IsTower, ArePairsOf, AreAsLong};

use std::alloc::{AllocError, Global};
use std::marker::Model;

/// A list of numbers, of which the least is known.
#[derive(Drop)]
pub struct MinTree {
    levels: Vec<Vec<u64>>,
}

impl Model for MinTree {
    ghost use Rattle.std.specs.Prelude.{List, ℕ};
    ghost use Rattle.cql_bag.specs.Levels.{lists_of, level_at, IsTower};

    ghost Value = { List ℕ };

    ghost view = { λ l. level_at (lists_of l.levels.items) 0 };

    ghost invariant = { λ l. IsTower (lists_of l.levels.items) };
}

// The least of the two neighbours of which the number at an index is one.
fn pair_at(level: &[u64], index: usize) -> u64
    requires { index < length level.now }
    ensures { result ≡ slice_index (pair_least level.now) (index / 2) }
{
    let first = index - index % 2;
    if first + 1 < level.len() {
        level[first].min(level[first + 1])
    } else {
        level[first]
    }
}

// Of the two neighbours at an index of the level above, one that is below the bound.
fn lesser(level: &[u64], index: usize, bound: u64) -> usize
    requires index { index < length (pair_least level.now) }
    requires below { slice_index (pair_least level.now) index < bound }
    ensures index { result < length level.now }
    ensures below { slice_index level.now result < bound }
{
    let left = 2 * index;
    if level[left] < bound { left } else { left + 1 }
}

// Sets the number at an index of a level: the least of the two neighbours of which it is one.
fn set_in(level: &mut Vec<u64>, index: usize, number: u64) -> u64
    requires { index < length level.now.items }
    ensures after { level.new.items ≡ set level.old.items index number }
    ensures pair { result ≡ slice_index (pair_least level.new.items) (index / 2) }
{
    level[index] = number;
    pair_at(level, index)
}

// Puts the number at an index of a level, or at its end, where there is room: the least of the two
// neighbours of which it is one.
fn put_in(level: &mut Vec<u64>, index: usize, number: u64) -> u64
    requires index { index ≤ length level.now.items }
    requires room { vec_len level.now < vec_capacity level.now }
    ensures after { level.new.items ≡ put level.old.items index number }
    ensures pair { result ≡ slice_index (pair_least level.new.items) (index / 2) }
{
    if index < level.len() {
        return set_in(level, index, number);
    }
    level.push_reserved(number);
    pair_at(level, index)
}

// Changes each number that is below the bound.
fn set_low(level: &mut Vec<u64>, bound: u64, number: u64)
    ensures { level.new.items ≡ changed_where level.old.items bound number level.old.items }
{
    for index in 0..level.len() {
        if level[index] < bound {
            level[index] = number;
        }
    }
}

// Changes each number at whose index another list has one below the bound.
fn set_beside(level: &mut Vec<u64>, others: &[u64], bound: u64, number: u64)
    ensures { level.new.items ≡ changed_where others.now bound number level.old.items }
{
    for index in 0..level.len().min(others.len()) {
        if others[index] < bound {
            level[index] = number;
        }
    }
}

// Makes a level anew, of the one below it.
fn pair_into(below: &[u64], above: &mut Vec<u64>)
    requires { length above.old.items ≡ length (pair_least below.now) }
    ensures { above.new.items ≡ pair_least below.now }
{
    for index in 0..above.len() {
        above[index] = pair_at(below, 2 * index);
    }
}

// Makes each level above the lowest anew.
fn pair_all(levels: &mut Vec<Vec<u64>>)
    requires { AreAsLong (lists_of levels.now.items) }
    ensures count { length levels.new.items ≡ length levels.old.items }
    ensures pairs { ArePairsOf (level_at (lists_of levels.old.items) 0) (lists_of levels.new.items) }
{
    for level in 1..levels.len() {
        let (below, above) = levels.split_at_mut(level);
        pair_into(&below[level - 1], &mut above[0]);
    }
}

// Makes room for one more number in each level.
fn make_room(levels: &mut Vec<Vec<u64>>) -> Result<(), AllocError>
    ensures same { lists_of levels.new.items ≡ lists_of levels.old.items }
    ensures room { OnOk result (HasRoom levels.new.items) }
{
    for level in 0..levels.len() {
        levels[level].reserve(1)?;
    }
    Ok(())
}

// Puts the number at an index of the lowest level, or at its end, and its pairs in those above.
fn put_all(levels: &mut Vec<Vec<u64>>, index: usize, number: u64)
    requires tower { IsTower (lists_of levels.now.items) }
    requires index { index ≤ length (level_at (lists_of levels.now.items) 0) }
    requires room { HasRoom levels.now.items }
    ensures count { length levels.new.items ≡ length levels.old.items }
    ensures len { vec_len levels.new ≡ vec_len levels.old }
    ensures capacity { vec_capacity levels.new ≡ vec_capacity levels.old }
    ensures pairs { ArePairsOf (put (level_at (lists_of levels.old.items) 0) index number) (lists_of levels.new.items) }
{
    let mut index = index;
    let mut number = number;
    for level in 0..levels.len() {
        number = put_in(&mut levels[level], index, number);
        index = index / 2;
    }
}

impl MinTree {
    /// No numbers.
    pub fn new(alloc: Global) -> MinTree
        ensures { result ≡ [] }
    {
        MinTree {
            levels: Vec::new(alloc),
        }
    }

    /// One more number at the end. If memory is refused, nothing has changed.
    pub fn push(&mut self, alloc: Global, number: u64) -> Result<(), AllocError>
        ensures { self.new ≡ (if is_ok result then self.old ++ number ∷ [] else self.old) }
    {
        make_room(&mut self.levels)?;
        self.levels.reserve(1)?;
        let mut spare = Vec::with_capacity(alloc, 1)?;
        let count = self.levels.len();
        if count == 0 {
            spare.push_reserved(number);
            self.levels.push_reserved(spare);
            return Ok(());
        }
        let index = self.levels[0].len();
        put_all(&mut self.levels, index, number);
        let top = &self.levels[count - 1];
        if top.len() > 1 {
            spare.push_reserved(pair_at(top, 0));
            self.levels.push_reserved(spare);
        }
        Ok(())
    }

    /// How many numbers there are.
    pub fn len(&self) -> usize
        ensures { result ≡ length self.now }
    {
        match self.levels.first() {
            Some(level) => level.len(),
            None => 0,
        }
    }

    /// Changes the number at an index.
    pub fn set(&mut self, index: usize, number: u64)
        requires { index < length self.now }
        ensures { self.new ≡ set self.old index number }
    {
        let mut index = index;
        let mut number = number;
        for level in 0..self.levels.len() {
            number = set_in(&mut self.levels[level], index, number);
            index = index / 2;
        }
    }

    /// The numbers, in their order.
    pub fn numbers(&self) -> &[u64]
        ensures { result.now ≡ self.now }
    {
        match self.levels.first() {
            Some(level) => level,
            None => &[],
        }
    }

    /// Changes each number that is below a bound, in one walk over all. This takes no memory.
    pub fn set_below(&mut self, bound: u64, number: u64)
        ensures { self.new ≡ changed_where self.old bound number self.old }
    {
        if self.levels.is_empty() {
            return;
        }
        set_low(&mut self.levels[0], bound, number);
        pair_all(&mut self.levels);
    }

    /// Changes each number at whose index another list has one below a bound, in one walk over all.
    /// This takes no memory.
    pub fn set_where(&mut self, others: &[u64], bound: u64, number: u64)
        ensures { self.new ≡ changed_where others.now bound number self.old }
    {
        if self.levels.is_empty() {
            return;
        }
        set_beside(&mut self.levels[0], others, bound, number);
        pair_all(&mut self.levels);
    }

    /// The least of the numbers.
    pub fn least(&self) -> Option<u64>
        ensures value { result ≡ least_of self.now }
        ensures law { IfSome result (λ m. All (λ x. m ≤ x) self.now × Contains self.now m) }
        ensures none { IfNone result (self.now ≡ []) }
    {
        let count = self.levels.len();
        if count == 0 {
            return None;
        }
        let top = &self.levels[count - 1];
        if top.is_empty() { None } else { Some(top[0]) }
    }

    /// An index whose number is below the bound, where there is one. It goes down the levels, and
    /// looks at no other number.
    pub fn below(&self, bound: u64) -> Option<usize>
        ensures some { IfSome result (λ index. (index < length self.now) × (slice_index self.now index < bound)) }
        ensures none { IfNone result (All (λ x. bound ≤ x) self.now) }
    {
        let least = self.least()?;
        if bound <= least {
            return None;
        }
        let mut level = self.levels.len() - 1;
        let mut index = 0;
        while level > 0 {
            level -= 1;
            index = lesser(&self.levels[level], index, bound);
        }
        Some(index)
    }
}
