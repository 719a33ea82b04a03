//! Things under names, in order of making.
ghost use Rattle.std.specs.Prelude.{◌≡◌, [], ◌∷◌, ◌++◌, ◌+◌, ◌<◌, None, Some, IfOk, IfErr, IfSome, IfNone, OnOk, OnErr, string_bytes, length, ℕ, List, option_map, slice_get, option_copied};
ghost use Rattle.std.specs.Result.{result_err};
ghost use Rattle.cql_tenants.specs.Clock.{time_fault};
ghost use Rattle.cql_tenants.specs.Named.{find_named, index_of, change_named, change_nth, remove_named};
ghost use Rattle.cql_tenants.specs.Taking.{put_refused, beat_refused, opens};

use crate::stream::Stream;
use crate::stream_refusal::StreamRefusal;
use cql_value::Row;
use indexmap::IndexMap;
use std::alloc::Global;
use std::marker::Model;

/// Things under names, in order of making. Contracts see the list of names with their things.
#[derive(Drop)]
pub struct NameMap<V> {
    map: IndexMap<String, V>,
}

impl<V> Model for NameMap<V> {
    ghost use Rattle.std.specs.Prelude.{List};
    ghost use Rattle.cql_tenants.specs.Named.{Named, named_of};

    ghost Value = { List (Named V) };

    ghost view = { λ s. named_of s.map.entries };
}

impl<V> NameMap<V> {
    /// Nothing yet. Takes no memory.
    pub fn new(alloc: Global) -> NameMap<V>
        ensures { result ≡ [] }
    {
        NameMap {
            map: IndexMap::new(alloc),
        }
    }

    /// How many things there are.
    pub fn len(&self) -> usize
        ensures { result ≡ length self.now }
    {
        self.map.len()
    }

    /// The thing of that name. Takes no memory.
    pub fn get(&self, name: &str) -> Option<&V>
        ensures { option_copied result ≡ find_named self.now name.now }
    {
        self.map.get(name)
    }

    /// The index of the first of that name. Takes no memory.
    pub fn index_of(&self, name: &str) -> Option<usize>
        ensures value { result ≡ index_of self.now name.now }
        ensures within { IfSome result (λ i. i < length self.now) }
    {
        self.map.get_index_of(name)
    }

    /// The thing of that name, with its index. Takes no memory.
    pub fn find(&self, name: &str) -> Option<(usize, &V)>
        ensures thing { option_map (λ p. p.1.now) result ≡ find_named self.now name.now }
        ensures index { IfSome result (λ p. index_of self.now name.now ≡ Some p.0) }
        ensures within { IfSome result (λ p. p.0 < length self.now) }
    {
        let index = self.index_of(name)?;
        Some((index, self.entry(index).1))
    }

    /// The thing at an index, with its name, if there is one. Takes no memory.
    pub fn get_index(&self, index: usize) -> Option<(&str, &V)>
        ensures { option_map (λ p. record { name = p.0.now; item = p.1.now }) result ≡ slice_get self.now index }
    {
        let (name, item) = self.map.get_index(index)?;
        Some((name.as_str(), item))
    }

    /// The thing at an index, with its name. Takes no memory.
    pub fn entry(&self, index: usize) -> (&str, &V)
        requires { index < length self.now }
        ensures { slice_get self.now index ≡ Some (record { name = result.0.now; item = result.1.now }) }
    {
        let entry = self.get_index(index);
        entry.unwrap()
    }

    /// Adds a thing under a name that is new, behind the others, or gives it back where there is no
    /// memory.
    pub fn push(&mut self, name: String, new: V) -> Result<(), V>
    where
        V: Drop,
        requires { find_named self.old (string_bytes name) ≡ None }
        ensures ok { OnOk result (self.new ≡ self.old ++ record { name = string_bytes name; item = new } ∷ []) }
        ensures err { OnErr result (self.new ≡ self.old) }
        ensures back { IfErr result (λ v. v ≡ new) }
    {
        match self.map.insert(name, new) {
            Ok(_) => Ok(()),
            Err(failed) => Err(failed.value.1),
        }
    }

    /// Takes away the thing of that name; the others keep their order. Takes no memory.
    pub fn take(&mut self, name: &str) -> Option<V>
        ensures found { result ≡ find_named self.old name.now }
        ensures taken { IfSome result (λ v. self.new ≡ remove_named self.old name.now) }
        ensures same { IfNone result (self.new ≡ self.old) }
    {
        self.map.shift_remove(name)
    }
}

/// A thing with a time, in ticks, that goes on, and that may be closed.
pub trait HasCursor {
    ghost use Rattle.std.specs.Prelude.{ℕ};

    /// The thing once its time has gone on to another.
    ghost moved: { ℕ → Self → Self };

    /// The thing once it is closed.
    ghost closed: { Self → Self };

    /// Goes on to a time. Takes no memory.
    fn go_to(&mut self, to: u64)
        ensures { self.new ≡ moved to self.old };

    /// Closes it. Takes no memory.
    fn close(&mut self)
        ensures { self.new ≡ closed self.old };
}

impl<V: HasCursor> NameMap<V> {
    /// The thing at an index, which is that of its name, goes on to a time, in ticks. Takes no
    /// memory.
    pub fn go_to(&mut self, index: usize, to: u64)
        requires { index < length self.old }
        ensures { (name : List ℕ) → index_of self.old name ≡ Some index → self.new ≡ change_named (V.moved to) name self.old }
    {
        let Some(thing) = self.map.get_index_mut(index) else {
            return;
        };
        thing.go_to(to);
    }

    /// The thing at an index is closed. Takes no memory.
    pub fn close(&mut self, index: usize)
        requires { index < length self.old }
        ensures { self.new ≡ change_nth V.closed index self.old }
    {
        let Some(thing) = self.map.get_index_mut(index) else {
            return;
        };
        thing.close();
    }
}

impl NameMap<Stream> {
    /// The index of the stream of that name, which takes the row at the time, in ticks. Takes no
    /// memory.
    pub fn admit(&self, name: &str, at: u64, row: &Row) -> Result<usize, StreamRefusal>
        ensures refused { result_err result ≡ put_refused (find_named self.now name.now) at row.now }
        ensures index { IfOk result (λ i. index_of self.now name.now ≡ Some i) }
        ensures within { IfOk result (λ i. i < length self.now) }
        ensures takes { IfOk result (λ i. IfSome (slice_get self.now i) (λ s. time_fault s.item.clock at ≡ None)) }
    {
        let Some(index) = self.index_of(name) else {
            return Err(StreamRefusal::UnknownStream);
        };
        self.entry(index).1.admit(at, row)?;
        Ok(index)
    }

    /// A row came on the stream at an index, at a time, in ticks, that the stream takes. Takes no
    /// memory.
    pub fn came(&mut self, index: usize, at: u64)
        requires within { index < length self.old }
        requires takes { IfSome (slice_get self.old index) (λ s. time_fault s.item.clock at ≡ None) }
        ensures { self.new ≡ change_nth (opens at) index self.old }
    {
        let Some(stream) = self.map.get_index_mut(index) else {
            return;
        };
        stream.came(at);
    }

    /// A heartbeat of the stream of that name, of a time in ticks. Takes no memory.
    pub fn beat(&mut self, name: &str, at: u64) -> Result<(), StreamRefusal>
        ensures refused { result_err result ≡ beat_refused (find_named self.old name.now) at }
        ensures ok { OnOk result (self.new ≡ change_named (opens (at + 1)) name.now self.old) }
        ensures err { OnErr result (self.new ≡ self.old) }
    {
        let Some(stream) = self.map.get_mut(name) else {
            return Err(StreamRefusal::UnknownStream);
        };
        stream.beat(at)
    }
}
