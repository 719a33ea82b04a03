// What there is of one tenant.
ghost use Rattle.std.specs.Prelude.{◌≡◌, ◌≤◌, ◌^◌, not, true, IfOk, IfSome, OnOk, OnErr, option_copied, slice_get, Some, None, is_some, length, nat_lt, if◌then◌else◌};
ghost use Rattle.std.specs.Result.{result_err};
ghost use Rattle.std.specs.List.{filter};
ghost use Rattle.cql_tenants.specs.Named.{find_named};
ghost use Rattle.cql_tenants.specs.declared.stream_refusal.StreamRefusal.TheVariants.{StreamExists, TooManyStreams};
ghost use Rattle.cql_tenants.specs.Namespace.{empty_namespace, is_of, grant_of, without_grant};
ghost use Rattle.cql_tenants.specs.Checks.{make_refused};
ghost use Rattle.cql_tenants.specs.Directory.{with_stream};

use crate::clock::Clock;
use crate::grant::Grant;
use crate::granted::Granted;
use crate::name_map::NameMap;
use crate::shared::Shared;
use crate::stream::Stream;
use crate::stream_refusal::StreamRefusal;
use crate::tenants::{Quotas, Tenant};
use cql_value::name::is_name;
use cql_value::{Name, Schema};
use std::alloc::{AllocError, Global};
use std::sync::Arc;

/// A tenant's name, which lists share, and quotas, its streams in order of making, and the streams
/// that were granted to it, in order of the grants.
pub struct Namespace {
    pub name: Shared<Name>,
    pub quotas: Quotas,
    pub streams: NameMap<Stream>,
    pub granted: Granted,
}

impl Drop for Namespace {
    fn drop(self) {
        let Namespace {
            name: _,
            quotas: _,
            streams: _,
            granted: _,
        } = self;
    }
}

impl Namespace {
    /// A namespace with no stream.
    pub fn new(alloc: Global, tenant: &Tenant) -> Result<Namespace, AllocError>
        ensures { IfOk result (λ namespace. namespace ≡ empty_namespace tenant.now.name tenant.now.quotas) }
    {
        let name = Arc::new(alloc, tenant.name.try_clone()?)?;
        Ok(Namespace {
            name: Shared::new(name),
            quotas: tenant.quotas,
            streams: NameMap::new(alloc),
            granted: Granted::new(alloc),
        })
    }

    /// The grant of that stream to this tenant. Takes no memory.
    pub fn grant_of(&self, owner: usize, stream: &str) -> Option<&Grant>
        ensures { option_copied result ≡ grant_of self.now owner stream.now }
    {
        self.granted
            .as_slice()
            .iter()
            .find(|grant| grant.is_of(owner, stream))
    }

    /// Takes the grant of that stream away. Takes no memory.
    pub fn take_back(&mut self, owner: usize, stream: &str)
        ensures { self.new ≡ without_grant owner stream.now self.old }
    {
        self.granted.take(owner, stream);
    }

    // Whether there is a stream of the name, or no room for one more.
    fn room(&self, name: &str) -> Result<(), StreamRefusal>
        ensures { result_err result ≡ (if is_some (find_named self.now.streams name.now) then Some StreamExists else (if nat_lt (length self.now.streams) self.now.quotas.streams then None else Some TooManyStreams)) }
    {
        if self.streams.get(name).is_some() {
            return Err(StreamRefusal::StreamExists);
        }
        if self.streams.len() as u64 >= self.quotas.streams {
            return Err(StreamRefusal::TooManyStreams);
        }
        Ok(())
    }

    /// The schema of a stream that may be made. Takes no memory.
    pub fn may_make<'a>(
        &self,
        name: &str,
        schema: Option<&'a Schema>,
    ) -> Result<&'a Schema, StreamRefusal>
        ensures refused { result_err result ≡ make_refused self.now.streams self.now.quotas.streams name.now (option_copied schema.entry) }
        ensures schema { IfOk result (λ s. option_copied schema.entry ≡ Some s.now) }
    {
        if !is_name(name) {
            return Err(StreamRefusal::BadName);
        }
        let Some(schema) = schema else {
            return Err(StreamRefusal::BadColumns);
        };
        self.room(name)?;
        Ok(schema)
    }

    /// The least time, in ticks, that the stream at an index still takes; 0 where there is none.
    pub fn opened(&self, index: usize) -> u64
        ensures value { IfSome (slice_get self.now.streams index) (λ s. result ≡ s.item.clock) }
        ensures bounded { result ≤ 2 ^ 62 }
    {
        match self.streams.get_index(index) {
            None => 0,
            Some((_name, stream)) => stream.clock.opened(),
        }
    }

    /// Makes a stream that may be made.
    pub fn make(&mut self, alloc: Global, name: &str, schema: &Schema) -> Result<(), AllocError>
        requires { make_refused self.old.streams self.old.quotas.streams name.now (Some schema.now) ≡ None }
        ensures ok { OnOk result (self.new ≡ with_stream name.now schema.now self.old) }
        ensures err { OnErr result (self.new ≡ self.old) }
    {
        let stream = Stream {
            schema: schema.try_clone(alloc)?,
            clock: Clock::new(),
        };
        match self.streams.push(String::from_str(alloc, name)?, stream) {
            Ok(()) => Ok(()),
            Err(_stream) => Err(AllocError),
        }
    }
}
