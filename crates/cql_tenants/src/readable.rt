// Streams as their readers see them.
ghost use Rattle.std.specs.Prelude.{◌≡◌, IfOk, map, option_map};
ghost use Rattle.std.specs.List.{AllByRecursion};
ghost use Rattle.cql_value.specs.declared.schema.Column.{Column as column};
ghost use Rattle.cql_tenants.specs.Lookup.{opened_at, own_readable, granted_readable, read_stream};
ghost use Rattle.cql_tenants.specs.Law.{IsIndexed};
ghost use Rattle.cql_tenants.specs.Listed.{own_stream};

use crate::grant::Grant;
use crate::held::Held;
use crate::name_map::NameMap;
use crate::namespace::Namespace;
use crate::namespaces::{namespace_at, opened_at, owner_name};
use crate::shared::Shared;
use crate::stream::Stream;
use crate::tenants::TenantId;
use cql_value::{Column, Items, Name, Schema, Text};
use cql_window::whole_projection;
use std::alloc::{AllocError, Global};
use std::marker::Model;

/// A stream that a tenant reads: under its name alone where it is the tenant's own, else under its
/// owner's and its name.
pub struct ReadableStream {
    pub owner: Option<Text>,
    pub name: Text,
    /// The columns that the tenant sees.
    pub schema: Schema,
    /// Where they stand among the stream's own.
    pub projection: Items<usize>,
    /// The least time, in ticks, that the stream still takes.
    pub opened: u64,
}

impl Drop for ReadableStream {
    fn drop(self) {
        let ReadableStream {
            owner: _,
            name: _,
            schema: _,
            projection: _,
            opened: _,
        } = self;
    }
}

/// A stream that a tenant reads, as a look-up finds it.
#[derive(Clone, Copy)]
pub struct FoundStream<'a> {
    pub owner: TenantId,
    /// The stream's index among its owner's.
    pub index: usize,
    /// The columns that the tenant sees.
    pub schema: &'a Schema,
    /// Where they stand among the stream's own.
    pub projection: &'a [usize],
    /// Whether a grant names them.
    pub named: bool,
    /// The least time, in ticks, that the stream still takes.
    pub opened: u64,
}

/// A stream of the tenant's own, as a list shows it.
pub struct OwnStream {
    pub name: Text,
    /// The least time, in ticks, that the stream still takes.
    pub opened: u64,
}

impl Drop for OwnStream {
    fn drop(self) {
        let OwnStream { name: _, opened: _ } = self;
    }
}

/// A stream that another tenant granted, as a list shows it. It shares its texts with the grant, so
/// that none is copied where a list is made.
pub struct GrantedStream {
    owner: Shared<Name>,
    shown: Held,
    opened: u64,
}

impl Drop for GrantedStream {
    fn drop(self) {
        let GrantedStream {
            owner: _,
            shown: _,
            opened: _,
        } = self;
    }
}

impl Model for GrantedStream {
    ghost use Rattle.cql_tenants.specs.Listed.{GrantedStream as read, named_columns};

    ghost Value = { read };

    ghost view = { λ s. record { owner = s.owner; stream = s.shown.stream; columns = named_columns s.shown.named s.shown.schema; opened = s.opened } };
}

impl GrantedStream {
    /// The name of the stream's owner.
    pub fn owner(&self) -> &str
        ensures { result.now ≡ self.now.owner }
    {
        self.owner.get().as_str()
    }

    /// The stream's name.
    pub fn stream(&self) -> &str
        ensures { result.now ≡ self.now.stream }
    {
        self.shown.get().stream.as_str()
    }

    /// The columns, where the grant names them.
    pub fn columns(&self) -> Option<&[Column]>
        ensures { option_map (λ cs. map (λ (c : column). c.name) cs.now) result ≡ self.now.columns }
    {
        let shown = self.shown.get();
        if shown.named {
            Some(shown.schema.columns())
        } else {
            None
        }
    }

    /// The least time, in ticks, that the stream still takes.
    pub fn opened(&self) -> u64
        ensures { result ≡ self.now.opened }
    {
        self.opened
    }
}

// A copy of a stream's name and of the columns that a tenant sees, for a reader.
fn copied(
    alloc: Global,
    owner: Option<Text>,
    name: &str,
    schema: &Schema,
    projection: &[usize],
    opened: u64,
) -> Result<ReadableStream, AllocError>
    ensures { IfOk result (λ r. r ≡ record { owner = owner; name = name.now; schema = schema.now; projection = projection.now; opened = opened }) }
{
    let name = Text::new(alloc, name)?;
    let schema = schema.try_clone(alloc)?;
    let projection = Items::from_slice(alloc, projection)?;
    Ok(ReadableStream {
        owner,
        name,
        schema,
        projection,
        opened,
    })
}

// A stream of the tenant's own.
fn own_readable(alloc: Global, name: &str, stream: &Stream) -> Result<ReadableStream, AllocError>
    ensures { IfOk result (λ r. r ≡ own_readable (record { name = name.now; item = stream.now })) }
{
    let schema = &stream.schema;
    let opened = stream.clock.opened();
    copied(alloc, None, name, schema, whole_projection(schema), opened)
}

// A stream of another's.
fn granted_readable(
    alloc: Global,
    namespaces: &[Namespace],
    grant: &Grant,
) -> Result<ReadableStream, AllocError>
    ensures { IfOk result (λ r. r ≡ granted_readable namespaces.now grant.now) }
{
    let index = grant.owner().index();
    let owner = Text::new(alloc, owner_name(namespaces, index))?;
    let opened = opened_at(namespaces, index, grant.stream());
    copied(
        alloc,
        Some(owner),
        grant.stream(),
        grant.schema(),
        grant.projection(),
        opened,
    )
}

/// A tenant's own streams, in order of making.
pub fn own_shown(
    alloc: Global,
    streams: &NameMap<Stream>,
) -> Result<Items<ReadableStream>, AllocError>
    ensures { IfOk result (λ all. all ≡ map own_readable streams.now) }
{
    let mut all = Items::new(alloc);
    for i in 0..streams.len() {
        let (name, stream) = streams.entry(i);
        all.push(own_readable(alloc, name, stream)?)?;
    }
    Ok(all)
}

/// The streams of these grants, in order.
pub fn granted_shown(
    alloc: Global,
    namespaces: &[Namespace],
    grants: &[Grant],
) -> Result<Items<ReadableStream>, AllocError>
    ensures { IfOk result (λ all. all ≡ map (granted_readable namespaces.now) grants.now) }
{
    let mut all = Items::new(alloc);
    for grant in grants {
        all.push(granted_readable(alloc, namespaces, grant)?)?;
    }
    Ok(all)
}

fn own_stream(alloc: Global, name: &str, stream: &Stream) -> Result<OwnStream, AllocError>
    ensures { IfOk result (λ s. s ≡ own_stream (record { name = name.now; item = stream.now })) }
{
    let name = Text::new(alloc, name)?;
    Ok(OwnStream {
        name,
        opened: stream.clock.opened(),
    })
}

// The least time, in ticks, that the stream of a grant still takes.
fn time_of(namespaces: &[Namespace], grant: &Grant) -> u64
    requires { IsIndexed namespaces.now grant.now }
    ensures { result ≡ opened_at namespaces.now grant.now.owner grant.now.stream }
{
    let owner = namespace_at(namespaces, grant.owner().index());
    owner.opened(grant.index())
}

// A stream that was granted, as a list shows it: it shares the texts of the grant.
fn read_stream(namespaces: &[Namespace], grant: &Grant) -> Result<GrantedStream, AllocError>
    requires { IsIndexed namespaces.now grant.now }
    ensures { IfOk result (λ s. s ≡ read_stream namespaces.now grant.now) }
{
    let opened = time_of(namespaces, grant);
    let owner = namespace_at(namespaces, grant.owner().index())
        .name
        .share()?;
    let shown = grant.held()?;
    Ok(GrantedStream {
        owner,
        shown,
        opened,
    })
}

/// A tenant's own streams, in order of making, as a list shows them.
pub fn own_listed(alloc: Global, streams: &NameMap<Stream>) -> Result<Items<OwnStream>, AllocError>
    ensures { IfOk result (λ all. all ≡ map own_stream streams.now) }
{
    let mut all = Items::new(alloc);
    for i in 0..streams.len() {
        let (name, stream) = streams.entry(i);
        all.push(own_stream(alloc, name, stream)?)?;
    }
    Ok(all)
}

/// The streams of these grants, in order, as a list shows them.
pub fn granted_listed(
    alloc: Global,
    namespaces: &[Namespace],
    grants: &[Grant],
) -> Result<Items<GrantedStream>, AllocError>
    requires { AllByRecursion (IsIndexed namespaces.now) grants.now }
    ensures { IfOk result (λ all. all ≡ map (read_stream namespaces.now) grants.now) }
{
    let mut all = Vec::with_capacity(alloc, grants.len())?;
    for grant in grants {
        all.push(read_stream(namespaces, grant)?)?;
    }
    Ok(Items::from_vec(all))
}
