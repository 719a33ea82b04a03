// The directory of all streams and grants.
ghost use Rattle.std.specs.Prelude.{◌≡◌, ℕ, ◌<◌, ◌≤◌, ◌^◌, true, List, IfOk, IfSome, OnOk, OnErr, None, Some, option_copied, option_map, length, map, slice_get};
ghost use Rattle.std.specs.Result.{result_err};
ghost use Rattle.cql_tenants.specs.Clock.{time_fault};
ghost use Rattle.cql_tenants.specs.Named.{index_of};
ghost use Rattle.cql_tenants.specs.Namespace.{nothing_made, has_tenant, namespace_at, change_namespace, tenant_named, stream_at, grant_of, has_grant};
ghost use Rattle.cql_window.specs.Chosen.{is_shown};
ghost use Rattle.cql_tenants.specs.Checks.{grantee_refused, taken_refused};
ghost use Rattle.cql_tenants.specs.Directory.{Make, Share, Revoke, Put, Beat, with_time, refused, streams_after};
ghost use Rattle.cql_tenants.specs.Readable.{granted_projection, projection_seen};
ghost use Rattle.cql_tenants.specs.Lookup.{readable_to, read_stream, owner_meant, seen_of, own_found, granted_found, found, IsOwnersStream};
ghost use Rattle.cql_tenants.specs.Listed.{own_stream};

use crate::grant::Grant;
use crate::namespace::Namespace;
use crate::namespaces::{namespace_at, opened_at, tenant_named};
use crate::readable::{
    FoundStream, GrantedStream, OwnStream, ReadableStream, granted_listed, granted_shown,
    own_listed, own_shown,
};
use crate::stream_refusal::StreamRefusal;
use crate::tenants::{Quotas, TenantId, TenantTable};
use cql_value::{Items, Row, Schema, Text};
use cql_window::{is_shown, whole_projection};
use std::alloc::{AllocError, Global};
use std::marker::Model;

/// A grant that was taken back: the index of the tenant that read by it, and of the stream among
/// its owner's.
#[derive(Clone, Copy)]
pub struct TakenBack {
    pub reader: usize,
    pub stream: usize,
}

// What may be granted, and to whom: the stream's index among the tenant's own, its columns, and the
// index of the tenant that gets it.
#[derive(Clone, Copy)]
struct Granting<'a> {
    stream: usize,
    schema: &'a Schema,
    to: usize,
}

/// What streams and grants there are, by the indices of the tenants. Contracts see the list of the
/// namespaces.
#[derive(Drop)]
pub struct Directory {
    namespaces: Vec<Namespace>,
}

impl Model for Directory {
    ghost use Rattle.std.specs.Prelude.{List};
    ghost use Rattle.cql_tenants.specs.Namespace.{Namespace};
    ghost use Rattle.cql_tenants.specs.Law.{AreNamespaces};

    ghost Value = { List Namespace };

    ghost view = { λ d. d.namespaces.items };

    ghost invariant = { λ d. AreNamespaces d.namespaces.items };
}

impl Directory {
    /// The directory of these tenants, before the first stream.
    pub fn new(alloc: Global, table: &TenantTable) -> Result<Directory, AllocError>
        ensures { IfOk result (λ d. d ≡ nothing_made table.now) }
    {
        let tenants = table.tenants();
        let mut namespaces = Vec::new(alloc);
        for tenant in tenants {
            namespaces.push(Namespace::new(alloc, tenant)?)?;
        }
        Ok(Directory { namespaces })
    }

    /// Whether the tenant is in the table. Takes no memory.
    pub fn has(&self, tenant: TenantId) -> bool
        ensures { result ≡ has_tenant self.now tenant }
    {
        tenant.index() < self.namespaces.len()
    }

    /// What the tenant may have. Takes no memory.
    pub fn quotas(&self, tenant: TenantId) -> Quotas
        requires { has_tenant self.now tenant ≡ true }
        ensures { result ≡ (namespace_at self.now tenant).quotas }
    {
        namespace_at(&self.namespaces, tenant.index()).quotas
    }

    /// The schema of a stream that the tenant may make, of a schema, or of none where the columns
    /// that were asked for have none: 31, 21, 22, 20, 23, in this order. Takes no memory.
    pub fn may_make<'a>(
        &self,
        tenant: TenantId,
        name: &str,
        schema: Option<&'a Schema>,
    ) -> Result<&'a Schema, StreamRefusal>
        ensures refused { result_err result ≡ refused self.now tenant (Make name.now (option_copied schema.entry)) }
        ensures schema { IfOk result (λ s. option_copied schema.entry ≡ Some s.now) }
    {
        if !self.has(tenant) {
            return Err(StreamRefusal::UnknownTenant);
        }
        namespace_at(&self.namespaces, tenant.index()).may_make(name, schema)
    }

    /// Makes a stream of the tenant's own, which `may_make` took.
    pub fn make_stream(
        &mut self,
        alloc: Global,
        tenant: TenantId,
        name: &str,
        schema: &Schema,
    ) -> Result<(), AllocError>
        requires { refused self.old tenant (Make name.now (Some schema.now)) ≡ None }
        ensures state { OnOk result (self.new ≡ streams_after self.old tenant (Make name.now (Some schema.now))) }
        ensures err { OnErr result (self.new ≡ self.old) }
    {
        self.namespaces[tenant.index()].make(alloc, name, schema)
    }

    /// The index of a stream among its owner's, if there is one. Takes no memory.
    pub fn stream_index(&self, owner: TenantId, stream: &str) -> Option<usize>
        ensures value { result ≡ index_of (namespace_at self.now owner).streams stream.now }
        ensures within { IfSome result (λ i. i < length (namespace_at self.now owner).streams) }
    {
        match self.namespaces.get(owner.index()) {
            None => None,
            Some(namespace) => namespace.streams.index_of(stream),
        }
    }

    /// The index of the tenant's own stream that a row with its time, in ticks, may come to; it
    /// takes the time. 31, 30, 40, 42, 41, in this order. Takes no memory.
    pub fn admit(
        &self,
        tenant: TenantId,
        stream: &str,
        at: u64,
        row: &Row,
    ) -> Result<usize, StreamRefusal>
        ensures refused { result_err result ≡ refused self.now tenant (Put stream.now at row.now) }
        ensures tenant { IfOk result (λ i. has_tenant self.now tenant ≡ true) }
        ensures index { IfOk result (λ i. index_of (namespace_at self.now tenant).streams stream.now ≡ Some i) }
        ensures within { IfOk result (λ i. i < length (namespace_at self.now tenant).streams) }
        ensures takes { IfOk result (λ i. IfSome (slice_get (namespace_at self.now tenant).streams i) (λ s. time_fault s.item.clock at ≡ None)) }
    {
        if !self.has(tenant) {
            return Err(StreamRefusal::UnknownTenant);
        }
        namespace_at(&self.namespaces, tenant.index())
            .streams
            .admit(stream, at, row)
    }

    /// A row came on the stream at an index of the tenant's, at a time, in ticks, that the stream
    /// takes. Takes no memory.
    pub fn came(&mut self, tenant: TenantId, index: usize, at: u64)
        requires tenant { has_tenant self.old tenant ≡ true }
        requires within { index < length (namespace_at self.old tenant).streams }
        requires takes { IfSome (slice_get (namespace_at self.old tenant).streams index) (λ s. time_fault s.item.clock at ≡ None) }
        ensures { (name : List ℕ) → index_of (namespace_at self.old tenant).streams name ≡ Some index → self.new ≡ change_namespace (with_time name at) self.old tenant }
    {
        self.namespaces[tenant.index()].streams.came(index, at);
    }

    /// The least time, in ticks, that the stream at an index still takes, at most 2^62; 0 where there
    /// is none. Takes no memory.
    pub fn opened(&self, owner: TenantId, index: usize) -> u64
        ensures value { IfSome (slice_get (namespace_at self.now owner).streams index) (λ s. result ≡ s.item.clock) }
        ensures bounded { result ≤ 2 ^ 62 }
    {
        match self.namespaces.get(owner.index()) {
            None => 0,
            Some(namespace) => namespace.opened(index),
        }
    }

    /// The least time, in ticks, that the stream under a name still takes, of the owner that stands
    /// before the dot, or with no dot of the tenant's own, where the tenant reads it. It looks at no
    /// grant. Takes no memory.
    pub fn opened_under(&self, tenant: TenantId, owner: Option<&str>, stream: &str) -> u64
        ensures { IfSome (found self.now tenant (option_copied owner.entry) stream.now) (λ s. result ≡ s.opened) }
    {
        if !self.has(tenant) {
            return 0;
        }
        let Some(owner) = self.owner_meant(tenant, owner) else {
            return 0;
        };
        opened_at(&self.namespaces, owner, stream)
    }

    /// A heartbeat, of a time in ticks, of a stream of the tenant's own: 31, 30, 42, 41, in this
    /// order. Takes no memory.
    pub fn beat(&mut self, tenant: TenantId, stream: &str, at: u64) -> Result<(), StreamRefusal>
        ensures refused { result_err result ≡ refused self.old tenant (Beat stream.now at) }
        ensures state { self.new ≡ streams_after self.old tenant (Beat stream.now at) }
    {
        if !self.has(tenant) {
            return Err(StreamRefusal::UnknownTenant);
        }
        self.namespaces[tenant.index()].streams.beat(stream, at)
    }

    // The tenant at whose index a stream of the tenant's own, of this schema, may be granted.
    fn grantee(
        &self,
        tenant: TenantId,
        stream: &str,
        schema: &Schema,
        columns: Option<&Items<Text>>,
        to: &str,
    ) -> Result<usize, StreamRefusal>
        requires { tenant < length self.now }
        ensures refused { result_err result ≡ grantee_refused tenant schema.now (option_copied columns.entry) (has_grant self.now tenant stream.now) (tenant_named self.now tenant to.now) }
        ensures shown { IfOk result (λ index. is_shown schema.now (option_copied columns.entry) ≡ true) }
        ensures index { IfOk result (λ index. tenant_named self.now tenant to.now ≡ Some index) }
        ensures within { IfOk result (λ index. index < length self.now) }
    {
        let Some(index) = tenant_named(&self.namespaces, tenant.index(), to) else {
            return Err(StreamRefusal::UnknownTenant);
        };
        if index == tenant.index() {
            return Err(StreamRefusal::SelfGrant);
        }
        if !is_shown(schema, columns) {
            return Err(StreamRefusal::BadGrantColumns);
        }
        let grantee = namespace_at(&self.namespaces, index);
        if grantee.grant_of(tenant.index(), stream).is_some() {
            return Err(StreamRefusal::AlreadyGranted);
        }
        Ok(index)
    }

    // What a grant is of.
    fn granting(
        &self,
        tenant: TenantId,
        stream: &str,
        columns: Option<&Items<Text>>,
        to: &str,
    ) -> Result<Granting<'_>, StreamRefusal>
        ensures refused { result_err result ≡ refused self.now tenant (Share stream.now to.now (option_copied columns.entry)) }
        ensures shown { IfOk result (λ p. is_shown p.schema.now (option_copied columns.entry) ≡ true) }
        ensures schema { IfOk result (λ p. option_map (λ s. s.schema) (stream_at self.now tenant stream.now) ≡ Some p.schema.now) }
        ensures own { IfOk result (λ p. index_of (namespace_at self.now tenant).streams stream.now ≡ Some p.stream) }
        ensures index { IfOk result (λ p. tenant_named self.now tenant to.now ≡ Some p.to) }
        ensures within { IfOk result (λ p. p.to < length self.now) }
    {
        if !self.has(tenant) {
            return Err(StreamRefusal::UnknownTenant);
        }
        let Some((own, made)) = namespace_at(&self.namespaces, tenant.index())
            .streams
            .find(stream)
        else {
            return Err(StreamRefusal::UnknownStream);
        };
        let to = self.grantee(tenant, stream, &made.schema, columns, to)?;
        Ok(Granting {
            stream: own,
            schema: &made.schema,
            to,
        })
    }

    /// Grants a stream of the tenant's own to the tenant of a name, with the columns of these names,
    /// or with all where none are named: 31 for the caller, 30, 31, 33, 34, 32, in this order.
    pub fn grant(
        &mut self,
        alloc: Global,
        tenant: TenantId,
        stream: &str,
        columns: Option<&Items<Text>>,
        to: &str,
    ) -> Result<Result<(), StreamRefusal>, AllocError>
        ensures refused { IfOk result (λ told. result_err told ≡ refused self.old tenant (Share stream.now to.now (option_copied columns.entry))) }
        ensures state { OnOk result (self.new ≡ streams_after self.old tenant (Share stream.now to.now (option_copied columns.entry))) }
        ensures err { OnErr result (self.new ≡ self.old) }
        ensures memory { OnErr result (refused self.old tenant (Share stream.now to.now (option_copied columns.entry)) ≡ None) }
    {
        let granting = match self.granting(tenant, stream, columns, to) {
            Ok(granting) => granting,
            Err(refusal) => return Ok(Err(refusal)),
        };
        let index = granting.to;
        let grant = Grant::new(
            alloc,
            tenant,
            granting.stream,
            stream,
            granting.schema,
            columns,
        )?;
        self.namespaces[index].granted.push(alloc, grant)?;
        Ok(Ok(()))
    }

    // The tenant from which the grant of a stream of the tenant's own may be taken back.
    fn taken(&self, tenant: TenantId, stream: &str, to: &str) -> Result<usize, StreamRefusal>
        requires { tenant < length self.now }
        ensures refused { result_err result ≡ taken_refused tenant (has_grant self.now tenant stream.now) (tenant_named self.now tenant to.now) }
        ensures index { IfOk result (λ index. tenant_named self.now tenant to.now ≡ Some index) }
        ensures within { IfOk result (λ index. index < length self.now) }
    {
        let Some(index) = tenant_named(&self.namespaces, tenant.index(), to) else {
            return Err(StreamRefusal::UnknownTenant);
        };
        if index == tenant.index() {
            return Err(StreamRefusal::NotGranted);
        }
        let reader = namespace_at(&self.namespaces, index);
        if reader.grant_of(tenant.index(), stream).is_none() {
            return Err(StreamRefusal::NotGranted);
        }
        Ok(index)
    }

    // The grant that is taken back.
    fn revoking(&self, tenant: TenantId, stream: &str, to: &str) -> Result<TakenBack, StreamRefusal>
        ensures refused { result_err result ≡ refused self.now tenant (Revoke stream.now to.now) }
        ensures reader { IfOk result (λ t. tenant_named self.now tenant to.now ≡ Some t.reader) }
        ensures stream { IfOk result (λ t. index_of (namespace_at self.now tenant).streams stream.now ≡ Some t.stream) }
        ensures within { IfOk result (λ t. t.reader < length self.now) }
    {
        if !self.has(tenant) {
            return Err(StreamRefusal::UnknownTenant);
        }
        let Some((own, _made)) = namespace_at(&self.namespaces, tenant.index())
            .streams
            .find(stream)
        else {
            return Err(StreamRefusal::UnknownStream);
        };
        let reader = self.taken(tenant, stream, to)?;
        Ok(TakenBack {
            reader,
            stream: own,
        })
    }

    /// Takes back the grant of a stream of the tenant's own from the tenant of a name, and tells
    /// where both are: 31 for the caller, 30, 31, 35, in this order. Takes no memory.
    pub fn revoke(
        &mut self,
        tenant: TenantId,
        stream: &str,
        to: &str,
    ) -> Result<TakenBack, StreamRefusal>
        ensures refused { result_err result ≡ refused self.old tenant (Revoke stream.now to.now) }
        ensures state { self.new ≡ streams_after self.old tenant (Revoke stream.now to.now) }
        ensures reader { IfOk result (λ t. tenant_named self.old tenant to.now ≡ Some t.reader) }
        ensures stream { IfOk result (λ t. index_of (namespace_at self.old tenant).streams stream.now ≡ Some t.stream) }
    {
        let taken = self.revoking(tenant, stream, to)?;
        self.namespaces[taken.reader].take_back(tenant.index(), stream);
        Ok(taken)
    }

    /// The streams that the tenant reads: its own in order of making, then the others in order of
    /// the grants; 31 where there is no such tenant.
    pub fn readable(
        &self,
        alloc: Global,
        tenant: TenantId,
    ) -> Result<Result<Items<ReadableStream>, StreamRefusal>, AllocError>
        ensures { IfOk result (λ told. told ≡ readable_to self.now tenant) }
    {
        if !self.has(tenant) {
            return Ok(Err(StreamRefusal::UnknownTenant));
        }
        let namespace = namespace_at(&self.namespaces, tenant.index());
        let mut all = own_shown(alloc, &namespace.streams)?;
        all.append(granted_shown(alloc, &self.namespaces, namespace.granted.as_slice())?)?;
        Ok(Ok(all))
    }

    /// The tenant's own streams, in order of making.
    pub fn own_streams(
        &self,
        alloc: Global,
        tenant: TenantId,
    ) -> Result<Items<OwnStream>, AllocError>
        requires { has_tenant self.now tenant ≡ true }
        ensures { IfOk result (λ l. l ≡ map own_stream (namespace_at self.now tenant).streams) }
    {
        own_listed(
            alloc,
            &namespace_at(&self.namespaces, tenant.index()).streams,
        )
    }

    /// The streams that were granted to the tenant, in order of the grants.
    pub fn read_streams(
        &self,
        alloc: Global,
        tenant: TenantId,
    ) -> Result<Items<GrantedStream>, AllocError>
        requires { has_tenant self.now tenant ≡ true }
        ensures { IfOk result (λ l. l ≡ map (read_stream self.now) (namespace_at self.now tenant).granted) }
    {
        let namespace = namespace_at(&self.namespaces, tenant.index());
        granted_listed(alloc, &self.namespaces, namespace.granted.as_slice())
    }

    // The index of the tenant that is meant by what stands before the dot.
    fn owner_meant(&self, tenant: TenantId, owner: Option<&str>) -> Option<usize>
        requires { tenant < length self.now }
        ensures { result ≡ owner_meant self.now tenant (option_copied owner.entry) }
    {
        match owner {
            None => Some(tenant.index()),
            Some(name) => tenant_named(&self.namespaces, tenant.index(), name),
        }
    }

    fn own_found(&self, tenant: TenantId, stream: &str) -> Option<FoundStream<'_>>
        requires { tenant < length self.now }
        ensures seen { option_map seen_of result ≡ own_found self.now tenant stream.now }
        ensures stream { IfSome result (IsOwnersStream self.now stream.now) }
        ensures projection { IfSome result (λ f. f.projection.now ≡ projection_seen self.now tenant f.owner stream.now) }
    {
        let streams = &namespace_at(&self.namespaces, tenant.index()).streams;
        let index = streams.index_of(stream)?;
        let (_name, own) = streams.entry(index);
        Some(FoundStream {
            owner: tenant,
            index,
            schema: &own.schema,
            projection: whole_projection(&own.schema),
            named: false,
            opened: own.clock.opened(),
        })
    }

    fn granted_found(&self, tenant: TenantId, owner: usize, stream: &str) -> Option<FoundStream<'_>>
        requires { tenant < length self.now }
        ensures seen { option_map seen_of result ≡ granted_found self.now tenant owner stream.now }
        ensures stream { IfSome result (IsOwnersStream self.now stream.now) }
        ensures projection { IfSome result (λ f. f.projection.now ≡ granted_projection (grant_of (namespace_at self.now tenant) owner stream.now)) }
        ensures owner { IfSome result (λ f. f.owner ≡ owner) }
    {
        let namespace = namespace_at(&self.namespaces, tenant.index());
        let grant = namespace.grant_of(owner, stream)?;
        let owner = grant.owner();
        let index = self.stream_index(owner, stream)?;
        Some(FoundStream {
            owner,
            index,
            schema: grant.schema(),
            projection: grant.projection(),
            named: grant.is_named(),
            opened: self.opened(owner, index),
        })
    }

    /// The stream that the tenant reads under a name, of the owner that stands before the dot, or
    /// with no dot of its own: none where there is no such stream, where it isn't granted, and where
    /// there is no such tenant. Takes no memory.
    pub fn find(
        &self,
        tenant: TenantId,
        owner: Option<&str>,
        stream: &str,
    ) -> Option<FoundStream<'_>>
        ensures seen { option_map seen_of result ≡ found self.now tenant (option_copied owner.entry) stream.now }
        ensures stream { IfSome result (IsOwnersStream self.now stream.now) }
        ensures projection { IfSome result (λ f. f.projection.now ≡ projection_seen self.now tenant f.owner stream.now) }
    {
        if !self.has(tenant) {
            return None;
        }
        let owner = self.owner_meant(tenant, owner)?;
        if owner == tenant.index() {
            self.own_found(tenant, stream)
        } else {
            self.granted_found(tenant, owner, stream)
        }
    }
}
