// How a tenant stands: what the streams hold that are its own, and how far its queries are behind.
ghost use Rattle.std.specs.Prelude.{◌≡◌, All, Some, IfOk, OnOk, true};
ghost use Rattle.cql_tenants.specs.Namespace.{has_tenant};
ghost use Rattle.cql_core.specs.StreamId.{stream_id_of};
ghost use Rattle.cql_core.specs.Rows.{rows_held};
ghost use Rattle.cql_core.specs.Lag.{lag_of, IsGreatestLag};

use crate::going::limit_of;
use crate::machine::Core;
use crate::tenant_queries::own_queries;
use cql_tenants::TenantId;
use cql_value::Text;
use std::alloc::{AllocError, Global};

/// A stream, by its name among its owner's, how many rows are held of it, and about how many bytes these
/// take with their texts.
#[derive(Drop)]
pub struct HeldStream {
    pub name: Text,
    pub rows: u64,
    pub bytes: u64,
}

/// How a tenant stands: its own streams of which rows are held, in order of making, and how many ticks
/// the query of its own is behind what its streams have told that is the furthest, 0 where none is.
#[derive(Drop)]
pub struct Standing {
    pub held: Vec<HeldStream>,
    pub lag: u64,
}

impl Core {
    // Adds what is held of a stream, if rows are.
    fn add_held(
        &self,
        alloc: Global,
        owner: TenantId,
        stream: &Text,
        held: &mut Vec<HeldStream>,
    ) -> Result<(), AllocError>
        requires { All (λ h. rows_held self.now (stream_id_of owner h.name) ≡ Some h.rows) held.old.items }
        ensures { OnOk result (All (λ h. rows_held self.now (stream_id_of owner h.name) ≡ Some h.rows) held.new.items) }
    {
        let Some(rows) = self.rows_held(owner, stream.as_str()) else {
            return Ok(());
        };
        if rows == 0 {
            return Ok(());
        }
        let name = stream.try_clone(alloc)?;
        let bytes = match self.directory.stream_index(owner, stream.as_str()) {
            Some(index) => self.stores.bytes_held(owner, index),
            None => 0,
        };
        held.push(HeldStream { name, rows, bytes })?;
        Ok(())
    }

    // The tenant's own streams of which rows are held, in order of making.
    fn held_streams(&self, alloc: Global, owner: TenantId) -> Result<Vec<HeldStream>, AllocError>
        requires { has_tenant self.now.namespaces owner ≡ true }
        ensures { IfOk result (λ held. All (λ h. rows_held self.now (stream_id_of owner h.name) ≡ Some h.rows) held.items) }
    {
        let mut held = Vec::new(alloc);
        let streams = self.directory.own_streams(alloc, owner)?;
        for stream in streams.as_slice() {
            self.add_held(alloc, owner, &stream.name, &mut held)?;
        }
        Ok(held)
    }

    // How far a query is behind, if it is there and wasn't revoked.
    fn ticks_behind(&self, tenant: TenantId, name: &str) -> Option<u64>
        requires { has_tenant self.now.namespaces tenant ≡ true }
        ensures { result ≡ lag_of self.now tenant name.now }
    {
        let query = own_queries(&self.queries, tenant).get(name)?;
        if query.is_revoked() {
            return None;
        }
        let limit = limit_of(&self.directory, query.stub_refs.as_slice());
        Some(limit.saturating_sub(query.cursor))
    }

    // How many ticks the tenant's query is behind that is the furthest, 0 where none is.
    fn greatest_lag(&self, tenant: TenantId) -> u64
        requires { has_tenant self.now.namespaces tenant ≡ true }
        ensures { IsGreatestLag self.now tenant result }
    {
        let queries = own_queries(&self.queries, tenant);
        let mut most = 0;
        for index in 0..queries.len() {
            let (name, _) = queries.entry(index);
            let ticks = self.ticks_behind(tenant, name).unwrap_or(0);
            most = most.max(ticks);
        }
        most
    }

    /// How the tenant stands: nothing is held of a tenant that isn't there. It looks at each of its
    /// streams and queries once, and at 128 rows of a stream at most.
    pub fn standing(&self, alloc: Global, tenant: TenantId) -> Result<Standing, AllocError>
        ensures held { IfOk result (λ s. All (λ h. rows_held self.now (stream_id_of tenant h.name) ≡ Some h.rows) s.held.items) }
        ensures lag { IfOk result (λ s. IsGreatestLag self.now tenant s.lag) }
    {
        if !self.directory.has(tenant) {
            return Ok(Standing {
                held: Vec::new(alloc),
                lag: 0,
            });
        }
        let held = self.held_streams(alloc, tenant)?;
        let lag = self.greatest_lag(tenant);
        Ok(Standing { held, lag })
    }
}
