// The queries of each tenant.
ghost use Rattle.std.specs.Prelude.{◌≡◌, ◌<◌, ◌++◌, ◌∷◌, [], length, ℕ, List, set, is_some, None, Some, IfOk, IfSome, IfNone, IfErr, OnOk, OnErr, string_bytes};
ghost use Rattle.cql_tenants.specs.Named.{find_named, index_of, change_named, remove_named};
ghost use Rattle.cql_core.specs.Moved.{moved};
ghost use Rattle.cql_core.specs.Sound.{states_at, no_states, no_stores};

use crate::query_state::QueryState;
use cql_store::Stores;
use cql_tenants::{NameMap, Tenant, TenantId};
use cql_value::Text;
use std::alloc::{AllocError, Global};

/// A shelf for the queries of each tenant.
pub fn no_queries_of(
    alloc: Global,
    tenants: &[Tenant],
) -> Result<Vec<NameMap<QueryState>>, AllocError>
    ensures { IfOk result (λ queries. queries.items ≡ no_states tenants.now) }
{
    let mut queries = Vec::new(alloc);
    for _tenant in tenants {
        queries.push(NameMap::new(alloc))?;
    }
    Ok(queries)
}

/// No store of any tenant.
pub fn stores_of(alloc: Global, tenants: &[Tenant]) -> Result<Stores, AllocError>
    ensures { IfOk result (λ stores. stores ≡ no_stores tenants.now) }
{
    let mut stores = Stores::new(alloc);
    for _tenant in tenants {
        stores.add_owner(alloc)?;
    }
    Ok(stores)
}

/// A tenant's queries.
pub fn own_queries(queries: &Vec<NameMap<QueryState>>, tenant: TenantId) -> &NameMap<QueryState>
    requires { tenant < length queries.now.items }
    ensures { result.now ≡ states_at queries.now.items tenant }
{
    &queries[tenant.index()]
}

/// Whether the tenant has a query of that name.
pub fn has_query(queries: &Vec<NameMap<QueryState>>, tenant: TenantId, name: &Text) -> bool
    requires { tenant < length queries.now.items }
    ensures { result ≡ is_some (find_named (states_at queries.now.items tenant) name.now) }
{
    own_queries(queries, tenant).get(name.as_str()).is_some()
}

/// Takes away the query of that name, if there is one. Takes no memory.
pub fn take(
    queries: &mut Vec<NameMap<QueryState>>,
    tenant: TenantId,
    name: &Text,
) -> Option<QueryState>
    requires { tenant < length queries.old.items }
    ensures found { result ≡ find_named (states_at queries.old.items tenant) name.now }
    ensures taken { IfSome result (λ q. queries.new.items ≡ set queries.old.items tenant (remove_named (states_at queries.old.items tenant) name.now)) }
    ensures same { IfNone result (queries.new.items ≡ queries.old.items) }
{
    queries[tenant.index()].take(name.as_str())
}

/// The query at an index, which is that of its name, goes on to a cursor. Takes no memory.
pub fn go_to(queries: &mut Vec<NameMap<QueryState>>, tenant: TenantId, index: usize, to: u64)
    requires there { tenant < length queries.old.items }
    requires within { index < length (states_at queries.old.items tenant) }
    ensures { (name : List ℕ) → index_of (states_at queries.old.items tenant) name ≡ Some index
        → queries.new.items ≡ set queries.old.items tenant (change_named (moved to) name (states_at queries.old.items tenant)) }
{
    queries[tenant.index()].go_to(index, to);
}

/// Adds a query under a name that is new, or gives it back.
pub fn push(
    queries: &mut Vec<NameMap<QueryState>>,
    tenant: TenantId,
    name: String,
    query: QueryState,
) -> Result<(), QueryState>
    requires there { tenant < length queries.old.items }
    requires new { find_named (states_at queries.old.items tenant) (string_bytes name) ≡ None }
    ensures ok { OnOk result (queries.new.items ≡ set queries.old.items tenant (states_at queries.old.items tenant ++ record { name = string_bytes name; item = query } ∷ [])) }
    ensures err { OnErr result (queries.new.items ≡ queries.old.items) }
    ensures back { IfErr result (λ q. q ≡ query) }
{
    queries[tenant.index()].push(name, query)
}
