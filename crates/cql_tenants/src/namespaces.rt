// Look-ups among the namespaces of all tenants.
ghost use Rattle.std.specs.Prelude.{◌≡◌, ◌<◌, IfSome, length};
ghost use Rattle.std.specs.List.{position};
ghost use Rattle.cql_tenants.specs.Named.{same_name};
ghost use Rattle.cql_tenants.specs.Namespace.{namespace_at, tenant_named};
ghost use Rattle.cql_tenants.specs.Lookup.{opened_at};

use crate::namespace::Namespace;

// The namespace at an index.
pub fn namespace_at(namespaces: &[Namespace], index: usize) -> &Namespace
    requires { index < length namespaces.now }
    ensures { result.now ≡ namespace_at namespaces.now index }
{
    &namespaces[index]
}

#[tactic(auto, unfolding(crate::specs::Named::same_name))]
fn has_name(namespace: &Namespace, name: &str) -> bool
    ensures { result ≡ same_name name.now namespace.now.name }
{
    name == namespace.name.get().as_str()
}

fn index_named(namespaces: &[Namespace], name: &str) -> Option<usize>
    ensures value { result ≡ position (λ namespace. same_name name.now namespace.name) namespaces.now }
    ensures within { IfSome result (λ index. index < length namespaces.now) }
{
    namespaces
        .iter()
        .position(|namespace| has_name(namespace, name))
}

// The index of the tenant of that name: the caller's own name is the caller itself.
pub fn tenant_named(namespaces: &[Namespace], user: usize, name: &str) -> Option<usize>
    requires { user < length namespaces.now }
    ensures value { result ≡ tenant_named namespaces.now user name.now }
    ensures within { IfSome result (λ index. index < length namespaces.now) }
{
    if has_name(namespace_at(namespaces, user), name) {
        return Some(user);
    }
    index_named(namespaces, name)
}

// The least time that a stream still takes.
pub fn opened_at(namespaces: &[Namespace], owner: usize, name: &str) -> u64
    ensures { result ≡ opened_at namespaces.now owner name.now }
{
    match namespaces.get(owner) {
        None => 0,
        Some(namespace) => match namespace.streams.get(name) {
            None => 0,
            Some(stream) => stream.clock.opened(),
        },
    }
}

// The name of a stream's owner.
pub fn owner_name(namespaces: &[Namespace], owner: usize) -> &str
    ensures { result.now ≡ (namespace_at namespaces.now owner).name }
{
    match namespaces.get(owner) {
        None => "",
        Some(namespace) => namespace.name.get().as_str(),
    }
}
