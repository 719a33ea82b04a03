// The stubs of a query that begins or ends.
ghost use Rattle.std.specs.Prelude.{◌≡◌, ◌≤◌, ◌++◌, ◌∷◌, [], IfOk, OnOk, OnErr, None, IsSome, is_some, map, option_copied, true};
ghost use Rattle.cql_plan.specs.Ports.{ports};
ghost use Rattle.cql_tenants.specs.Lookup.{found};
ghost use Rattle.cql_store.specs.declared.stub_ref.StubRef.{StubRef as stub_ref};
ghost use Rattle.cql_store.specs.Stores.{held_at, IsStream, Moves};
ghost use Rattle.cql_core.specs.Bound.{bound_input};
ghost use Rattle.cql_core.specs.Language.{AreReadable};
ghost use Rattle.cql_core.specs.Checks.{limit_over};
ghost use Rattle.cql_core.specs.Lookup.{opened_in};
ghost use Rattle.cql_core.specs.Cql.{readable_in};
ghost use Rattle.cql_core.specs.Sound.{uses_in, lives, IsBeside};
ghost use Rattle.cql_core.specs.Attached.{AreStreams, AreFound, OneMore, Attached, Gone, IsSame};

use cql_plan::{Input, Plan};
use cql_store::{Stores, StubRef};
use cql_tenants::{Directory, TenantId};
use cql_value::{Items, TryClone};
use std::alloc::{AllocError, Global};

// The owner that stands before the dot.
fn owner_written(input: &Input) -> Option<&str>
    ensures { option_copied result ≡ input.now.owner }
{
    match &input.owner {
        Some(owner) => Some(owner.as_str()),
        None => None,
    }
}

// The least time that the stream of an input still takes.
fn opened_of(directory: &Directory, tenant: TenantId, input: &Input) -> u64
    requires { is_some (found directory.now tenant input.now.owner input.now.stream) ≡ true }
    ensures { result ≡ opened_in directory.now (bound_input (found directory.now tenant) input.now).stream_id }
{
    directory.opened_under(tenant, owner_written(input), input.stream.as_str())
}

/// The base of a query over these inputs: the least time that their streams still take.
pub fn base_of(directory: &Directory, tenant: TenantId, inputs: &[Input]) -> u64
    requires { AreReadable (readable_in directory.now tenant) inputs.now }
    ensures { result ≡ limit_over (opened_in directory.now) (map (bound_input (found directory.now tenant)) inputs.now) }
{
    let Some((first, rest)) = inputs.split_first() else {
        return 0;
    };
    let mut least = opened_of(directory, tenant, first);
    for input in rest {
        least = least.min(opened_of(directory, tenant, input));
    }
    least
}

/// Takes these stubs away. Takes no memory.
pub fn detach_all(stores: &mut Stores, stub_refs: &[StubRef])
    requires streams { AreStreams stores.old stub_refs.now }
    requires held { (p : stub_ref) → uses_in p stub_refs.now ≤ lives (held_at stores.old p) }
    ensures { Gone stores.old stores.new stub_refs.now }
{
    for stub_ref in stub_refs {
        stores.detach(*stub_ref);
    }
}

// Keeps where a new stub stands, or takes it away again.
fn keep(
    stores: &mut Stores,
    stub_refs: &mut Items<StubRef>,
    stub_ref: &StubRef,
) -> Result<(), AllocError>
    requires there { IsStream stores.old stub_ref.now.owner stub_ref.now.stream }
    requires held { IsSome (held_at stores.old stub_ref.now) }
    ensures ok { OnOk result (stores.new ≡ stores.old) }
    ensures pushed { OnOk result (stub_refs.new ≡ stub_refs.old ++ stub_ref.now ∷ []) }
    ensures err { OnErr result (Moves stores.old stores.new stub_ref.now None) }
    ensures same { OnErr result (stub_refs.new ≡ stub_refs.old) }
{
    match stub_refs.push(*stub_ref) {
        Ok(()) => Ok(()),
        Err(e) => {
            stores.detach(*stub_ref);
            Err(e)
        }
    }
}

// One more stub, on a stream that can be read, or none.
fn attach_one(
    alloc: Global,
    stores: &mut Stores,
    directory: &Directory,
    tenant: TenantId,
    input: &Input,
    base: u64,
    hold: u64,
    stub_refs: &mut Items<StubRef>,
) -> Result<(), AllocError>
    requires beside { IsBeside directory.now stores.old }
    requires found { is_some (found directory.now tenant input.now.owner input.now.stream) ≡ true }
    ensures ok { OnOk result (OneMore directory.now tenant base hold input.now stores.old stores.new stub_refs.old stub_refs.new) }
    ensures same { OnErr result (IsSame stores.old stores.new) }
    ensures err { OnErr result (stub_refs.new ≡ stub_refs.old) }
{
    let window = input.window.try_clone(alloc)?;
    let Some(found) = directory.find(tenant, owner_written(input), input.stream.as_str()) else {
        unreachable!()
    };
    let stub_ref = stores.attach(found.owner, found.index, window, base, hold)?;
    keep(stores, stub_refs, &stub_ref)
}

/// A stub for each input of a plan, or none at all.
pub fn attach_all(
    alloc: Global,
    stores: &mut Stores,
    directory: &Directory,
    tenant: TenantId,
    plan: &Plan,
    base: u64,
    hold: u64,
) -> Result<Items<StubRef>, AllocError>
    requires beside { IsBeside directory.now stores.old }
    requires found { AreFound directory.now tenant base plan.now.inputs (ports plan.now) }
    ensures ok { IfOk result (λ stub_refs. Attached directory.now tenant base hold plan.now.inputs (ports plan.now) stores.old stores.new stub_refs) }
    ensures err { OnErr result (IsSame stores.old stores.new) }
{
    let mut stub_refs = Items::new(alloc);
    for input in plan.inputs() {
        if let Err(e) = attach_one(
            alloc,
            stores,
            directory,
            tenant,
            input,
            base,
            hold,
            &mut stub_refs,
        ) {
            detach_all(stores, stub_refs.as_slice());
            return Err(e);
        }
    }
    Ok(stub_refs)
}
