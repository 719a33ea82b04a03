// The grants of one reader.
ghost use Rattle.std.specs.Prelude.{◌≡◌, [], ◌∷◌, ◌++◌, ◌≤◌, ◌-◌, not, IfOk, OnOk, OnErr, length, map, take, drop};
ghost use Rattle.std.specs.List.{filter};
ghost use Rattle.cql_tenants.specs.Namespace.{is_of};
ghost use Rattle.cql_tenants.specs.Held.{shown_of};

use crate::grant::{Grant, ShownStream};
use crate::shared::Shared;
use cql_value::Items;
use std::alloc::{AllocError, Global};
use std::marker::Model;
use std::sync::Arc;

/// How many grants stand together.
const TOGETHER: usize = 64;

/// The streams that were granted to one reader, in order of the grants. With each grant that comes
/// some of those that are there are put together, in turn, so that what was taken back doesn't stay
/// for long beside what wasn't.
pub struct Granted {
    all: Items<Grant>,
    // The first that is put together next.
    next: usize,
}

impl Drop for Granted {
    fn drop(self) {
        let Granted { all: _, next: _ } = self;
    }
}

impl Model for Granted {
    ghost use Rattle.std.specs.Prelude.{List};
    ghost use Rattle.cql_tenants.specs.Granted.{Grant as kept};

    ghost Value = { List kept };

    ghost view = { λ g. g.all };
}

// What the reader sees of these grants.
fn gathered(alloc: Global, grants: &[Grant]) -> Result<Items<Shared<ShownStream>>, AllocError>
    ensures { IfOk result (λ pack. pack ≡ map shown_of grants.now) }
{
    let mut pack = Items::new(alloc);
    for grant in grants {
        pack.push(grant.shown()?)?;
    }
    Ok(pack)
}

// Has the grants from an index on, up to another, hold what the reader sees of them together.
fn put_together(
    all: &mut Items<Grant>,
    from: usize,
    end: usize,
    pack: &Shared<Items<Shared<ShownStream>>>,
) -> Result<(), AllocError>
    requires order { from ≤ end }
    requires within { end ≤ length all.old }
    requires pack { pack.now ≡ map shown_of (take (end - from) (drop from all.old)) }
    ensures { all.new ≡ all.old }
{
    for index in from..end {
        let grant = all.as_slice()[index].among(pack, index - from)?;
        all.set(index, grant);
    }
    Ok(())
}

// Takes the grants of that stream away.
fn take_grants(granted: &mut Items<Grant>, owner: usize, stream: &str)
    ensures { granted.new ≡ filter (λ grant. not (is_of owner stream.now grant)) granted.old }
{
    let mut at = 0;
    while at < granted.len() {
        if granted.as_slice()[at].is_of(owner, stream) {
            let _grant = granted.remove(at);
        } else {
            at += 1;
        }
    }
}

impl Granted {
    /// No grant.
    pub fn new(alloc: Global) -> Granted
        ensures { result ≡ [] }
    {
        Granted {
            all: Items::new(alloc),
            next: 0,
        }
    }

    /// All of them, in order.
    pub fn as_slice(&self) -> &[Grant]
        ensures { result.now ≡ self.now }
    {
        self.all.as_slice()
    }

    // Puts the next few together.
    fn tidy(&mut self, alloc: Global) -> Result<(), AllocError>
        ensures { self.new ≡ self.old }
    {
        let len = self.all.len();
        // the last few wait until they are as many as stand together
        let from = if len.saturating_sub(self.next) < TOGETHER {
            0
        } else {
            self.next
        };
        let end = from + TOGETHER.min(len - from);
        let pack = gathered(alloc, &self.all.as_slice()[from..end])?;
        let pack = Shared::new(Arc::new(alloc, pack)?);
        self.next = end;
        put_together(&mut self.all, from, end, &pack)
    }

    /// One more grant, behind the others.
    pub fn push(&mut self, alloc: Global, grant: Grant) -> Result<(), AllocError>
        ensures ok { OnOk result (self.new ≡ self.old ++ grant ∷ []) }
        ensures err { OnErr result (self.new ≡ self.old) }
    {
        self.tidy(alloc)?;
        self.all.push(grant)
    }

    /// Takes the grants of that stream away. Takes no memory.
    pub fn take(&mut self, owner: usize, stream: &str)
        ensures { self.new ≡ filter (λ grant. not (is_of owner stream.now grant)) self.old }
    {
        take_grants(&mut self.all, owner, stream);
    }
}
