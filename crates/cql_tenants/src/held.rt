// What readers see of their streams, some of them together.
ghost use Rattle.std.specs.Prelude.{◌≡◌, ◌<◌, IfOk, length};
ghost use Rattle.cql_tenants.specs.Held.{shown_in};

use crate::grant::ShownStream;
use crate::shared::Shared;
use cql_value::Items;
use std::alloc::{AllocError, Global};
use std::marker::Model;
use std::sync::Arc;

/// What a reader sees of a stream, at its index among others that stand together. One more holder is
/// counted for all of these at one address: a list of many grants counts holders, and addresses
/// all over the memory would take ten times as long.
pub struct Held {
    pack: Shared<Items<Shared<ShownStream>>>,
    at: usize,
}

impl Drop for Held {
    fn drop(self) {
        let Held { pack: _, at: _ } = self;
    }
}

impl Model for Held {
    ghost use Rattle.std.specs.Prelude.{◌<◌, length};
    ghost use Rattle.cql_tenants.specs.declared.grant.ShownStream.{ShownStream as shown};
    ghost use Rattle.cql_tenants.specs.Held.{shown_in};

    ghost Value = { shown };

    ghost view = { λ h. shown_in h.pack h.at };

    ghost invariant = { λ h. h.at < length h.pack };
}

impl Held {
    /// It alone.
    pub fn alone(alloc: Global, shown: ShownStream) -> Result<Held, AllocError>
        ensures { IfOk result (λ h. h ≡ shown) }
    {
        let mut pack = Items::new(alloc);
        pack.push(Shared::new(Arc::new(alloc, shown)?))?;
        let pack = Shared::new(Arc::new(alloc, pack)?);
        Ok(Held { pack, at: 0 })
    }

    /// That at an index of those.
    pub fn among(pack: &Shared<Items<Shared<ShownStream>>>, at: usize) -> Result<Held, AllocError>
        requires { at < length pack.now }
        ensures { IfOk result (λ h. h ≡ shown_in pack.now at) }
    {
        let pack = pack.share()?;
        Ok(Held { pack, at })
    }

    /// What is seen.
    pub fn get(&self) -> &ShownStream
        ensures { result.now ≡ self.now }
    {
        self.pack.get().as_slice()[self.at].get()
    }

    /// The same, with one more holder of all that stand together.
    pub fn share(&self) -> Result<Held, AllocError>
        ensures { IfOk result (λ h. h ≡ self.now) }
    {
        Held::among(&self.pack, self.at)
    }

    /// The same by itself, with one more holder.
    pub fn alone_shared(&self) -> Result<Shared<ShownStream>, AllocError>
        ensures { IfOk result (λ s. s ≡ self.now) }
    {
        self.pack.get().as_slice()[self.at].share()
    }
}
