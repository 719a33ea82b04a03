// A grant, and what lists share of it.
ghost use Rattle.std.specs.Prelude.{◌≡◌, true, Some, IfOk, option_copied, slice_get};
ghost use Rattle.cql_window.specs.Chosen.{is_shown};
ghost use Rattle.cql_tenants.specs.Namespace.{is_of};
ghost use Rattle.cql_tenants.specs.Directory.{grant_over};
ghost use Rattle.cql_tenants.specs.Held.{shown_of};

use crate::held::Held;
use crate::shared::Shared;
use crate::tenants::TenantId;
use cql_value::{Items, Schema, Text};
use cql_window::{schema_at, shown_projection};
use std::alloc::{AllocError, Global};
use std::marker::Model;

/// What the reader of a stream that another tenant granted sees of it.
pub struct ShownStream {
    pub stream: Text,
    pub schema: Schema,
    /// Where these columns stand among the stream's own.
    pub projection: Items<usize>,
    /// Whether the grant names them.
    pub named: bool,
}

impl Drop for ShownStream {
    fn drop(self) {
        let ShownStream {
            stream: _,
            schema: _,
            projection: _,
            named: _,
        } = self;
    }
}

/// A stream that another tenant granted: its owner, its index among the owner's, and what the
/// reader sees of it, which lists share. It is small, since those that look for a grant walk along
/// all.
pub struct Grant {
    owner: TenantId,
    index: usize,
    shown: Held,
}

impl Drop for Grant {
    fn drop(self) {
        let Grant {
            owner: _,
            index: _,
            shown: _,
        } = self;
    }
}

impl Model for Grant {
    ghost use Rattle.cql_tenants.specs.Granted.{Grant as kept};

    ghost Value = { kept };

    ghost view = { λ g. record { owner = g.owner; index = g.index; stream = g.shown.stream; schema = g.shown.schema; projection = g.shown.projection; named = g.shown.named } };
}

impl Grant {
    /// A grant of a stream of this schema, which shows the columns of these names, or all where
    /// none are named.
    pub fn new(
        alloc: Global,
        owner: TenantId,
        index: usize,
        stream: &str,
        schema: &Schema,
        columns: Option<&Items<Text>>,
    ) -> Result<Grant, AllocError>
        requires { is_shown schema.now (option_copied columns) ≡ true }
        ensures { IfOk result (λ g. g ≡ grant_over owner index stream.now schema.now (option_copied columns.entry)) }
    {
        // asking for the columns tells the proof that they are those of a schema
        let _all = schema.columns();
        let projection = shown_projection(alloc, schema, columns)?;
        let seen = schema_at(alloc, schema, projection.as_slice())?;
        let stream = Text::new(alloc, stream)?;
        let shown = ShownStream {
            stream,
            schema: seen,
            projection,
            named: columns.is_some(),
        };
        let shown = Held::alone(alloc, shown)?;
        Ok(Grant {
            owner,
            index,
            shown,
        })
    }

    /// The same grant, with what is seen of it at an index among others.
    pub fn among(
        &self,
        pack: &Shared<Items<Shared<ShownStream>>>,
        at: usize,
    ) -> Result<Grant, AllocError>
        requires { slice_get pack.now at ≡ Some (shown_of self.now) }
        ensures { IfOk result (λ g. g ≡ self.now) }
    {
        let shown = Held::among(pack, at)?;
        Ok(Grant {
            owner: self.owner,
            index: self.index,
            shown,
        })
    }

    /// The stream's owner.
    pub fn owner(&self) -> TenantId
        ensures { result ≡ self.now.owner }
    {
        self.owner
    }

    /// The stream's index among its owner's.
    pub fn index(&self) -> usize
        ensures { result ≡ self.now.index }
    {
        self.index
    }

    /// The stream's name.
    pub fn stream(&self) -> &str
        ensures { result.now ≡ self.now.stream }
    {
        self.shown.get().stream.as_str()
    }

    /// The columns that the reader sees.
    pub fn schema(&self) -> &Schema
        ensures { result.now ≡ self.now.schema }
    {
        &self.shown.get().schema
    }

    /// Where these columns stand among the stream's own.
    pub fn projection(&self) -> &[usize]
        ensures { result.now ≡ self.now.projection }
    {
        self.shown.get().projection.as_slice()
    }

    /// Whether the grant names them.
    pub fn is_named(&self) -> bool
        ensures { result ≡ self.now.named }
    {
        self.shown.get().named
    }

    /// What the reader sees, with one more holder of those that it stands among.
    pub fn held(&self) -> Result<Held, AllocError>
        ensures { IfOk result (λ s. s ≡ shown_of self.now) }
    {
        self.shown.share()
    }

    /// What the reader sees, with one more holder of it alone.
    pub fn shown(&self) -> Result<Shared<ShownStream>, AllocError>
        ensures { IfOk result (λ s. s ≡ shown_of self.now) }
    {
        self.shown.alone_shared()
    }

    /// Whether it is a grant of that stream.
    #[tactic(auto, unfolding(crate::specs::Named::same_name))]
    pub fn is_of(&self, owner: usize, stream: &str) -> bool
        ensures { result ≡ is_of owner stream.now self.now }
    {
        owner == self.owner.index() && stream == self.stream()
    }
}
