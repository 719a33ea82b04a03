//! The tenant that a line names.
ghost use Rattle.std.specs.Prelude.{◌≡◌, IfOk};
ghost use Rattle.cql_asked.specs.Named.{kept_bytes};

use cql_value::Text;
use std::alloc::{AllocError, Global};
use std::marker::Model;

/// Where the bytes of a name are.
#[derive(Drop)]
enum NameBytes<'a> {
    Line(&'a str),
    Copy(Text),
}

/// A name as a line has it: the line's own bytes, or a copy of them. Contracts see the bytes.
#[derive(Drop)]
pub struct Named<'a> {
    kept: NameBytes<'a>,
}

impl<'a> Model for Named<'a> {
    ghost use Rattle.std.specs.Prelude.{List, ℕ};
    ghost use Rattle.cql_asked.specs.Named.{kept_bytes};

    ghost Value = { List ℕ };

    ghost view = { λ n. kept_bytes n.kept };
}

impl<'a> Named<'a> {
    // A text of the line.
    pub(crate) fn of_line(text: &'a str) -> Named<'a>
        ensures { result ≡ text.now }
    {
        Named {
            kept: NameBytes::Line(text),
        }
    }

    // A text beside the line.
    pub(crate) fn of_copy(text: Text) -> Named<'a>
        ensures { result ≡ text }
    {
        Named {
            kept: NameBytes::Copy(text),
        }
    }

    /// Its text.
    pub fn as_str(&self) -> &str
        ensures { result.now ≡ self.now }
    {
        match &self.kept {
            NameBytes::Line(text) => text,
            NameBytes::Copy(text) => text.as_str(),
        }
    }

    // A text of its own. Only one of the line's is copied.
    pub(crate) fn into_text(self, alloc: Global) -> Result<Text, AllocError>
        ensures { IfOk result (λ t. t ≡ self.entry) }
    {
        match self.kept {
            NameBytes::Line(text) => Text::new(alloc, text),
            NameBytes::Copy(text) => Ok(text),
        }
    }
}
