// Writes the pieces of a spelling, with spaces between.
ghost use Rattle.std.specs.Prelude.{◌≡◌, ◌++◌, pos, OnOk, string_bytes, true};
ghost use Rattle.cql_syntax.specs.Spelling as spec;

use crate::token::Fixed;
use std::alloc::{AllocError, Global};
use std::marker::Model;
use std::string::ToString;

/// A text in the making.
#[derive(Drop)]
pub(crate) struct Printer {
    alloc: Global,
    text: String,
    // Whether a space stands before the next piece, unless it takes none.
    due: bool,
}

impl Model for Printer {
    ghost use Rattle.std.specs.Prelude.{string_bytes};
    ghost use Rattle.cql_syntax.specs.Spelling.{Printed};

    ghost Value = { Printed };

    ghost view = { λ p. record { text = string_bytes p.text; due = p.due } };
}

#[tactic(auto, unfolding(crate::specs::Spelling::symbol_text))]
fn symbol_text(fixed: Fixed) -> &'static str
    ensures { result.now ≡ spec.symbol_text fixed }
{
    match fixed {
        Fixed::All => "ALL",
        Fixed::And => "AND",
        Fixed::As => "AS",
        Fixed::By => "BY",
        Fixed::Count => "COUNT",
        Fixed::Distinct => "DISTINCT",
        Fixed::Dstream => "DSTREAM",
        Fixed::Except => "EXCEPT",
        Fixed::From => "FROM",
        Fixed::Group => "GROUP",
        Fixed::Istream => "ISTREAM",
        Fixed::Max => "MAX",
        Fixed::Min => "MIN",
        Fixed::Not => "NOT",
        Fixed::Now => "NOW",
        Fixed::Or => "OR",
        Fixed::Partition => "PARTITION",
        Fixed::Range => "RANGE",
        Fixed::Rows => "ROWS",
        Fixed::Rstream => "RSTREAM",
        Fixed::Select => "SELECT",
        Fixed::Slide => "SLIDE",
        Fixed::Sum => "SUM",
        Fixed::Unbounded => "UNBOUNDED",
        Fixed::Union => "UNION",
        Fixed::Where => "WHERE",
        Fixed::Open => "(",
        Fixed::Close => ")",
        Fixed::OpenSquare => "[",
        Fixed::CloseSquare => "]",
        Fixed::Comma => ",",
        Fixed::Dot => ".",
        Fixed::Semicolon => ";",
        Fixed::Star => "*",
        Fixed::Plus => "+",
        Fixed::Minus => "-",
        Fixed::Equal => "=",
        Fixed::Unequal => "<>",
        Fixed::Less => "<",
        Fixed::LessOrEqual => "<=",
        Fixed::Greater => ">",
        Fixed::GreaterOrEqual => ">=",
    }
}

#[tactic(auto, unfolding(crate::specs::Spelling::is_tight))]
fn is_tight(fixed: Fixed) -> bool
    ensures { result ≡ spec.is_tight fixed }
{
    matches!(
        fixed,
        Fixed::Close | Fixed::CloseSquare | Fixed::Comma | Fixed::Dot
    )
}

#[tactic(auto, unfolding(crate::specs::Spelling::is_opening))]
fn is_opening(fixed: Fixed) -> bool
    ensures { result ≡ spec.is_opening fixed }
{
    matches!(fixed, Fixed::Open | Fixed::OpenSquare | Fixed::Dot)
}

impl Printer {
    pub(crate) fn new(alloc: Global) -> Printer
        ensures { result ≡ spec.nothing }
    {
        Printer {
            alloc,
            text: String::new(alloc),
            due: false,
        }
    }

    pub(crate) fn into_text(self) -> String
        ensures { string_bytes result ≡ self.text }
    {
        let Printer { text, .. } = self;
        text
    }

    // The space that is due, and the text.
    #[tactic(auto, unfolding(crate::specs::Spelling::put))]
    fn spaced(&mut self, text: &str) -> Result<(), AllocError>
        ensures { OnOk result (self.new ≡ record { text = self.old.text ++ spec.space self.old.due ++ text.now; due = true }) }
    {
        if self.due {
            self.text.push(' ')?;
        }
        self.text.push_str(text)?;
        self.due = true;
        Ok(())
    }

    /// A word or sign.
    #[tactic(auto, unfolding(crate::specs::Spelling::put))]
    pub(crate) fn symbol(&mut self, fixed: Fixed) -> Result<(), AllocError>
        ensures { OnOk result (self.new ≡ spec.put self.old (spec.symbol fixed)) }
    {
        self.due = self.due && !is_tight(fixed);
        self.spaced(symbol_text(fixed))?;
        self.due = !is_opening(fixed);
        Ok(())
    }

    /// A stream operator or an aggregate, and the bracket that it opens.
    #[tactic(auto, unfolding(crate::specs::Spelling::put))]
    pub(crate) fn call(&mut self, fixed: Fixed) -> Result<(), AllocError>
        ensures { OnOk result (self.new ≡ spec.put self.old (spec.call fixed)) }
    {
        self.spaced(symbol_text(fixed))?;
        self.text.push('(')?;
        self.due = false;
        Ok(())
    }

    #[tactic(auto, unfolding(crate::specs::Spelling::put))]
    pub(crate) fn name(&mut self, name: &str) -> Result<(), AllocError>
        ensures { OnOk result (self.new ≡ spec.put self.old (spec.name name.now)) }
    {
        self.spaced(name)
    }

    #[tactic(auto, unfolding(crate::specs::Spelling::put))]
    pub(crate) fn number(&mut self, n: u64) -> Result<(), AllocError>
        ensures { OnOk result (self.new ≡ spec.put self.old (spec.number (pos n))) }
    {
        let digits = n.to_string(self.alloc)?;
        self.spaced(digits.as_str())
    }

    /// A number with its own sign.
    #[tactic(auto, unfolding(crate::specs::Spelling::put))]
    pub(crate) fn signed(&mut self, n: i64) -> Result<(), AllocError>
        ensures { OnOk result (self.new ≡ spec.put self.old (spec.number n)) }
    {
        let digits = n.to_string(self.alloc)?;
        self.spaced(digits.as_str())
    }

    // What is quoted, each quote twice, and the closing quote.
    fn doubled(&mut self, text: &str) -> Result<(), AllocError>
        ensures { OnOk result (self.new ≡ record { text = self.old.text ++ spec.doubled text.now; due = self.old.due }) }
    {
        push_doubled(&mut self.text, text)
    }

    /// A text in quotes.
    #[tactic(auto, unfolding(crate::specs::Spelling::put))]
    pub(crate) fn quoted(&mut self, text: &str) -> Result<(), AllocError>
        ensures { OnOk result (self.new ≡ spec.put self.old (spec.text text.now)) }
    {
        self.spaced("'")?;
        self.doubled(text)
    }
}

fn push_doubled(out: &mut String, mut text: &str) -> Result<(), AllocError>
    ensures { OnOk result (string_bytes out.new ≡ string_bytes out.old ++ spec.doubled text.entry.now) }
{
    while let Some((before, after)) = text.split_once('\'') {
        out.push_str(before)?;
        out.push_str("''")?;
        text = after;
    }
    out.push_str(text)?;
    out.push('\'')
}
