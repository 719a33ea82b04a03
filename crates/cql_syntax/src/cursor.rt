// A cursor over tokens.
ghost use Rattle.std.specs.Prelude.{◌≡◌, length, slice_get};
ghost use Rattle.std.specs.Option.{option_copied};
ghost use Rattle.cql_syntax.specs.Tokens as tokens;
ghost use Rattle.cql_syntax.specs.Operators as operators;
ghost use Rattle.cql_syntax.specs.Cursor as spec;
ghost use Rattle.cql_syntax.specs.Cursor.{Reads};

use crate::syntax::{Comparison, Function, Operation, SetOperator, StreamOperator};
use crate::token::{Fixed, Lexeme, Token, is_equal};
use std::alloc::AllocError;
use std::marker::Model;

/// Why reading stopped.
#[derive(Clone, Copy)]
pub enum Stop {
    Memory,
    /// The token at which the cursor stands can't come there.
    Refused,
}

impl From<AllocError> for Stop {
    ghost use Rattle.std.specs.Prelude.{◌≡◌};
    ghost use Rattle.cql_syntax.specs.declared.cursor.Stop.TheVariants.{Memory};

    ghost from_gives = { λ _ e. e ≡ Memory };

    fn from(_: AllocError) -> Stop {
        Stop::Memory
    }
}

/// The tokens that are left to read.
#[derive(Drop)]
pub struct Cursor<'a> {
    rest: &'a [Lexeme],
}

impl<'a> Model for Cursor<'a> {
    ghost use Rattle.std.specs.Prelude.{List};
    ghost use Rattle.cql_syntax.specs.Tokens.{tokens_of};
    ghost use Rattle.cql_syntax.specs.declared.token.Token.{Token};

    ghost Value = { List Token };

    ghost view = { λ c. tokens_of c.rest.now };
}

impl<'a> Cursor<'a> {
    /// A cursor at the first of these tokens.
    pub fn new(rest: &'a [Lexeme]) -> Cursor<'a>
        ensures { result ≡ tokens.tokens_of rest.now }
    {
        Cursor { rest }
    }

    /// How many tokens are left.
    pub fn left(&self) -> usize
        ensures { result ≡ length self.now }
    {
        self.rest.len()
    }

    /// Whether the word or sign comes next.
    pub fn sees(&self, fixed: Fixed) -> bool
        ensures { result ≡ spec.sees fixed self.now }
    {
        match self.rest {
            [
                Lexeme {
                    token: Token::Fixed(other),
                    ..
                },
                ..
            ] => is_equal(*other, fixed),
            _ => false,
        }
    }

    /// Whether a word that isn't reserved comes next.
    pub fn sees_word(&self) -> bool
        ensures { result ≡ spec.next_is tokens.is_word self.now }
    {
        matches!(
            self.rest,
            [
                Lexeme {
                    token: Token::Word(_),
                    ..
                },
                ..
            ]
        )
    }

    /// Passes the next token, if there is one.
    pub fn skip(&mut self)
        ensures { self.new ≡ spec.next self.old }
    {
        if let [_, rest @ ..] = self.rest {
            self.rest = rest;
        }
    }

    /// Passes the word or sign, where it comes next, and says whether it did.
    #[tactic(auto, unfolding(crate::specs::Cursor::after))]
    pub fn eat(&mut self, fixed: Fixed) -> bool
        ensures found { result ≡ spec.sees fixed self.old }
        ensures after { self.new ≡ spec.after fixed self.old }
    {
        let found = self.sees(fixed);
        if found {
            self.skip();
        }
        found
    }

    /// Passes the word or sign, which has to come next.
    #[tactic(auto, unfolding(crate::specs::Cursor::token_by, crate::specs::Tokens::sign))]
    pub fn expect(&mut self, fixed: Fixed) -> Result<(), Stop>
        ensures { Reads (spec.expect fixed self.old) result self.new }
    {
        if self.sees(fixed) {
            self.skip();
            Ok(())
        } else {
            Err(Stop::Refused)
        }
    }

    /// The token that comes next, where there is one.
    pub fn peek(&self) -> Option<&'a Token>
        ensures { option_copied result ≡ slice_get self.now 0 }
    {
        match self.rest {
            [Lexeme { token, .. }, ..] => Some(token),
            [] => None,
        }
    }

    /// The sign of a sum that comes next.
    pub fn sum_sign(&self) -> Option<Operation>
        ensures { result ≡ spec.at_head operators.sum_sign self.now }
    {
        if self.sees(Fixed::Plus) {
            Some(Operation::Add)
        } else if self.sees(Fixed::Minus) {
            Some(Operation::Subtract)
        } else {
            None
        }
    }

    /// The sign of a product that comes next.
    pub fn product_sign(&self) -> Option<Operation>
        ensures { result ≡ spec.at_head operators.product_sign self.now }
    {
        if self.sees(Fixed::Star) {
            Some(Operation::Multiply)
        } else {
            None
        }
    }

    /// The function that comes next.
    pub fn function(&self) -> Option<Function>
        ensures { result ≡ spec.at_head operators.function_of self.now }
    {
        if self.sees(Fixed::Sum) {
            Some(Function::Sum)
        } else if self.sees(Fixed::Min) {
            Some(Function::Min)
        } else if self.sees(Fixed::Max) {
            Some(Function::Max)
        } else {
            None
        }
    }

    /// The sign of a comparison that comes next.
    pub fn comparison(&self) -> Option<Comparison>
        ensures { result ≡ spec.at_head operators.comparison_of self.now }
    {
        if self.sees(Fixed::Equal) {
            Some(Comparison::Equal)
        } else if self.sees(Fixed::Unequal) {
            Some(Comparison::Unequal)
        } else if self.sees(Fixed::Less) {
            Some(Comparison::Less)
        } else if self.sees(Fixed::LessOrEqual) {
            Some(Comparison::LessOrEqual)
        } else if self.sees(Fixed::Greater) {
            Some(Comparison::Greater)
        } else if self.sees(Fixed::GreaterOrEqual) {
            Some(Comparison::GreaterOrEqual)
        } else {
            None
        }
    }

    /// The stream operator that comes next.
    pub fn stream_operator(&self) -> Option<StreamOperator>
        ensures { result ≡ spec.at_head operators.stream_operator_of self.now }
    {
        if self.sees(Fixed::Istream) {
            Some(StreamOperator::Istream)
        } else if self.sees(Fixed::Dstream) {
            Some(StreamOperator::Dstream)
        } else if self.sees(Fixed::Rstream) {
            Some(StreamOperator::Rstream)
        } else {
            None
        }
    }

    /// The first word of a set operator that comes next.
    pub fn set_operator(&self) -> Option<SetOperator>
        ensures { result ≡ spec.at_head operators.set_operator_of self.now }
    {
        if self.sees(Fixed::Union) {
            Some(SetOperator::UnionAll)
        } else if self.sees(Fixed::Except) {
            Some(SetOperator::ExceptAll)
        } else {
            None
        }
    }
}
