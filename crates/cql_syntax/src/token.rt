// The tokens of a query text.
ghost use Rattle.std.specs.Prelude.{◌≡◌};
ghost use Rattle.cql_syntax.specs.Tokens.{same};

use cql_value::Text;

/// A reserved word or a sign.
#[derive(Clone, Copy, PartialEq, Eq)]
pub enum Fixed {
    All,
    And,
    As,
    By,
    Count,
    Distinct,
    Dstream,
    Except,
    From,
    Group,
    Istream,
    Max,
    Min,
    Not,
    Now,
    Or,
    Partition,
    Range,
    Rows,
    Rstream,
    Select,
    Slide,
    Sum,
    Unbounded,
    Union,
    Where,
    Open,
    Close,
    OpenSquare,
    CloseSquare,
    Comma,
    Dot,
    Semicolon,
    Star,
    Plus,
    Minus,
    Equal,
    /// Both `<>` and `!=`.
    Unequal,
    Less,
    LessOrEqual,
    Greater,
    GreaterOrEqual,
}

/// A token of a query text.
#[derive(Drop)]
pub enum Token {
    Fixed(Fixed),
    /// A word that isn't reserved, of any length.
    Word(Text),
    /// What the digits write, or the largest number of 64 bits.
    Number(u64),
    /// What stands between the quotes, each quote once.
    Text(Text),
}

/// A token and the byte that it begins at.
#[derive(Drop)]
pub struct Lexeme {
    pub at: usize,
    pub token: Token,
}

/// Whether they are the same word or sign.
#[tactic(auto, unfolding(crate::specs::Tokens::same))]
pub(crate) fn is_equal(a: Fixed, b: Fixed) -> bool
    ensures { result ≡ same a b }
{
    a == b
}
