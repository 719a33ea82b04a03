// The tokens of a text, one after another.
ghost use Rattle.std.specs.Prelude.{◌≡◌, ◌∷◌, [], true, false, Some, IfOk, OnOk, IsTrue, option_map};
ghost use Rattle.json.specs.Token.{begin_object, begin_array, end_array};
ghost use Rattle.json.specs.Lex.{tokens};
ghost use Rattle.json.specs.Json.{read_key};
ghost use Rattle.json.specs.Reads.{token_of};
ghost use Rattle.cql_lines.specs.Plain.{Passes, IsScalar};

use crate::text_cursor::TextCursor;
use json::Token;
use std::marker::Model;

/// What comes next is another token than was asked for, or isn't written plainly.
#[derive(Clone, Copy, Debug, Drop, PartialEq, Eq)]
pub struct NotPlain;

/// Reads the tokens of a text. Contracts see those that are still to come, by the definition of
/// `json`. Where a call is refused the text may still be JSON, and nothing is said of what is left.
#[derive(Drop)]
pub struct Reader<'a> {
    cursor: TextCursor<'a>,
    // whether a value ended before the cursor, with no comma since
    follows: bool,
}

impl<'a> Model for Reader<'a> {
    ghost use Rattle.std.specs.Prelude.{List};
    ghost use Rattle.json.specs.Token.{Token, tokens_code};
    ghost use Rattle.cql_lines.specs.Plain.{tokens_from};

    ghost Value = { List Token };

    ghost coded = { tokens_code };

    ghost view = { λ r. tokens_from r.follows r.cursor };
}

// Passes the comma that follows a value.
fn pass_comma(cursor: &mut TextCursor<'_>, follows: bool) -> Result<(), NotPlain>
    ensures { OnOk result (Passes follows cursor.old cursor.new) }
{
    if follows {
        if !cursor.take(b',') {
            return Err(NotPlain);
        }
        cursor.pass_space();
    }
    Ok(())
}

fn text_token<'a>(cursor: &mut TextCursor<'a>) -> Result<Token<'a>, NotPlain>
    ensures { IfOk result (λ t. IsScalar cursor.old (token_of t) cursor.new) }
{
    let text = cursor.string().ok_or(NotPlain)?;
    if !cursor.is_before_mark() {
        return Err(NotPlain);
    }
    Ok(Token::String(text))
}

fn number_token<'a>(cursor: &mut TextCursor<'a>) -> Result<Token<'a>, NotPlain>
    ensures { IfOk result (λ t. IsScalar cursor.old (token_of t) cursor.new) }
{
    let text = cursor.number().ok_or(NotPlain)?;
    Ok(Token::Number(text))
}

// The text or number that is next, where a value may begin.
fn scalar_token<'a>(cursor: &mut TextCursor<'a>) -> Result<Token<'a>, NotPlain>
    ensures { IfOk result (λ t. IsScalar cursor.old (token_of t) cursor.new) }
{
    if cursor.peek() == b'"' {
        text_token(cursor)
    } else {
        number_token(cursor)
    }
}

impl<'a> Reader<'a> {
    /// Reads a text from its begin on.
    pub fn new(text: &'a str) -> Reader<'a>
        ensures { result ≡ tokens text.now }
    {
        Reader {
            cursor: TextCursor::new(text),
            follows: false,
        }
    }

    /// Takes the brace that opens an object.
    #[tactic(auto, using(crate::proofs::Steps::object_opens))]
    pub fn begin_object(&mut self) -> Result<(), NotPlain>
        ensures { OnOk result (self.old ≡ begin_object ∷ self.new) }
    {
        if self.follows || !self.cursor.take(b'{') {
            return Err(NotPlain);
        }
        Ok(())
    }

    /// Takes the bracket that opens a list.
    #[tactic(auto, using(crate::proofs::Steps::list_opens))]
    pub fn begin_array(&mut self) -> Result<(), NotPlain>
        ensures { OnOk result (self.old ≡ begin_array ∷ self.new) }
    {
        if self.follows || !self.cursor.take(b'[') {
            return Err(NotPlain);
        }
        Ok(())
    }

    /// Takes the bracket that closes a list, if it is next.
    #[tactic(auto, using(crate::proofs::Steps::list_closes))]
    pub fn take_end_array(&mut self) -> bool
        ensures yes { result ≡ true → self.old ≡ end_array ∷ self.new }
        ensures no { result ≡ false → self.new ≡ self.old }
    {
        if !self.cursor.take(b']') {
            return false;
        }
        self.follows = true;
        true
    }

    /// A key, or None at the brace that closes an object.
    pub fn next_key(&mut self) -> Result<Option<&'a str>, NotPlain>
        ensures { IfOk result (λ k. read_key self.old ≡ Some (option_map (λ s. s.now) k, self.new)) }
    {
        if self.cursor.take(b'}') {
            self.follows = true;
            return Ok(None);
        }
        pass_comma(&mut self.cursor, self.follows)?;
        let key = self.cursor.string().ok_or(NotPlain)?;
        if !self.cursor.take(b':') {
            return Err(NotPlain);
        }
        self.cursor.pass_space();
        self.follows = false;
        Ok(Some(key))
    }

    /// A text without escapes, or a number without fraction and exponent.
    pub fn scalar(&mut self) -> Result<Token<'a>, NotPlain>
        ensures { IfOk result (λ t. self.old ≡ token_of t ∷ self.new) }
    {
        pass_comma(&mut self.cursor, self.follows)?;
        let token = scalar_token(&mut self.cursor)?;
        self.follows = true;
        Ok(token)
    }

    /// Whether the text ends here.
    #[tactic(auto, using(crate::proofs::Steps::text_ends))]
    pub fn is_at_end(&self) -> bool
        ensures { IsTrue result → self.now ≡ [] }
    {
        self.follows && self.cursor.is_at_end()
    }
}
