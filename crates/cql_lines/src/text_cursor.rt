// An offset in a text, and the lexemes that are written plainly there.
ghost use Rattle.std.specs.Prelude.{◌≡◌, ◌+◌, ◌≤◌, ◌<◌, ◌∷◌, length, drop, get_or, true, false, Some, IfSome, IsTrue, []};
ghost use Rattle.std.specs.List.{prefix_len};
ghost use Rattle.std.specs.Char.{is_ascii_digit};
ghost use Rattle.json.specs.Token.{string, number};
ghost use Rattle.json.specs.Word.{head, after_whole, after_number};
ghost use Rattle.json.specs.Lex.{token, between, lex};
ghost use Rattle.json.specs.Run.{is_plain};
ghost use Rattle.cql_lines.specs.Plain.{is_mark};

use std::marker::Model;

/// An offset in a text. Contracts see the rest of the text.
#[derive(Drop)]
pub(crate) struct TextCursor<'a> {
    text: &'a str,
    at: usize,
}

impl<'a> Model for TextCursor<'a> {
    ghost use Rattle.std.specs.Prelude.{List, ℕ, drop, length, ◌≤◌};
    ghost use Rattle.std.specs.Str.{IsUtf8};

    ghost Value = { List ℕ };

    ghost view = { λ c. drop c.at c.text.now };

    ghost invariant = { λ c. IsUtf8 c.text.now × (c.at ≤ length c.text.now) };
}

// The byte at an offset, or a space past the end.
fn byte_at(text: &[u8], at: usize) -> u8
    ensures { result ≡ head (drop at text.now) }
{
    if at < text.len() { text[at] } else { b' ' }
}

// The first byte that isn't plain text of a string, from an offset on.
fn plain_end(text: &[u8], from: usize) -> usize
    requires { from ≤ length text.now }
    ensures value { result ≡ from + prefix_len is_plain (drop from text.now) }
    ensures bound { result ≤ length text.now }
{
    let mut i = from;
    while i < text.len() && text[i] != b'"' && text[i] != b'\\' && text[i] >= 0x20 {
        i += 1;
    }
    i
}

// The first byte that is no digit, from an offset on.
fn digits_end(text: &[u8], from: usize) -> usize
    requires { from ≤ length text.now }
    ensures value { result ≡ from + prefix_len is_ascii_digit (drop from text.now) }
    ensures bound { result ≤ length text.now }
{
    let mut i = from;
    while i < text.len() && text[i].is_ascii_digit() {
        i += 1;
    }
    i
}

/// Whether it is a comma, or closes a list or an object.
fn is_mark(byte: u8) -> bool
    ensures { result ≡ is_mark byte }
{
    byte == b',' || byte == b']' || byte == b'}'
}

// Where the digits of a whole number end that begin at an offset, before a mark.
fn whole_end(text: &[u8], from: usize) -> Option<usize>
    requires { from ≤ length text.now }
    ensures whole { IfSome result (λ stop. after_whole (drop from text.now) ≡ Some (drop stop text.now)) }
    ensures bounds { IfSome result (λ stop. (from < stop) × (stop < length text.now) × (get_or text.now from 0 < 58)) }
    ensures mark { IfSome result (λ stop. is_mark (get_or text.now stop 0) ≡ true) }
{
    let stop = digits_end(text, from);
    if stop == from || stop == text.len() || !is_mark(text[stop]) {
        return None;
    }
    if text[from] == b'0' && stop - from > 1 {
        return None;
    }
    Some(stop)
}

// Where the number ends that begins at an offset, before a mark.
fn number_end(text: &[u8], from: usize) -> Option<usize>
    requires { from ≤ length text.now }
    ensures number { IfSome result (λ stop. after_number (drop from text.now) ≡ Some (drop stop text.now)) }
    ensures bounds { IfSome result (λ stop. (from < stop) × (stop < length text.now) × (get_or text.now from 0 < 58)) }
    ensures mark { IfSome result (λ stop. is_mark (get_or text.now stop 0) ≡ true) }
{
    if byte_at(text, from) == b'-' {
        whole_end(text, from + 1)
    } else {
        whole_end(text, from)
    }
}

impl<'a> TextCursor<'a> {
    pub(crate) fn new(text: &'a str) -> TextCursor<'a>
        ensures { result ≡ text.now }
    {
        TextCursor { text, at: 0 }
    }

    /// The next byte, or a space at the end.
    pub(crate) fn peek(&self) -> u8
        ensures { result ≡ head self.now }
    {
        byte_at(self.text.as_bytes(), self.at)
    }

    pub(crate) fn is_at_end(&self) -> bool
        ensures { IsTrue result → self.now ≡ [] }
    {
        self.at == self.text.len()
    }

    /// Takes the byte, if it is next.
    pub(crate) fn take(&mut self, byte: u8) -> bool
        ensures yes { result ≡ true → self.old ≡ byte ∷ self.new }
        ensures no { result ≡ false → self.new ≡ self.old }
    {
        let bytes = self.text.as_bytes();
        if self.at < bytes.len() && bytes[self.at] == byte {
            self.at += 1;
            return true;
        }
        false
    }

    /// Takes a space, if one is next.
    #[tactic(auto, using(crate::proofs::Steps::space_passed))]
    pub(crate) fn pass_space(&mut self)
        ensures { lex between self.new ≡ lex between self.old }
    {
        self.take(b' ');
    }

    /// Whether a comma or a closing bracket is next.
    pub(crate) fn is_before_mark(&self) -> bool
        ensures { result ≡ is_mark (head self.now) }
    {
        is_mark(self.peek())
    }

    /// Takes a string, if one without escapes is next.
    pub(crate) fn string(&mut self) -> Option<&'a str>
        ensures { IfSome result (λ s. lex between self.old ≡ token (string s.now) ∷ lex between self.new) }
    {
        let text = self.text;
        let bytes = text.as_bytes();
        if self.at == bytes.len() || bytes[self.at] != b'"' {
            return None;
        }
        let start = self.at + 1;
        let stop = plain_end(bytes, start);
        if stop == bytes.len() || bytes[stop] != b'"' {
            return None;
        }
        let found = &text[start..stop];
        self.at = stop + 1;
        Some(found)
    }

    /// Takes a whole number, if one is next and ends before a comma or a closing bracket.
    pub(crate) fn number(&mut self) -> Option<&'a str>
        ensures { IfSome result (λ s. lex between self.old ≡ token (number s.now) ∷ lex between self.new) }
    {
        let text = self.text;
        let bytes = text.as_bytes();
        let from = self.at;
        let stop = number_end(bytes, from)?;
        let found = &text[from..stop];
        self.at = stop;
        Some(found)
    }
}
