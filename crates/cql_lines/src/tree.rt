//! The tree of a line, which borrows its texts, and what stands at the keys of an object.
ghost use Rattle.std.specs.Prelude.{◌≡◌, map, option_map, option_and_then, is_some};
ghost use Rattle.std.specs.List.{list_any};
ghost use Rattle.std.specs.Str.{bytes_eq};
ghost use Rattle.serde_json.specs.Find.{get, get_member, as_number, as_str, as_array, as_object, as_i64, as_u64};
ghost use Rattle.cql_lines.specs.Tree.{text_at, whole_at, array_at, optional_text, optional_array, optional_whole, are_among, has_only};
ghost use Rattle.cql_lines.specs.View.{num_view, view, items_view, members_view};

/// A number of a line.
#[derive(Clone, Copy, Drop)]
pub enum Number {
    /// A whole number of 64 bits without a sign.
    Unsigned(u64),
    /// One below 0, of 64 bits with a sign.
    Negative(i64),
    /// Any other.
    Float(f64),
}

impl Number {
    /// The number, where it is whole, of 64 bits, and not below 0.
    pub fn as_u64(self) -> Option<u64>
        ensures { result ≡ as_u64 (num_view self) }
    {
        match self {
            Number::Unsigned(n) => Some(n),
            Number::Negative(_) | Number::Float(_) => None,
        }
    }

    /// The number, where it is whole, of 64 bits with a sign.
    pub fn as_i64(self) -> Option<i64>
        ensures { result ≡ as_i64 (num_view self) }
    {
        match self {
            Number::Unsigned(n) => if n <= i64::MAX as u64 {
                Some(n as i64)
            } else {
                None
            },
            Number::Negative(n) => Some(n),
            Number::Float(_) => None,
        }
    }
}

/// The tree of a line. Its texts are the line's own, or unescaped beside it. An object has its
/// members as they are written: of equal keys the last counts.
#[derive(Drop)]
pub enum Tree<'a> {
    Null,
    Bool(bool),
    Number(Number),
    Text(&'a str),
    List(Vec<Tree<'a>>),
    Object(Vec<(&'a str, Tree<'a>)>),
}

impl<'a> Tree<'a> {
    /// Whether it is an object.
    pub fn is_object(&self) -> bool
        ensures { result ≡ is_some (as_object (view self.now)) }
    {
        if let Tree::Object(_) = self {
            true
        } else {
            false
        }
    }

    /// The text that it is, if it is one.
    pub fn as_str(&self) -> Option<&'a str>
        ensures { option_map (λ s. s.now) result ≡ as_str (view self.now) }
    {
        if let Tree::Text(text) = self {
            Some(*text)
        } else {
            None
        }
    }

    /// The list that it is, if it is one.
    pub fn as_array(&self) -> Option<&Vec<Tree<'a>>>
        ensures { option_map (λ v. items_view v.now.items) result ≡ as_array (view self.now) }
    {
        if let Tree::List(items) = self {
            Some(items)
        } else {
            None
        }
    }

    /// The number that it is, where it is whole, of 64 bits with a sign.
    pub fn as_i64(&self) -> Option<i64>
        ensures { result ≡ option_and_then as_i64 (as_number (view self.now)) }
    {
        if let Tree::Number(number) = self {
            number.as_i64()
        } else {
            None
        }
    }

    /// The number that it is, where it is whole, of 64 bits, and not below 0.
    pub fn as_u64(&self) -> Option<u64>
        ensures { result ≡ option_and_then as_u64 (as_number (view self.now)) }
    {
        if let Tree::Number(number) = self {
            number.as_u64()
        } else {
            None
        }
    }

    // What stands at a key, where this is an object that has it.
    fn get(&self, key: &str) -> Option<&Tree<'a>>
        ensures { option_map (λ v. view v.now) result ≡ get key.now (view self.now) }
    {
        if let Tree::Object(members) = self {
            member_at(members, key)
        } else {
            None
        }
    }
}

// The last of the members of a key.
fn member_at<'v, 'a>(members: &'v Vec<(&'a str, Tree<'a>)>, key: &str) -> Option<&'v Tree<'a>>
    ensures { option_map (λ v. view v.now) result ≡ get_member key.now (members_view members.now.items) }
{
    let mut left = members.len();
    while left > 0 {
        left -= 1;
        let member = &members[left];
        if member.0 == key {
            return Some(&member.1);
        }
    }
    None
}

/// The text at a key, where this is an object that has one there.
pub fn text_at<'a>(tree: &Tree<'a>, key: &str) -> Option<&'a str>
    ensures { option_map (λ s. s.now) result ≡ text_at key.now (view tree.now) }
{
    tree.get(key)?.as_str()
}

/// The whole number at a key, where this is an object that has one there, not below 0.
pub fn whole_at(tree: &Tree<'_>, key: &str) -> Option<u64>
    ensures { result ≡ whole_at key.now (view tree.now) }
{
    tree.get(key)?.as_u64()
}

/// The list at a key, where this is an object that has one there.
pub fn array_at<'v, 'a>(tree: &'v Tree<'a>, key: &str) -> Option<&'v Vec<Tree<'a>>>
    ensures { option_map (λ v. items_view v.now.items) result ≡ array_at key.now (view tree.now) }
{
    tree.get(key)?.as_array()
}

/// The text at a key that may be missing, or None where something else is there.
pub fn optional_text<'a>(tree: &Tree<'a>, key: &str) -> Option<Option<&'a str>>
    ensures { option_map (λ o. option_map (λ s. s.now) o) result ≡ optional_text key.now (view tree.now) }
{
    match tree.get(key) {
        None => Some(None),
        Some(found) => found.as_str().map(Some),
    }
}

/// The list at a key that may be missing, or None where something else is there.
pub fn optional_array<'v, 'a>(tree: &'v Tree<'a>, key: &str) -> Option<Option<&'v Vec<Tree<'a>>>>
    ensures { option_map (λ o. option_map (λ v. items_view v.now.items) o) result ≡ optional_array key.now (view tree.now) }
{
    match tree.get(key) {
        None => Some(None),
        Some(found) => found.as_array().map(Some),
    }
}

/// The whole number at a key that may be missing, or None where something else is there.
pub fn optional_whole(tree: &Tree<'_>, key: &str) -> Option<Option<u64>>
    ensures { result ≡ optional_whole key.now (view tree.now) }
{
    match tree.get(key) {
        None => Some(None),
        Some(found) => found.as_u64().map(Some),
    }
}

pub(crate) fn is_among(key: &str, keys: &[&str]) -> bool
    ensures { result ≡ list_any (λ known. bytes_eq known.now key.now) keys.now }
{
    keys.contains(&key)
}

#[tactic(auto, using(crate::proofs::Keys::are_among_all_known))]
fn are_among(members: &[(&str, Tree<'_>)], keys: &[&str]) -> bool
    ensures { result ≡ are_among (map (λ k. k.now) keys.now) (members_view members.now) }
{
    for (key, _) in members {
        if !is_among(key, keys) {
            return false;
        }
    }
    true
}

/// Whether it is an object that has no keys but these.
pub fn has_only(tree: &Tree<'_>, keys: &[&str]) -> bool
    ensures { result ≡ has_only (map (λ k. k.now) keys.now) (view tree.now) }
{
    if let Tree::Object(members) = tree {
        are_among(members, keys)
    } else {
        false
    }
}
