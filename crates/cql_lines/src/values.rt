//! A line as serde_json's tree, for logins and tables of tenants, and what stands at the keys of an
//! object.
ghost use Rattle.std.specs.Prelude.{◌≡◌, map, option_map, IfOk};
ghost use Rattle.serde_json.specs.View.{view, items_view, members_view};
ghost use Rattle.cql_lines.specs.Tree.{tree_of, text_at, whole_at, array_at, are_among, has_only};

use crate::tree::is_among;
use serde_json::{Map, Value};
use std::alloc::{AllocError, Global};

/// The tree of a line, or None where the line isn't UTF-8 or no JSON.
pub fn read_value(alloc: Global, line: &[u8]) -> Result<Option<Value>, AllocError>
    ensures { IfOk result (λ tree. option_map view tree ≡ tree_of line.now) }
{
    match Value::from_slice(alloc, line) {
        Ok(tree) => Ok(Some(tree)),
        Err(error) if error.is_memory() => Err(AllocError),
        Err(_) => Ok(None),
    }
}

/// The text at a key, where this is an object that has one there.
pub fn text_at<'v>(value: &'v Value, key: &str) -> Option<&'v str>
    ensures { option_map (λ s. s.now) result ≡ text_at key.now (view value.now) }
{
    value.get(key)?.as_str()
}

/// The whole number at a key, where this is an object that has one there, not below 0.
pub fn whole_at(value: &Value, key: &str) -> Option<u64>
    ensures { result ≡ whole_at key.now (view value.now) }
{
    value.get(key)?.as_u64()
}

/// The list at a key, where this is an object that has one there.
pub fn array_at<'v>(value: &'v Value, key: &str) -> Option<&'v Vec<Value>>
    ensures { option_map (λ v. items_view v.now.items) result ≡ array_at key.now (view value.now) }
{
    value.get(key)?.as_array()
}

fn are_among(members: &Map<String, Value>, keys: &[&str]) -> bool
    ensures { result ≡ are_among (map (λ k. k.now) keys.now) (members_view members.now.entries) }
{
    for (key, _) in members.iter() {
        if !is_among(key.as_str(), keys) {
            return false;
        }
    }
    true
}

/// Whether it is an object that has no keys but these.
pub fn has_only(value: &Value, keys: &[&str]) -> bool
    ensures { result ≡ has_only (map (λ k. k.now) keys.now) (view value.now) }
{
    match value.as_object() {
        Some(members) => are_among(members, keys),
        None => false,
    }
}
