//! Which rule a tenants line breaks.
ghost use Rattle.std.specs.Prelude.{◌≡◌, ◌<◌, length, codes, IfSome};
ghost use Rattle.serde_json.specs.View.{view, items_view};
ghost use Rattle.cql_tenants.specs.Tenants.{is_within};
ghost use Rattle.cql_lines.specs.Tree.{text_at, whole_at};
ghost use Rattle.cql_asked.specs.Rules.{word_of, is_number, is_key, is_named, key_passes, number_rule, keys_rule, rule_of_tenant, rules_from, has_name, named_from, twin_of, twins_from, rule_of_items, rule_of_tree};

use crate::tenants::TENANT_KEYS;
use cql_lines::values::{array_at, has_only, text_at, whole_at};
use cql_value::name::is_name;
use serde_json::Value as Json;
use std::fmt;
use thiserror::Error;

/// A key of a tenant in a tenants line.
#[derive(Clone, Copy)]
pub enum TenantKey {
    Hold,
    Key,
    Name,
    Queries,
    Result,
    Streams,
}

impl fmt::Display for TenantKey {
    fn fmt<W: fmt::Write>(&self, f: &mut fmt::Formatter<W>) -> fmt::Result {
        f.write_str(self.word())
    }
}

impl TenantKey {
    // The key as it is written.
    fn word(self) -> &'static str
        ensures { result.now ≡ word_of self }
    {
        match self {
            TenantKey::Hold => "hold",
            TenantKey::Key => "key",
            TenantKey::Name => "name",
            TenantKey::Queries => "queries",
            TenantKey::Result => "result",
            TenantKey::Streams => "streams",
        }
    }

    // What stands at the key of a right line.
    fn wanted(self) -> &'static str {
        match self {
            TenantKey::Hold | TenantKey::Result => "whole number from 1 to 65536",
            TenantKey::Queries | TenantKey::Streams => "whole number from 0 to 64",
            TenantKey::Key => "text of 1 to 64 bytes",
            TenantKey::Name => {
                "name: a letter or _, then up to 31 letters, digits or _, and no word of the language"
            }
        }
    }
}

/// The rule of a tenants line that one of its tenants breaks. Tenants count from 1. Nothing of what
/// stands at a key is told.
#[derive(Clone, Copy, Error)]
pub enum TenantRule {
    /// It is an object.
    #[error("it is no object")]
    IsObject,
    /// It has no key but the six.
    #[error("it has another key than hold, key, name, queries, result and streams")]
    NoOtherKey,
    /// It has each of the six keys.
    #[error("{0} is missing")]
    Has(TenantKey),
    /// What stands at a key is of its kind, and in its range.
    #[error("{0} is no {wanted}", wanted = .0.wanted())]
    InRange(TenantKey),
    /// No tenant before it, here that of the number, has its name.
    #[error("its name is that of tenant {0}")]
    OwnName(usize),
}

/// The first rule that a tenants line breaks, in this order; of tenants that of the first who breaks
/// one, but for names that are the same, which are looked for last. Tenants count from 1, columns and
/// lines too.
#[derive(Clone, Copy, Error)]
pub enum BrokenRule {
    /// It has at most so many bytes.
    #[error("it has more than {0} bytes")]
    Length(usize),
    /// It is JSON: it isn't there.
    #[error("it is no JSON at line {line}, column {column}")]
    Json { line: usize, column: usize },
    /// It is an object that has no key but `tenants`.
    #[error("it is no object with the one key tenants")]
    OneKey,
    /// There stands a list of 1 to 256.
    #[error("tenants is no list of 1 to 256")]
    List,
    /// The tenant of a number is one.
    #[error("tenant {number}: {rule}")]
    Tenant { number: usize, rule: TenantRule },
}

// What debugs a rule reads what it tells.
impl fmt::Debug for TenantRule {
    fn fmt<W: fmt::Write>(&self, f: &mut fmt::Formatter<W>) -> fmt::Result {
        fmt::Display::fmt(self, f)
    }
}

impl fmt::Debug for BrokenRule {
    fn fmt<W: fmt::Write>(&self, f: &mut fmt::Formatter<W>) -> fmt::Result {
        fmt::Display::fmt(self, f)
    }
}

fn is_within(low: u64, high: u64, n: u64) -> bool
    ensures { result ≡ is_within low high n }
{
    low <= n && n <= high
}

// Whether a whole number of the range stands at the key.
fn is_number(tree: &Json, key: &str, low: u64, high: u64) -> bool
    ensures { result ≡ is_number low high (whole_at key.now (view tree.now)) }
{
    match whole_at(tree, key) {
        Some(n) => is_within(low, high, n),
        None => false,
    }
}

// Whether a key of a login stands at its key.
fn is_key(tree: &Json) -> bool
    ensures { result ≡ is_key (text_at (codes "key") (view tree.now)) }
{
    match text_at(tree, "key") {
        Some(key) => is_within(1, 64, key.len() as u64),
        None => false,
    }
}

// Whether a name stands at its key.
fn is_named(tree: &Json) -> bool
    ensures { result ≡ is_named (text_at (codes "name") (view tree.now)) }
{
    match text_at(tree, "name") {
        Some(name) => is_name(name),
        None => false,
    }
}

// The rule of a key that what stands there breaks, unless it passes.
fn key_passes(tree: &Json, key: TenantKey, passes: bool) -> Option<TenantRule>
    ensures { result ≡ key_passes key (view tree.now) passes }
{
    if tree.get(key.word()).is_none() {
        return Some(TenantRule::Has(key));
    }
    if passes {
        None
    } else {
        Some(TenantRule::InRange(key))
    }
}

fn number_rule(tree: &Json, key: TenantKey, low: u64, high: u64) -> Option<TenantRule>
    ensures { result ≡ number_rule key low high (view tree.now) }
{
    key_passes(tree, key, is_number(tree, key.word(), low, high))
}

// The first rule of the six keys.
fn keys_rule(tree: &Json) -> Option<TenantRule>
    ensures { result ≡ keys_rule (view tree.now) }
{
    number_rule(tree, TenantKey::Hold, 1, 65536)
        .or(key_passes(tree, TenantKey::Key, is_key(tree)))
        .or(key_passes(tree, TenantKey::Name, is_named(tree)))
        .or(number_rule(tree, TenantKey::Queries, 0, 64))
        .or(number_rule(tree, TenantKey::Result, 1, 65536))
        .or(number_rule(tree, TenantKey::Streams, 0, 64))
}

fn rule_of_tenant(tree: &Json) -> Option<TenantRule>
    ensures { result ≡ rule_of_tenant (view tree.now) }
{
    if tree.as_object().is_none() {
        return Some(TenantRule::IsObject);
    }
    if !has_only(tree, TENANT_KEYS) {
        return Some(TenantRule::NoOtherKey);
    }
    keys_rule(tree)
}

// The rule of the first tenant who breaks one by itself.
fn first_rule(items: &[Json]) -> Option<BrokenRule>
    ensures { result ≡ rules_from 0 (items_view items.now) }
{
    for (at, item) in items.iter().enumerate() {
        if let Some(rule) = rule_of_tenant(item) {
            return Some(BrokenRule::Tenant {
                number: at + 1,
                rule,
            });
        }
    }
    None
}

fn has_name(item: &Json, name: &str) -> bool
    ensures { result ≡ has_name name.now (view item.now) }
{
    match text_at(item, "name") {
        Some(other) => name == other,
        None => false,
    }
}

// The index of the first that has the name.
fn named(items: &[Json], name: &str) -> Option<usize>
    ensures value { result ≡ named_from 0 name.now (items_view items.now) }
    ensures within { IfSome result (λ at. at < length items.now) }
{
    for (at, item) in items.iter().enumerate() {
        if has_name(item, name) {
            return Some(at);
        }
    }
    None
}

// The index of the first of these that has the tenant's name.
fn twin_of(item: &Json, later: &[Json]) -> Option<usize>
    ensures value { result ≡ twin_of (view item.now) (items_view later.now) }
    ensures within { IfSome result (λ at. at < length later.now) }
{
    match text_at(item, "name") {
        Some(name) => named(later, name),
        None => None,
    }
}

// The rule that two of one name break.
fn twin_rule(items: &[Json]) -> Option<BrokenRule>
    ensures { result ≡ twins_from 0 (items_view items.now) }
{
    for (at, item) in items.iter().enumerate() {
        if let Some(twin) = twin_of(item, &items[at + 1..]) {
            return Some(BrokenRule::Tenant {
                number: at + twin + 2,
                rule: TenantRule::OwnName(at + 1),
            });
        }
    }
    None
}

#[tactic(auto, using(crate::proofs::Ruling::items_len_view))]
fn rule_of_items(items: &[Json]) -> Option<BrokenRule>
    ensures { result ≡ rule_of_items (items_view items.now) }
{
    if !is_within(1, 256, items.len() as u64) {
        return Some(BrokenRule::List);
    }
    first_rule(items).or(twin_rule(items))
}

// The first rule that the tree of a line breaks, if it does.
pub(crate) fn rule_of_tree(tree: &Json) -> Option<BrokenRule>
    ensures { result ≡ rule_of_tree (view tree.now) }
{
    if !has_only(tree, &["tenants"]) {
        return Some(BrokenRule::OneKey);
    }
    match array_at(tree, "tenants") {
        Some(items) => rule_of_items(items.as_slice()),
        None => Some(BrokenRule::List),
    }
}
