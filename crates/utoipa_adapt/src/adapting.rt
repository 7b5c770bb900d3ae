//! Adapting and upgrading a tree: first what stands in it, then the tree itself.
ghost use Rattle.std.specs.Prelude.{◌≡◌, IfOk};
ghost use Rattle.serde_json.specs.View.{view, items_view, members_view};
ghost use Rattle.utoipa_adapt.specs.Adapted as specs;
ghost use Rattle.utoipa_adapt.specs.Views.{set_of};
ghost use Rattle.utoipa_tables.specs.Tables.{kind_of};

use crate::changing::by_rules;
use crate::kinds::{item_kind, member_kind, own_kind};
use crate::rules::{RuleSet, rules_in};
use serde_json::{Map, Value};
use std::alloc::{AllocError, Global};
use utoipa_tables::Kind;

/// The tree, adapted to be read as a document of a kind. Fails where memory runs out, and then the tree is given up.
pub fn adapt(alloc: Global, kind: Kind, tree: Value) -> Result<Value, AllocError>
    ensures { IfOk result (λ v. view v ≡ specs.adapted (kind_of kind) (view tree)) }
{
    adapt_tree(alloc, RuleSet::Model, kind, tree)
}

/// The tree of OpenAPI 3.0, upgraded to one of 3.1, as a document of a kind. Fails where memory runs out, and then the tree is given up.
///
/// The rules are those of a document of 3.0, whatever version a document names: what stands beside a `$ref` goes, which in 3.1 has a meaning.
pub fn upgrade(alloc: Global, kind: Kind, tree: Value) -> Result<Value, AllocError>
    ensures { IfOk result (λ v. view v ≡ specs.upgraded (kind_of kind) (view tree)) }
{
    adapt_tree(alloc, RuleSet::Upgrade, kind, tree)
}

/// What a set of rules makes of the tree of a kind. As `Any` it is left as it is.
#[cycle(adapt)]
fn adapt_tree(alloc: Global, set: RuleSet, kind: Kind, tree: Value) -> Result<Value, AllocError>
    ensures { IfOk result (λ v. view v ≡ specs.made (set_of set) (kind_of kind) (view tree)) }
{
    if matches!(kind, Kind::Any) {
        return Ok(tree);
    }
    let own = own_kind(set, kind, &tree);
    let rules = rules_in(set, own);
    match tree {
        Value::Array(items) => {
            let inner = Value::Array(adapt_items(alloc, set, item_kind(own), items)?);
            by_rules(alloc, rules, inner)
        }
        Value::Object(members) => {
            let inner = Value::Object(adapt_members(alloc, set, own, members)?);
            by_rules(alloc, rules, inner)
        }
        Value::Null => by_rules(alloc, rules, Value::Null),
        Value::Bool(flag) => by_rules(alloc, rules, Value::Bool(flag)),
        Value::Number(number) => by_rules(alloc, rules, Value::Number(number)),
        Value::String(text) => by_rules(alloc, rules, Value::String(text)),
    }
}

/// What the rules make of the items of an array, each of the kind.
#[cycle(adapt)]
fn adapt_items(
    alloc: Global,
    set: RuleSet,
    kind: Kind,
    items: Vec<Value>,
) -> Result<Vec<Value>, AllocError>
    ensures { IfOk result (λ v. items_view v.items
        ≡ specs.made_items (set_of set) (items_view items.items) (kind_of kind)) }
{
    let mut done = Vec::with_capacity(alloc, items.len())?;
    for item in items {
        done.push(adapt_tree(alloc, set, kind, item)?)?;
    }
    Ok(done)
}

/// What the rules make of the members of an object of the kind.
#[cycle(adapt)]
fn adapt_members(
    alloc: Global,
    set: RuleSet,
    kind: Kind,
    members: Map<String, Value>,
) -> Result<Map<String, Value>, AllocError>
    ensures { IfOk result (λ m. members_view m.entries
        ≡ specs.made_members (set_of set) (members_view members.entries) (kind_of kind)) }
{
    let mut done = Map::new(alloc);
    for (name, member) in members {
        let inner = adapt_tree(alloc, set, member_kind(kind, name.as_str()), member)?;
        drop(done.insert(name, inner)?);
    }
    Ok(done)
}
