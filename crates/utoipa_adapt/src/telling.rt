//! What is adapted or upgraded in a tree, and where.
ghost use Rattle.std.specs.Prelude.{◌≡◌, ◌++◌, IfOk, OnOk};
ghost use Rattle.serde_json.specs.View.{view, items_view, members_view};
ghost use Rattle.utoipa_adapt.specs.Adapted as specs;
ghost use Rattle.utoipa_adapt.specs.Views.{set_of, all_rules, all_told};
ghost use Rattle.utoipa_check.specs.Views.{step_of};
ghost use Rattle.utoipa_tables.specs.Tables.{kind_of};

use crate::kinds::{item_kind, member_kind, own_kind};
use crate::rules::{Rule, RuleSet, rules_in};
use serde_json::{Map, Value};
use std::alloc::{AllocError, Global};
use utoipa_check::{Pointer, Step};
use utoipa_tables::Kind;

/// A place of a tree, and the rule that changes the tree there.
#[derive(Drop)]
pub struct AdaptedPlace<'a> {
    /// The place, in the tree as it was.
    pub pointer: Pointer<'a>,
    /// The rule.
    pub rule: Rule,
}

/// Adds what was changed in a tree, by the places of the tree that it stands in. Fails where memory runs out.
fn put_under<'a>(
    step: Step<'a>,
    inner: Vec<AdaptedPlace<'a>>,
    told: &mut Vec<AdaptedPlace<'a>>,
) -> Result<(), AllocError>
    ensures { OnOk result (all_told told.new.items
        ≡ all_told told.old.items ++ specs.under (step_of step.entry) (all_told inner.entry.items)) }
{
    for mut place in inner {
        place.pointer.steps.push(step)?;
        told.push(place)?;
    }
    Ok(())
}

/// Adds the rules that change a tree. Fails where memory runs out.
fn put_here(
    alloc: Global,
    rules: &[Rule],
    tree: &Value,
    told: &mut Vec<AdaptedPlace<'_>>,
) -> Result<(), AllocError>
    ensures { OnOk result (all_told told.new.items
        ≡ all_told told.old.items ++ specs.told_here (all_rules rules.now) (view tree.now)) }
{
    for rule in rules {
        if rule.applies(tree) {
            told.push(AdaptedPlace {
                pointer: Pointer {
                    steps: Vec::new(alloc),
                },
                rule: *rule,
            })?;
        }
    }
    Ok(())
}

/// All that is adapted in a tree of a kind, with its places. What changes a tree itself comes after what changes the trees in it.
///
/// Where the list is empty, the adapted tree is the tree itself. Fails where memory runs out.
pub fn adaptations<'a>(
    alloc: Global,
    kind: Kind,
    tree: &'a Value,
) -> Result<Vec<AdaptedPlace<'a>>, AllocError>
    ensures { IfOk result
        (λ v. all_told v.items ≡ specs.adaptations (kind_of kind) (view tree.now)) }
{
    told_of_tree(alloc, RuleSet::Model, kind, tree)
}

/// All that is upgraded in a tree of OpenAPI 3.0, with its places. What changes a tree itself comes after what changes the trees in it.
///
/// Where the list is empty, the upgraded tree is the tree itself. Fails where memory runs out.
pub fn upgrades<'a>(
    alloc: Global,
    kind: Kind,
    tree: &'a Value,
) -> Result<Vec<AdaptedPlace<'a>>, AllocError>
    ensures { IfOk result (λ v. all_told v.items ≡ specs.upgrades (kind_of kind) (view tree.now)) }
{
    told_of_tree(alloc, RuleSet::Upgrade, kind, tree)
}

/// What a set of rules changes in a tree of a kind: in one that is left as it is, nothing.
#[cycle(told)]
fn told_of_tree<'a>(
    alloc: Global,
    set: RuleSet,
    kind: Kind,
    tree: &'a Value,
) -> Result<Vec<AdaptedPlace<'a>>, AllocError>
    ensures { IfOk result
        (λ v. all_told v.items ≡ specs.changes (set_of set) (kind_of kind) (view tree.now)) }
{
    if matches!(kind, Kind::Any) {
        return Ok(Vec::new(alloc));
    }
    let own = own_kind(set, kind, tree);
    let mut told = match tree {
        Value::Array(items) => told_of_items(alloc, set, item_kind(own), items)?,
        Value::Object(members) => told_of_members(alloc, set, own, members)?,
        Value::Null | Value::Bool(_) | Value::Number(_) | Value::String(_) => Vec::new(alloc),
    };
    put_here(alloc, rules_in(set, own), tree, &mut told)?;
    Ok(told)
}

/// What is changed in the items of an array, each of the kind.
#[cycle(told)]
fn told_of_items<'a>(
    alloc: Global,
    set: RuleSet,
    kind: Kind,
    items: &'a Vec<Value>,
) -> Result<Vec<AdaptedPlace<'a>>, AllocError>
    ensures { IfOk result (λ v. all_told v.items
        ≡ specs.items_told (set_of set) 0 (items_view items.now.items) (kind_of kind)) }
{
    let mut told = Vec::new(alloc);
    let mut index: usize = 0;
    for item in items {
        let inner = told_of_tree(alloc, set, kind, item)?;
        put_under(Step::Index(index), inner, &mut told)?;
        index += 1;
    }
    Ok(told)
}

/// What is changed in the members of an object of the kind.
#[cycle(told)]
fn told_of_members<'a>(
    alloc: Global,
    set: RuleSet,
    kind: Kind,
    members: &'a Map<String, Value>,
) -> Result<Vec<AdaptedPlace<'a>>, AllocError>
    ensures { IfOk result (λ v. all_told v.items
        ≡ specs.members_told (set_of set) (members_view members.now.entries) (kind_of kind)) }
{
    let mut told = Vec::new(alloc);
    for (name, member) in members.iter() {
        let name = name.as_str();
        let inner = told_of_tree(alloc, set, member_kind(kind, name), member)?;
        put_under(Step::Name(name), inner, &mut told)?;
    }
    Ok(told)
}
