//! What a tree becomes by each rule. Its parts are moved into the new one.
ghost use Rattle.std.specs.Prelude.{◌≡◌, ◌++◌, codes, IfOk};
ghost use Rattle.std.specs.Str.{str_to_ascii_lowercase};
ghost use Rattle.serde_json.specs.Data.{object, no_members};
ghost use Rattle.serde_json.specs.View.{view};
ghost use Rattle.utoipa_adapt.specs.Rules as specs;
ghost use Rattle.utoipa_adapt.specs.Trees.{with_member, with_text};
ghost use Rattle.utoipa_adapt.specs.Views.{rule_of, all_rules};

use crate::editing::{
    listed, moved, null_in_enum, nullable_reference, nullable_type, only_member, replaced,
    taken_away, with_member,
};
use crate::rules::Rule;
use serde_json::{Map, Value};
use std::alloc::{AllocError, Global};

/// The tree after some rules, one after the other. Fails where memory runs out, and then the tree is given up.
pub(crate) fn by_rules(alloc: Global, rules: &[Rule], tree: Value) -> Result<Value, AllocError>
    ensures { IfOk result (λ v. view v ≡ specs.by_rules (all_rules rules.now) (view tree)) }
{
    let mut done = tree;
    for rule in rules {
        done = by_rule(alloc, *rule, done)?;
    }
    Ok(done)
}

/// The tree after a rule.
fn by_rule(alloc: Global, rule: Rule, tree: Value) -> Result<Value, AllocError>
    ensures { IfOk result (λ v. view v ≡ specs.by_rule (rule_of rule) (view tree)) }
{
    if rule.applies(&tree) {
        changed(alloc, rule, tree)
    } else {
        Ok(tree)
    }
}

/// The media type of any sequence of octets.
const OCTETS: &str = "application/octet-stream";

/// What a tree becomes by a rule that applies to it.
fn changed(alloc: Global, rule: Rule, tree: Value) -> Result<Value, AllocError>
    ensures { IfOk result (λ v. view v ≡ specs.changed (rule_of rule) (view tree)) }
{
    match rule {
        Rule::PathsAbsent => with_empty(alloc, "paths", tree),
        Rule::ResponsesAbsent => with_empty(alloc, "responses", tree),
        Rule::RequiredAbsent => with_member(alloc, "required", Value::Bool(false), tree),
        Rule::VersionOfTwo => with_third_number(tree),
        Rule::SchemeInOtherCase => in_lower_case(alloc, tree),
        Rule::SchemaTrue => Ok(Value::Object(Map::new(alloc))),
        Rule::ConstAlone => listed(alloc, "const", "enum", tree),
        Rule::ItemsAbsent => with_empty(alloc, "items", tree),
        Rule::VersionOf30 => as_3_1(alloc, tree),
        Rule::BesideReference => only_member(alloc, "$ref", tree),
        Rule::BinaryFormat => replaced(alloc, "format", "contentMediaType", OCTETS, tree),
        Rule::ByteFormat => replaced(alloc, "format", "contentEncoding", "base64", tree),
        Rule::ExclusiveMinimum => moved(alloc, "minimum", "exclusiveMinimum", tree),
        Rule::IdleExclusiveMinimum => Ok(taken_away("exclusiveMinimum", tree)),
        Rule::ExclusiveMaximum => moved(alloc, "maximum", "exclusiveMaximum", tree),
        Rule::IdleExclusiveMaximum => Ok(taken_away("exclusiveMaximum", tree)),
        Rule::SchemaExample => listed(alloc, "example", "examples", tree),
        Rule::NullInEnum => null_in_enum(alloc, tree),
        Rule::NullableType => nullable_type(alloc, tree),
        Rule::NullableReference => nullable_reference(alloc, tree),
        Rule::IdleNullable => Ok(taken_away("nullable", tree)),
    }
}

/// An object with an empty object as the member; any other tree stays.
fn with_empty(alloc: Global, name: &str, tree: Value) -> Result<Value, AllocError>
    ensures { IfOk result (λ v. view v ≡ with_member name.now (object no_members) (view tree)) }
{
    with_member(alloc, name, Value::Object(Map::new(alloc)), tree)
}

/// A version with the third number 0; any other tree stays.
fn with_third_number(tree: Value) -> Result<Value, AllocError>
    ensures { IfOk result (λ v. view v ≡ with_text (λ s. s ++ codes ".0") (view tree)) }
{
    match tree {
        Value::String(version) => {
            let mut whole = version;
            whole.push_str(".0")?;
            Ok(Value::String(whole))
        }
        other => Ok(other),
    }
}

/// A text in lower case; any other tree stays.
fn in_lower_case(alloc: Global, tree: Value) -> Result<Value, AllocError>
    ensures { IfOk result (λ v. view v ≡ with_text str_to_ascii_lowercase (view tree)) }
{
    match tree {
        Value::String(text) => Ok(Value::String(text.to_ascii_lowercase(alloc)?)),
        other => Ok(other),
    }
}

/// The version 3.1 in place of one; any other tree stays.
fn as_3_1(alloc: Global, tree: Value) -> Result<Value, AllocError>
    ensures { IfOk result (λ v. view v ≡ with_text (λ s. codes "3.1.0") (view tree)) }
{
    match tree {
        Value::String(_) => Ok(Value::String(String::from_str(alloc, "3.1.0")?)),
        other => Ok(other),
    }
}
