//! What a document has to have so that it may decide slots.
ghost use Rattle.std.specs.Prelude.{◌≡◌, ◌++◌, ◌∷◌, [], codes, IfOk, IfSome, OnOk};
ghost use Rattle.serde_json.specs.Find.{get};
ghost use Rattle.serde_json.specs.View.{view, members_view};
ghost use Rattle.utoipa_base.specs.EachMember.{each_member};
ghost use Rattle.utoipa_conflicts.specs.Conflicts as specs;
ghost use Rattle.utoipa_conflicts.specs.Holders as lists;
ghost use Rattle.utoipa_conflicts.specs.Views.{holder_of, all_holders};

use serde_json::{Map, Value};
use std::alloc::{AllocError, Global};

/// What a document has to have so that it may decide slots.
#[derive(Clone, Copy, PartialEq, Eq, PartialOrd, Ord, Drop)]
pub(crate) enum Holder<'a> {
    /// The document itself.
    Document,
    /// The entry of this name in a map of components.
    Component(&'a str, &'a str),
    /// The entry of this name in `paths`: the item at a path, or an extension.
    PathEntry(&'a str),
    /// The member of this name of the item at a path, as an operation.
    ItemMember(&'a str, &'a str),
    /// The operation of this name in `additionalOperations` of the item at a path.
    AdditionalOperation(&'a str, &'a str),
}

/// The holders of a document.
type Holders<'a> = Vec<Holder<'a>>;

/// Adds the entries of a map of components. Fails where memory runs out.
fn push_map<'a>(
    holders: &mut Vec<Holder<'a>>,
    kind: &'a str,
    entries: &'a Map<String, Value>,
) -> Result<(), AllocError>
    ensures listed { OnOk result (all_holders holders.new.items ≡ all_holders holders.old.items
        ++ each_member (λ name e. specs.component kind.now name ∷ []) (members_view entries.now.entries)) }
    ensures apart { OnOk result (lists.AreApart (members_view entries.now.entries)) }
{
    for (name, _) in entries.iter() {
        holders.push(Holder::Component(kind, name.as_str()))?;
    }
    Ok(())
}

/// Adds the entries of a member of components, if it is a map. Fails where memory runs out.
fn push_kind<'a>(
    holders: &mut Vec<Holder<'a>>,
    kind: &'a str,
    member: &'a Value,
) -> Result<(), AllocError>
    ensures listed { OnOk result (all_holders holders.new.items
        ≡ all_holders holders.old.items ++ lists.component_holders kind.now (view member.now)) }
    ensures apart { OnOk result (lists.IsApart kind.now (view member.now)) }
{
    match member {
        Value::Object(entries) => push_map(holders, kind, entries),
        _ => Ok(()),
    }
}

/// Adds the entries of all maps of components. Fails where memory runs out.
fn push_components<'a>(
    holders: &mut Vec<Holder<'a>>,
    components: &'a Map<String, Value>,
) -> Result<(), AllocError>
    ensures listed { OnOk result (all_holders holders.new.items ≡ all_holders holders.old.items
        ++ each_member lists.component_holders (members_view components.now.entries)) }
    ensures apart { OnOk result (lists.AreApart (members_view components.now.entries)) }
    ensures members { OnOk result (lists.EachMember lists.IsApart (members_view components.now.entries)) }
{
    for (kind, member) in components.iter() {
        push_kind(holders, kind.as_str(), member)?;
    }
    Ok(())
}

/// Adds the entries of `additionalOperations` of the item at a path. Fails where memory runs out.
fn push_additional<'a>(
    holders: &mut Vec<Holder<'a>>,
    path: &'a str,
    entries: &'a Map<String, Value>,
) -> Result<(), AllocError>
    ensures listed { OnOk result (all_holders holders.new.items ≡ all_holders holders.old.items
        ++ each_member (λ name e. specs.additional_operation path.now name ∷ []) (members_view entries.now.entries)) }
    ensures apart { OnOk result (lists.AreApart (members_view entries.now.entries)) }
{
    for (name, _) in entries.iter() {
        holders.push(Holder::AdditionalOperation(path, name.as_str()))?;
    }
    Ok(())
}

/// Adds a member of the item at a path, and what it has. Fails where memory runs out.
fn push_member<'a>(
    holders: &mut Vec<Holder<'a>>,
    path: &'a str,
    name: &'a str,
    member: &'a Value,
) -> Result<(), AllocError>
    ensures listed { OnOk result (all_holders holders.new.items
        ≡ all_holders holders.old.items ++ lists.item_holders path.now name.now (view member.now)) }
    ensures apart { OnOk result (lists.IsMemberApart name.now (view member.now)) }
{
    holders.push(Holder::ItemMember(path, name))?;
    match member {
        Value::Object(entries) if name == "additionalOperations" => {
            push_additional(holders, path, entries)
        }
        _ => Ok(()),
    }
}

/// Adds all members of the item at a path. Fails where memory runs out.
fn push_members<'a>(
    holders: &mut Vec<Holder<'a>>,
    path: &'a str,
    item: &'a Map<String, Value>,
) -> Result<(), AllocError>
    ensures listed { OnOk result (all_holders holders.new.items ≡ all_holders holders.old.items
        ++ each_member (lists.item_holders path.now) (members_view item.now.entries)) }
    ensures apart { OnOk result (lists.AreApart (members_view item.now.entries)) }
    ensures members { OnOk result (lists.EachMember lists.IsMemberApart (members_view item.now.entries)) }
{
    for (name, member) in item.iter() {
        push_member(holders, path, name.as_str(), member)?;
    }
    Ok(())
}

/// Adds an entry of `paths`, and what it has. Fails where memory runs out.
fn push_entry<'a>(
    holders: &mut Vec<Holder<'a>>,
    path: &'a str,
    entry: &'a Value,
) -> Result<(), AllocError>
    ensures listed { OnOk result (all_holders holders.new.items
        ≡ all_holders holders.old.items ++ lists.path_holders path.now (view entry.now)) }
    ensures apart { OnOk result (lists.IsItemApart path.now (view entry.now)) }
{
    holders.push(Holder::PathEntry(path))?;
    match entry {
        Value::Object(item) => push_members(holders, path, item),
        _ => Ok(()),
    }
}

/// Adds all entries of `paths`. Fails where memory runs out.
fn push_paths<'a>(
    holders: &mut Vec<Holder<'a>>,
    paths: &'a Map<String, Value>,
) -> Result<(), AllocError>
    ensures listed { OnOk result (all_holders holders.new.items ≡ all_holders holders.old.items
        ++ each_member lists.path_holders (members_view paths.now.entries)) }
    ensures apart { OnOk result (lists.AreApart (members_view paths.now.entries)) }
    ensures items { OnOk result (lists.EachMember lists.IsItemApart (members_view paths.now.entries)) }
{
    for (path, entry) in paths.iter() {
        push_entry(holders, path.as_str(), entry)?;
    }
    Ok(())
}

/// Adds the entries of a document's components, if it has any. Fails where memory runs out.
fn push_components_of<'a>(
    holders: &mut Vec<Holder<'a>>,
    document: &'a Value,
) -> Result<(), AllocError>
    ensures listed { OnOk result (all_holders holders.new.items ≡ all_holders holders.old.items
        ++ lists.holders_at lists.component_holders (get (codes "components") (view document.now))) }
    ensures apart { OnOk result (IfSome (get (codes "components") (view document.now)) lists.AreComponentsApart) }
{
    match document.get("components") {
        Some(components) => match components {
            Value::Object(members) => push_components(holders, members),
            _ => Ok(()),
        },
        None => Ok(()),
    }
}

/// Adds the entries of a document's `paths`, if it has any. Fails where memory runs out.
fn push_paths_of<'a>(holders: &mut Vec<Holder<'a>>, document: &'a Value) -> Result<(), AllocError>
    ensures listed { OnOk result (all_holders holders.new.items ≡ all_holders holders.old.items
        ++ lists.holders_at lists.path_holders (get (codes "paths") (view document.now))) }
    ensures apart { OnOk result (IfSome (get (codes "paths") (view document.now)) lists.ArePathsApart) }
{
    match document.get("paths") {
        Some(paths) => match paths {
            Value::Object(entries) => push_paths(holders, entries),
            _ => Ok(()),
        },
        None => Ok(()),
    }
}

/// The holders of a document. Fails where memory runs out.
pub(crate) fn holders<'a>(alloc: Global, document: &'a Value) -> Result<Holders<'a>, AllocError>
    ensures listed { IfOk result (λ v. (h : specs.Holder) → lists.is_among h (all_holders v.items)
        ≡ specs.has h (view document.now)) }
    ensures apart { IfOk result (λ _. lists.IsApartWithin (view document.now)) }
{
    let mut holders = Vec::new(alloc);
    holders.push(Holder::Document)?;
    push_components_of(&mut holders, document)?;
    push_paths_of(&mut holders, document)?;
    Ok(holders)
}
