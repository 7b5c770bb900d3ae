//! The slots of a document, each with what the document has there.
ghost use Rattle.std.specs.Prelude.{◌≡◌, ◌++◌, IfOk, OnOk, [], option_map};
ghost use Rattle.serde_json.specs.View.{view, members_view};
ghost use Rattle.utoipa_base.specs.EachMember.{each_member};
ghost use Rattle.utoipa_check.specs.Places.{members_at};
ghost use Rattle.utoipa_conflicts.specs.Conflicts as specs;
ghost use Rattle.utoipa_conflicts.specs.Holders.{AreApart};
ghost use Rattle.utoipa_conflicts.specs.Views.{slot_of, filled_of, all_filled};

use serde_json::{Map, Value};
use std::alloc::{AllocError, Global};
use utoipa_base::is_extension_name;

/// A place of a document that one of the documents decides.
#[derive(Clone, Copy, Drop)]
pub(crate) enum Slot<'a> {
    /// A member of the document itself.
    DocumentMember(&'a str),
    /// An entry of a map of components, by the names of both.
    ComponentEntry(&'a str, &'a str),
    /// An extension of components.
    ComponentsExtension(&'a str),
    /// An extension of `paths`.
    PathsExtension(&'a str),
    /// The operation of a method at a path.
    Operation(&'a str, &'a str),
    /// The operation of this name in `additionalOperations` at a path.
    NamedOperation(&'a str, &'a str),
    /// A member of the item at a path that is no operation.
    BaseMember(&'a str, &'a str),
}

/// A slot with what a document has there.
#[derive(Clone, Copy, Drop)]
pub(crate) struct Filled<'a> {
    pub(crate) slot: Slot<'a>,
    pub(crate) value: &'a Value,
}

/// The slots of a document.
type Slots<'a> = Vec<Filled<'a>>;

/// Whether the lists at a member of a document are joined.
fn is_joined(name: &str) -> bool
    ensures { result ≡ specs.is_joined name.now }
{
    matches!(name, "servers" | "security" | "tags")
}

/// Whether a member of a path item is an operation.
fn is_method(name: &str) -> bool
    ensures { result ≡ specs.is_method name.now }
{
    match name {
        "get" | "put" | "post" | "delete" | "options" | "head" | "patch" | "trace" | "query" =>
            true,
        _ => false,
    }
}

/// Adds a slot. Fails where memory runs out.
fn push_slot<'a>(
    slots: &mut Vec<Filled<'a>>,
    slot: Slot<'a>,
    value: &'a Value,
) -> Result<(), AllocError>
    ensures { OnOk result (all_filled slots.new.items
        ≡ all_filled slots.old.items ++ specs.one_slot (slot_of slot.entry) (view value.now)) }
{
    slots.push(Filled { slot, value })?;
    Ok(())
}

/// Adds the entries of a map of components. Fails where memory runs out.
fn push_component_entries<'a>(
    slots: &mut Vec<Filled<'a>>,
    kind: &'a str,
    entries: &'a Map<String, Value>,
) -> Result<(), AllocError>
    ensures { OnOk result (all_filled slots.new.items ≡ all_filled slots.old.items
        ++ each_member (λ name e. specs.one_slot (specs.component_entry kind.now name) e) (members_view entries.now.entries)) }
{
    for (name, entry) in entries.iter() {
        push_slot(slots, Slot::ComponentEntry(kind, name.as_str()), entry)?;
    }
    Ok(())
}

/// Adds the slots of a member of components. Fails where memory runs out.
fn push_component_slots<'a>(
    slots: &mut Vec<Filled<'a>>,
    kind: &'a str,
    member: &'a Value,
) -> Result<(), AllocError>
    ensures { OnOk result (all_filled slots.new.items
        ≡ all_filled slots.old.items ++ specs.component_slots kind.now (view member.now)) }
{
    if is_extension_name(kind) {
        return push_slot(slots, Slot::ComponentsExtension(kind), member);
    }
    match member {
        Value::Object(entries) => push_component_entries(slots, kind, entries),
        _ => Ok(()),
    }
}

/// Adds the slots of components. Fails where memory runs out.
fn push_components_slots<'a>(
    slots: &mut Vec<Filled<'a>>,
    components: &'a Map<String, Value>,
) -> Result<(), AllocError>
    ensures { OnOk result (all_filled slots.new.items
        ≡ all_filled slots.old.items ++ each_member specs.component_slots (members_view components.now.entries)) }
{
    for (kind, member) in components.iter() {
        push_component_slots(slots, kind.as_str(), member)?;
    }
    Ok(())
}

/// Adds the entries of `additionalOperations` of the item at a path. Fails where memory runs out.
fn push_named_operations<'a>(
    slots: &mut Vec<Filled<'a>>,
    path: &'a str,
    entries: &'a Map<String, Value>,
) -> Result<(), AllocError>
    ensures { OnOk result (all_filled slots.new.items ≡ all_filled slots.old.items
        ++ each_member (λ name e. specs.one_slot (specs.named_operation path.now name) e) (members_view entries.now.entries)) }
{
    for (name, entry) in entries.iter() {
        push_slot(slots, Slot::NamedOperation(path, name.as_str()), entry)?;
    }
    Ok(())
}

/// Adds the slots of a member of the item at a path. Fails where memory runs out.
fn push_item_slots<'a>(
    slots: &mut Vec<Filled<'a>>,
    path: &'a str,
    name: &'a str,
    member: &'a Value,
) -> Result<(), AllocError>
    ensures { OnOk result (all_filled slots.new.items
        ≡ all_filled slots.old.items ++ specs.item_slots path.now name.now (view member.now)) }
{
    if is_method(name) {
        return push_slot(slots, Slot::Operation(path, name), member);
    }
    if name != "additionalOperations" {
        return push_slot(slots, Slot::BaseMember(path, name), member);
    }
    match member {
        Value::Object(entries) => push_named_operations(slots, path, entries),
        _ => Ok(()),
    }
}

/// Adds the slots of the item at a path. Fails where memory runs out.
fn push_whole_item_slots<'a>(
    slots: &mut Vec<Filled<'a>>,
    path: &'a str,
    item: &'a Map<String, Value>,
) -> Result<(), AllocError>
    ensures { OnOk result (all_filled slots.new.items
        ≡ all_filled slots.old.items ++ each_member (specs.item_slots path.now) (members_view item.now.entries)) }
{
    for (name, member) in item.iter() {
        push_item_slots(slots, path, name.as_str(), member)?;
    }
    Ok(())
}

/// Adds the slots of an entry of `paths`. Fails where memory runs out.
fn push_path_slots<'a>(
    slots: &mut Vec<Filled<'a>>,
    path: &'a str,
    entry: &'a Value,
) -> Result<(), AllocError>
    ensures { OnOk result (all_filled slots.new.items
        ≡ all_filled slots.old.items ++ specs.path_slots path.now (view entry.now)) }
{
    if is_extension_name(path) {
        return push_slot(slots, Slot::PathsExtension(path), entry);
    }
    match entry {
        Value::Object(item) => push_whole_item_slots(slots, path, item),
        _ => Ok(()),
    }
}

/// Adds the slots of `paths`. Fails where memory runs out.
fn push_paths_slots<'a>(
    slots: &mut Vec<Filled<'a>>,
    paths: &'a Map<String, Value>,
) -> Result<(), AllocError>
    ensures { OnOk result (all_filled slots.new.items
        ≡ all_filled slots.old.items ++ each_member specs.path_slots (members_view paths.now.entries)) }
{
    for (path, entry) in paths.iter() {
        push_path_slots(slots, path.as_str(), entry)?;
    }
    Ok(())
}

/// Adds the slots of a member of a document. Fails where memory runs out.
fn push_member_slots<'a>(
    slots: &mut Vec<Filled<'a>>,
    name: &'a str,
    member: &'a Value,
) -> Result<(), AllocError>
    ensures { OnOk result (all_filled slots.new.items
        ≡ all_filled slots.old.items ++ specs.member_slots name.now (view member.now)) }
{
    if is_joined(name) {
        return Ok(());
    }
    if name != "paths" && name != "components" {
        return push_slot(slots, Slot::DocumentMember(name), member);
    }
    match member {
        Value::Object(paths) if name == "paths" => push_paths_slots(slots, paths),
        Value::Object(components) => push_components_slots(slots, components),
        _ => Ok(()),
    }
}

/// Adds the slots of all members of a document. Fails where memory runs out.
fn push_all_slots<'a>(
    slots: &mut Vec<Filled<'a>>,
    members: &'a Map<String, Value>,
) -> Result<(), AllocError>
    ensures listed { OnOk result (all_filled slots.new.items
        ≡ all_filled slots.old.items ++ each_member specs.member_slots (members_view members.now.entries)) }
    ensures apart { OnOk result (AreApart (members_view members.now.entries)) }
{
    for (name, member) in members.iter() {
        push_member_slots(slots, name.as_str(), member)?;
    }
    Ok(())
}

/// Adds the slots of a document. Fails where memory runs out.
fn push_document_slots<'a>(
    slots: &mut Vec<Filled<'a>>,
    document: &'a Value,
) -> Result<(), AllocError>
    ensures listed { OnOk result (all_filled slots.new.items
        ≡ all_filled slots.old.items ++ specs.slots (view document.now)) }
    ensures apart { OnOk result (AreApart (members_at (view document.now))) }
{
    match document {
        Value::Object(members) => push_all_slots(slots, members),
        _ => Ok(()),
    }
}

/// The slots of a document, in the order of its members. Fails where memory runs out.
pub(crate) fn slots<'a>(alloc: Global, document: &'a Value) -> Result<Slots<'a>, AllocError>
    ensures listed { IfOk result (λ v. all_filled v.items ≡ specs.slots (view document.now)) }
    ensures apart { IfOk result (λ _. AreApart (members_at (view document.now))) }
{
    let mut slots = Vec::new(alloc);
    push_document_slots(&mut slots, document)?;
    Ok(slots)
}
