//! The places of schemas in a tree, and the walk that finds them.
//!
//! A place is a tree that may be a schema. A schema has inner places at its members that hold schemas. Null and a boolean are
//! no place at a member that holds one, since neither is a schema.
ghost use Rattle.std.specs.Prelude.{◌≡◌, ◌≤◌, ◌++◌, [], IfOk, OnOk, length};
ghost use Rattle.serde_json.specs.View.{view};
ghost use Rattle.utoipa_schema.specs.Places.{places, elements, entries, alone, part, found, data_of, of_combinations, of_array, of_object, of_each, total, Walked};

use crate::inner_members::{InnerMembers, find_members};
use serde_json::Value;
use std::alloc::{AllocError, Global};

/// How a place stands in the member that holds it.
#[derive(Drop)]
pub(crate) enum Standing<'a> {
    /// It is the member.
    Alone,
    /// The member is a list, and it is the first element.
    FirstInList,
    /// The member is a list, and it comes after another element.
    NextInList,
    /// The member is a map, and it is the first value, with its name.
    FirstInMap(&'a String),
    /// The member is a map, and it comes after another value.
    NextInMap(&'a String),
}

/// A place of a schema.
#[derive(Drop)]
pub(crate) struct SchemaPlace<'a> {
    /// What stands there.
    pub(crate) tree: &'a Value,
    /// Whether it may be a reference.
    pub(crate) may_be_reference: bool,
    /// How it stands in the member that holds it.
    pub(crate) standing: Standing<'a>,
}

/// Puts each element of a list on a stack; anything else has none. Fails where memory runs out.
pub(crate) fn push_elements<'a>(
    stack: &mut Vec<SchemaPlace<'a>>,
    tree: &'a Value,
    may_be_reference: bool,
) -> Result<(), AllocError>
    ensures { OnOk result (places stack.new.items
        ≡ places stack.old.items ++ elements may_be_reference (view tree.now)) }
{
    if let Some(list) = tree.as_array() {
        if let Some((first, others)) = list.split_first() {
            stack.push(SchemaPlace {
                tree: first,
                may_be_reference,
                standing: Standing::FirstInList,
            })?;
            for tree in others {
                stack.push(SchemaPlace {
                    tree,
                    may_be_reference,
                    standing: Standing::NextInList,
                })?;
            }
        }
    }
    Ok(())
}

/// Puts each value of an object on a stack; anything else has none. Fails where memory runs out.
pub(crate) fn push_entries<'a>(
    stack: &mut Vec<SchemaPlace<'a>>,
    tree: &'a Value,
    may_be_reference: bool,
) -> Result<(), AllocError>
    ensures { OnOk result (places stack.new.items
        ≡ places stack.old.items ++ entries may_be_reference (view tree.now)) }
{
    if let Some(map) = tree.as_object() {
        let mut entries = map.iter();
        if let Some((name, first)) = entries.next() {
            stack.push(SchemaPlace {
                tree: first,
                may_be_reference,
                standing: Standing::FirstInMap(name),
            })?;
        }
        for (name, tree) in entries {
            stack.push(SchemaPlace {
                tree,
                may_be_reference,
                standing: Standing::NextInMap(name),
            })?;
        }
    }
    Ok(())
}

/// Puts a tree on a stack, unless it is null or a boolean. Fails where memory runs out.
pub(crate) fn push_alone<'a>(
    stack: &mut Vec<SchemaPlace<'a>>,
    tree: &'a Value,
    may_be_reference: bool,
) -> Result<(), AllocError>
    ensures { OnOk result (places stack.new.items ≡ places stack.old.items ++ alone may_be_reference (view tree.now)) }
{
    if tree.is_null() || tree.is_boolean() {
        return Ok(());
    }
    stack.push(SchemaPlace {
        tree,
        may_be_reference,
        standing: Standing::Alone,
    })?;
    Ok(())
}

/// Puts the places in a member that is a list on a stack. Fails where memory runs out.
pub(crate) fn push_list<'a>(
    stack: &mut Vec<SchemaPlace<'a>>,
    member: Option<&'a Value>,
    may_be_reference: bool,
) -> Result<(), AllocError>
    ensures { OnOk result (places stack.new.items
        ≡ places stack.old.items ++ part (elements may_be_reference) (found member.entry)) }
{
    match member {
        Some(member) => push_elements(stack, member, may_be_reference),
        None => Ok(()),
    }
}

/// Puts the places in a member that is a map on a stack. Fails where memory runs out.
pub(crate) fn push_map<'a>(
    stack: &mut Vec<SchemaPlace<'a>>,
    member: Option<&'a Value>,
    may_be_reference: bool,
) -> Result<(), AllocError>
    ensures { OnOk result (places stack.new.items
        ≡ places stack.old.items ++ part (entries may_be_reference) (found member.entry)) }
{
    match member {
        Some(member) => push_entries(stack, member, may_be_reference),
        None => Ok(()),
    }
}

/// Puts a member that is one place on a stack. Fails where memory runs out.
pub(crate) fn push_one<'a>(
    stack: &mut Vec<SchemaPlace<'a>>,
    member: Option<&'a Value>,
    may_be_reference: bool,
) -> Result<(), AllocError>
    ensures { OnOk result (places stack.new.items
        ≡ places stack.old.items ++ part (alone may_be_reference) (found member.entry)) }
{
    match member {
        Some(member) => push_alone(stack, member, may_be_reference),
        None => Ok(()),
    }
}

/// Puts the places in the combinations of a tree on a stack. Fails where memory runs out.
fn push_combinations<'a>(
    stack: &mut Vec<SchemaPlace<'a>>,
    members: &InnerMembers<'a>,
) -> Result<(), AllocError>
    ensures { OnOk result (places stack.new.items ≡ places stack.old.items ++ of_combinations (data_of members.now)) }
{
    push_list(stack, members.one_of, true)?;
    push_list(stack, members.all_of, true)?;
    push_list(stack, members.any_of, true)?;
    Ok(())
}

/// Puts the places in the items of an array on a stack. Fails where memory runs out.
pub(crate) fn push_of_array<'a>(
    stack: &mut Vec<SchemaPlace<'a>>,
    members: &InnerMembers<'a>,
) -> Result<(), AllocError>
    ensures { OnOk result (places stack.new.items ≡ places stack.old.items ++ of_array (data_of members.now)) }
{
    push_one(stack, members.items, true)?;
    push_list(stack, members.prefix_items, false)?;
    Ok(())
}

/// Puts the places in the properties of an object on a stack. Fails where memory runs out.
pub(crate) fn push_of_object<'a>(
    stack: &mut Vec<SchemaPlace<'a>>,
    members: &InnerMembers<'a>,
) -> Result<(), AllocError>
    ensures { OnOk result (places stack.new.items ≡ places stack.old.items ++ of_object (data_of members.now)) }
{
    push_map(stack, members.properties, true)?;
    push_one(stack, members.additional_properties, true)?;
    push_one(stack, members.property_names, false)?;
    Ok(())
}

/// Puts the inner places of a tree on a stack, whatever the tree turns out to be. Fails where memory runs out.
fn push_inner<'a>(
    stack: &mut Vec<SchemaPlace<'a>>,
    members: &InnerMembers<'a>,
) -> Result<(), AllocError>
    ensures { OnOk result (places stack.new.items ≡ places stack.old.items ++ of_each (data_of members.now)) }
{
    push_combinations(stack, members)?;
    push_of_array(stack, members)?;
    push_of_object(stack, members)?;
    push_one(stack, members.content_schema, true)?;
    Ok(())
}

/// The table of the places of some roots and of all that stand inside, each after the one that it stands in. Fails where
/// memory runs out.
pub(crate) fn walk<'a>(
    alloc: Global,
    roots: Vec<SchemaPlace<'a>>,
) -> Result<Vec<SchemaPlace<'a>>, AllocError>
    ensures walked { IfOk result (λ table. Walked (places roots.entry.items) (places table.items) []) }
    ensures few { IfOk result (λ table. length table.items ≤ total (places roots.entry.items)) }
{
    let mut table = Vec::new(alloc);
    let mut stack = roots;
    'walk: while let Some(place) = stack.pop() {
        push_inner(&mut stack, &find_members(place.tree))?;
        table.push(place)?;
    }
    Ok(table)
}
