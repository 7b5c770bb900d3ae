//! What is dropped where a document is nested into another.
ghost use Rattle.std.specs.Prelude.{◌≡◌, ◌++◌, ◌∷◌, [], ℕ, List, Some, IfOk, OnOk, if◌then◌else◌, codes, length, map, option_map, string_bytes, vec_len};
ghost use Rattle.std.specs.BTreeMap.{get_by_text};
ghost use Rattle.std.specs.List.{flat_map};
ghost use Rattle.serde_json.specs.Find.{get};
ghost use Rattle.serde_json.specs.View.{view, members_view};
ghost use Rattle.utoipa_base.specs.EachMember.{each_member};
ghost use Rattle.utoipa_check.specs.Views.{outwards};
ghost use Rattle.utoipa_conflicts.specs.Conflicts.{place_of_item, dropped_by};
ghost use Rattle.utoipa_conflicts.specs.Nested as specs;
ghost use Rattle.utoipa_conflicts.specs.Views.{all_conflicts, all_filled, all_items, filled_of, item_of, slot_of};

use crate::conflict::{Conflict, put_if_dropped, value_in};
use crate::deciders::Document;
use crate::same::is_same;
use crate::slot::{Filled, Slot, slots};
use serde_json::{Map, Value};
use std::alloc::{AllocError, Global};
use std::collections::BTreeMap;
use utoipa_base::is_extension_name;
use utoipa_check::{Pointer, Step};

/// A path, with its item.
#[derive(Clone, Copy, Drop)]
pub(crate) struct ItemAt<'a> {
    pub(crate) path: &'a str,
    pub(crate) item: &'a Value,
}

/// The items of some paths.
type Items<'a> = Vec<ItemAt<'a>>;

/// Adds an entry of `paths`, if it is an item. Fails where memory runs out.
fn push_item<'a>(
    items: &mut Vec<ItemAt<'a>>,
    path: &'a str,
    item: &'a Value,
) -> Result<(), AllocError>
    ensures { OnOk result (all_items items.new.items
        ≡ all_items items.old.items ++ specs.item_unless_extension path.now (view item.now)) }
{
    if is_extension_name(path) {
        return Ok(());
    }
    items.push(ItemAt { path, item })?;
    Ok(())
}

/// Adds the items of `paths`. Fails where memory runs out.
fn push_items<'a>(
    items: &mut Vec<ItemAt<'a>>,
    paths: &'a Map<String, Value>,
) -> Result<(), AllocError>
    ensures { OnOk result (all_items items.new.items
        ≡ all_items items.old.items ++ each_member specs.item_unless_extension (members_view paths.now.entries)) }
{
    for (path, item) in paths.iter() {
        push_item(items, path.as_str(), item)?;
    }
    Ok(())
}

/// Adds the items of a document's `paths`, if it has any. Fails where memory runs out.
fn push_items_of<'a>(items: &mut Vec<ItemAt<'a>>, document: &'a Value) -> Result<(), AllocError>
    ensures { OnOk result (all_items items.new.items
        ≡ all_items items.old.items ++ specs.path_items (view document.now)) }
{
    match document.get("paths") {
        Some(paths) => match paths {
            Value::Object(entries) => push_items(items, entries),
            _ => Ok(()),
        },
        None => Ok(()),
    }
}

/// The items of a document's paths, in the order of the paths. Fails where memory runs out.
pub(crate) fn path_items<'a>(alloc: Global, document: &'a Value) -> Result<Items<'a>, AllocError>
    ensures { IfOk result (λ v. all_items v.items ≡ specs.path_items (view document.now)) }
{
    let mut items = Vec::new(alloc);
    push_items_of(&mut items, document)?;
    Ok(items)
}

/// The paths of an OpenAPI document, given as the tree that it is written as. Where the document is nested, a composer of paths answers to each
/// of them, in this order. Fails where memory runs out.
pub fn tree_nested_paths<'a>(alloc: Global, nested: &'a Value) -> Result<Vec<&'a str>, AllocError>
    ensures paths { IfOk result (λ v. map (λ p. p.now) v.items ≡ specs.nested_paths (view nested.now)) }
    ensures count { IfOk result (λ v. vec_len v ≡ length (specs.nested_paths (view nested.now))) }
{
    let items = path_items(alloc, nested)?;
    paths_of(alloc, &items)
}

/// The paths of some items. Fails where memory runs out.
fn paths_of<'a>(alloc: Global, items: &Vec<ItemAt<'a>>) -> Result<Vec<&'a str>, AllocError>
    ensures { IfOk result (λ v. map (λ p. p.now) v.items ≡ map (λ i. (item_of i).0) items.now.items) }
{
    let mut paths = Vec::new(alloc);
    for item in items {
        paths.push(item.path)?;
    }
    Ok(paths)
}

/// The items, each at the answer to its path. Fails where memory runs out.
fn answered<'a>(
    alloc: Global,
    answers: &'a [String],
    items: &Vec<ItemAt<'a>>,
) -> Result<Items<'a>, AllocError>
    ensures { IfOk result
        (λ v. all_items v.items ≡ specs.answered (map string_bytes answers.now) (all_items items.now.items)) }
{
    let mut put = Vec::new(alloc);
    let mut answers = answers.iter();
    for item in items {
        let Some(answer) = answers.next() else {
            return Ok(put);
        };
        put.push(ItemAt {
            path: answer.as_str(),
            item: item.item,
        })?;
    }
    Ok(put)
}

/// What stands at each path where items are put one after the other. Fails where memory runs out.
fn put_items<'a>(
    alloc: Global,
    items: &Vec<ItemAt<'a>>,
) -> Result<BTreeMap<String, &'a Value>, AllocError>
    ensures { IfOk result (λ m. (path : List ℕ) → option_map (λ v. view v.now) (get_by_text m path)
        ≡ specs.put_at (all_items items.now.items) path) }
{
    let mut put = BTreeMap::new(alloc);
    for item in items {
        let path = String::from_str(alloc, item.path)?;
        drop(put.insert(path, item.item)?);
    }
    Ok(put)
}

/// The place of the item at a path. Fails where memory runs out.
fn pointer_to_item<'a>(alloc: Global, path: &'a str) -> Result<Pointer<'a>, AllocError>
    ensures { IfOk result (λ p. outwards p.steps.items [] ≡ place_of_item path.now) }
{
    let steps = vec![in alloc; Step::Name(path), Step::Name("paths")]?;
    Ok(Pointer { steps })
}

/// Adds an item of a document, if another one is put at its path. Fails where memory runs out.
fn put_if_covered<'a>(
    alloc: Global,
    put: &BTreeMap<String, &'a Value>,
    number: usize,
    item: ItemAt<'a>,
    found: &mut Vec<Conflict<'a>>,
) -> Result<(), AllocError>
    ensures { OnOk result (all_conflicts found.new.items ≡ all_conflicts found.old.items
        ++ specs.unless_same (place_of_item (item_of item.entry).0) 1 number (item_of item.entry).1
        (option_map (λ v. view v.now) (get_by_text put.now (item_of item.entry).0))) }
{
    let Some(other) = put.get(item.path) else {
        return Ok(());
    };
    if is_same(item.item, other) {
        return Ok(());
    }
    let pointer = pointer_to_item(alloc, item.path)?;
    found.push(Conflict {
        pointer,
        kept: 1,
        dropped: number,
    })?;
    Ok(())
}

/// Adds those of a document's items at whose paths another one is put. Fails where memory runs out.
fn put_covered<'a>(
    alloc: Global,
    put: &BTreeMap<String, &'a Value>,
    number: usize,
    items: &Vec<ItemAt<'a>>,
    found: &mut Vec<Conflict<'a>>,
) -> Result<(), AllocError>
    ensures { OnOk result (all_conflicts found.new.items ≡ all_conflicts found.old.items
        ++ flat_map (λ i. specs.unless_same (place_of_item i.0) 1 number i.1 (option_map
        (λ v. view v.now) (get_by_text put.now i.0))) (all_items items.now.items)) }
{
    for item in items {
        put_if_covered(alloc, put, number, *item, found)?;
    }
    Ok(())
}

/// Whether the document that is nested into decides a slot over the nested one.
fn own_decides(own: &Value, slot: Slot<'_>) -> bool
    ensures { result ≡ specs.own_decides (slot_of slot.entry) (view own.now) }
{
    match slot {
        Slot::DocumentMember(_) | Slot::ComponentsExtension(_) | Slot::PathsExtension(_) => true,
        Slot::ComponentEntry(..) => value_in(own, slot).is_some(),
        Slot::Operation(..) | Slot::NamedOperation(..) | Slot::BaseMember(..) => false,
    }
}

/// Adds what the nested document has in a slot, if the other one decides there and has another value, or none. Fails where memory runs out.
fn put_if_over<'a>(
    alloc: Global,
    own: &Value,
    filled: Filled<'a>,
    found: &mut Vec<Conflict<'a>>,
) -> Result<(), AllocError>
    ensures { OnOk result (all_conflicts found.new.items ≡ all_conflicts found.old.items
        ++ (if specs.own_decides (filled_of filled.entry).0 (view own.now) then dropped_by 1 (filled_of filled.entry) (Some (0, view own.now)) else [])) }
{
    if !own_decides(own, filled.slot) {
        return Ok(());
    }
    let decider = Document {
        number: 0,
        tree: own,
    };
    put_if_dropped(alloc, decider, 1, filled, found)
}

/// Adds what the nested document has in some slots, where the other one decides and has another value, or none. Fails where memory runs
/// out.
fn put_rest<'a>(
    alloc: Global,
    own: &Value,
    slots: &Vec<Filled<'a>>,
    found: &mut Vec<Conflict<'a>>,
) -> Result<(), AllocError>
    ensures { OnOk result (all_conflicts found.new.items ≡ all_conflicts found.old.items
        ++ flat_map (λ s. if specs.own_decides s.0 (view own.now) then dropped_by 1 s (Some (0, view own.now)) else []) (all_filled slots.now.items)) }
{
    for filled in slots {
        put_if_over(alloc, own, *filled, found)?;
    }
    Ok(())
}

/// What is dropped where an OpenAPI document, of number 1, is nested into another, of number 0, given as the trees that they are written as,
/// and the answers of a composer of paths, one to each of the [`tree_nested_paths`]. These are the items in whose place a nested one stands, the
/// nested items in whose place that of a later path stands which was answered alike, the extensions of the nested paths, and what merging drops
/// of the rest; each value where another one is kept, or none, at its place in what comes of nesting. Fails where memory runs out.
///
/// It takes time linear in the trees, but for looking up each path, each slot and each member by its name.
pub fn tree_nested_conflicts<'a>(
    alloc: Global,
    own: &'a Value,
    nested: &'a Value,
    answers: &'a [String],
) -> Result<Vec<Conflict<'a>>, AllocError>
    requires { length answers.now ≡ length (specs.nested_paths (view nested.now)) }
    ensures { IfOk result
        (λ v. all_conflicts v.items
        ≡ specs.nested_conflicts (map string_bytes answers.now) (view own.now) (view nested.now)) }
{
    let own_items = path_items(alloc, own)?;
    let nested_items = path_items(alloc, nested)?;
    let put = answered(alloc, answers, &nested_items)?;
    let standing = put_items(alloc, &put)?;
    let slots = slots(alloc, nested)?;
    let mut found = Vec::new(alloc);
    put_covered(alloc, &standing, 0, &own_items, &mut found)?;
    put_covered(alloc, &standing, 1, &put, &mut found)?;
    put_rest(alloc, own, &slots, &mut found)?;
    Ok(found)
}
