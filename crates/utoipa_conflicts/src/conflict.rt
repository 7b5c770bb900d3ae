//! What is dropped where documents are merged.
ghost use Rattle.std.specs.Prelude.{◌≡◌, ◌↔◌, ◌++◌, [], ℕ, Some, All, IfOk, OnOk, option_map};
ghost use Rattle.std.specs.List.{flat_map};
ghost use Rattle.serde_json.specs.View.{view};
ghost use Rattle.utoipa_check.specs.Views.{outwards};
ghost use Rattle.utoipa_conflicts.specs.Conflicts as specs;
ghost use Rattle.utoipa_conflicts.specs.Deciders.{noted, numbered_of, trees_of};
ghost use Rattle.utoipa_conflicts.specs.IsConflict.{IsOneOf, IsConflict, AllKept};
ghost use Rattle.utoipa_conflicts.specs.Holders.{IsNamedOnce};
ghost use Rattle.utoipa_conflicts.specs.Kept.{IsAllKept};
ghost use Rattle.utoipa_conflicts.specs.Same.{is_value};
ghost use Rattle.utoipa_conflicts.specs.Texts.{conflict_text};
ghost use Rattle.utoipa_conflicts.specs.Trees.{Place, at_place};
ghost use Rattle.utoipa_conflicts.specs.Views.{holder_of, slot_of, filled_of, all_filled, conflict_of, all_conflicts};

use crate::deciders::{Document, decider_of, deciders};
use crate::holder::Holder;
use crate::same::is_same;
use crate::slot::{Filled, Slot, slots};
use serde_json::Value;
use std::alloc::{AllocError, Global};
use std::collections::BTreeMap;
use std::fmt;
use utoipa_check::{Pointer, ShownPointer, Step};

/// A value that is dropped where documents are merged.
#[derive(Drop)]
pub struct Conflict<'a> {
    /// The place of the value.
    pub pointer: Pointer<'a>,
    /// The number of the document that decides there. What it has there is kept, and where it has nothing, nothing is.
    pub kept: usize,
    /// The number of the document whose value is dropped.
    pub dropped: usize,
}

/// What a document has to have so that it may decide a slot.
fn holder_of_slot(slot: Slot<'_>) -> Holder<'_>
    ensures { holder_of result ≡ specs.holder (slot_of slot.entry) }
{
    match slot {
        Slot::DocumentMember(_) | Slot::ComponentsExtension(_) => Holder::Document,
        Slot::ComponentEntry(kind, name) => Holder::Component(kind, name),
        Slot::PathsExtension(name) => Holder::PathEntry(name),
        Slot::Operation(path, method) => Holder::ItemMember(path, method),
        Slot::NamedOperation(path, name) => Holder::AdditionalOperation(path, name),
        Slot::BaseMember(path, _) => Holder::PathEntry(path),
    }
}

/// The entry of `paths` under a name.
fn path_entry<'v>(document: &'v Value, path: &str) -> Option<&'v Value>
    ensures { option_map (λ v. view v.now) result ≡ at_place (specs.place_of_item path.now) (view document.now) }
{
    document.get("paths")?.get(path)
}

/// What a document has in a slot.
pub(crate) fn value_in<'v>(document: &'v Value, slot: Slot<'_>) -> Option<&'v Value>
    ensures { option_map (λ v. view v.now) result ≡ at_place (specs.place (slot_of slot.entry)) (view document.now) }
{
    match slot {
        Slot::DocumentMember(name) => document.get(name),
        Slot::ComponentEntry(kind, name) => document.get("components")?.get(kind)?.get(name),
        Slot::ComponentsExtension(name) => document.get("components")?.get(name),
        Slot::PathsExtension(name) => path_entry(document, name),
        Slot::Operation(path, method) => path_entry(document, path)?.get(method),
        Slot::NamedOperation(path, name) => {
            path_entry(document, path)?
                .get("additionalOperations")?
                .get(name)
        }
        Slot::BaseMember(path, name) => path_entry(document, path)?.get(name),
    }
}

/// Whether a document has the same value in a slot.
fn has_value(document: &Value, filled: Filled<'_>) -> bool
    ensures { result ≡ is_value (filled_of filled.entry).1 (at_place (specs.place (filled_of filled.entry).0) (view document.now)) }
{
    match value_in(document, filled.slot) {
        Some(value) => is_same(filled.value, value),
        None => false,
    }
}

/// The place of a slot. Fails where memory runs out.
fn pointer_to<'a>(alloc: Global, slot: Slot<'a>) -> Result<Pointer<'a>, AllocError>
    ensures { IfOk result (λ p. outwards p.steps.items [] ≡ specs.place (slot_of slot.entry)) }
{
    let paths = Step::Name("paths");
    let components = Step::Name("components");
    let steps = match slot {
        Slot::DocumentMember(name) => vec![in alloc; Step::Name(name)]?,
        Slot::ComponentEntry(kind, name) => {
            vec![in alloc; Step::Name(name), Step::Name(kind), components]?
        }
        Slot::ComponentsExtension(name) => vec![in alloc; Step::Name(name), components]?,
        Slot::PathsExtension(name) => vec![in alloc; Step::Name(name), paths]?,
        Slot::Operation(path, method) => {
            vec![in alloc; Step::Name(method), Step::Name(path), paths]?
        }
        Slot::NamedOperation(path, name) => {
            let more = Step::Name("additionalOperations");
            vec![in alloc; Step::Name(name), more, Step::Name(path), paths]?
        }
        Slot::BaseMember(path, name) => {
            vec![in alloc; Step::Name(name), Step::Name(path), paths]?
        }
    };
    Ok(Pointer { steps })
}

/// Adds a value that a document has in a slot, if another document decides there and has another value, or none. Fails where memory runs
/// out.
pub(crate) fn put_if_dropped<'a>(
    alloc: Global,
    decider: Document<'_>,
    number: usize,
    filled: Filled<'a>,
    found: &mut Vec<Conflict<'a>>,
) -> Result<(), AllocError>
    ensures { OnOk result (all_conflicts found.new.items ≡ all_conflicts found.old.items
        ++ specs.dropped_by number (filled_of filled.entry) (Some (numbered_of decider.entry))) }
{
    if decider.number == number || has_value(decider.tree, filled) {
        return Ok(());
    }
    let pointer = pointer_to(alloc, filled.slot)?;
    found.push(Conflict {
        pointer,
        kept: decider.number,
        dropped: number,
    })?;
    Ok(())
}

/// Adds what is dropped of the value that a document has in a slot. Fails where memory runs out.
fn put_conflict<'a>(
    alloc: Global,
    deciders: &BTreeMap<Holder<'a>, Document<'a>>,
    number: usize,
    filled: Filled<'a>,
    found: &mut Vec<Conflict<'a>>,
) -> Result<(), AllocError>
    ensures { OnOk result (all_conflicts found.new.items ≡ all_conflicts found.old.items
        ++ specs.dropped_by number (filled_of filled.entry) (noted deciders.now (specs.holder (filled_of filled.entry).0))) }
{
    match decider_of(deciders, holder_of_slot(filled.slot)) {
        Some(decider) => put_if_dropped(alloc, decider, number, filled, found),
        None => Ok(()),
    }
}

/// Adds what is dropped of the values that a document has in some slots. Fails where memory runs out.
fn put_conflicts<'a>(
    alloc: Global,
    deciders: &BTreeMap<Holder<'a>, Document<'a>>,
    number: usize,
    slots: &Vec<Filled<'a>>,
    found: &mut Vec<Conflict<'a>>,
) -> Result<(), AllocError>
    ensures { OnOk result (all_conflicts found.new.items ≡ all_conflicts found.old.items
        ++ flat_map (λ s. specs.dropped_by number s (noted deciders.now (specs.holder s.0))) (all_filled slots.now.items)) }
{
    for filled in slots {
        put_conflict(alloc, deciders, number, *filled, found)?;
    }
    Ok(())
}

/// What is dropped where OpenAPI documents are merged, given as the trees that they are written as: each value that a document has in a slot
/// where another document decides and has another value, or none. They come document by document, and in each in the order of its
/// members. Fails where memory runs out.
///
/// The list is empty exactly where each value in a slot is kept. Two values are one where they are the same flag or text, a whole number of
/// the same value, a fraction of the same bits of its `f64`, an array of the same items in their order, or an object of the same names
/// with the same values ([`is_same`]). Lists that are joined, of servers, security requirements and tags, are in no conflict.
///
/// It takes time linear in the trees, but for looking up each slot and each member by its name.
pub fn tree_conflicts<'a>(
    alloc: Global,
    trees: &'a [Value],
) -> Result<Vec<Conflict<'a>>, AllocError>
    ensures exact { IfOk result (λ v. all_conflicts v.items ≡ specs.conflicts (trees_of trees.now)) }
    ensures listed { IfOk result (λ v. (p : Place) (i j : ℕ) → IsOneOf (p, i, j) (all_conflicts v.items)
        ↔ IsConflict (trees_of trees.now) p i j) }
    ensures nothing { IfOk result (λ v. (v.items ≡ []) ↔ AllKept (trees_of trees.now)) }
    ensures kept { IfOk result (λ v. (v.items ≡ []) ↔ IsAllKept (trees_of trees.now)) }
    ensures once { IfOk result (λ _. All IsNamedOnce (trees_of trees.now)) }
{
    let deciders = deciders(alloc, trees)?;
    let mut found = Vec::new(alloc);
    for (number, tree) in trees.iter().enumerate() {
        let slots = slots(alloc, tree)?;
        put_conflicts(alloc, &deciders, number, &slots, &mut found)?;
    }
    Ok(found)
}

/// The JSON Pointer of the place, as it is shown on a line, whose value is dropped there, and which document decides.
impl fmt::Display for Conflict<'_> {
    ghost output = { λ c. Some (conflict_text (conflict_of c)) };

    fn fmt<W: fmt::Write>(&self, f: &mut fmt::Formatter<W>) -> fmt::Result {
        let pointer = ShownPointer(&self.pointer);
        let dropped = self.dropped;
        let kept = self.kept;
        write!(
            f,
            "{pointer}: document {dropped}'s value is dropped, since document {kept} decides"
        )
    }
}
