//! What a tree mentions, of what was mentioned inside it.
ghost use Rattle.std.specs.Prelude.{◌≡◌, ◌++◌, List, IfOk, OnOk, false, true};
ghost use Rattle.serde_json.specs.Find.{get};
ghost use Rattle.serde_json.specs.View.{view};
ghost use Rattle.utoipa_check.specs.Mentioned as mentioned;
ghost use Rattle.utoipa_check.specs.Mentioned.{all_mentioned, target_mentions};
ghost use Rattle.utoipa_check.specs.Misfits.{checks};
ghost use Rattle.utoipa_check.specs.Places as places;
ghost use Rattle.utoipa_check.specs.Places.{inner_places, field_places, fields_places, object_places, kind_layout, array_places, item_target, of_kind, items_at, members_at};
ghost use Rattle.utoipa_check.specs.ReferenceViews.{mentions_of, stacked_mentioned, row_mentions_at};
ghost use Rattle.utoipa_check.specs.References as specs;
ghost use Rattle.utoipa_check.specs.Views.{stacked, target_of, is_reference, takes_references};
ghost use Rattle.utoipa_tables.specs.Tables.{kind_of, type_of, rows_of, members_of, schema_members};

use crate::layout::Target;
use crate::leaf::own_kind;
use crate::mention::{
    Mention, Mentioned, join_mentions, mapping_mentions, own_mention, put_mentions,
    requirement_mentions,
};
use crate::misfit::{Outcome, is_fit};
use crate::object::{object_kind, reference_misfits, takes_references};
use crate::rows::is_kept;
use crate::schema::taken_schema;
use serde_json::Value;
use std::alloc::{AllocError, Global};
use utoipa_tables::{Kind, ObjectType, Row, rows, schema_rows};

/// Adds what is mentioned by one row, and takes off what was mentioned in its member, if that is there. Fails where memory runs out.
fn put_row_mentions<'a>(
    row: &Row,
    tree: &Value,
    inner: &mut Vec<Mentioned<'a>>,
    found: &mut Vec<Mention<'a>>,
) -> Result<(), AllocError>
    ensures { OnOk result ((rest : List mentioned.Mentioned)
        → stacked_mentioned inner.old.items
        ≡ all_mentioned (field_places row.now.name.now (kind_of row.now.kind) (get row.now.name.now (view tree.now))) ++ rest
        → (stacked_mentioned inner.new.items ≡ rest) × (mentions_of found.new.items
        ≡ mentions_of found.old.items ++ row_mentions_at row.now (view tree.now))) }
{
    if tree.get(row.name).is_none() {
        return Ok(());
    }
    if let Some(mentioned) = inner.pop() {
        if is_kept(row.mark) {
            put_mentions(mentioned.step, mentioned.mentions, found)?;
        }
    }
    Ok(())
}

/// What some rows mention, of what was mentioned in the members that they name. Fails where memory runs out.
fn mentions_by_rows<'a>(
    alloc: Global,
    rows: &'static [Row],
    tree: &Value,
    inner: Vec<Mentioned<'a>>,
) -> Result<Vec<Mention<'a>>, AllocError>
    requires { stacked_mentioned inner.items ≡ all_mentioned (fields_places (members_of rows.now) (view tree.now)) }
    ensures { IfOk result
        (λ v. mentions_of v.items
        ≡ specs.rows_mentions (rows_of rows.now) (specs.mentioners (members_at (view tree.now)))) }
{
    let mut found = Vec::new(alloc);
    let mut left = inner;
    for row in rows {
        put_row_mentions(row, tree, &mut left, &mut found)?;
    }
    Ok(found)
}

/// What an object of a type mentions. Fails where memory runs out.
fn named_mentions<'a>(
    alloc: Global,
    object_type: ObjectType,
    tree: &'a Value,
    inner: Vec<Mentioned<'a>>,
) -> Result<Vec<Mention<'a>>, AllocError>
    requires { stacked_mentioned inner.items
        ≡ all_mentioned (object_places (kind_layout (kind_of (Kind.Named object_type)) (members_at (view tree.now))) (view tree.now)) }
    ensures { IfOk result
        (λ v. mentions_of v.items
        ≡ specs.named_mentions (type_of object_type) (members_at (view tree.now)) (specs.mentioners (members_at (view tree.now)))) }
{
    match object_type {
        ObjectType::ReferenceObject => own_mention(alloc, tree),
        ObjectType::DiscriminatorObject => mapping_mentions(alloc, tree),
        ObjectType::PathItemObject => {
            let mut found = own_mention(alloc, tree)?;
            let mut others = mentions_by_rows(alloc, rows(object_type), tree, inner)?;
            found.append(&mut others)?;
            Ok(found)
        }
        _ => mentions_by_rows(alloc, rows(object_type), tree, inner),
    }
}

/// Whether an object reads as a reference. Fails where memory runs out.
fn fits_reference(alloc: Global, tree: &Value) -> Result<bool, AllocError>
    ensures { IfOk result (λ b. b ≡ specs.is_reference_object (checks (members_at (view tree.now)))) }
{
    let found = reference_misfits(alloc, tree)?;
    Ok(is_fit(&found))
}

/// Whether a kind is that of the entries of a security requirement.
fn is_scope_list(kind: Kind) -> bool
    ensures { result ≡ specs.is_scope_list (kind_of kind) }
{
    match kind {
        Kind::ListOf(item) => matches!(*item, Kind::Text),
        _ => false,
    }
}

/// The names of a security requirement (Security Requirement Object: section 4.8.30). Fails where memory runs out.
fn names_mentions<'a>(alloc: Global, tree: &'a Value) -> Result<Vec<Mention<'a>>, AllocError>
    ensures { IfOk result (λ v. mentions_of v.items ≡ specs.requirement_mentions (members_at (view tree.now))) }
{
    match tree {
        Value::Object(members) => requirement_mentions(alloc, members),
        _ => Ok(Vec::new(alloc)),
    }
}

/// What an object mentions that is no reference. Fails where memory runs out.
fn own_mentions<'a>(
    alloc: Global,
    kind: Kind,
    tree: &'a Value,
    outcomes: &[Outcome<'_>],
    inner: Vec<Mentioned<'a>>,
) -> Result<Vec<Mention<'a>>, AllocError>
    requires own { takes_references (kind_of kind) ≡ false }
    requires outcomes { stacked outcomes.now
        ≡ places.outcomes (object_places (kind_layout (kind_of kind) (members_at (view tree.now))) (view tree.now)) }
    requires inner { stacked_mentioned inner.items
        ≡ all_mentioned (object_places (kind_layout (kind_of kind) (members_at (view tree.now))) (view tree.now)) }
    ensures { IfOk result
        (λ v. mentions_of v.items
        ≡ specs.object_mentions (members_at (view tree.now)) (checks (members_at (view tree.now))) (specs.mentioners (members_at (view tree.now))) (kind_of kind)) }
{
    match kind {
        Kind::MapOf(entry) => {
            if is_scope_list(*entry) {
                return names_mentions(alloc, tree);
            }
            join_mentions(alloc, inner)
        }
        Kind::OrderedMapOf(_) | Kind::EntriesOf(_) => join_mentions(alloc, inner),
        Kind::Named(object_type) => named_mentions(alloc, object_type, tree, inner),
        Kind::Schema => {
            let taken = schema_rows(taken_schema(tree, outcomes));
            mentions_by_rows(alloc, taken, tree, inner)
        }
        _ => Ok(Vec::new(alloc)),
    }
}

/// What an object of a kind mentions. Fails where memory runs out.
fn object_mentions<'a>(
    alloc: Global,
    kind: Kind,
    tree: &'a Value,
    outcomes: &[Outcome<'_>],
    inner: Vec<Mentioned<'a>>,
) -> Result<Vec<Mention<'a>>, AllocError>
    requires outcomes { stacked outcomes.now
        ≡ places.outcomes (object_places (kind_layout (kind_of kind) (members_at (view tree.now))) (view tree.now)) }
    requires inner { stacked_mentioned inner.items
        ≡ all_mentioned (object_places (kind_layout (kind_of kind) (members_at (view tree.now))) (view tree.now)) }
    ensures { IfOk result
        (λ v. mentions_of v.items
        ≡ specs.object_mentions (members_at (view tree.now)) (checks (members_at (view tree.now))) (specs.mentioners (members_at (view tree.now))) (kind_of kind)) }
{
    if takes_references(kind) {
        let is_reference = fits_reference(alloc, tree)?;
        if is_reference {
            return own_mention(alloc, tree);
        }
    }
    own_mentions(alloc, object_kind(kind), tree, outcomes, inner)
}

/// What an array of a kind mentions. Fails where memory runs out.
fn array_mentions<'a>(
    alloc: Global,
    kind: Kind,
    tree: &Value,
    inner: Vec<Mentioned<'a>>,
) -> Result<Vec<Mention<'a>>, AllocError>
    requires own { is_reference (kind_of kind) ≡ false }
    requires inner { stacked_mentioned inner.items
        ≡ all_mentioned (array_places (item_target (of_kind (kind_of kind))) (items_at (view tree.now))) }
    ensures { IfOk result
        (λ v. mentions_of v.items
        ≡ specs.array_mentions (specs.item_mentioners (items_at (view tree.now))) (kind_of kind)) }
{
    let _tree = tree;
    match kind {
        Kind::ListOf(_) => join_mentions(alloc, inner),
        _ => Ok(Vec::new(alloc)),
    }
}

/// What a document of a kind mentions. Fails where memory runs out.
fn document_mentions<'a>(
    alloc: Global,
    kind: Kind,
    tree: &'a Value,
    outcomes: &[Outcome<'_>],
    inner: Vec<Mentioned<'a>>,
) -> Result<Vec<Mention<'a>>, AllocError>
    requires outcomes { stacked outcomes.now ≡ places.outcomes (inner_places (of_kind (kind_of kind)) (view tree.now)) }
    requires inner { stacked_mentioned inner.items
        ≡ all_mentioned (inner_places (of_kind (kind_of kind)) (view tree.now)) }
    ensures { IfOk result (λ v. mentions_of v.items ≡ specs.mentions (kind_of kind) (view tree.now)) }
{
    match tree {
        Value::Array(_) => array_mentions(alloc, own_kind(kind), tree, inner),
        Value::Object(_) => object_mentions(alloc, kind, tree, outcomes, inner),
        Value::Null | Value::Bool(_) | Value::Number(_) | Value::String(_) => Ok(Vec::new(alloc)),
    }
}

/// What a tree mentions, of what does not fit and of what was mentioned inside it. Fails where memory runs out.
pub(crate) fn mentions_from<'a>(
    alloc: Global,
    target: Target,
    tree: &'a Value,
    outcomes: &[Outcome<'_>],
    inner: Vec<Mentioned<'a>>,
) -> Result<Vec<Mention<'a>>, AllocError>
    requires outcomes { stacked outcomes.now ≡ places.outcomes (inner_places (target_of target) (view tree.now)) }
    requires inner { stacked_mentioned inner.items ≡ all_mentioned (inner_places (target_of target) (view tree.now)) }
    ensures { IfOk result (λ v. mentions_of v.items ≡ target_mentions (target_of target) (view tree.now)) }
{
    match target {
        Target::Document(kind) => document_mentions(alloc, kind, tree, outcomes, inner),
        _ => Ok(Vec::new(alloc)),
    }
}
