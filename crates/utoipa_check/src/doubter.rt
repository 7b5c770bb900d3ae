//! What is in doubt in a tree, of what does not fit and of what is in doubt inside it.
ghost use Rattle.std.specs.Prelude.{◌≡◌, ◌++◌, List, IfOk, OnOk, codes, false, true};
ghost use Rattle.serde_json.specs.Find.{get};
ghost use Rattle.serde_json.specs.View.{view};
ghost use Rattle.utoipa_base.specs.Kinds as kinds;
ghost use Rattle.utoipa_base.specs.Reading.{is_named};
ghost use Rattle.utoipa_check.specs.Doubted.{all_doubted, target_doubts, row_doubts_at};
ghost use Rattle.utoipa_check.specs.Doubts as specs;
ghost use Rattle.utoipa_check.specs.Misfits as misfits;
ghost use Rattle.utoipa_check.specs.Misfits.{checks};
ghost use Rattle.utoipa_check.specs.Places as places;
ghost use Rattle.utoipa_check.specs.Places.{outcomes, inner_places, field_places, fields_places, object_places, kind_layout, api_key_layout, array_places, item_target, of_kind, any_flow, items_at, members_at};
ghost use Rattle.utoipa_check.specs.Views.{misfits_of, stacked, target_of, is_reference, takes_references};
ghost use Rattle.utoipa_tables.specs.Tables.{kind_of, rows_of, members_of, schema_members};

use crate::choice::chosen_at;
use crate::copied::all_copied;
use crate::layout::Target;
use crate::leaf::own_kind;
use crate::misfit::{Cause, Misfit, Outcome, here, is_fit, join_all, put_under};
use crate::object::{object_kind, own_misfits, reference_misfits, takes_references};
use crate::rows::{fits_rows, is_kept, misfits_by_rows};
use crate::schema::{any_flow_misfits, fits_schema, meant_schema, taken_schema};
use serde_json::Value;
use std::alloc::{AllocError, Global};
use utoipa_tables::{Kind, Row, api_key_places, flow_names, rows, schema_rows, scheme_types};

/// Adds what is in doubt by one row, and takes off what is in doubt in its member, if that is there. Fails where memory runs out.
fn put_row_doubts<'a>(
    row: &Row,
    tree: &Value,
    inner: &mut Vec<Outcome<'a>>,
    found: &mut Vec<Misfit<'a>>,
) -> Result<(), AllocError>
    ensures { OnOk result ((rest : List places.Outcome)
        → stacked inner.old.items
        ≡ all_doubted (field_places row.now.name.now (kind_of row.now.kind) (get row.now.name.now (view tree.now))) ++ rest
        → (stacked inner.new.items ≡ rest) × (misfits_of found.new.items
        ≡ misfits_of found.old.items ++ row_doubts_at row.now (view tree.now))) }
{
    if tree.get(row.name).is_none() {
        return Ok(());
    }
    if let Some(outcome) = inner.pop() {
        if is_kept(row.mark) {
            put_under(outcome.step, outcome.misfits, found)?;
        }
    }
    Ok(())
}

/// What is in doubt by some rows, of what is in doubt in the members that they name. Fails where memory runs out.
fn doubts_by_rows<'a>(
    alloc: Global,
    rows: &'static [Row],
    tree: &Value,
    inner: Vec<Outcome<'a>>,
) -> Result<Vec<Misfit<'a>>, AllocError>
    requires { stacked inner.items ≡ all_doubted (fields_places (members_of rows.now) (view tree.now)) }
    ensures { IfOk result
        (λ v. misfits_of v.items ≡ specs.rows_doubts (rows_of rows.now) (specs.doubters (members_at (view tree.now)))) }
{
    let mut found = Vec::new(alloc);
    let mut left = inner;
    for row in rows {
        put_row_doubts(row, tree, &mut left, &mut found)?;
    }
    Ok(found)
}

/// What does not fit the alternative of a schema that was meant, where another fits. Fails where memory runs out.
fn meant_doubts<'a>(
    alloc: Global,
    tree: &'a Value,
    inner: &[Outcome<'a>],
) -> Result<Vec<Misfit<'a>>, AllocError>
    requires { stacked inner.now ≡ outcomes (fields_places schema_members (view tree.now)) }
    ensures { IfOk result
        (λ v. misfits_of v.items
        ≡ specs.meant_doubts (members_at (view tree.now)) (checks (members_at (view tree.now)))) }
{
    if !fits_schema(tree, inner) {
        return Ok(Vec::new(alloc));
    }
    let meant = schema_rows(meant_schema(tree));
    if fits_rows(meant, tree, inner) {
        return Ok(Vec::new(alloc));
    }
    misfits_by_rows(alloc, meant, tree, all_copied(alloc, inner)?)
}

/// What is in doubt in a schema, of which five tables are alternatives. Fails where memory runs out.
fn schema_doubts<'a>(
    alloc: Global,
    tree: &'a Value,
    inner_misfits: &[Outcome<'a>],
    inner: Vec<Outcome<'a>>,
) -> Result<Vec<Misfit<'a>>, AllocError>
    requires misfits { stacked inner_misfits.now ≡ outcomes (fields_places schema_members (view tree.now)) }
    requires inner { stacked inner.items ≡ all_doubted (fields_places schema_members (view tree.now)) }
    ensures { IfOk result
        (λ v. misfits_of v.items
        ≡ specs.schema_doubts (members_at (view tree.now)) (checks (members_at (view tree.now))) (specs.doubters (members_at (view tree.now)))) }
{
    let mut found = meant_doubts(alloc, tree, inner_misfits)?;
    let taken = schema_rows(taken_schema(tree, inner_misfits));
    let mut kept = doubts_by_rows(alloc, taken, tree, inner)?;
    found.append(&mut kept)?;
    Ok(found)
}

/// What is in doubt in an API key, by its member `in` (Security Scheme Object: section 4.8.27). Fails where memory runs out.
fn api_key_doubts<'a>(
    alloc: Global,
    tree: &'a Value,
    inner: Vec<Outcome<'a>>,
) -> Result<Vec<Misfit<'a>>, AllocError>
    requires { stacked inner.items
        ≡ all_doubted (object_places (api_key_layout (members_at (view tree.now))) (view tree.now)) }
    ensures { IfOk result
        (λ v. misfits_of v.items ≡ specs.api_key_doubts (members_at (view tree.now)) (specs.doubters (members_at (view tree.now)))) }
{
    match chosen_at(tree, "in", api_key_places()) {
        Some(Kind::Named(object_type)) => doubts_by_rows(alloc, rows(object_type), tree, inner),
        _ => Ok(Vec::new(alloc)),
    }
}

/// What is in doubt in a security scheme, by its member `type` (Security Scheme Object: section 4.8.27). Fails where memory runs out.
fn scheme_doubts<'a>(
    alloc: Global,
    tree: &'a Value,
    inner: Vec<Outcome<'a>>,
) -> Result<Vec<Misfit<'a>>, AllocError>
    requires { stacked inner.items
        ≡ all_doubted (object_places (kind_layout kinds.security_scheme (members_at (view tree.now))) (view tree.now)) }
    ensures { IfOk result
        (λ v. misfits_of v.items
        ≡ specs.own_doubts (members_at (view tree.now)) (checks (members_at (view tree.now))) (specs.doubters (members_at (view tree.now))) kinds.security_scheme) }
{
    match chosen_at(tree, "type", scheme_types()) {
        Some(Kind::ApiKey) => api_key_doubts(alloc, tree, inner),
        Some(Kind::Named(object_type)) => doubts_by_rows(alloc, rows(object_type), tree, inner),
        _ => Ok(Vec::new(alloc)),
    }
}

/// What is in doubt in an object that is no reference. Fails where memory runs out.
fn own_doubts<'a>(
    alloc: Global,
    kind: Kind,
    tree: &'a Value,
    inner_misfits: &[Outcome<'a>],
    inner: Vec<Outcome<'a>>,
) -> Result<Vec<Misfit<'a>>, AllocError>
    requires own { takes_references (kind_of kind) ≡ false }
    requires misfits { stacked inner_misfits.now
        ≡ outcomes (object_places (kind_layout (kind_of kind) (members_at (view tree.now))) (view tree.now)) }
    requires inner { stacked inner.items
        ≡ all_doubted (object_places (kind_layout (kind_of kind) (members_at (view tree.now))) (view tree.now)) }
    ensures { IfOk result
        (λ v. misfits_of v.items
        ≡ specs.own_doubts (members_at (view tree.now)) (checks (members_at (view tree.now))) (specs.doubters (members_at (view tree.now))) (kind_of kind)) }
{
    match kind {
        Kind::MapOf(_) | Kind::OrderedMapOf(_) | Kind::EntriesOf(_) | Kind::Flows => {
            join_all(alloc, inner)
        }
        Kind::Named(object_type) => doubts_by_rows(alloc, rows(object_type), tree, inner),
        Kind::Schema => schema_doubts(alloc, tree, inner_misfits, inner),
        Kind::SecurityScheme => scheme_doubts(alloc, tree, inner),
        Kind::ApiKey => api_key_doubts(alloc, tree, inner),
        _ => Ok(Vec::new(alloc)),
    }
}

/// What is in doubt in an object that names `$ref`, where a reference may stand (Reference Object: section 4.8.23), of what is in doubt in
/// it as no reference. Fails where memory runs out.
fn reference_doubts<'a>(
    alloc: Global,
    kind: Kind,
    tree: &'a Value,
    inner_misfits: &[Outcome<'a>],
    own: Vec<Misfit<'a>>,
) -> Result<Vec<Misfit<'a>>, AllocError>
    requires own { takes_references (kind_of kind) ≡ false }
    requires misfits { stacked inner_misfits.now
        ≡ outcomes (object_places (kind_layout (kind_of kind) (members_at (view tree.now))) (view tree.now)) }
    ensures { IfOk result
        (λ v. misfits_of v.items
        ≡ specs.reference_doubts true (misfits.table_misfits kinds.reference_object (checks (members_at (view tree.now))))
        (misfits.object_misfits (members_at (view tree.now)) (checks (members_at (view tree.now))) (kind_of kind)) (misfits_of own.entry.items)) }
{
    let mut reference = reference_misfits(alloc, tree)?;
    if is_fit(&reference) {
        return Ok(reference);
    }
    let otherwise = own_misfits(alloc, kind, tree, all_copied(alloc, inner_misfits)?)?;
    if !is_fit(&otherwise) {
        return Ok(own);
    }
    let mut later = own;
    reference.append(&mut later)?;
    Ok(reference)
}

/// What is in doubt in an object of a kind. Fails where memory runs out.
fn object_doubts<'a>(
    alloc: Global,
    kind: Kind,
    tree: &'a Value,
    inner_misfits: &[Outcome<'a>],
    inner: Vec<Outcome<'a>>,
) -> Result<Vec<Misfit<'a>>, AllocError>
    requires misfits { stacked inner_misfits.now
        ≡ outcomes (object_places (kind_layout (kind_of kind) (members_at (view tree.now))) (view tree.now)) }
    requires inner { stacked inner.items
        ≡ all_doubted (object_places (kind_layout (kind_of kind) (members_at (view tree.now))) (view tree.now)) }
    ensures { IfOk result
        (λ v. misfits_of v.items
        ≡ specs.object_doubts (members_at (view tree.now)) (checks (members_at (view tree.now))) (specs.doubters (members_at (view tree.now))) (kind_of kind)) }
{
    let own = own_doubts(alloc, object_kind(kind), tree, inner_misfits, inner)?;
    if takes_references(kind) && tree.get("$ref").is_some() {
        return reference_doubts(alloc, object_kind(kind), tree, inner_misfits, own);
    }
    Ok(own)
}

/// What is in doubt in an array of a kind. Fails where memory runs out.
fn array_doubts<'a>(
    alloc: Global,
    kind: Kind,
    tree: &Value,
    inner: Vec<Outcome<'a>>,
) -> Result<Vec<Misfit<'a>>, AllocError>
    requires own { is_reference (kind_of kind) ≡ false }
    requires inner { stacked inner.items
        ≡ all_doubted (array_places (item_target (of_kind (kind_of kind))) (items_at (view tree.now))) }
    ensures { IfOk result
        (λ v. misfits_of v.items ≡ specs.array_doubts (specs.item_doubters (items_at (view tree.now))) (kind_of kind)) }
{
    let _tree = tree;
    match kind {
        Kind::ListOf(_) => join_all(alloc, inner),
        _ => Ok(Vec::new(alloc)),
    }
}

/// What is in doubt in a tree of a kind. Fails where memory runs out.
fn document_doubts<'a>(
    alloc: Global,
    kind: Kind,
    tree: &'a Value,
    inner_misfits: &[Outcome<'a>],
    inner: Vec<Outcome<'a>>,
) -> Result<Vec<Misfit<'a>>, AllocError>
    requires misfits { stacked inner_misfits.now ≡ outcomes (inner_places (of_kind (kind_of kind)) (view tree.now)) }
    requires inner { stacked inner.items ≡ all_doubted (inner_places (of_kind (kind_of kind)) (view tree.now)) }
    ensures { IfOk result (λ v. misfits_of v.items ≡ specs.doubts (kind_of kind) (view tree.now)) }
{
    match tree {
        Value::Array(_) => array_doubts(alloc, own_kind(kind), tree, inner),
        Value::Object(_) => object_doubts(alloc, kind, tree, inner_misfits, inner),
        Value::Null | Value::Bool(_) | Value::Number(_) | Value::String(_) => Ok(Vec::new(alloc)),
    }
}

/// What is in doubt of an OAuth flow under a key that names no type (OAuth Flow Object: section 4.8.29): where it reads as a flow, that key.
/// Fails where memory runs out.
fn any_flow_doubts<'a>(
    alloc: Global,
    tree: &'a Value,
    inner_misfits: &[Outcome<'a>],
) -> Result<Vec<Misfit<'a>>, AllocError>
    requires { stacked inner_misfits.now ≡ outcomes (inner_places any_flow (view tree.now)) }
    ensures { IfOk result (λ v. misfits_of v.items ≡ target_doubts any_flow (view tree.now)) }
{
    let found = any_flow_misfits(alloc, tree, all_copied(alloc, inner_misfits)?)?;
    if is_fit(&found) {
        return here(alloc, Cause::UnknownName(flow_names()));
    }
    Ok(Vec::new(alloc))
}

/// What is in doubt in a tree, of what does not fit and of what is in doubt inside it. Fails where memory runs out.
pub(crate) fn doubts_from<'a>(
    alloc: Global,
    target: Target,
    tree: &'a Value,
    inner_misfits: &[Outcome<'a>],
    inner: Vec<Outcome<'a>>,
) -> Result<Vec<Misfit<'a>>, AllocError>
    requires misfits { stacked inner_misfits.now ≡ outcomes (inner_places (target_of target) (view tree.now)) }
    requires inner { stacked inner.items ≡ all_doubted (inner_places (target_of target) (view tree.now)) }
    ensures { IfOk result (λ v. misfits_of v.items ≡ target_doubts (target_of target) (view tree.now)) }
{
    match target {
        Target::Document(kind) => document_doubts(alloc, kind, tree, inner_misfits, inner),
        Target::AnyFlow => any_flow_doubts(alloc, tree, inner_misfits),
        Target::NoFraction => Ok(Vec::new(alloc)),
    }
}
