//! What does not fit in a schema, of which five tables are alternatives, and in an OAuth flow under a key that names no type.
ghost use Rattle.std.specs.Prelude.{◌≡◌, IfOk, codes};
ghost use Rattle.std.specs.List.{list_any};
ghost use Rattle.serde_json.specs.Find.{get};
ghost use Rattle.serde_json.specs.View.{view};
ghost use Rattle.utoipa_base.specs.Choices.{flow_keys};
ghost use Rattle.utoipa_check.specs.Misfits as specs;
ghost use Rattle.utoipa_check.specs.Places.{outcomes, fields_places, inner_places, any_flow, found, members_at};
ghost use Rattle.utoipa_check.specs.Taken.{taken_schema};
ghost use Rattle.utoipa_check.specs.Views.{misfits_of, stacked};
ghost use Rattle.utoipa_tables.specs.Tables.{schema_type, schema_members, flow_members, flow_kinds};

use crate::misfit::{Cause, Misfit, Outcome, here, is_fit};
use crate::rows::{fits_rows, misfits_by_rows};
use serde_json::Value;
use std::alloc::{AllocError, Global};
use utoipa_tables::{FlowAlternative, Kind, SchemaAlternative, flow_kinds, flow_rows, schema_rows};

static SCHEMA: [Kind; 1] = [Kind::Schema];

/// Whether the member `type` of a tree is the word `array`.
fn says_array(tree: &Value) -> bool
    ensures { result ≡ specs.says_array (get (codes "type") (view tree.now)) }
{
    match tree.get("type") {
        Some(member) => match member.as_str() {
            Some(text) => text == "array",
            None => false,
        },
        None => false,
    }
}

/// The alternative that an object was meant for (Schema Object: section 4.8.24).
pub(crate) fn meant_schema(tree: &Value) -> SchemaAlternative
    ensures { schema_type result ≡ specs.meant_schema (members_at (view tree.now)) }
{
    if tree.get("oneOf").is_some() {
        SchemaAlternative::OneOf
    } else if tree.get("allOf").is_some() {
        SchemaAlternative::AllOf
    } else if tree.get("anyOf").is_some() {
        SchemaAlternative::AnyOf
    } else if tree.get("items").is_some() || tree.get("prefixItems").is_some() || says_array(tree) {
        SchemaAlternative::Array
    } else {
        SchemaAlternative::Object
    }
}

/// Whether an object may be a schema of any other type: it names its type, or no keyword of the others.
pub(crate) fn may_be_object(tree: &Value) -> bool
    ensures { result ≡ specs.may_be_object (members_at (view tree.now)) }
{
    tree.get("type").is_some()
        || !(tree.get("$ref").is_some()
            || tree.get("items").is_some()
            || tree.get("oneOf").is_some()
            || tree.get("allOf").is_some()
            || tree.get("anyOf").is_some())
}

/// Whether an object fits an alternative of a schema.
pub(crate) fn fits_schema(tree: &Value, inner: &[Outcome<'_>]) -> bool
    requires { stacked inner.now ≡ outcomes (fields_places schema_members (view tree.now)) }
    ensures { result ≡ specs.fits_schema (members_at (view tree.now)) (specs.checks (members_at (view tree.now))) }
{
    fits_rows(schema_rows(SchemaAlternative::OneOf), tree, inner)
        || fits_rows(schema_rows(SchemaAlternative::AllOf), tree, inner)
        || fits_rows(schema_rows(SchemaAlternative::AnyOf), tree, inner)
        || fits_rows(schema_rows(SchemaAlternative::Array), tree, inner)
        || may_be_object(tree) && fits_rows(schema_rows(SchemaAlternative::Object), tree, inner)
}

/// The alternative that an object is read by as a schema (Schema Object: OpenAPI 3.1, section 4.8.24): the first that fits, or of one that
/// none fits the one that was meant.
pub(crate) fn taken_schema(tree: &Value, inner: &[Outcome<'_>]) -> SchemaAlternative
    requires { stacked inner.now ≡ outcomes (fields_places schema_members (view tree.now)) }
    ensures { schema_type result
        ≡ taken_schema (members_at (view tree.now)) (specs.checks (members_at (view tree.now))) }
{
    if fits_rows(schema_rows(SchemaAlternative::OneOf), tree, inner) {
        return SchemaAlternative::OneOf;
    }
    if fits_rows(schema_rows(SchemaAlternative::AllOf), tree, inner) {
        return SchemaAlternative::AllOf;
    }
    if fits_rows(schema_rows(SchemaAlternative::AnyOf), tree, inner) {
        return SchemaAlternative::AnyOf;
    }
    if fits_rows(schema_rows(SchemaAlternative::Array), tree, inner) {
        return SchemaAlternative::Array;
    }
    if may_be_object(tree) && fits_rows(schema_rows(SchemaAlternative::Object), tree, inner) {
        return SchemaAlternative::Object;
    }
    meant_schema(tree)
}

/// What does not fit in a schema: of one that fits no alternative, what does not fit the one that was meant. Fails where memory runs out.
pub(crate) fn schema_misfits<'a>(
    alloc: Global,
    tree: &'a Value,
    inner: Vec<Outcome<'a>>,
) -> Result<Vec<Misfit<'a>>, AllocError>
    requires { stacked inner.items ≡ outcomes (fields_places schema_members (view tree.now)) }
    ensures { IfOk result
        (λ v. misfits_of v.items
        ≡ specs.schema_misfits (members_at (view tree.now)) (specs.checks (members_at (view tree.now)))) }
{
    if fits_schema(tree, &inner) {
        return Ok(Vec::new(alloc));
    }
    let meant = misfits_by_rows(alloc, schema_rows(meant_schema(tree)), tree, inner)?;
    if is_fit(&meant) {
        return here(alloc, Cause::NoAlternative(&SCHEMA));
    }
    Ok(meant)
}

/// Whether an object fits a type of an OAuth flow.
fn fits_any_flow(tree: &Value, inner: &[Outcome<'_>]) -> bool
    requires { stacked inner.now ≡ outcomes (fields_places flow_members (view tree.now)) }
    ensures { result ≡ list_any
        (λ k. specs.is_fit (specs.object_misfits (members_at (view tree.now)) (specs.checks (members_at (view tree.now))) k)) (flow_kinds flow_keys) }
{
    fits_rows(flow_rows(FlowAlternative::Implicit), tree, inner)
        || fits_rows(flow_rows(FlowAlternative::Password), tree, inner)
        || fits_rows(flow_rows(FlowAlternative::ClientCredentials), tree, inner)
        || fits_rows(flow_rows(FlowAlternative::AuthorizationCode), tree, inner)
        || fits_rows(flow_rows(FlowAlternative::DeviceAuthorization), tree, inner)
}

/// What does not fit in an OAuth flow under a key that names no type (OAuth Flow Object: section 4.8.29). Fails where memory runs out.
pub(crate) fn any_flow_misfits<'a>(
    alloc: Global,
    tree: &'a Value,
    inner: Vec<Outcome<'a>>,
) -> Result<Vec<Misfit<'a>>, AllocError>
    requires { stacked inner.items ≡ outcomes (inner_places any_flow (view tree.now)) }
    ensures { IfOk result (λ v. misfits_of v.items ≡ found any_flow (view tree.now)) }
{
    if !tree.is_object() {
        return here(alloc, Cause::NoAlternative(flow_kinds()));
    }
    if fits_any_flow(tree, &inner) {
        return Ok(Vec::new(alloc));
    }
    here(alloc, Cause::NoAlternative(flow_kinds()))
}
