//! What does not fit in an object of a kind.
ghost use Rattle.std.specs.Prelude.{◌≡◌, ◌++◌, IfOk, OnOk, true, false};
ghost use Rattle.serde_json.specs.View.{view};
ghost use Rattle.utoipa_base.specs.Kinds as kinds;
ghost use Rattle.utoipa_check.specs.Misfits as specs;
ghost use Rattle.utoipa_check.specs.Places.{outcomes, object_places, kind_layout, api_key_layout, alternative_layout, members_at};
ghost use Rattle.utoipa_check.specs.Rows.{row_misfits_at};
ghost use Rattle.utoipa_check.specs.Views.{misfits_of, stacked, is_plain_kind, takes_references, object_kind, some_kind};
ghost use Rattle.utoipa_tables.specs.Tables.{kind_of};

use crate::choice::{Choosing, choose};
use crate::leaf::{own_kind, plain_misfits};
use crate::misfit::{Cause, Misfit, Outcome, Step, here, is_fit, join_all, put_here, put_under};
use crate::rows::{has_to_fit, is_required, misfits_by_rows};
use crate::schema::schema_misfits;
use serde_json::Value;
use std::alloc::{AllocError, Global};
use utoipa_tables::{
    Kind, ObjectType, Row, api_key_place_words, api_key_places, rows, scheme_type_words,
    scheme_types,
};

/// Whether an object of the kind may be a reference.
pub(crate) fn takes_references(kind: Kind) -> bool
    ensures { result ≡ takes_references (kind_of kind) }
{
    matches!(
        kind,
        Kind::RefOr(_) | Kind::ArrayItems | Kind::AdditionalProperties
    )
}

/// The kind of an object that is no reference.
pub(crate) fn object_kind(kind: Kind) -> Kind
    ensures kind { kind_of result ≡ object_kind (kind_of kind) }
    ensures own { takes_references (kind_of result) ≡ false }
{
    match own_kind(kind) {
        Kind::ArrayItems | Kind::AdditionalProperties => Kind::Schema,
        other => other,
    }
}

/// Adds what does not fit by one row, whose member is a text, a flag or anything. Fails where memory runs out.
fn put_plain_row<'a>(
    alloc: Global,
    row: &'static Row,
    tree: &'a Value,
    found: &mut Vec<Misfit<'a>>,
) -> Result<(), AllocError>
    requires { is_plain_kind (kind_of row.now.kind) ≡ true }
    ensures { OnOk result (misfits_of found.new.items
        ≡ misfits_of found.old.items ++ row_misfits_at row.now (view tree.now)) }
{
    match tree.get(row.name) {
        None => {
            if is_required(row.mark) {
                put_here(alloc, Cause::Absent(row.name), found)?;
            }
        }
        Some(member) => {
            if has_to_fit(row.mark, member.is_null()) {
                let inner = plain_misfits(alloc, row.kind, member)?;
                put_under(Step::Name(row.name), inner, found)?;
            }
        }
    }
    Ok(())
}

/// What does not fit in a reference (Reference Object: section 4.8.23). Fails where memory runs out.
pub(crate) fn reference_misfits<'a>(
    alloc: Global,
    tree: &'a Value,
) -> Result<Vec<Misfit<'a>>, AllocError>
    ensures { IfOk result
        (λ v. misfits_of v.items
        ≡ specs.table_misfits kinds.reference_object (specs.checks (members_at (view tree.now)))) }
{
    let mut found = Vec::new(alloc);
    let rows = rows(ObjectType::ReferenceObject);
    for row in rows {
        put_plain_row(alloc, row, tree, &mut found)?;
    }
    Ok(found)
}

/// What does not fit in an alternative that a word has chosen. Fails where memory runs out.
fn alternative_misfits<'a>(
    alloc: Global,
    kind: Kind,
    tree: &'a Value,
    inner: Vec<Outcome<'a>>,
) -> Result<Vec<Misfit<'a>>, AllocError>
    requires { stacked inner.items ≡ outcomes (object_places (alternative_layout (some_kind kind)) (view tree.now)) }
    ensures { IfOk result
        (λ v. misfits_of v.items
        ≡ specs.alternative_misfits (specs.checks (members_at (view tree.now))) (kind_of kind)) }
{
    match kind {
        Kind::Named(object_type) => misfits_by_rows(alloc, rows(object_type), tree, inner),
        _ => here(alloc, Cause::NoAlternative(&[])),
    }
}

/// What does not fit in an API key, by its member `in` (Security Scheme Object: section 4.8.27). Fails where memory runs out.
fn api_key_misfits<'a>(
    alloc: Global,
    tree: &'a Value,
    inner: Vec<Outcome<'a>>,
) -> Result<Vec<Misfit<'a>>, AllocError>
    requires { stacked inner.items
        ≡ outcomes (object_places (api_key_layout (members_at (view tree.now))) (view tree.now)) }
    ensures { IfOk result
        (λ v. misfits_of v.items
        ≡ specs.api_key_misfits (members_at (view tree.now)) (specs.checks (members_at (view tree.now)))) }
{
    match choose(alloc, tree, "in", api_key_places(), api_key_place_words())? {
        Choosing::Of(kind) => alternative_misfits(alloc, kind, tree, inner),
        Choosing::Nothing(found) => Ok(found),
    }
}

/// What does not fit in a security scheme, by its member `type` (Security Scheme Object: section 4.8.27). Fails where memory runs out.
fn security_scheme_misfits<'a>(
    alloc: Global,
    tree: &'a Value,
    inner: Vec<Outcome<'a>>,
) -> Result<Vec<Misfit<'a>>, AllocError>
    requires { stacked inner.items
        ≡ outcomes (object_places (kind_layout kinds.security_scheme (members_at (view tree.now))) (view tree.now)) }
    ensures { IfOk result
        (λ v. misfits_of v.items
        ≡ specs.security_scheme_misfits (members_at (view tree.now)) (specs.checks (members_at (view tree.now)))) }
{
    match choose(alloc, tree, "type", scheme_types(), scheme_type_words())? {
        Choosing::Of(Kind::ApiKey) => api_key_misfits(alloc, tree, inner),
        Choosing::Of(kind) => alternative_misfits(alloc, kind, tree, inner),
        Choosing::Nothing(found) => Ok(found),
    }
}

/// What does not fit in an object that is no reference. Fails where memory runs out.
pub(crate) fn own_misfits<'a>(
    alloc: Global,
    kind: Kind,
    tree: &'a Value,
    inner: Vec<Outcome<'a>>,
) -> Result<Vec<Misfit<'a>>, AllocError>
    requires own { takes_references (kind_of kind) ≡ false }
    requires inner { stacked inner.items
        ≡ outcomes (object_places (kind_layout (kind_of kind) (members_at (view tree.now))) (view tree.now)) }
    ensures { IfOk result
        (λ v. misfits_of v.items
        ≡ specs.object_misfits (members_at (view tree.now)) (specs.checks (members_at (view tree.now))) (kind_of kind)) }
{
    match kind {
        Kind::Any => Ok(Vec::new(alloc)),
        Kind::MapOf(_) | Kind::OrderedMapOf(_) | Kind::EntriesOf(_) | Kind::Flows => {
            join_all(alloc, inner)
        }
        Kind::Named(object_type) => misfits_by_rows(alloc, rows(object_type), tree, inner),
        Kind::Schema => schema_misfits(alloc, tree, inner),
        Kind::SecurityScheme => security_scheme_misfits(alloc, tree, inner),
        Kind::ApiKey => api_key_misfits(alloc, tree, inner),
        _ => here(alloc, Cause::Expected(kind)),
    }
}

/// What does not fit in an object that names `$ref`, where a reference may stand: what does not fit in a reference, unless the object
/// fits otherwise. Fails where memory runs out.
fn reference_or_own_misfits<'a>(
    alloc: Global,
    kind: Kind,
    tree: &'a Value,
    inner: Vec<Outcome<'a>>,
) -> Result<Vec<Misfit<'a>>, AllocError>
    requires own { takes_references (kind_of kind) ≡ false }
    requires inner { stacked inner.items
        ≡ outcomes (object_places (kind_layout (kind_of kind) (members_at (view tree.now))) (view tree.now)) }
    ensures { IfOk result
        (λ v. misfits_of v.items
        ≡ specs.reference_or true (specs.table_misfits kinds.reference_object (specs.checks (members_at (view tree.now))))
        (specs.object_misfits (members_at (view tree.now)) (specs.checks (members_at (view tree.now))) (kind_of kind))) }
{
    let reference = reference_misfits(alloc, tree)?;
    if is_fit(&reference) {
        return Ok(reference);
    }
    let own = own_misfits(alloc, kind, tree, inner)?;
    if is_fit(&own) {
        return Ok(own);
    }
    Ok(reference)
}

/// What does not fit in an object of a kind. Fails where memory runs out.
pub(crate) fn object_misfits<'a>(
    alloc: Global,
    kind: Kind,
    tree: &'a Value,
    inner: Vec<Outcome<'a>>,
) -> Result<Vec<Misfit<'a>>, AllocError>
    requires { stacked inner.items
        ≡ outcomes (object_places (kind_layout (kind_of kind) (members_at (view tree.now))) (view tree.now)) }
    ensures { IfOk result
        (λ v. misfits_of v.items
        ≡ specs.object_misfits (members_at (view tree.now)) (specs.checks (members_at (view tree.now))) (kind_of kind)) }
{
    if takes_references(kind) && tree.get("$ref").is_some() {
        return reference_or_own_misfits(alloc, object_kind(kind), tree, inner);
    }
    own_misfits(alloc, object_kind(kind), tree, inner)
}
