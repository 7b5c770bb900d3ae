//! As what each tree in a tree is looked at, by the member tables.
ghost use Rattle.std.specs.Prelude.{◌≡◌};
ghost use Rattle.serde_json.specs.View.{view};
ghost use Rattle.utoipa_adapt.specs.Adapted as specs;
ghost use Rattle.utoipa_adapt.specs.Views.{set_of};
ghost use Rattle.utoipa_tables.specs.Tables.{kind_of, members_of};

use crate::looking::{has, says};
use crate::rules::RuleSet;
use serde_json::Value;
use utoipa_base::is_extension_name;
use utoipa_tables::{Kind, ObjectType, Row, SchemaAlternative, rows, schema_rows};

/// The kind of a reference that stands where a tree of a kind may.
fn reference_kind(set: RuleSet, kind: Kind) -> Kind
    ensures { kind_of result ≡ specs.reference_kind (set_of set) (kind_of kind) }
{
    match set {
        RuleSet::Model => Kind::Any,
        RuleSet::Upgrade => match kind {
            Kind::Named(ObjectType::PathItemObject | ObjectType::MediaTypeObject) => kind,
            _ => Kind::Named(ObjectType::ReferenceObject),
        },
    }
}

/// The kind of a schema where the model reads no reference.
fn schema_kind(set: RuleSet, is_reference: bool) -> Kind
    ensures { kind_of result ≡ specs.schema_kind (set_of set) is_reference }
{
    match set {
        RuleSet::Upgrade if is_reference => Kind::Named(ObjectType::ReferenceObject),
        _ => Kind::Schema,
    }
}

/// The kind of a tree at a place of a kind, by whether it has a member `$ref`.
fn taken_kind(set: RuleSet, is_reference: bool, kind: Kind) -> Kind
    ensures { kind_of result ≡ specs.taken_kind (set_of set) is_reference (kind_of kind) }
{
    match kind {
        Kind::RefOr(own) => {
            if is_reference {
                reference_kind(set, *own)
            } else {
                taken_kind(set, is_reference, *own)
            }
        }
        Kind::ArrayItems | Kind::AdditionalProperties => {
            if is_reference {
                reference_kind(set, kind)
            } else {
                kind
            }
        }
        Kind::Schema => schema_kind(set, is_reference),
        _ => kind,
    }
}

/// The kind of a security scheme, by its member `type`; any other kind stays.
fn scheme_kind(kind: Kind, tree: &Value) -> Kind
    ensures { kind_of result ≡ specs.scheme_kind (kind_of kind) (view tree.now) }
{
    match kind {
        Kind::SecurityScheme => {
            if says(tree, "type", "http") {
                Kind::Named(ObjectType::HttpScheme)
            } else {
                Kind::Any
            }
        }
        _ => kind,
    }
}

/// The kind of a tree at a place of a kind. What is left as it is has the kind `Any`.
pub(crate) fn own_kind(set: RuleSet, kind: Kind, tree: &Value) -> Kind
    ensures { kind_of result ≡ specs.own_kind (set_of set) (kind_of kind) (view tree.now) }
{
    scheme_kind(taken_kind(set, has(tree, "$ref"), kind), tree)
}

/// The kind of the items of an array of a kind.
pub(crate) fn item_kind(kind: Kind) -> Kind
    ensures { kind_of result ≡ specs.item_kind (kind_of kind) }
{
    match kind {
        Kind::ListOf(item) => *item,
        _ => Kind::Any,
    }
}

/// The kind that stands beside a name.
fn kind_in(name: &str, rows: &[Row]) -> Kind
    ensures { kind_of result ≡ specs.kind_in name.now (members_of rows.now) }
{
    for row in rows {
        if name == row.name {
            return row.kind;
        }
    }
    Kind::Any
}

/// The kind of a member of an object of a kind.
pub(crate) fn member_kind(kind: Kind, name: &str) -> Kind
    ensures { kind_of result ≡ specs.member_kind (kind_of kind) name.now }
{
    match kind {
        Kind::MapOf(entry) => *entry,
        Kind::OrderedMapOf(entry) => *entry,
        Kind::EntriesOf(entry) => {
            if is_extension_name(name) {
                Kind::Any
            } else {
                *entry
            }
        }
        Kind::Named(object_type) => kind_in(name, rows(object_type)),
        Kind::Schema | Kind::ArrayItems | Kind::AdditionalProperties => {
            kind_in(name, schema_rows(SchemaAlternative::OneOf))
        }
        _ => Kind::Any,
    }
}
