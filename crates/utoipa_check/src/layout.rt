//! Which members of an object are looked at, and as what.
ghost use Rattle.std.specs.Prelude.{◌≡◌, option_map};
ghost use Rattle.serde_json.specs.View.{view};
ghost use Rattle.utoipa_base.specs.Choices as choices;
ghost use Rattle.utoipa_check.specs.Places as specs;
ghost use Rattle.utoipa_check.specs.Views.{target_of, layout_of, some_target};
ghost use Rattle.utoipa_tables.specs.Tables.{kind_of, choices_of};

use crate::choice::{chosen, chosen_at};
use serde_json::Value;
use utoipa_base::is_extension_name;
use utoipa_tables::{
    FlowAlternative, Kind, Row, SchemaAlternative, Vocabulary, api_key_places, flow_keys,
    flow_rows, rows, schema_rows, scheme_types,
};

/// What a tree is looked at as.
#[derive(Clone, Copy, Drop)]
pub(crate) enum Target {
    /// A document of a kind.
    Document(Kind),
    /// An OAuth flow under a key that names no type.
    AnyFlow,
    /// A tree without fractions.
    NoFraction,
}

/// Which members of an object are looked at, and as what.
#[derive(Clone, Copy, Drop)]
pub(crate) enum Layout {
    /// No member.
    Nothing,
    /// Every member.
    EachMember(Target),
    /// Every member that is no extension.
    EachEntry(Target),
    /// Every member, as an OAuth flow of the type that its name chooses.
    EachFlow,
    /// The members that some rows name.
    SomeMembers(&'static [Row]),
}

/// What the items of an array are looked at as.
pub(crate) fn item_target(target: Target) -> Option<Target>
    ensures { some_target result ≡ specs.item_target (target_of target) }
{
    match target {
        Target::Document(kind) => match item_kind(kind) {
            Some(item) => Some(Target::Document(item)),
            None => None,
        },
        Target::AnyFlow => None,
        Target::NoFraction => Some(Target::NoFraction),
    }
}

/// The kind of the items of an array of a kind.
fn item_kind(kind: Kind) -> Option<Kind>
    ensures { option_map kind_of result ≡ specs.item_kind (kind_of kind) }
{
    match kind {
        Kind::ListOf(item) => Some(*item),
        Kind::SchemaType => Some(Kind::WordOf(Vocabulary::TypeWord)),
        Kind::RefOr(own) => item_kind(*own),
        _ => None,
    }
}

/// What a member is looked at as, by its name.
pub(crate) fn target_at(layout: Layout, name: &str) -> Option<Target>
    ensures { some_target result ≡ specs.target_at (layout_of layout) name.now }
{
    match layout {
        Layout::Nothing => None,
        Layout::EachMember(target) => Some(target),
        Layout::EachEntry(target) => {
            if is_extension_name(name) {
                None
            } else {
                Some(target)
            }
        }
        Layout::EachFlow => Some(flow_target(name)),
        Layout::SomeMembers(_) => None,
    }
}

/// An OAuth flow of the type that its key chooses (OAuth Flows Object: section 4.8.28).
fn flow_target(key: &str) -> Target
    ensures { target_of result ≡ specs.flow_target (choices.chosen key.now choices.flow_keys) }
{
    match chosen(key, flow_keys()) {
        Some(kind) => Target::Document(kind),
        None => Target::AnyFlow,
    }
}

/// The members of an object that are looked at.
pub(crate) fn object_layout(target: Target, tree: &Value) -> Layout
    ensures { layout_of result ≡ specs.layout (target_of target) (specs.members_at (view tree.now)) }
{
    match target {
        Target::Document(kind) => kind_layout(kind, tree),
        Target::AnyFlow => Layout::SomeMembers(flow_rows(FlowAlternative::Implicit)),
        Target::NoFraction => Layout::EachMember(Target::NoFraction),
    }
}

/// The members of an object of a kind that are looked at, whatever alternative it turns out to be.
fn kind_layout(kind: Kind, tree: &Value) -> Layout
    ensures { layout_of result ≡ specs.kind_layout (kind_of kind) (specs.members_at (view tree.now)) }
{
    match kind {
        Kind::MapOf(entry) => Layout::EachMember(Target::Document(*entry)),
        Kind::OrderedMapOf(entry) => Layout::EachMember(Target::Document(*entry)),
        Kind::EntriesOf(entry) => Layout::EachEntry(Target::Document(*entry)),
        Kind::RefOr(own) => kind_layout(*own, tree),
        Kind::Named(object_type) => Layout::SomeMembers(rows(object_type)),
        Kind::Schema | Kind::ArrayItems | Kind::AdditionalProperties => {
            Layout::SomeMembers(schema_rows(SchemaAlternative::OneOf))
        }
        Kind::SecurityScheme => scheme_layout(tree),
        Kind::ApiKey => api_key_layout(tree),
        Kind::Flows => Layout::EachFlow,
        _ => Layout::Nothing,
    }
}

/// The members of a security scheme, by its member `type` (Security Scheme Object: section 4.8.27).
fn scheme_layout(tree: &Value) -> Layout
    ensures { layout_of result ≡ specs.kind_layout (kind_of Kind.SecurityScheme) (specs.members_at (view tree.now)) }
{
    match chosen_at(tree, "type", scheme_types()) {
        Some(Kind::ApiKey) => api_key_layout(tree),
        Some(Kind::Named(object_type)) => Layout::SomeMembers(rows(object_type)),
        _ => Layout::Nothing,
    }
}

/// The members of an API key, by its member `in` (Security Scheme Object: section 4.8.27).
fn api_key_layout(tree: &Value) -> Layout
    ensures { layout_of result ≡ specs.api_key_layout (specs.members_at (view tree.now)) }
{
    match chosen_at(tree, "in", api_key_places()) {
        Some(Kind::Named(object_type)) => Layout::SomeMembers(rows(object_type)),
        _ => Layout::Nothing,
    }
}
