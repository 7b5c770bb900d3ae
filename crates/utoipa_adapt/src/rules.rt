//! The rules: which trees each changes, and which rules there are of a tree of a kind.
ghost use Rattle.std.specs.Prelude.{◌≡◌};
ghost use Rattle.std.specs.Str.{bytes_eq};
ghost use Rattle.std.specs.List.{list_any};
ghost use Rattle.serde_json.specs.View.{view};
ghost use Rattle.utoipa_adapt.specs.Rules as specs;
ghost use Rattle.utoipa_adapt.specs.Trees.{is_text};
ghost use Rattle.utoipa_adapt.specs.Views.{set_of, rule_of, all_rules};
ghost use Rattle.utoipa_base.specs.Kinds as kinds;
ghost use Rattle.utoipa_base.specs.Rows.{texts};
ghost use Rattle.utoipa_tables.specs.Tables.{kind_of, type_of};

use crate::looking::{has, has_any, is_one_of, lacks, lacks_null_at, says};
use crate::of_3_0::{
    excludes, excludes_nothing, is_binary, is_byte, is_nullable_idle, is_nullable_reference,
    is_nullable_type, is_reference_of_two, is_version_of_3_0,
};
use serde_json::Value;
use utoipa_tables::{Kind, ObjectType, Vocabulary, words};

/// The rules that a tree is changed by.
#[derive(Clone, Copy, Debug, Drop, PartialEq, Eq)]
pub enum RuleSet {
    /// Those that give a tree the form that the model reads.
    Model,
    /// Those that upgrade a tree of OpenAPI 3.0 to one of 3.1.
    Upgrade,
}

/// A rule that gives a tree another form, of which the standard says that it means the same. Two go by what writers mean instead: `NullInEnum` and
/// `NullableReference`. Sections are those of OpenAPI 3.1; for a rule of the upgrade those of 3.0.3.
#[derive(Clone, Copy, Debug, Drop, PartialEq, Eq)]
pub enum Rule {
    /// An OpenAPI Object without `paths` gets an empty one (OpenAPI 3.1, section 4.8.1).
    PathsAbsent,
    /// An Operation Object without `responses` gets an empty one (section 4.8.10).
    ResponsesAbsent,
    /// A Parameter Object without `required` gets false (section 4.8.12).
    RequiredAbsent,
    /// A version `3.1` or `3.2` gets a third number, 0 (section 4.1).
    VersionOfTwo,
    /// The scheme of HTTP authentication is written in lower case (section 4.8.27, and RFC 9110, section 11.1).
    SchemeInOtherCase,
    /// The schema `true` becomes the empty schema (JSON Schema 2020-12, Core, section 4.3.2).
    SchemaTrue,
    /// A `const` without an `enum` becomes an `enum` of its value (JSON Schema 2020-12, Validation, section 6.1.3).
    ConstAlone,
    /// A schema of an array without `items` gets the empty schema there (JSON Schema 2020-12, Core, section 10.3.1.2).
    ItemsAbsent,
    /// A version 3.0 becomes `3.1.0` (section 4.1).
    VersionOf30,
    /// The members beside `$ref` go, which 3.0 ignores (section 4.7.23).
    BesideReference,
    /// The format `binary` of a text becomes a media type (section 4.4).
    BinaryFormat,
    /// The format `byte` of a text becomes the encoding `base64` (section 4.4).
    ByteFormat,
    /// The bound of `minimum` that is excluded becomes that of `exclusiveMinimum` (section 4.7.24).
    ExclusiveMinimum,
    /// An `exclusiveMinimum` that excludes nothing goes (section 4.7.24).
    IdleExclusiveMinimum,
    /// The bound of `maximum` that is excluded becomes that of `exclusiveMaximum` (section 4.7.24).
    ExclusiveMaximum,
    /// An `exclusiveMaximum` that excludes nothing goes (section 4.7.24).
    IdleExclusiveMaximum,
    /// The `example` of a schema becomes a list, `examples` (section 4.7.24).
    SchemaExample,
    /// An `enum` gets null, where `nullable` is meant to let null in (section 4.7.24.1).
    NullInEnum,
    /// A type beside `nullable` becomes that type or null (section 4.7.24.1).
    NullableType,
    /// A reference beside `nullable`, written as a combination of it alone, becomes that reference or null (section 4.7.24.1).
    NullableReference,
    /// A `nullable` without effect goes (section 4.7.24.1).
    IdleNullable,
}

impl Rule {
    /// Whether the rule changes a tree, if the tree is of a kind that has the rule.
    pub fn applies(self, tree: &Value) -> bool
        ensures { result ≡ specs.applies (rule_of self) (view tree.now) }
    {
        match self {
            Rule::PathsAbsent => lacks(tree, "paths"),
            Rule::ResponsesAbsent => lacks(tree, "responses"),
            Rule::RequiredAbsent => lacks(tree, "required"),
            Rule::VersionOfTwo => is_version_of_two(tree),
            Rule::SchemeInOtherCase => is_scheme_in_other_case(tree),
            Rule::SchemaTrue => matches!(tree, Value::Bool(true)),
            Rule::ConstAlone => {
                lacks(tree, "enum") && has(tree, "const") && !has_any(tree, &BESIDE_ENUM)
            }
            Rule::ItemsAbsent => {
                lacks(tree, "items") && says(tree, "type", "array") && !has_any(tree, &BESIDE_ITEMS)
            }
            Rule::VersionOf30 => is_version_of_3_0(tree),
            Rule::BesideReference => is_reference_of_two(tree),
            Rule::BinaryFormat => is_binary(tree),
            Rule::ByteFormat => is_byte(tree),
            Rule::ExclusiveMinimum => excludes(tree, "exclusiveMinimum", "minimum"),
            Rule::IdleExclusiveMinimum => excludes_nothing(tree, "exclusiveMinimum", "minimum"),
            Rule::ExclusiveMaximum => excludes(tree, "exclusiveMaximum", "maximum"),
            Rule::IdleExclusiveMaximum => excludes_nothing(tree, "exclusiveMaximum", "maximum"),
            Rule::SchemaExample => has(tree, "example") && !has(tree, "examples"),
            Rule::NullInEnum => is_nullable_type(tree) && lacks_null_at(tree, "enum"),
            Rule::NullableType => is_nullable_type(tree),
            Rule::NullableReference => is_nullable_reference(tree),
            Rule::IdleNullable => is_nullable_idle(tree),
        }
    }
}

/// The versions that lack a third number.
static VERSIONS_OF_TWO: [&str; 2] = ["3.1", "3.2"];

/// The keywords beside which the model keeps no `enum`.
static BESIDE_ENUM: [&str; 4] = ["oneOf", "allOf", "anyOf", "items"];

/// The keywords beside which an array gets no `items`.
static BESIDE_ITEMS: [&str; 9] = [
    "oneOf",
    "allOf",
    "anyOf",
    "const",
    "enum",
    "format",
    "readOnly",
    "writeOnly",
    "unevaluatedItems",
];

/// Whether a text is one of some words, but for the case of its letters.
fn is_other_case(text: &str, words: &[&str]) -> bool
    ensures { result ≡ specs.is_other_case (texts words.now) text.now }
{
    for word in words {
        if is_case_of(text, *word) {
            return true;
        }
    }
    false
}

/// Whether a text is the word in another case.
fn is_case_of(text: &str, word: &str) -> bool
    ensures { result ≡ specs.is_case_of text.now word.now }
{
    text != word && text.eq_ignore_ascii_case(word)
}

fn is_version_of_two(tree: &Value) -> bool
    ensures { result ≡ is_text (λ s. list_any (bytes_eq s) specs.versions_of_two) (view tree.now) }
{
    match tree {
        Value::String(text) => is_one_of(text.as_str(), &VERSIONS_OF_TWO),
        _ => false,
    }
}

fn is_scheme_in_other_case(tree: &Value) -> bool
    ensures { result ≡ specs.applies specs.scheme_in_other_case (view tree.now) }
{
    match tree {
        Value::String(text) => is_other_case(text.as_str(), words(Vocabulary::HttpAuthScheme)),
        _ => false,
    }
}

static OF_DOCUMENTS: [Rule; 1] = [Rule::PathsAbsent];

static OF_OPERATIONS: [Rule; 1] = [Rule::ResponsesAbsent];

static OF_PARAMETERS: [Rule; 1] = [Rule::RequiredAbsent];

static OF_VERSIONS: [Rule; 1] = [Rule::VersionOfTwo];

static OF_SCHEMES: [Rule; 1] = [Rule::SchemeInOtherCase];

static OF_SCHEMAS: [Rule; 3] = [Rule::SchemaTrue, Rule::ConstAlone, Rule::ItemsAbsent];

// The model reads `true` as additional properties.
static OF_ADDITIONAL_PROPERTIES: [Rule; 2] = [Rule::ConstAlone, Rule::ItemsAbsent];

static UPGRADES_OF_VERSIONS: [Rule; 1] = [Rule::VersionOf30];

static UPGRADES_OF_REFERENCES: [Rule; 1] = [Rule::BesideReference];

static UPGRADES_OF_SCHEMAS: [Rule; 11] = [
    Rule::BinaryFormat,
    Rule::ByteFormat,
    Rule::ExclusiveMinimum,
    Rule::IdleExclusiveMinimum,
    Rule::ExclusiveMaximum,
    Rule::IdleExclusiveMaximum,
    Rule::SchemaExample,
    Rule::NullInEnum,
    Rule::NullableType,
    Rule::NullableReference,
    Rule::IdleNullable,
];

static NONE: [Rule; 0] = [];

/// The rules of objects of a type.
fn rules_of_type(object_type: ObjectType) -> &'static [Rule]
    ensures { all_rules result.now ≡ specs.rules_of (kinds.named (type_of object_type)) }
{
    match object_type {
        ObjectType::OpenApiObject => &OF_DOCUMENTS,
        ObjectType::OperationObject => &OF_OPERATIONS,
        ObjectType::ParameterObject => &OF_PARAMETERS,
        _ => &NONE,
    }
}

/// The rules by which a tree that is looked at as of a kind is adapted to the model, in the order in which they change it.
pub fn rules_of(kind: Kind) -> &'static [Rule]
    ensures { all_rules result.now ≡ specs.rules_of (kind_of kind) }
{
    match kind {
        Kind::Named(object_type) => rules_of_type(object_type),
        Kind::Version => &OF_VERSIONS,
        Kind::WordOf(Vocabulary::HttpAuthScheme) => &OF_SCHEMES,
        Kind::Schema | Kind::ArrayItems => &OF_SCHEMAS,
        Kind::AdditionalProperties => &OF_ADDITIONAL_PROPERTIES,
        _ => &NONE,
    }
}

/// The rules by which a tree that is looked at as of a kind is upgraded, in the order in which they change it.
pub fn upgrades_of(kind: Kind) -> &'static [Rule]
    ensures { all_rules result.now ≡ specs.upgrades_of (kind_of kind) }
{
    match kind {
        Kind::Version => &UPGRADES_OF_VERSIONS,
        Kind::Named(ObjectType::ReferenceObject) => &UPGRADES_OF_REFERENCES,
        Kind::Schema | Kind::ArrayItems | Kind::AdditionalProperties => &UPGRADES_OF_SCHEMAS,
        _ => &NONE,
    }
}

/// The rules of a set.
pub fn rules_in(set: RuleSet, kind: Kind) -> &'static [Rule]
    ensures { all_rules result.now ≡ specs.rules_in (set_of set) (kind_of kind) }
{
    match set {
        RuleSet::Model => rules_of(kind),
        RuleSet::Upgrade => upgrades_of(kind),
    }
}
