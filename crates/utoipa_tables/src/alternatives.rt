//! The alternatives of schemas and of OAuth flows, as data.
ghost use Rattle.std.specs.Prelude.{◌≡◌};
ghost use Rattle.utoipa_base.specs.Tables.{table};
ghost use Rattle.utoipa_tables.specs.Tables.{rows_of, members_of, schema_type, schema_members, flow_type, flow_members};

use crate::kinds::{Kind, Mark, ObjectType, Row};

/// The alternatives of a schema, in the order in which they are tried (Schema Object: section 4.8.24).
#[derive(Clone, Copy, Debug, Drop, PartialEq, Eq)]
pub enum SchemaAlternative {
    /// Schema Object with `oneOf` (JSON Schema 2020-12, Core, section 10.2.1.3).
    OneOf,
    /// Schema Object with `allOf` (JSON Schema 2020-12, Core, section 10.2.1.1).
    AllOf,
    /// Schema Object with `anyOf` (JSON Schema 2020-12, Core, section 10.2.1.2).
    AnyOf,
    /// Schema Object of an array (JSON Schema 2020-12, Core, section 10.3.1, and Validation, sections 6.4, 8 and 9).
    Array,
    /// Schema Object of any other type (JSON Schema 2020-12, Core, section 10.3.2, and Validation, sections 6 to 9).
    Object,
}

static ONE_OF_SCHEMA_AMONG_ALL: [Row; 38] = [
    Row {
        name: "additionalProperties",
        mark: Mark::NotKept,
        kind: Kind::AdditionalProperties,
    },
    Row {
        name: "allOf",
        mark: Mark::NotKept,
        kind: Kind::ListOf(&Kind::RefOr(&Kind::Schema)),
    },
    Row {
        name: "anyOf",
        mark: Mark::NotKept,
        kind: Kind::ListOf(&Kind::RefOr(&Kind::Schema)),
    },
    Row {
        name: "contentEncoding",
        mark: Mark::NotKept,
        kind: Kind::Text,
    },
    Row {
        name: "contentMediaType",
        mark: Mark::NotKept,
        kind: Kind::Text,
    },
    Row {
        name: "contentSchema",
        mark: Mark::NotKept,
        kind: Kind::RefOr(&Kind::Schema),
    },
    Row {
        name: "default",
        mark: Mark::Optional,
        kind: Kind::Any,
    },
    Row {
        name: "deprecated",
        mark: Mark::NotKept,
        kind: Kind::Flag,
    },
    Row {
        name: "description",
        mark: Mark::Optional,
        kind: Kind::Text,
    },
    Row {
        name: "discriminator",
        mark: Mark::Optional,
        kind: Kind::Named(ObjectType::DiscriminatorObject),
    },
    Row {
        name: "enum",
        mark: Mark::NotKept,
        kind: Kind::ListOf(&Kind::Any),
    },
    Row {
        name: "example",
        mark: Mark::Optional,
        kind: Kind::Any,
    },
    Row {
        name: "examples",
        mark: Mark::Defaulted,
        kind: Kind::ListOf(&Kind::Any),
    },
    Row {
        name: "exclusiveMaximum",
        mark: Mark::NotKept,
        kind: Kind::Numeral,
    },
    Row {
        name: "exclusiveMinimum",
        mark: Mark::NotKept,
        kind: Kind::Numeral,
    },
    Row {
        name: "format",
        mark: Mark::NotKept,
        kind: Kind::SchemaFormat,
    },
    Row {
        name: "items",
        mark: Mark::NotKept,
        kind: Kind::ArrayItems,
    },
    Row {
        name: "maxItems",
        mark: Mark::NotKept,
        kind: Kind::Whole,
    },
    Row {
        name: "maxLength",
        mark: Mark::NotKept,
        kind: Kind::Whole,
    },
    Row {
        name: "maxProperties",
        mark: Mark::NotKept,
        kind: Kind::Whole,
    },
    Row {
        name: "maximum",
        mark: Mark::NotKept,
        kind: Kind::Numeral,
    },
    Row {
        name: "minItems",
        mark: Mark::NotKept,
        kind: Kind::Whole,
    },
    Row {
        name: "minLength",
        mark: Mark::NotKept,
        kind: Kind::Whole,
    },
    Row {
        name: "minProperties",
        mark: Mark::NotKept,
        kind: Kind::Whole,
    },
    Row {
        name: "minimum",
        mark: Mark::NotKept,
        kind: Kind::Numeral,
    },
    Row {
        name: "multipleOf",
        mark: Mark::NotKept,
        kind: Kind::Numeral,
    },
    Row {
        name: "oneOf",
        mark: Mark::Required,
        kind: Kind::ListOf(&Kind::RefOr(&Kind::Schema)),
    },
    Row {
        name: "pattern",
        mark: Mark::NotKept,
        kind: Kind::Text,
    },
    Row {
        name: "prefixItems",
        mark: Mark::NotKept,
        kind: Kind::ListOf(&Kind::Schema),
    },
    Row {
        name: "properties",
        mark: Mark::NotKept,
        kind: Kind::MapOf(&Kind::RefOr(&Kind::Schema)),
    },
    Row {
        name: "propertyNames",
        mark: Mark::NotKept,
        kind: Kind::Schema,
    },
    Row {
        name: "readOnly",
        mark: Mark::Optional,
        kind: Kind::Flag,
    },
    Row {
        name: "required",
        mark: Mark::NotKept,
        kind: Kind::ListOf(&Kind::Text),
    },
    Row {
        name: "title",
        mark: Mark::Optional,
        kind: Kind::Text,
    },
    Row {
        name: "type",
        mark: Mark::Defaulted,
        kind: Kind::SchemaType,
    },
    Row {
        name: "uniqueItems",
        mark: Mark::NotKept,
        kind: Kind::Flag,
    },
    Row {
        name: "writeOnly",
        mark: Mark::Optional,
        kind: Kind::Flag,
    },
    Row {
        name: "xml",
        mark: Mark::NotKept,
        kind: Kind::Named(ObjectType::XmlObject),
    },
];

static ALL_OF_SCHEMA_AMONG_ALL: [Row; 38] = [
    Row {
        name: "additionalProperties",
        mark: Mark::NotKept,
        kind: Kind::AdditionalProperties,
    },
    Row {
        name: "allOf",
        mark: Mark::Required,
        kind: Kind::ListOf(&Kind::RefOr(&Kind::Schema)),
    },
    Row {
        name: "anyOf",
        mark: Mark::NotKept,
        kind: Kind::ListOf(&Kind::RefOr(&Kind::Schema)),
    },
    Row {
        name: "contentEncoding",
        mark: Mark::NotKept,
        kind: Kind::Text,
    },
    Row {
        name: "contentMediaType",
        mark: Mark::NotKept,
        kind: Kind::Text,
    },
    Row {
        name: "contentSchema",
        mark: Mark::NotKept,
        kind: Kind::RefOr(&Kind::Schema),
    },
    Row {
        name: "default",
        mark: Mark::Optional,
        kind: Kind::Any,
    },
    Row {
        name: "deprecated",
        mark: Mark::NotKept,
        kind: Kind::Flag,
    },
    Row {
        name: "description",
        mark: Mark::Optional,
        kind: Kind::Text,
    },
    Row {
        name: "discriminator",
        mark: Mark::Optional,
        kind: Kind::Named(ObjectType::DiscriminatorObject),
    },
    Row {
        name: "enum",
        mark: Mark::NotKept,
        kind: Kind::ListOf(&Kind::Any),
    },
    Row {
        name: "example",
        mark: Mark::Optional,
        kind: Kind::Any,
    },
    Row {
        name: "examples",
        mark: Mark::Defaulted,
        kind: Kind::ListOf(&Kind::Any),
    },
    Row {
        name: "exclusiveMaximum",
        mark: Mark::NotKept,
        kind: Kind::Numeral,
    },
    Row {
        name: "exclusiveMinimum",
        mark: Mark::NotKept,
        kind: Kind::Numeral,
    },
    Row {
        name: "format",
        mark: Mark::NotKept,
        kind: Kind::SchemaFormat,
    },
    Row {
        name: "items",
        mark: Mark::NotKept,
        kind: Kind::ArrayItems,
    },
    Row {
        name: "maxItems",
        mark: Mark::NotKept,
        kind: Kind::Whole,
    },
    Row {
        name: "maxLength",
        mark: Mark::NotKept,
        kind: Kind::Whole,
    },
    Row {
        name: "maxProperties",
        mark: Mark::NotKept,
        kind: Kind::Whole,
    },
    Row {
        name: "maximum",
        mark: Mark::NotKept,
        kind: Kind::Numeral,
    },
    Row {
        name: "minItems",
        mark: Mark::NotKept,
        kind: Kind::Whole,
    },
    Row {
        name: "minLength",
        mark: Mark::NotKept,
        kind: Kind::Whole,
    },
    Row {
        name: "minProperties",
        mark: Mark::NotKept,
        kind: Kind::Whole,
    },
    Row {
        name: "minimum",
        mark: Mark::NotKept,
        kind: Kind::Numeral,
    },
    Row {
        name: "multipleOf",
        mark: Mark::NotKept,
        kind: Kind::Numeral,
    },
    Row {
        name: "oneOf",
        mark: Mark::NotKept,
        kind: Kind::ListOf(&Kind::RefOr(&Kind::Schema)),
    },
    Row {
        name: "pattern",
        mark: Mark::NotKept,
        kind: Kind::Text,
    },
    Row {
        name: "prefixItems",
        mark: Mark::NotKept,
        kind: Kind::ListOf(&Kind::Schema),
    },
    Row {
        name: "properties",
        mark: Mark::NotKept,
        kind: Kind::MapOf(&Kind::RefOr(&Kind::Schema)),
    },
    Row {
        name: "propertyNames",
        mark: Mark::NotKept,
        kind: Kind::Schema,
    },
    Row {
        name: "readOnly",
        mark: Mark::NotKept,
        kind: Kind::Flag,
    },
    Row {
        name: "required",
        mark: Mark::NotKept,
        kind: Kind::ListOf(&Kind::Text),
    },
    Row {
        name: "title",
        mark: Mark::Optional,
        kind: Kind::Text,
    },
    Row {
        name: "type",
        mark: Mark::Defaulted,
        kind: Kind::SchemaType,
    },
    Row {
        name: "uniqueItems",
        mark: Mark::NotKept,
        kind: Kind::Flag,
    },
    Row {
        name: "writeOnly",
        mark: Mark::NotKept,
        kind: Kind::Flag,
    },
    Row {
        name: "xml",
        mark: Mark::NotKept,
        kind: Kind::Named(ObjectType::XmlObject),
    },
];

static ANY_OF_SCHEMA_AMONG_ALL: [Row; 38] = [
    Row {
        name: "additionalProperties",
        mark: Mark::NotKept,
        kind: Kind::AdditionalProperties,
    },
    Row {
        name: "allOf",
        mark: Mark::NotKept,
        kind: Kind::ListOf(&Kind::RefOr(&Kind::Schema)),
    },
    Row {
        name: "anyOf",
        mark: Mark::Required,
        kind: Kind::ListOf(&Kind::RefOr(&Kind::Schema)),
    },
    Row {
        name: "contentEncoding",
        mark: Mark::NotKept,
        kind: Kind::Text,
    },
    Row {
        name: "contentMediaType",
        mark: Mark::NotKept,
        kind: Kind::Text,
    },
    Row {
        name: "contentSchema",
        mark: Mark::NotKept,
        kind: Kind::RefOr(&Kind::Schema),
    },
    Row {
        name: "default",
        mark: Mark::Optional,
        kind: Kind::Any,
    },
    Row {
        name: "deprecated",
        mark: Mark::NotKept,
        kind: Kind::Flag,
    },
    Row {
        name: "description",
        mark: Mark::Optional,
        kind: Kind::Text,
    },
    Row {
        name: "discriminator",
        mark: Mark::Optional,
        kind: Kind::Named(ObjectType::DiscriminatorObject),
    },
    Row {
        name: "enum",
        mark: Mark::NotKept,
        kind: Kind::ListOf(&Kind::Any),
    },
    Row {
        name: "example",
        mark: Mark::Optional,
        kind: Kind::Any,
    },
    Row {
        name: "examples",
        mark: Mark::Defaulted,
        kind: Kind::ListOf(&Kind::Any),
    },
    Row {
        name: "exclusiveMaximum",
        mark: Mark::NotKept,
        kind: Kind::Numeral,
    },
    Row {
        name: "exclusiveMinimum",
        mark: Mark::NotKept,
        kind: Kind::Numeral,
    },
    Row {
        name: "format",
        mark: Mark::NotKept,
        kind: Kind::SchemaFormat,
    },
    Row {
        name: "items",
        mark: Mark::NotKept,
        kind: Kind::ArrayItems,
    },
    Row {
        name: "maxItems",
        mark: Mark::NotKept,
        kind: Kind::Whole,
    },
    Row {
        name: "maxLength",
        mark: Mark::NotKept,
        kind: Kind::Whole,
    },
    Row {
        name: "maxProperties",
        mark: Mark::NotKept,
        kind: Kind::Whole,
    },
    Row {
        name: "maximum",
        mark: Mark::NotKept,
        kind: Kind::Numeral,
    },
    Row {
        name: "minItems",
        mark: Mark::NotKept,
        kind: Kind::Whole,
    },
    Row {
        name: "minLength",
        mark: Mark::NotKept,
        kind: Kind::Whole,
    },
    Row {
        name: "minProperties",
        mark: Mark::NotKept,
        kind: Kind::Whole,
    },
    Row {
        name: "minimum",
        mark: Mark::NotKept,
        kind: Kind::Numeral,
    },
    Row {
        name: "multipleOf",
        mark: Mark::NotKept,
        kind: Kind::Numeral,
    },
    Row {
        name: "oneOf",
        mark: Mark::NotKept,
        kind: Kind::ListOf(&Kind::RefOr(&Kind::Schema)),
    },
    Row {
        name: "pattern",
        mark: Mark::NotKept,
        kind: Kind::Text,
    },
    Row {
        name: "prefixItems",
        mark: Mark::NotKept,
        kind: Kind::ListOf(&Kind::Schema),
    },
    Row {
        name: "properties",
        mark: Mark::NotKept,
        kind: Kind::MapOf(&Kind::RefOr(&Kind::Schema)),
    },
    Row {
        name: "propertyNames",
        mark: Mark::NotKept,
        kind: Kind::Schema,
    },
    Row {
        name: "readOnly",
        mark: Mark::NotKept,
        kind: Kind::Flag,
    },
    Row {
        name: "required",
        mark: Mark::NotKept,
        kind: Kind::ListOf(&Kind::Text),
    },
    Row {
        name: "title",
        mark: Mark::NotKept,
        kind: Kind::Text,
    },
    Row {
        name: "type",
        mark: Mark::Defaulted,
        kind: Kind::SchemaType,
    },
    Row {
        name: "uniqueItems",
        mark: Mark::NotKept,
        kind: Kind::Flag,
    },
    Row {
        name: "writeOnly",
        mark: Mark::NotKept,
        kind: Kind::Flag,
    },
    Row {
        name: "xml",
        mark: Mark::NotKept,
        kind: Kind::Named(ObjectType::XmlObject),
    },
];

static ARRAY_SCHEMA_AMONG_ALL: [Row; 38] = [
    Row {
        name: "additionalProperties",
        mark: Mark::NotKept,
        kind: Kind::AdditionalProperties,
    },
    Row {
        name: "allOf",
        mark: Mark::NotKept,
        kind: Kind::ListOf(&Kind::RefOr(&Kind::Schema)),
    },
    Row {
        name: "anyOf",
        mark: Mark::NotKept,
        kind: Kind::ListOf(&Kind::RefOr(&Kind::Schema)),
    },
    Row {
        name: "contentEncoding",
        mark: Mark::Defaulted,
        kind: Kind::Text,
    },
    Row {
        name: "contentMediaType",
        mark: Mark::Defaulted,
        kind: Kind::Text,
    },
    Row {
        name: "contentSchema",
        mark: Mark::Optional,
        kind: Kind::RefOr(&Kind::Schema),
    },
    Row {
        name: "default",
        mark: Mark::Optional,
        kind: Kind::Any,
    },
    Row {
        name: "deprecated",
        mark: Mark::Optional,
        kind: Kind::Flag,
    },
    Row {
        name: "description",
        mark: Mark::Optional,
        kind: Kind::Text,
    },
    Row {
        name: "discriminator",
        mark: Mark::NotKept,
        kind: Kind::Named(ObjectType::DiscriminatorObject),
    },
    Row {
        name: "enum",
        mark: Mark::NotKept,
        kind: Kind::ListOf(&Kind::Any),
    },
    Row {
        name: "example",
        mark: Mark::Optional,
        kind: Kind::Any,
    },
    Row {
        name: "examples",
        mark: Mark::Defaulted,
        kind: Kind::ListOf(&Kind::Any),
    },
    Row {
        name: "exclusiveMaximum",
        mark: Mark::NotKept,
        kind: Kind::Numeral,
    },
    Row {
        name: "exclusiveMinimum",
        mark: Mark::NotKept,
        kind: Kind::Numeral,
    },
    Row {
        name: "format",
        mark: Mark::NotKept,
        kind: Kind::SchemaFormat,
    },
    Row {
        name: "items",
        mark: Mark::Required,
        kind: Kind::ArrayItems,
    },
    Row {
        name: "maxItems",
        mark: Mark::Optional,
        kind: Kind::Whole,
    },
    Row {
        name: "maxLength",
        mark: Mark::NotKept,
        kind: Kind::Whole,
    },
    Row {
        name: "maxProperties",
        mark: Mark::NotKept,
        kind: Kind::Whole,
    },
    Row {
        name: "maximum",
        mark: Mark::NotKept,
        kind: Kind::Numeral,
    },
    Row {
        name: "minItems",
        mark: Mark::Optional,
        kind: Kind::Whole,
    },
    Row {
        name: "minLength",
        mark: Mark::NotKept,
        kind: Kind::Whole,
    },
    Row {
        name: "minProperties",
        mark: Mark::NotKept,
        kind: Kind::Whole,
    },
    Row {
        name: "minimum",
        mark: Mark::NotKept,
        kind: Kind::Numeral,
    },
    Row {
        name: "multipleOf",
        mark: Mark::NotKept,
        kind: Kind::Numeral,
    },
    Row {
        name: "oneOf",
        mark: Mark::NotKept,
        kind: Kind::ListOf(&Kind::RefOr(&Kind::Schema)),
    },
    Row {
        name: "pattern",
        mark: Mark::NotKept,
        kind: Kind::Text,
    },
    Row {
        name: "prefixItems",
        mark: Mark::Defaulted,
        kind: Kind::ListOf(&Kind::Schema),
    },
    Row {
        name: "properties",
        mark: Mark::NotKept,
        kind: Kind::MapOf(&Kind::RefOr(&Kind::Schema)),
    },
    Row {
        name: "propertyNames",
        mark: Mark::NotKept,
        kind: Kind::Schema,
    },
    Row {
        name: "readOnly",
        mark: Mark::NotKept,
        kind: Kind::Flag,
    },
    Row {
        name: "required",
        mark: Mark::NotKept,
        kind: Kind::ListOf(&Kind::Text),
    },
    Row {
        name: "title",
        mark: Mark::Optional,
        kind: Kind::Text,
    },
    Row {
        name: "type",
        mark: Mark::Required,
        kind: Kind::SchemaType,
    },
    Row {
        name: "uniqueItems",
        mark: Mark::Defaulted,
        kind: Kind::Flag,
    },
    Row {
        name: "writeOnly",
        mark: Mark::NotKept,
        kind: Kind::Flag,
    },
    Row {
        name: "xml",
        mark: Mark::Optional,
        kind: Kind::Named(ObjectType::XmlObject),
    },
];

static OBJECT_SCHEMA_AMONG_ALL: [Row; 38] = [
    Row {
        name: "additionalProperties",
        mark: Mark::Optional,
        kind: Kind::AdditionalProperties,
    },
    Row {
        name: "allOf",
        mark: Mark::NotKept,
        kind: Kind::ListOf(&Kind::RefOr(&Kind::Schema)),
    },
    Row {
        name: "anyOf",
        mark: Mark::NotKept,
        kind: Kind::ListOf(&Kind::RefOr(&Kind::Schema)),
    },
    Row {
        name: "contentEncoding",
        mark: Mark::Defaulted,
        kind: Kind::Text,
    },
    Row {
        name: "contentMediaType",
        mark: Mark::Defaulted,
        kind: Kind::Text,
    },
    Row {
        name: "contentSchema",
        mark: Mark::Optional,
        kind: Kind::RefOr(&Kind::Schema),
    },
    Row {
        name: "default",
        mark: Mark::Optional,
        kind: Kind::Any,
    },
    Row {
        name: "deprecated",
        mark: Mark::Optional,
        kind: Kind::Flag,
    },
    Row {
        name: "description",
        mark: Mark::Optional,
        kind: Kind::Text,
    },
    Row {
        name: "discriminator",
        mark: Mark::NotKept,
        kind: Kind::Named(ObjectType::DiscriminatorObject),
    },
    Row {
        name: "enum",
        mark: Mark::Optional,
        kind: Kind::ListOf(&Kind::Any),
    },
    Row {
        name: "example",
        mark: Mark::Optional,
        kind: Kind::Any,
    },
    Row {
        name: "examples",
        mark: Mark::Defaulted,
        kind: Kind::ListOf(&Kind::Any),
    },
    Row {
        name: "exclusiveMaximum",
        mark: Mark::Optional,
        kind: Kind::Numeral,
    },
    Row {
        name: "exclusiveMinimum",
        mark: Mark::Optional,
        kind: Kind::Numeral,
    },
    Row {
        name: "format",
        mark: Mark::Optional,
        kind: Kind::SchemaFormat,
    },
    Row {
        name: "items",
        mark: Mark::NotKept,
        kind: Kind::ArrayItems,
    },
    Row {
        name: "maxItems",
        mark: Mark::NotKept,
        kind: Kind::Whole,
    },
    Row {
        name: "maxLength",
        mark: Mark::Optional,
        kind: Kind::Whole,
    },
    Row {
        name: "maxProperties",
        mark: Mark::Optional,
        kind: Kind::Whole,
    },
    Row {
        name: "maximum",
        mark: Mark::Optional,
        kind: Kind::Numeral,
    },
    Row {
        name: "minItems",
        mark: Mark::NotKept,
        kind: Kind::Whole,
    },
    Row {
        name: "minLength",
        mark: Mark::Optional,
        kind: Kind::Whole,
    },
    Row {
        name: "minProperties",
        mark: Mark::Optional,
        kind: Kind::Whole,
    },
    Row {
        name: "minimum",
        mark: Mark::Optional,
        kind: Kind::Numeral,
    },
    Row {
        name: "multipleOf",
        mark: Mark::Optional,
        kind: Kind::Numeral,
    },
    Row {
        name: "oneOf",
        mark: Mark::NotKept,
        kind: Kind::ListOf(&Kind::RefOr(&Kind::Schema)),
    },
    Row {
        name: "pattern",
        mark: Mark::Optional,
        kind: Kind::Text,
    },
    Row {
        name: "prefixItems",
        mark: Mark::NotKept,
        kind: Kind::ListOf(&Kind::Schema),
    },
    Row {
        name: "properties",
        mark: Mark::Defaulted,
        kind: Kind::MapOf(&Kind::RefOr(&Kind::Schema)),
    },
    Row {
        name: "propertyNames",
        mark: Mark::Optional,
        kind: Kind::Schema,
    },
    Row {
        name: "readOnly",
        mark: Mark::Optional,
        kind: Kind::Flag,
    },
    Row {
        name: "required",
        mark: Mark::Defaulted,
        kind: Kind::ListOf(&Kind::Text),
    },
    Row {
        name: "title",
        mark: Mark::Optional,
        kind: Kind::Text,
    },
    Row {
        name: "type",
        mark: Mark::Defaulted,
        kind: Kind::SchemaType,
    },
    Row {
        name: "uniqueItems",
        mark: Mark::NotKept,
        kind: Kind::Flag,
    },
    Row {
        name: "writeOnly",
        mark: Mark::Optional,
        kind: Kind::Flag,
    },
    Row {
        name: "xml",
        mark: Mark::Optional,
        kind: Kind::Named(ObjectType::XmlObject),
    },
];

/// The member table of an alternative, over the members of all alternatives of the choice.
pub fn schema_rows(alternative: SchemaAlternative) -> &'static [Row]
    ensures table { rows_of result.now ≡ table (schema_type alternative) }
    ensures members { members_of result.now ≡ schema_members }
{
    match alternative {
        SchemaAlternative::OneOf => &ONE_OF_SCHEMA_AMONG_ALL,
        SchemaAlternative::AllOf => &ALL_OF_SCHEMA_AMONG_ALL,
        SchemaAlternative::AnyOf => &ANY_OF_SCHEMA_AMONG_ALL,
        SchemaAlternative::Array => &ARRAY_SCHEMA_AMONG_ALL,
        SchemaAlternative::Object => &OBJECT_SCHEMA_AMONG_ALL,
    }
}

/// The types of an OAuth flow, in the order in which they are tried under a key that names none (OAuth Flow Object: section 4.8.29).
#[derive(Clone, Copy, Debug, Drop, PartialEq, Eq)]
pub enum FlowAlternative {
    /// OAuth Flow Object: sections 4.8.28 and 4.8.29, `implicit`.
    Implicit,
    /// OAuth Flow Object, `password`.
    Password,
    /// OAuth Flow Object, `clientCredentials`.
    ClientCredentials,
    /// OAuth Flow Object, `authorizationCode`.
    AuthorizationCode,
    /// OAuth Flow Object, `deviceAuthorization`, from 3.2.
    DeviceAuthorization,
}

static IMPLICIT_FLOW_AMONG_ALL: [Row; 5] = [
    Row {
        name: "authorizationUrl",
        mark: Mark::Required,
        kind: Kind::Text,
    },
    Row {
        name: "deviceAuthorizationUrl",
        mark: Mark::NotKept,
        kind: Kind::Text,
    },
    Row {
        name: "refreshUrl",
        mark: Mark::Optional,
        kind: Kind::Text,
    },
    Row {
        name: "scopes",
        mark: Mark::Required,
        kind: Kind::MapOf(&Kind::Text),
    },
    Row {
        name: "tokenUrl",
        mark: Mark::NotKept,
        kind: Kind::Text,
    },
];

static PASSWORD_FLOW_AMONG_ALL: [Row; 5] = [
    Row {
        name: "authorizationUrl",
        mark: Mark::NotKept,
        kind: Kind::Text,
    },
    Row {
        name: "deviceAuthorizationUrl",
        mark: Mark::NotKept,
        kind: Kind::Text,
    },
    Row {
        name: "refreshUrl",
        mark: Mark::Optional,
        kind: Kind::Text,
    },
    Row {
        name: "scopes",
        mark: Mark::Required,
        kind: Kind::MapOf(&Kind::Text),
    },
    Row {
        name: "tokenUrl",
        mark: Mark::Required,
        kind: Kind::Text,
    },
];

static CLIENT_CREDENTIALS_FLOW_AMONG_ALL: [Row; 5] = [
    Row {
        name: "authorizationUrl",
        mark: Mark::NotKept,
        kind: Kind::Text,
    },
    Row {
        name: "deviceAuthorizationUrl",
        mark: Mark::NotKept,
        kind: Kind::Text,
    },
    Row {
        name: "refreshUrl",
        mark: Mark::Optional,
        kind: Kind::Text,
    },
    Row {
        name: "scopes",
        mark: Mark::Required,
        kind: Kind::MapOf(&Kind::Text),
    },
    Row {
        name: "tokenUrl",
        mark: Mark::Required,
        kind: Kind::Text,
    },
];

static AUTHORIZATION_CODE_FLOW_AMONG_ALL: [Row; 5] = [
    Row {
        name: "authorizationUrl",
        mark: Mark::Required,
        kind: Kind::Text,
    },
    Row {
        name: "deviceAuthorizationUrl",
        mark: Mark::NotKept,
        kind: Kind::Text,
    },
    Row {
        name: "refreshUrl",
        mark: Mark::Optional,
        kind: Kind::Text,
    },
    Row {
        name: "scopes",
        mark: Mark::Required,
        kind: Kind::MapOf(&Kind::Text),
    },
    Row {
        name: "tokenUrl",
        mark: Mark::Required,
        kind: Kind::Text,
    },
];

static DEVICE_AUTHORIZATION_FLOW_AMONG_ALL: [Row; 5] = [
    Row {
        name: "authorizationUrl",
        mark: Mark::NotKept,
        kind: Kind::Text,
    },
    Row {
        name: "deviceAuthorizationUrl",
        mark: Mark::Required,
        kind: Kind::Text,
    },
    Row {
        name: "refreshUrl",
        mark: Mark::Optional,
        kind: Kind::Text,
    },
    Row {
        name: "scopes",
        mark: Mark::Required,
        kind: Kind::MapOf(&Kind::Text),
    },
    Row {
        name: "tokenUrl",
        mark: Mark::Required,
        kind: Kind::Text,
    },
];

/// The member table of an alternative, over the members of all alternatives of the choice.
pub fn flow_rows(alternative: FlowAlternative) -> &'static [Row]
    ensures table { rows_of result.now ≡ table (flow_type alternative) }
    ensures members { members_of result.now ≡ flow_members }
{
    match alternative {
        FlowAlternative::Implicit => &IMPLICIT_FLOW_AMONG_ALL,
        FlowAlternative::Password => &PASSWORD_FLOW_AMONG_ALL,
        FlowAlternative::ClientCredentials => &CLIENT_CREDENTIALS_FLOW_AMONG_ALL,
        FlowAlternative::AuthorizationCode => &AUTHORIZATION_CODE_FLOW_AMONG_ALL,
        FlowAlternative::DeviceAuthorization => &DEVICE_AUTHORIZATION_FLOW_AMONG_ALL,
    }
}
