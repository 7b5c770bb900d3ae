//! The member tables, as data.
ghost use Rattle.std.specs.Prelude.{◌≡◌};
ghost use Rattle.utoipa_base.specs.Tables.{table};
ghost use Rattle.utoipa_tables.specs.Tables.{type_of, rows_of, members_of, members_in};
ghost use Rattle.utoipa_tables.specs.Titles.{type_title};

use crate::kinds::{Kind, Mark, ObjectType, Row, Vocabulary};

const PATHS: Kind = Kind::EntriesOf(&Kind::Named(ObjectType::PathItemObject));

const RESPONSES: Kind = Kind::EntriesOf(&Kind::RefOr(&Kind::Named(ObjectType::ResponseObject)));

const CALLBACK: Kind = Kind::MapOf(&Kind::RefOr(&Kind::Named(ObjectType::PathItemObject)));

const SECURITY_REQUIREMENT: Kind = Kind::MapOf(&Kind::ListOf(&Kind::Text));

static OPEN_API_OBJECT: [Row; 12] = [
    Row {
        name: "$schema",
        mark: Mark::Defaulted,
        kind: Kind::Text,
    },
    Row {
        name: "$self",
        mark: Mark::Optional,
        kind: Kind::Text,
    },
    Row {
        name: "components",
        mark: Mark::Optional,
        kind: Kind::Named(ObjectType::ComponentsObject),
    },
    Row {
        name: "externalDocs",
        mark: Mark::Optional,
        kind: Kind::Named(ObjectType::ExternalDocsObject),
    },
    Row {
        name: "info",
        mark: Mark::Required,
        kind: Kind::Named(ObjectType::InfoObject),
    },
    Row {
        name: "jsonSchemaDialect",
        mark: Mark::Optional,
        kind: Kind::Text,
    },
    Row {
        name: "openapi",
        mark: Mark::Required,
        kind: Kind::Version,
    },
    Row {
        name: "paths",
        mark: Mark::Required,
        kind: PATHS,
    },
    Row {
        name: "security",
        mark: Mark::Optional,
        kind: Kind::ListOf(&SECURITY_REQUIREMENT),
    },
    Row {
        name: "servers",
        mark: Mark::Optional,
        kind: Kind::ListOf(&Kind::Named(ObjectType::ServerObject)),
    },
    Row {
        name: "tags",
        mark: Mark::Optional,
        kind: Kind::ListOf(&Kind::Named(ObjectType::TagObject)),
    },
    Row {
        name: "webhooks",
        mark: Mark::Optional,
        kind: PATHS,
    },
];

static INFO_OBJECT: [Row; 6] = [
    Row {
        name: "contact",
        mark: Mark::Optional,
        kind: Kind::Named(ObjectType::ContactObject),
    },
    Row {
        name: "description",
        mark: Mark::Optional,
        kind: Kind::Text,
    },
    Row {
        name: "license",
        mark: Mark::Optional,
        kind: Kind::Named(ObjectType::LicenseObject),
    },
    Row {
        name: "termsOfService",
        mark: Mark::Optional,
        kind: Kind::Text,
    },
    Row {
        name: "title",
        mark: Mark::Required,
        kind: Kind::Text,
    },
    Row {
        name: "version",
        mark: Mark::Required,
        kind: Kind::Text,
    },
];

static CONTACT_OBJECT: [Row; 3] = [
    Row {
        name: "email",
        mark: Mark::Optional,
        kind: Kind::Text,
    },
    Row {
        name: "name",
        mark: Mark::Optional,
        kind: Kind::Text,
    },
    Row {
        name: "url",
        mark: Mark::Optional,
        kind: Kind::Text,
    },
];

static LICENSE_OBJECT: [Row; 3] = [
    Row {
        name: "identifier",
        mark: Mark::Optional,
        kind: Kind::Text,
    },
    Row {
        name: "name",
        mark: Mark::Required,
        kind: Kind::Text,
    },
    Row {
        name: "url",
        mark: Mark::Optional,
        kind: Kind::Text,
    },
];

static SERVER_OBJECT: [Row; 4] = [
    Row {
        name: "description",
        mark: Mark::Optional,
        kind: Kind::Text,
    },
    Row {
        name: "name",
        mark: Mark::Optional,
        kind: Kind::Text,
    },
    Row {
        name: "url",
        mark: Mark::Required,
        kind: Kind::Text,
    },
    Row {
        name: "variables",
        mark: Mark::Optional,
        kind: Kind::MapOf(&Kind::Named(ObjectType::ServerVariableObject)),
    },
];

static SERVER_VARIABLE_OBJECT: [Row; 3] = [
    Row {
        name: "default",
        mark: Mark::Required,
        kind: Kind::Text,
    },
    Row {
        name: "description",
        mark: Mark::Optional,
        kind: Kind::Text,
    },
    Row {
        name: "enum",
        mark: Mark::Optional,
        kind: Kind::ListOf(&Kind::Text),
    },
];

static COMPONENTS_OBJECT: [Row; 11] = [
    Row {
        name: "callbacks",
        mark: Mark::Defaulted,
        kind: Kind::MapOf(&Kind::RefOr(&CALLBACK)),
    },
    Row {
        name: "examples",
        mark: Mark::Defaulted,
        kind: Kind::MapOf(&Kind::RefOr(&Kind::Named(ObjectType::ExampleObject))),
    },
    Row {
        name: "headers",
        mark: Mark::Defaulted,
        kind: Kind::MapOf(&Kind::RefOr(&Kind::Named(ObjectType::HeaderObject))),
    },
    Row {
        name: "links",
        mark: Mark::Defaulted,
        kind: Kind::MapOf(&Kind::RefOr(&Kind::Named(ObjectType::LinkObject))),
    },
    Row {
        name: "mediaTypes",
        mark: Mark::Defaulted,
        kind: Kind::MapOf(&Kind::RefOr(&Kind::Named(ObjectType::MediaTypeObject))),
    },
    Row {
        name: "parameters",
        mark: Mark::Defaulted,
        kind: Kind::MapOf(&Kind::RefOr(&Kind::Named(ObjectType::ParameterObject))),
    },
    Row {
        name: "pathItems",
        mark: Mark::Defaulted,
        kind: Kind::MapOf(&Kind::Named(ObjectType::PathItemObject)),
    },
    Row {
        name: "requestBodies",
        mark: Mark::Defaulted,
        kind: Kind::MapOf(&Kind::RefOr(&Kind::Named(ObjectType::RequestBodyObject))),
    },
    Row {
        name: "responses",
        mark: Mark::Defaulted,
        kind: Kind::MapOf(&Kind::RefOr(&Kind::Named(ObjectType::ResponseObject))),
    },
    Row {
        name: "schemas",
        mark: Mark::Defaulted,
        kind: Kind::MapOf(&Kind::RefOr(&Kind::Schema)),
    },
    Row {
        name: "securitySchemes",
        mark: Mark::Defaulted,
        kind: Kind::MapOf(&Kind::RefOr(&Kind::SecurityScheme)),
    },
];

static PATH_ITEM_OBJECT: [Row; 15] = [
    Row {
        name: "$ref",
        mark: Mark::Optional,
        kind: Kind::Text,
    },
    Row {
        name: "additionalOperations",
        mark: Mark::Defaulted,
        kind: Kind::MapOf(&Kind::Named(ObjectType::OperationObject)),
    },
    Row {
        name: "delete",
        mark: Mark::Optional,
        kind: Kind::Named(ObjectType::OperationObject),
    },
    Row {
        name: "description",
        mark: Mark::Optional,
        kind: Kind::Text,
    },
    Row {
        name: "get",
        mark: Mark::Optional,
        kind: Kind::Named(ObjectType::OperationObject),
    },
    Row {
        name: "head",
        mark: Mark::Optional,
        kind: Kind::Named(ObjectType::OperationObject),
    },
    Row {
        name: "options",
        mark: Mark::Optional,
        kind: Kind::Named(ObjectType::OperationObject),
    },
    Row {
        name: "parameters",
        mark: Mark::Optional,
        kind: Kind::ListOf(&Kind::RefOr(&Kind::Named(ObjectType::ParameterObject))),
    },
    Row {
        name: "patch",
        mark: Mark::Optional,
        kind: Kind::Named(ObjectType::OperationObject),
    },
    Row {
        name: "post",
        mark: Mark::Optional,
        kind: Kind::Named(ObjectType::OperationObject),
    },
    Row {
        name: "put",
        mark: Mark::Optional,
        kind: Kind::Named(ObjectType::OperationObject),
    },
    Row {
        name: "query",
        mark: Mark::Optional,
        kind: Kind::Named(ObjectType::OperationObject),
    },
    Row {
        name: "servers",
        mark: Mark::Optional,
        kind: Kind::ListOf(&Kind::Named(ObjectType::ServerObject)),
    },
    Row {
        name: "summary",
        mark: Mark::Optional,
        kind: Kind::Text,
    },
    Row {
        name: "trace",
        mark: Mark::Optional,
        kind: Kind::Named(ObjectType::OperationObject),
    },
];

static OPERATION_OBJECT: [Row; 12] = [
    Row {
        name: "callbacks",
        mark: Mark::Defaulted,
        kind: Kind::MapOf(&Kind::RefOr(&CALLBACK)),
    },
    Row {
        name: "deprecated",
        mark: Mark::Optional,
        kind: Kind::Flag,
    },
    Row {
        name: "description",
        mark: Mark::Optional,
        kind: Kind::Text,
    },
    Row {
        name: "externalDocs",
        mark: Mark::Optional,
        kind: Kind::Named(ObjectType::ExternalDocsObject),
    },
    Row {
        name: "operationId",
        mark: Mark::Optional,
        kind: Kind::Text,
    },
    Row {
        name: "parameters",
        mark: Mark::Optional,
        kind: Kind::ListOf(&Kind::RefOr(&Kind::Named(ObjectType::ParameterObject))),
    },
    Row {
        name: "requestBody",
        mark: Mark::Optional,
        kind: Kind::RefOr(&Kind::Named(ObjectType::RequestBodyObject)),
    },
    Row {
        name: "responses",
        mark: Mark::Required,
        kind: RESPONSES,
    },
    Row {
        name: "security",
        mark: Mark::Optional,
        kind: Kind::ListOf(&SECURITY_REQUIREMENT),
    },
    Row {
        name: "servers",
        mark: Mark::Optional,
        kind: Kind::ListOf(&Kind::Named(ObjectType::ServerObject)),
    },
    Row {
        name: "summary",
        mark: Mark::Optional,
        kind: Kind::Text,
    },
    Row {
        name: "tags",
        mark: Mark::Optional,
        kind: Kind::ListOf(&Kind::Text),
    },
];

static EXTERNAL_DOCS_OBJECT: [Row; 2] = [
    Row {
        name: "description",
        mark: Mark::OrNull,
        kind: Kind::Text,
    },
    Row {
        name: "url",
        mark: Mark::Required,
        kind: Kind::Text,
    },
];

static PARAMETER_OBJECT: [Row; 11] = [
    Row {
        name: "allowReserved",
        mark: Mark::Optional,
        kind: Kind::Flag,
    },
    Row {
        name: "content",
        mark: Mark::Defaulted,
        kind: Kind::MapOf(&Kind::RefOr(&Kind::Named(ObjectType::MediaTypeObject))),
    },
    Row {
        name: "deprecated",
        mark: Mark::Optional,
        kind: Kind::Flag,
    },
    Row {
        name: "description",
        mark: Mark::Optional,
        kind: Kind::Text,
    },
    Row {
        name: "example",
        mark: Mark::Optional,
        kind: Kind::Any,
    },
    Row {
        name: "explode",
        mark: Mark::Optional,
        kind: Kind::Flag,
    },
    Row {
        name: "in",
        mark: Mark::Required,
        kind: Kind::WordOf(Vocabulary::ParameterIn),
    },
    Row {
        name: "name",
        mark: Mark::Required,
        kind: Kind::Text,
    },
    Row {
        name: "required",
        mark: Mark::Required,
        kind: Kind::Flag,
    },
    Row {
        name: "schema",
        mark: Mark::Optional,
        kind: Kind::RefOr(&Kind::Schema),
    },
    Row {
        name: "style",
        mark: Mark::Optional,
        kind: Kind::WordOf(Vocabulary::ParameterStyle),
    },
];

static REQUEST_BODY_OBJECT: [Row; 3] = [
    Row {
        name: "content",
        mark: Mark::Required,
        kind: Kind::MapOf(&Kind::RefOr(&Kind::Named(ObjectType::MediaTypeObject))),
    },
    Row {
        name: "description",
        mark: Mark::Optional,
        kind: Kind::Text,
    },
    Row {
        name: "required",
        mark: Mark::Optional,
        kind: Kind::Flag,
    },
];

static MEDIA_TYPE_OBJECT: [Row; 8] = [
    Row {
        name: "description",
        mark: Mark::Optional,
        kind: Kind::Text,
    },
    Row {
        name: "encoding",
        mark: Mark::Defaulted,
        kind: Kind::MapOf(&Kind::Named(ObjectType::EncodingObject)),
    },
    Row {
        name: "example",
        mark: Mark::Optional,
        kind: Kind::Any,
    },
    Row {
        name: "examples",
        mark: Mark::Defaulted,
        kind: Kind::MapOf(&Kind::RefOr(&Kind::Named(ObjectType::ExampleObject))),
    },
    Row {
        name: "itemEncoding",
        mark: Mark::Optional,
        kind: Kind::Named(ObjectType::EncodingObject),
    },
    Row {
        name: "itemSchema",
        mark: Mark::Optional,
        kind: Kind::RefOr(&Kind::Schema),
    },
    Row {
        name: "prefixEncoding",
        mark: Mark::Defaulted,
        kind: Kind::ListOf(&Kind::Named(ObjectType::EncodingObject)),
    },
    Row {
        name: "schema",
        mark: Mark::Optional,
        kind: Kind::RefOr(&Kind::Schema),
    },
];

static ENCODING_OBJECT: [Row; 8] = [
    Row {
        name: "allowReserved",
        mark: Mark::Optional,
        kind: Kind::Flag,
    },
    Row {
        name: "contentType",
        mark: Mark::Optional,
        kind: Kind::Text,
    },
    Row {
        name: "encoding",
        mark: Mark::Defaulted,
        kind: Kind::MapOf(&Kind::Named(ObjectType::EncodingObject)),
    },
    Row {
        name: "explode",
        mark: Mark::Optional,
        kind: Kind::Flag,
    },
    Row {
        name: "headers",
        mark: Mark::Defaulted,
        kind: Kind::MapOf(&Kind::RefOr(&Kind::Named(ObjectType::HeaderObject))),
    },
    Row {
        name: "itemEncoding",
        mark: Mark::Optional,
        kind: Kind::Named(ObjectType::EncodingObject),
    },
    Row {
        name: "prefixEncoding",
        mark: Mark::Defaulted,
        kind: Kind::ListOf(&Kind::Named(ObjectType::EncodingObject)),
    },
    Row {
        name: "style",
        mark: Mark::Optional,
        kind: Kind::WordOf(Vocabulary::ParameterStyle),
    },
];

static RESPONSE_OBJECT: [Row; 5] = [
    Row {
        name: "content",
        mark: Mark::Defaulted,
        kind: Kind::OrderedMapOf(&Kind::RefOr(&Kind::Named(ObjectType::MediaTypeObject))),
    },
    Row {
        name: "description",
        mark: Mark::Defaulted,
        kind: Kind::Text,
    },
    Row {
        name: "headers",
        mark: Mark::Defaulted,
        kind: Kind::MapOf(&Kind::RefOr(&Kind::Named(ObjectType::HeaderObject))),
    },
    Row {
        name: "links",
        mark: Mark::Defaulted,
        kind: Kind::MapOf(&Kind::RefOr(&Kind::Named(ObjectType::LinkObject))),
    },
    Row {
        name: "summary",
        mark: Mark::Optional,
        kind: Kind::Text,
    },
];

static EXAMPLE_OBJECT: [Row; 4] = [
    Row {
        name: "description",
        mark: Mark::Defaulted,
        kind: Kind::Text,
    },
    Row {
        name: "externalValue",
        mark: Mark::Defaulted,
        kind: Kind::Text,
    },
    Row {
        name: "summary",
        mark: Mark::Defaulted,
        kind: Kind::Text,
    },
    Row {
        name: "value",
        mark: Mark::Optional,
        kind: Kind::Any,
    },
];

static LINK_OBJECT: [Row; 6] = [
    Row {
        name: "description",
        mark: Mark::Defaulted,
        kind: Kind::Text,
    },
    Row {
        name: "operationId",
        mark: Mark::Defaulted,
        kind: Kind::Text,
    },
    Row {
        name: "operationRef",
        mark: Mark::Defaulted,
        kind: Kind::Text,
    },
    Row {
        name: "parameters",
        mark: Mark::Defaulted,
        kind: Kind::MapOf(&Kind::Any),
    },
    Row {
        name: "requestBody",
        mark: Mark::Optional,
        kind: Kind::Any,
    },
    Row {
        name: "server",
        mark: Mark::Optional,
        kind: Kind::Named(ObjectType::ServerObject),
    },
];

static HEADER_OBJECT: [Row; 8] = [
    Row {
        name: "content",
        mark: Mark::Defaulted,
        kind: Kind::MapOf(&Kind::RefOr(&Kind::Named(ObjectType::MediaTypeObject))),
    },
    Row {
        name: "deprecated",
        mark: Mark::Optional,
        kind: Kind::Flag,
    },
    Row {
        name: "description",
        mark: Mark::Optional,
        kind: Kind::Text,
    },
    Row {
        name: "example",
        mark: Mark::Optional,
        kind: Kind::Any,
    },
    Row {
        name: "examples",
        mark: Mark::Defaulted,
        kind: Kind::MapOf(&Kind::RefOr(&Kind::Named(ObjectType::ExampleObject))),
    },
    Row {
        name: "explode",
        mark: Mark::Optional,
        kind: Kind::Flag,
    },
    Row {
        name: "schema",
        mark: Mark::Optional,
        kind: Kind::RefOr(&Kind::Schema),
    },
    Row {
        name: "style",
        mark: Mark::Optional,
        kind: Kind::WordOf(Vocabulary::ParameterStyle),
    },
];

static TAG_OBJECT: [Row; 6] = [
    Row {
        name: "description",
        mark: Mark::Optional,
        kind: Kind::Text,
    },
    Row {
        name: "externalDocs",
        mark: Mark::Optional,
        kind: Kind::Named(ObjectType::ExternalDocsObject),
    },
    Row {
        name: "kind",
        mark: Mark::Optional,
        kind: Kind::Text,
    },
    Row {
        name: "name",
        mark: Mark::Required,
        kind: Kind::Text,
    },
    Row {
        name: "parent",
        mark: Mark::Optional,
        kind: Kind::Text,
    },
    Row {
        name: "summary",
        mark: Mark::Optional,
        kind: Kind::Text,
    },
];

static REFERENCE_OBJECT: [Row; 7] = [
    Row {
        name: "$ref",
        mark: Mark::Required,
        kind: Kind::Text,
    },
    Row {
        name: "default",
        mark: Mark::Optional,
        kind: Kind::Any,
    },
    Row {
        name: "description",
        mark: Mark::Defaulted,
        kind: Kind::Text,
    },
    Row {
        name: "readOnly",
        mark: Mark::Optional,
        kind: Kind::Flag,
    },
    Row {
        name: "summary",
        mark: Mark::Defaulted,
        kind: Kind::Text,
    },
    Row {
        name: "title",
        mark: Mark::Optional,
        kind: Kind::Text,
    },
    Row {
        name: "writeOnly",
        mark: Mark::Optional,
        kind: Kind::Flag,
    },
];

static DISCRIMINATOR_OBJECT: [Row; 2] = [
    Row {
        name: "mapping",
        mark: Mark::Defaulted,
        kind: Kind::MapOf(&Kind::Text),
    },
    Row {
        name: "propertyName",
        mark: Mark::Required,
        kind: Kind::Text,
    },
];

static XML_OBJECT: [Row; 6] = [
    Row {
        name: "attribute",
        mark: Mark::Optional,
        kind: Kind::Flag,
    },
    Row {
        name: "name",
        mark: Mark::Optional,
        kind: Kind::Text,
    },
    Row {
        name: "namespace",
        mark: Mark::Optional,
        kind: Kind::Text,
    },
    Row {
        name: "nodeType",
        mark: Mark::Optional,
        kind: Kind::Text,
    },
    Row {
        name: "prefix",
        mark: Mark::Optional,
        kind: Kind::Text,
    },
    Row {
        name: "wrapped",
        mark: Mark::Optional,
        kind: Kind::Flag,
    },
];

static ONE_OF_SCHEMA: [Row; 10] = [
    Row {
        name: "default",
        mark: Mark::Optional,
        kind: Kind::Any,
    },
    Row {
        name: "description",
        mark: Mark::Optional,
        kind: Kind::Text,
    },
    Row {
        name: "discriminator",
        mark: Mark::Optional,
        kind: Kind::Named(ObjectType::DiscriminatorObject),
    },
    Row {
        name: "example",
        mark: Mark::Optional,
        kind: Kind::Any,
    },
    Row {
        name: "examples",
        mark: Mark::Defaulted,
        kind: Kind::ListOf(&Kind::Any),
    },
    Row {
        name: "oneOf",
        mark: Mark::Required,
        kind: Kind::ListOf(&Kind::RefOr(&Kind::Schema)),
    },
    Row {
        name: "readOnly",
        mark: Mark::Optional,
        kind: Kind::Flag,
    },
    Row {
        name: "title",
        mark: Mark::Optional,
        kind: Kind::Text,
    },
    Row {
        name: "type",
        mark: Mark::Defaulted,
        kind: Kind::SchemaType,
    },
    Row {
        name: "writeOnly",
        mark: Mark::Optional,
        kind: Kind::Flag,
    },
];

static ALL_OF_SCHEMA: [Row; 8] = [
    Row {
        name: "allOf",
        mark: Mark::Required,
        kind: Kind::ListOf(&Kind::RefOr(&Kind::Schema)),
    },
    Row {
        name: "default",
        mark: Mark::Optional,
        kind: Kind::Any,
    },
    Row {
        name: "description",
        mark: Mark::Optional,
        kind: Kind::Text,
    },
    Row {
        name: "discriminator",
        mark: Mark::Optional,
        kind: Kind::Named(ObjectType::DiscriminatorObject),
    },
    Row {
        name: "example",
        mark: Mark::Optional,
        kind: Kind::Any,
    },
    Row {
        name: "examples",
        mark: Mark::Defaulted,
        kind: Kind::ListOf(&Kind::Any),
    },
    Row {
        name: "title",
        mark: Mark::Optional,
        kind: Kind::Text,
    },
    Row {
        name: "type",
        mark: Mark::Defaulted,
        kind: Kind::SchemaType,
    },
];

static ANY_OF_SCHEMA: [Row; 7] = [
    Row {
        name: "anyOf",
        mark: Mark::Required,
        kind: Kind::ListOf(&Kind::RefOr(&Kind::Schema)),
    },
    Row {
        name: "default",
        mark: Mark::Optional,
        kind: Kind::Any,
    },
    Row {
        name: "description",
        mark: Mark::Optional,
        kind: Kind::Text,
    },
    Row {
        name: "discriminator",
        mark: Mark::Optional,
        kind: Kind::Named(ObjectType::DiscriminatorObject),
    },
    Row {
        name: "example",
        mark: Mark::Optional,
        kind: Kind::Any,
    },
    Row {
        name: "examples",
        mark: Mark::Defaulted,
        kind: Kind::ListOf(&Kind::Any),
    },
    Row {
        name: "type",
        mark: Mark::Defaulted,
        kind: Kind::SchemaType,
    },
];

static ARRAY_SCHEMA: [Row; 16] = [
    Row {
        name: "contentEncoding",
        mark: Mark::Defaulted,
        kind: Kind::Text,
    },
    Row {
        name: "contentMediaType",
        mark: Mark::Defaulted,
        kind: Kind::Text,
    },
    Row {
        name: "contentSchema",
        mark: Mark::Optional,
        kind: Kind::RefOr(&Kind::Schema),
    },
    Row {
        name: "default",
        mark: Mark::Optional,
        kind: Kind::Any,
    },
    Row {
        name: "deprecated",
        mark: Mark::Optional,
        kind: Kind::Flag,
    },
    Row {
        name: "description",
        mark: Mark::Optional,
        kind: Kind::Text,
    },
    Row {
        name: "example",
        mark: Mark::Optional,
        kind: Kind::Any,
    },
    Row {
        name: "examples",
        mark: Mark::Defaulted,
        kind: Kind::ListOf(&Kind::Any),
    },
    Row {
        name: "items",
        mark: Mark::Required,
        kind: Kind::ArrayItems,
    },
    Row {
        name: "maxItems",
        mark: Mark::Optional,
        kind: Kind::Whole,
    },
    Row {
        name: "minItems",
        mark: Mark::Optional,
        kind: Kind::Whole,
    },
    Row {
        name: "prefixItems",
        mark: Mark::Defaulted,
        kind: Kind::ListOf(&Kind::Schema),
    },
    Row {
        name: "title",
        mark: Mark::Optional,
        kind: Kind::Text,
    },
    Row {
        name: "type",
        mark: Mark::Required,
        kind: Kind::SchemaType,
    },
    Row {
        name: "uniqueItems",
        mark: Mark::Defaulted,
        kind: Kind::Flag,
    },
    Row {
        name: "xml",
        mark: Mark::Optional,
        kind: Kind::Named(ObjectType::XmlObject),
    },
];

static OBJECT_SCHEMA: [Row; 29] = [
    Row {
        name: "additionalProperties",
        mark: Mark::Optional,
        kind: Kind::AdditionalProperties,
    },
    Row {
        name: "contentEncoding",
        mark: Mark::Defaulted,
        kind: Kind::Text,
    },
    Row {
        name: "contentMediaType",
        mark: Mark::Defaulted,
        kind: Kind::Text,
    },
    Row {
        name: "contentSchema",
        mark: Mark::Optional,
        kind: Kind::RefOr(&Kind::Schema),
    },
    Row {
        name: "default",
        mark: Mark::Optional,
        kind: Kind::Any,
    },
    Row {
        name: "deprecated",
        mark: Mark::Optional,
        kind: Kind::Flag,
    },
    Row {
        name: "description",
        mark: Mark::Optional,
        kind: Kind::Text,
    },
    Row {
        name: "enum",
        mark: Mark::Optional,
        kind: Kind::ListOf(&Kind::Any),
    },
    Row {
        name: "example",
        mark: Mark::Optional,
        kind: Kind::Any,
    },
    Row {
        name: "examples",
        mark: Mark::Defaulted,
        kind: Kind::ListOf(&Kind::Any),
    },
    Row {
        name: "exclusiveMaximum",
        mark: Mark::Optional,
        kind: Kind::Numeral,
    },
    Row {
        name: "exclusiveMinimum",
        mark: Mark::Optional,
        kind: Kind::Numeral,
    },
    Row {
        name: "format",
        mark: Mark::Optional,
        kind: Kind::SchemaFormat,
    },
    Row {
        name: "maxLength",
        mark: Mark::Optional,
        kind: Kind::Whole,
    },
    Row {
        name: "maxProperties",
        mark: Mark::Optional,
        kind: Kind::Whole,
    },
    Row {
        name: "maximum",
        mark: Mark::Optional,
        kind: Kind::Numeral,
    },
    Row {
        name: "minLength",
        mark: Mark::Optional,
        kind: Kind::Whole,
    },
    Row {
        name: "minProperties",
        mark: Mark::Optional,
        kind: Kind::Whole,
    },
    Row {
        name: "minimum",
        mark: Mark::Optional,
        kind: Kind::Numeral,
    },
    Row {
        name: "multipleOf",
        mark: Mark::Optional,
        kind: Kind::Numeral,
    },
    Row {
        name: "pattern",
        mark: Mark::Optional,
        kind: Kind::Text,
    },
    Row {
        name: "properties",
        mark: Mark::Defaulted,
        kind: Kind::MapOf(&Kind::RefOr(&Kind::Schema)),
    },
    Row {
        name: "propertyNames",
        mark: Mark::Optional,
        kind: Kind::Schema,
    },
    Row {
        name: "readOnly",
        mark: Mark::Optional,
        kind: Kind::Flag,
    },
    Row {
        name: "required",
        mark: Mark::Defaulted,
        kind: Kind::ListOf(&Kind::Text),
    },
    Row {
        name: "title",
        mark: Mark::Optional,
        kind: Kind::Text,
    },
    Row {
        name: "type",
        mark: Mark::Defaulted,
        kind: Kind::SchemaType,
    },
    Row {
        name: "writeOnly",
        mark: Mark::Optional,
        kind: Kind::Flag,
    },
    Row {
        name: "xml",
        mark: Mark::Optional,
        kind: Kind::Named(ObjectType::XmlObject),
    },
];

static API_KEY_SCHEME: [Row; 3] = [
    Row {
        name: "deprecated",
        mark: Mark::Optional,
        kind: Kind::Flag,
    },
    Row {
        name: "description",
        mark: Mark::Optional,
        kind: Kind::Text,
    },
    Row {
        name: "name",
        mark: Mark::Required,
        kind: Kind::Text,
    },
];

static HTTP_SCHEME: [Row; 4] = [
    Row {
        name: "bearerFormat",
        mark: Mark::Optional,
        kind: Kind::Text,
    },
    Row {
        name: "deprecated",
        mark: Mark::Optional,
        kind: Kind::Flag,
    },
    Row {
        name: "description",
        mark: Mark::Optional,
        kind: Kind::Text,
    },
    Row {
        name: "scheme",
        mark: Mark::Required,
        kind: Kind::WordOf(Vocabulary::HttpAuthScheme),
    },
];

static OPEN_ID_CONNECT_SCHEME: [Row; 3] = [
    Row {
        name: "deprecated",
        mark: Mark::Optional,
        kind: Kind::Flag,
    },
    Row {
        name: "description",
        mark: Mark::Optional,
        kind: Kind::Text,
    },
    Row {
        name: "openIdConnectUrl",
        mark: Mark::Required,
        kind: Kind::Text,
    },
];

static MUTUAL_TLS_SCHEME: [Row; 2] = [
    Row {
        name: "deprecated",
        mark: Mark::Optional,
        kind: Kind::Flag,
    },
    Row {
        name: "description",
        mark: Mark::Optional,
        kind: Kind::Text,
    },
];

static OAUTH2_SCHEME: [Row; 4] = [
    Row {
        name: "deprecated",
        mark: Mark::Optional,
        kind: Kind::Flag,
    },
    Row {
        name: "description",
        mark: Mark::Optional,
        kind: Kind::Text,
    },
    Row {
        name: "flows",
        mark: Mark::Required,
        kind: Kind::Flows,
    },
    Row {
        name: "oauth2MetadataUrl",
        mark: Mark::Optional,
        kind: Kind::Text,
    },
];

static IMPLICIT_FLOW: [Row; 3] = [
    Row {
        name: "authorizationUrl",
        mark: Mark::Required,
        kind: Kind::Text,
    },
    Row {
        name: "refreshUrl",
        mark: Mark::Optional,
        kind: Kind::Text,
    },
    Row {
        name: "scopes",
        mark: Mark::Required,
        kind: Kind::MapOf(&Kind::Text),
    },
];

static PASSWORD_FLOW: [Row; 3] = [
    Row {
        name: "refreshUrl",
        mark: Mark::Optional,
        kind: Kind::Text,
    },
    Row {
        name: "scopes",
        mark: Mark::Required,
        kind: Kind::MapOf(&Kind::Text),
    },
    Row {
        name: "tokenUrl",
        mark: Mark::Required,
        kind: Kind::Text,
    },
];

static CLIENT_CREDENTIALS_FLOW: [Row; 3] = [
    Row {
        name: "refreshUrl",
        mark: Mark::Optional,
        kind: Kind::Text,
    },
    Row {
        name: "scopes",
        mark: Mark::Required,
        kind: Kind::MapOf(&Kind::Text),
    },
    Row {
        name: "tokenUrl",
        mark: Mark::Required,
        kind: Kind::Text,
    },
];

static AUTHORIZATION_CODE_FLOW: [Row; 4] = [
    Row {
        name: "authorizationUrl",
        mark: Mark::Required,
        kind: Kind::Text,
    },
    Row {
        name: "refreshUrl",
        mark: Mark::Optional,
        kind: Kind::Text,
    },
    Row {
        name: "scopes",
        mark: Mark::Required,
        kind: Kind::MapOf(&Kind::Text),
    },
    Row {
        name: "tokenUrl",
        mark: Mark::Required,
        kind: Kind::Text,
    },
];

static DEVICE_AUTHORIZATION_FLOW: [Row; 4] = [
    Row {
        name: "deviceAuthorizationUrl",
        mark: Mark::Required,
        kind: Kind::Text,
    },
    Row {
        name: "refreshUrl",
        mark: Mark::Optional,
        kind: Kind::Text,
    },
    Row {
        name: "scopes",
        mark: Mark::Required,
        kind: Kind::MapOf(&Kind::Text),
    },
    Row {
        name: "tokenUrl",
        mark: Mark::Required,
        kind: Kind::Text,
    },
];

static SCOPES_OBJECT: [Row; 1] = [Row {
    name: "scopes",
    mark: Mark::Required,
    kind: Kind::MapOf(&Kind::Text),
}];

/// The member table of an object type, by the names of its members.
pub fn rows(object_type: ObjectType) -> &'static [Row]
    ensures table { rows_of result.now ≡ table (type_of object_type) }
    ensures members { members_of result.now ≡ members_in (table (type_of object_type)) }
{
    match object_type {
        ObjectType::OpenApiObject => &OPEN_API_OBJECT,
        ObjectType::InfoObject => &INFO_OBJECT,
        ObjectType::ContactObject => &CONTACT_OBJECT,
        ObjectType::LicenseObject => &LICENSE_OBJECT,
        ObjectType::ServerObject => &SERVER_OBJECT,
        ObjectType::ServerVariableObject => &SERVER_VARIABLE_OBJECT,
        ObjectType::ComponentsObject => &COMPONENTS_OBJECT,
        ObjectType::PathItemObject => &PATH_ITEM_OBJECT,
        ObjectType::OperationObject => &OPERATION_OBJECT,
        ObjectType::ExternalDocsObject => &EXTERNAL_DOCS_OBJECT,
        ObjectType::ParameterObject => &PARAMETER_OBJECT,
        ObjectType::RequestBodyObject => &REQUEST_BODY_OBJECT,
        ObjectType::MediaTypeObject => &MEDIA_TYPE_OBJECT,
        ObjectType::EncodingObject => &ENCODING_OBJECT,
        ObjectType::ResponseObject => &RESPONSE_OBJECT,
        ObjectType::ExampleObject => &EXAMPLE_OBJECT,
        ObjectType::LinkObject => &LINK_OBJECT,
        ObjectType::HeaderObject => &HEADER_OBJECT,
        ObjectType::TagObject => &TAG_OBJECT,
        ObjectType::ReferenceObject => &REFERENCE_OBJECT,
        ObjectType::DiscriminatorObject => &DISCRIMINATOR_OBJECT,
        ObjectType::XmlObject => &XML_OBJECT,
        ObjectType::OneOfSchema => &ONE_OF_SCHEMA,
        ObjectType::AllOfSchema => &ALL_OF_SCHEMA,
        ObjectType::AnyOfSchema => &ANY_OF_SCHEMA,
        ObjectType::ArraySchema => &ARRAY_SCHEMA,
        ObjectType::ObjectSchema => &OBJECT_SCHEMA,
        ObjectType::ApiKeyScheme => &API_KEY_SCHEME,
        ObjectType::HttpScheme => &HTTP_SCHEME,
        ObjectType::OpenIdConnectScheme => &OPEN_ID_CONNECT_SCHEME,
        ObjectType::MutualTlsScheme => &MUTUAL_TLS_SCHEME,
        ObjectType::Oauth2Scheme => &OAUTH2_SCHEME,
        ObjectType::ImplicitFlow => &IMPLICIT_FLOW,
        ObjectType::PasswordFlow => &PASSWORD_FLOW,
        ObjectType::ClientCredentialsFlow => &CLIENT_CREDENTIALS_FLOW,
        ObjectType::AuthorizationCodeFlow => &AUTHORIZATION_CODE_FLOW,
        ObjectType::DeviceAuthorizationFlow => &DEVICE_AUTHORIZATION_FLOW,
        ObjectType::ScopesObject => &SCOPES_OBJECT,
    }
}

/// An object type as a sentence has it: its name in the standard, after an article.
pub fn title(object_type: ObjectType) -> &'static str
    ensures { result.now ≡ type_title (type_of object_type) }
{
    match object_type {
        ObjectType::OpenApiObject => "an OpenAPI Object",
        ObjectType::InfoObject => "an Info Object",
        ObjectType::ContactObject => "a Contact Object",
        ObjectType::LicenseObject => "a License Object",
        ObjectType::ServerObject => "a Server Object",
        ObjectType::ServerVariableObject => "a Server Variable Object",
        ObjectType::ComponentsObject => "a Components Object",
        ObjectType::PathItemObject => "a Path Item Object",
        ObjectType::OperationObject => "an Operation Object",
        ObjectType::ExternalDocsObject => "an External Documentation Object",
        ObjectType::ParameterObject => "a Parameter Object",
        ObjectType::RequestBodyObject => "a Request Body Object",
        ObjectType::MediaTypeObject => "a Media Type Object",
        ObjectType::EncodingObject => "an Encoding Object",
        ObjectType::ResponseObject => "a Response Object",
        ObjectType::ExampleObject => "an Example Object",
        ObjectType::LinkObject => "a Link Object",
        ObjectType::HeaderObject => "a Header Object",
        ObjectType::TagObject => "a Tag Object",
        ObjectType::ReferenceObject => "a Reference Object",
        ObjectType::DiscriminatorObject => "a Discriminator Object",
        ObjectType::XmlObject => "an XML Object",
        ObjectType::OneOfSchema => "a Schema Object with `oneOf`",
        ObjectType::AllOfSchema => "a Schema Object with `allOf`",
        ObjectType::AnyOfSchema => "a Schema Object with `anyOf`",
        ObjectType::ArraySchema => "a Schema Object of an array",
        ObjectType::ObjectSchema => "a Schema Object of any other type",
        ObjectType::ApiKeyScheme => "a Security Scheme Object of `apiKey`",
        ObjectType::HttpScheme => "a Security Scheme Object of `http`",
        ObjectType::OpenIdConnectScheme => "a Security Scheme Object of `openIdConnect`",
        ObjectType::MutualTlsScheme => "a Security Scheme Object of `mutualTLS`",
        ObjectType::Oauth2Scheme => "a Security Scheme Object of `oauth2`",
        ObjectType::ImplicitFlow => "an OAuth Flow Object of `implicit`",
        ObjectType::PasswordFlow => "an OAuth Flow Object of `password`",
        ObjectType::ClientCredentialsFlow => "an OAuth Flow Object of `clientCredentials`",
        ObjectType::AuthorizationCodeFlow => "an OAuth Flow Object of `authorizationCode`",
        ObjectType::DeviceAuthorizationFlow => "an OAuth Flow Object of `deviceAuthorization`",
        ObjectType::ScopesObject => "an object with `scopes`",
    }
}
