//! The types of schemas, which hold each other.

use serde_json::Value;
use std::collections::BTreeMap;
use utoipa_base::{Deprecated, Extensions, Number, RefOr};
use utoipa_schema_parts::{Discriminator, SchemaFormat, SchemaType, Xml};

/// A Schema Object (OpenAPI 3.1, section 4.8.24), by what it says first: a combination, an array, or an object of any
/// other type.
#[cycle(schema)]
#[derive(Debug, Drop)]
pub enum Schema {
    /// A schema with `items`.
    Array(Array),
    /// A schema of any other type, or of any type.
    Object(Object),
    /// A schema with `oneOf`.
    OneOf(OneOf),
    /// A schema with `allOf`.
    AllOf(AllOf),
    /// A schema with `anyOf`.
    AnyOf(AnyOf),
}

/// What the items of an array have to be: JSON Schema's `items` (2020-12, Core, section 10.3.1.2).
#[cycle(schema)]
#[derive(Debug, Drop)]
pub enum ArrayItems {
    /// The schema of each item that has none of `prefixItems`.
    RefOrSchema(Box<RefOr<Schema>>),
    /// No item besides those of `prefixItems`: `false`.
    False,
}

/// What the properties of an object have to be that it does not list: JSON Schema's `additionalProperties` (2020-12, Core,
/// section 10.3.2.3).
#[derive(Debug, Drop)]
pub enum AdditionalProperties<T> {
    /// The schema of each.
    RefOr(RefOr<T>),
    /// Whether there may be any.
    FreeForm(bool),
}

/// A Schema Object of any type but an array (JSON Schema 2020-12, Core, section 10.3.2, and Validation, sections 6 to 9).
#[cycle(schema)]
#[derive(Debug, Drop)]
pub struct Object {
    /// The member `type`: the types of the value. The type of any value is left out.
    pub schema_type: SchemaType,
    /// A title of the schema.
    pub title: Option<String>,
    /// The format of the value.
    pub format: Option<SchemaFormat>,
    /// A description of the schema.
    pub description: Option<String>,
    /// The value that is taken where there is none.
    pub default: Option<Value>,
    /// The member `enum`: the values that are allowed.
    pub enum_values: Option<Vec<Value>>,
    /// The names of the properties that have to be there.
    pub required: Vec<String>,
    /// The schema of each property, by its name.
    pub properties: BTreeMap<String, RefOr<Schema>>,
    /// What the properties are that are not listed.
    pub additional_properties: Option<Box<AdditionalProperties<Schema>>>,
    /// What the names of properties have to be: the member `propertyNames`.
    pub property_names: Option<Box<Schema>>,
    /// Whether the value should no longer be used.
    pub deprecated: Option<Deprecated>,
    /// An example of the value, in place of which `examples` is recommended.
    pub example: Option<Value>,
    /// Examples of the value.
    pub examples: Vec<Value>,
    /// Whether the value is only sent to the server.
    pub write_only: Option<bool>,
    /// Whether the value is only sent by the server.
    pub read_only: Option<bool>,
    /// How the value is written in XML.
    pub xml: Option<Xml>,
    /// The number that the value has to be a multiple of: the member `multipleOf`.
    pub multiple_of: Option<Number>,
    /// The greatest number that is allowed.
    pub maximum: Option<Number>,
    /// The least number that is allowed.
    pub minimum: Option<Number>,
    /// The number that the value has to be less than: the member `exclusiveMaximum`.
    pub exclusive_maximum: Option<Number>,
    /// The number that the value has to be greater than: the member `exclusiveMinimum`.
    pub exclusive_minimum: Option<Number>,
    /// The greatest length of a text, in characters: the member `maxLength`.
    pub max_length: Option<usize>,
    /// The least length of a text, in characters: the member `minLength`.
    pub min_length: Option<usize>,
    /// The regular expression that a text has to match somewhere.
    pub pattern: Option<String>,
    /// The greatest number of properties: the member `maxProperties`.
    pub max_properties: Option<usize>,
    /// The least number of properties: the member `minProperties`.
    pub min_properties: Option<usize>,
    /// How bytes are encoded in a text, as `base64`: the member `contentEncoding`; empty where it is not said.
    pub content_encoding: String,
    /// The media type of a text's content: the member `contentMediaType`; empty where it is not said.
    pub content_media_type: String,
    /// The schema of a text's content: the member `contentSchema`.
    pub content_schema: Option<Box<RefOr<Schema>>>,
    /// Specification extensions.
    pub extensions: Option<Extensions>,
}

/// A Schema Object of an array (JSON Schema 2020-12, Core, section 10.3.1, and Validation, sections 6.4, 8 and 9).
#[cycle(schema)]
#[derive(Debug, Drop)]
pub struct Array {
    /// The member `type`: the types of the value, which is written as null for any value.
    pub schema_type: SchemaType,
    /// A title of the schema.
    pub title: Option<String>,
    /// What the items are.
    pub items: ArrayItems,
    /// The schema of each of the first items: the member `prefixItems`.
    pub prefix_items: Vec<Schema>,
    /// A description of the schema.
    pub description: Option<String>,
    /// Whether the value should no longer be used.
    pub deprecated: Option<Deprecated>,
    /// An example of the value, in place of which `examples` is recommended.
    pub example: Option<Value>,
    /// Examples of the value.
    pub examples: Vec<Value>,
    /// The value that is taken where there is none.
    pub default: Option<Value>,
    /// The greatest number of items: the member `maxItems`.
    pub max_items: Option<usize>,
    /// The least number of items: the member `minItems`.
    pub min_items: Option<usize>,
    /// Whether no two items may be equal: the member `uniqueItems`.
    pub unique_items: bool,
    /// How the value is written in XML.
    pub xml: Option<Xml>,
    /// How bytes are encoded in a text, as `base64`: the member `contentEncoding`; empty where it is not said.
    pub content_encoding: String,
    /// The media type of a text's content: the member `contentMediaType`; empty where it is not said.
    pub content_media_type: String,
    /// The schema of a text's content: the member `contentSchema`.
    pub content_schema: Option<Box<RefOr<Schema>>>,
    /// Specification extensions.
    pub extensions: Option<Extensions>,
}

/// A Schema Object with `oneOf` (JSON Schema 2020-12, Core, section 10.2.1.3): a value is valid against exactly one of the
/// schemas.
#[cycle(schema)]
#[derive(Debug, Drop)]
pub struct OneOf {
    /// The schemas: the member `oneOf`.
    pub items: Vec<RefOr<Schema>>,
    /// The member `type`: the types of the value. The type of any value is left out.
    pub schema_type: SchemaType,
    /// A title of the schema.
    pub title: Option<String>,
    /// A description of the schema.
    pub description: Option<String>,
    /// The value that is taken where there is none.
    pub default: Option<Value>,
    /// An example of the value, in place of which `examples` is recommended.
    pub example: Option<Value>,
    /// Examples of the value.
    pub examples: Vec<Value>,
    /// The property that tells which of the schemas a value is of.
    pub discriminator: Option<Discriminator>,
    /// Whether the value is only sent by the server.
    pub read_only: Option<bool>,
    /// Whether the value is only sent to the server.
    pub write_only: Option<bool>,
    /// Specification extensions.
    pub extensions: Option<Extensions>,
}

/// A Schema Object with `allOf` (JSON Schema 2020-12, Core, section 10.2.1.1): a value is valid against all of the schemas.
#[cycle(schema)]
#[derive(Debug, Drop)]
pub struct AllOf {
    /// The schemas: the member `allOf`.
    pub items: Vec<RefOr<Schema>>,
    /// The member `type`: the types of the value. The type of any value is left out.
    pub schema_type: SchemaType,
    /// A title of the schema.
    pub title: Option<String>,
    /// A description of the schema.
    pub description: Option<String>,
    /// The value that is taken where there is none.
    pub default: Option<Value>,
    /// An example of the value, in place of which `examples` is recommended.
    pub example: Option<Value>,
    /// Examples of the value.
    pub examples: Vec<Value>,
    /// The property that tells which of the schemas a value is of.
    pub discriminator: Option<Discriminator>,
    /// Specification extensions.
    pub extensions: Option<Extensions>,
}

/// A Schema Object with `anyOf` (JSON Schema 2020-12, Core, section 10.2.1.2): a value is valid against at least one of the
/// schemas.
#[cycle(schema)]
#[derive(Debug, Drop)]
pub struct AnyOf {
    /// The schemas: the member `anyOf`.
    pub items: Vec<RefOr<Schema>>,
    /// The member `type`: the types of the value. The type of any value is left out.
    pub schema_type: SchemaType,
    /// A description of the schema.
    pub description: Option<String>,
    /// The value that is taken where there is none.
    pub default: Option<Value>,
    /// An example of the value, in place of which `examples` is recommended.
    pub example: Option<Value>,
    /// Examples of the value.
    pub examples: Vec<Value>,
    /// The property that tells which of the schemas a value is of.
    pub discriminator: Option<Discriminator>,
    /// Specification extensions.
    pub extensions: Option<Extensions>,
}
