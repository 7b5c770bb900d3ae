//! The types of contents, encodings and headers, which hold each other.

use serde_json::Value;
use std::collections::BTreeMap;
use utoipa_base::{Deprecated, Extensions, RefOr};
use utoipa_leaf::example::Example;
use utoipa_leaf::path::ParameterStyle;
use utoipa_schema::Schema;

/// A Media Type Object (OpenAPI 3.1, section 4.8.14; `itemSchema`, `prefixEncoding` and `itemEncoding` from 3.2): what a
/// content of one media type is.
#[cycle(media)]
#[derive(Debug, Drop)]
pub struct Content {
    /// The schema of the content.
    pub schema: Option<RefOr<Schema>>,
    /// The schema of each item of a sequence: the member `itemSchema`.
    pub item_schema: Option<RefOr<Schema>>,
    /// A description of the content.
    pub description: Option<String>,
    /// An example of the content. It excludes `examples`.
    pub example: Option<Value>,
    /// Examples of the content, by their names. They exclude `example`.
    pub examples: BTreeMap<String, RefOr<Example>>,
    /// How the properties of the content are encoded, by their names.
    pub encoding: BTreeMap<String, Encoding>,
    /// How the first items are encoded, one by one: the member `prefixEncoding`.
    pub prefix_encoding: Vec<Encoding>,
    /// How the items after the first are encoded: the member `itemEncoding`.
    pub item_encoding: Option<Box<Encoding>>,
    /// Specification extensions.
    pub extensions: Option<Extensions>,
}

/// An Encoding Object (OpenAPI 3.1, section 4.8.15; `encoding`, `prefixEncoding` and `itemEncoding` from 3.2): how a property
/// or an item of a content is encoded.
#[cycle(media)]
#[derive(Debug, Drop)]
pub struct Encoding {
    /// The media types of the property, as `image/png`: the member `contentType`.
    pub content_type: Option<String>,
    /// The headers of the property's part, by their names.
    pub headers: BTreeMap<String, RefOr<Header>>,
    /// How the property is serialized.
    pub style: Option<ParameterStyle>,
    /// Whether the items of a list and the members of an object are parameters of their own.
    pub explode: Option<bool>,
    /// Whether reserved characters stay as they are: the member `allowReserved`.
    pub allow_reserved: Option<bool>,
    /// How the properties of the property are encoded, by their names.
    pub encoding: BTreeMap<String, Encoding>,
    /// How the first items of the property are encoded, one by one: the member `prefixEncoding`.
    pub prefix_encoding: Vec<Encoding>,
    /// How the items after the first are encoded: the member `itemEncoding`.
    pub item_encoding: Option<Box<Encoding>>,
    /// Specification extensions.
    pub extensions: Option<Extensions>,
}

/// A Header Object (OpenAPI 3.1, section 4.8.21): a header, by its schema or by its content.
#[cycle(media)]
#[derive(Debug, Drop)]
pub struct Header {
    /// The schema of the header's value.
    pub schema: Option<RefOr<Schema>>,
    /// A description of the header.
    pub description: Option<String>,
    /// Whether the header should no longer be used.
    pub deprecated: Option<Deprecated>,
    /// How the value is serialized.
    pub style: Option<ParameterStyle>,
    /// Whether the items of a list and the members of an object are written one by one.
    pub explode: Option<bool>,
    /// An example of the value. It excludes `examples`.
    pub example: Option<Value>,
    /// Examples of the value, by their names. They exclude `example`.
    pub examples: BTreeMap<String, RefOr<Example>>,
    /// The content of the header, by its one media type.
    pub content: BTreeMap<String, RefOr<Content>>,
    /// Specification extensions.
    pub extensions: Option<Extensions>,
}
