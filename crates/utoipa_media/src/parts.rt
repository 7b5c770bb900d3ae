//! Contents, encodings and headers, made of their parts: of the rows that hold none of these themselves, which are read and
//! copied together, and of the members that do.
ghost use Rattle.std.specs.Prelude.{◌≡◌, option_map};
ghost use Rattle.utoipa_base.specs.Docs.{doc, docs_woven, no_docs, table_doc};
ghost use Rattle.utoipa_base.specs.Extensions.{extensions_view};
ghost use Rattle.utoipa_base.specs.Kinds.{media_type_object, encoding_object, header_object, named};
ghost use Rattle.utoipa_base.specs.Refs.{ref_or_doc};
ghost use Rattle.utoipa_base.specs.Views.{map_of_docs};
ghost use Rattle.utoipa_media.specs.Docs.{content_doc, encoding_doc, header_doc};
ghost use Rattle.utoipa_media.specs.Parts.{content_order, encoding_order, header_order, headers_order, encodings_docs};

use crate::rows::{content_rows, encoding_rows, from_rows, header_rows};
use crate::types::{Content, Encoding, Header};
use serde_json::Value;
use std::collections::BTreeMap;
use utoipa_base::table::{DefaultedField, OptionalField, RowFields};
use utoipa_base::{Deprecated, Extensions, RefOr};
use utoipa_leaf::example::Example;
use utoipa_leaf::path::ParameterStyle;
use utoipa_schema::Schema;

/// The members that contents and encodings share: the encodings of the properties, of the first items, and of the items after
/// those.
pub(crate) type EncodingMembers = (
    BTreeMap<String, Encoding>,
    Vec<Encoding>,
    Option<Box<Encoding>>,
);

/// The fields of the rows of a content, but of those that hold encodings.
pub(crate) type ContentRows = (
    OptionalField<String>,
    (
        OptionalField<Value>,
        (
            DefaultedField<BTreeMap<String, RefOr<Example>>>,
            (
                OptionalField<RefOr<Schema>>,
                (OptionalField<RefOr<Schema>>, ()),
            ),
        ),
    ),
);

/// The fields of the rows of an encoding, but of its headers and encodings.
pub(crate) type EncodingRows = (
    OptionalField<bool>,
    (
        OptionalField<String>,
        (OptionalField<bool>, (OptionalField<ParameterStyle>, ())),
    ),
);

/// The fields of the rows of a header, but of its content.
pub(crate) type HeaderRows = (
    OptionalField<Deprecated>,
    (
        OptionalField<String>,
        (
            OptionalField<Value>,
            (
                DefaultedField<BTreeMap<String, RefOr<Example>>>,
                (
                    OptionalField<bool>,
                    (
                        OptionalField<RefOr<Schema>>,
                        (OptionalField<ParameterStyle>, ()),
                    ),
                ),
            ),
        ),
    ),
);

/// The content of these parts.
pub(crate) fn content_of(
    rows: ContentRows,
    extensions: Option<Extensions>,
    encodings: EncodingMembers,
) -> Content
    ensures { content_doc result ≡ table_doc media_type_object
        (docs_woven content_order (⟦<ContentRows as RowFields>⟧.docs rows)
        (encodings_docs encodings.0 encodings.1 encodings.2))
        (option_map extensions_view extensions) }
{
    let (encoding, prefix_encoding, item_encoding) = encodings;
    content_rows!(from_rows!(
        Content { encoding, prefix_encoding, item_encoding, extensions, } rows
    ))
}

/// The encoding of these parts.
pub(crate) fn encoding_of(
    rows: EncodingRows,
    extensions: Option<Extensions>,
    headers: BTreeMap<String, RefOr<Header>>,
    encodings: EncodingMembers,
) -> Encoding
    ensures { encoding_doc result ≡ table_doc encoding_object
        (docs_woven encoding_order (⟦<EncodingRows as RowFields>⟧.docs rows)
        (docs_woven headers_order (encodings_docs encodings.0 encodings.1 encodings.2)
        (doc (map_of_docs (ref_or_doc (named header_object) header_doc) headers) no_docs)))
        (option_map extensions_view extensions) }
{
    let (encoding, prefix_encoding, item_encoding) = encodings;
    encoding_rows!(from_rows!(
        Encoding { headers, encoding, prefix_encoding, item_encoding, extensions, } rows
    ))
}

/// The header of these parts.
pub(crate) fn header_of(
    rows: HeaderRows,
    extensions: Option<Extensions>,
    content: BTreeMap<String, RefOr<Content>>,
) -> Header
    ensures { header_doc result ≡ table_doc header_object
        (docs_woven header_order (⟦<HeaderRows as RowFields>⟧.docs rows)
        (doc (map_of_docs (ref_or_doc (named media_type_object) content_doc) content) no_docs))
        (option_map extensions_view extensions) }
{
    header_rows!(from_rows!(Header { content, extensions, } rows))
}
