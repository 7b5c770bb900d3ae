//! Sending contents, encodings and headers, which hold each other: the members of each in the order of their names.
ghost use Rattle.utoipa_base.specs.Kinds.{named, media_type_object, encoding_object, header_object};
ghost use Rattle.utoipa_media.specs.Docs.{content_doc, encoding_doc, header_doc};

use crate::rows::header_rows;
use crate::types::{Content, Encoding, Header};
use std::alloc::AllocError;
use utoipa_base::{
    Documented, Emit, EmitRows, JsonSink, PendingExtensions, emit_defaulted, emit_optional,
    row_names, row_values,
};

impl Documented for Content {
    ghost kind = { named media_type_object };

    ghost doc = { content_doc };
}

/// A content, as its table.
impl Emit for Content {
    #[cycle(emit)]
    fn emit<S: JsonSink>(&self, out: &mut S) -> Result<(), AllocError> {
        out.begin_object()?;
        let pending = PendingExtensions::of(&self.extensions);
        let after_description = emit_optional(out, "description", &self.description, pending)?;
        let after_encoding = emit_defaulted(out, "encoding", &self.encoding, after_description)?;
        let after_example = emit_optional(out, "example", &self.example, after_encoding)?;
        let after_examples = emit_defaulted(out, "examples", &self.examples, after_example)?;
        let after_item = emit_optional(out, "itemEncoding", &self.item_encoding, after_examples)?;
        let after_item_schema = emit_optional(out, "itemSchema", &self.item_schema, after_item)?;
        let after_first = emit_defaulted(
            out,
            "prefixEncoding",
            &self.prefix_encoding,
            after_item_schema,
        )?;
        let after_last = emit_optional(out, "schema", &self.schema, after_first)?;
        after_last.emit_end(out)
    }
}

impl Documented for Encoding {
    ghost kind = { named encoding_object };

    ghost doc = { encoding_doc };
}

/// An encoding, as its table.
impl Emit for Encoding {
    #[cycle(emit)]
    fn emit<S: JsonSink>(&self, out: &mut S) -> Result<(), AllocError> {
        out.begin_object()?;
        let pending = PendingExtensions::of(&self.extensions);
        let after_reserved = emit_optional(out, "allowReserved", &self.allow_reserved, pending)?;
        let after_type = emit_optional(out, "contentType", &self.content_type, after_reserved)?;
        let after_encoding = emit_defaulted(out, "encoding", &self.encoding, after_type)?;
        let after_explode = emit_optional(out, "explode", &self.explode, after_encoding)?;
        let after_headers = emit_defaulted(out, "headers", &self.headers, after_explode)?;
        let after_item = emit_optional(out, "itemEncoding", &self.item_encoding, after_headers)?;
        let after_first = emit_defaulted(out, "prefixEncoding", &self.prefix_encoding, after_item)?;
        let after_last = emit_optional(out, "style", &self.style, after_first)?;
        after_last.emit_end(out)
    }
}

impl Documented for Header {
    ghost kind = { named header_object };

    ghost doc = { header_doc };
}

/// A header, as its table.
impl Emit for Header {
    #[cycle(emit)]
    fn emit<S: JsonSink>(&self, out: &mut S) -> Result<(), AllocError> {
        let last = header_rows!(row_values!(self));
        let last_names = header_rows!(row_names!());
        out.begin_object()?;
        let pending = PendingExtensions::of(&self.extensions);
        let after_contents = emit_defaulted(out, "content", &self.content, pending)?;
        let after_last = last.emit(out, last_names, after_contents)?;
        after_last.emit_end(out)
    }
}
