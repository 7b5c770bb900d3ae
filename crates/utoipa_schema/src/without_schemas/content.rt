//! The members of an [`Array`](crate::Array) or an [`Object`](crate::Object) that say what a text holds, but for `contentSchema`.
ghost use Rattle.std.specs.Prelude.{◌≡◌, Some, IfOk, IfErr};
ghost use Rattle.serde_json.specs.View.{view};
ghost use Rattle.utoipa_base.specs.Docs.{list_doc};
ghost use Rattle.utoipa_base.specs.Faults.{Refuses};
ghost use Rattle.utoipa_base.specs.Rows.{part};
ghost use Rattle.utoipa_schema.specs.Parts.{text_content_of, text_content_rows, text_content_docs};

use crate::without_schemas::read_part;
use serde_json::Value;
use std::alloc::{AllocError, Global};
use utoipa_base::{ReadFault, Tree, from_fields_alone, row_names};

// The rows that arrays and objects share: mark, member, field.
macro_rules! text_content_rows {
    ($lines:ident!($($arguments:tt)*)) => {
        $lines! {
            $($arguments)*;
            defaulted "contentEncoding" content_encoding,
            defaulted "contentMediaType" content_media_type,
        }
    };
}

pub(crate) use text_content_rows;

/// What a text holds, but for `contentSchema`.
#[derive(Drop)]
pub(crate) struct TextContent {
    /// How bytes are encoded in a text.
    pub(crate) content_encoding: String,
    /// The media type of a text's content.
    pub(crate) content_media_type: String,
}

/// Reads a [`TextContent`] from a tree. The tree is refused where one of the members is not of its kind.
pub(crate) fn read_text_content(alloc: Global, tree: &Value) -> Result<TextContent, ReadFault>
    ensures ok { IfOk result (λ c. part text_content_rows (view tree.now) ≡ Some (list_doc (text_content_docs c))) }
    ensures err { IfErr result (Refuses (part text_content_rows (view tree.now))) }
{
    let fields = read_part(alloc, tree, text_content_rows!(row_names!()))?;
    Ok(text_content_rows!(from_fields_alone!(TextContent, fields)))
}

/// Copies the members of a [`TextContent`]. Fails where memory runs out.
pub(crate) fn clone_text_content(
    alloc: Global,
    content_encoding: &String,
    content_media_type: &String,
) -> Result<TextContent, AllocError>
    ensures { IfOk result (λ copy. text_content_docs copy
        ≡ text_content_docs (text_content_of content_encoding.now content_media_type.now)) }
{
    Ok(TextContent {
        content_encoding: content_encoding.try_clone(alloc)?,
        content_media_type: content_media_type.try_clone(alloc)?,
    })
}
