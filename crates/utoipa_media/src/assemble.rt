//! The members of contents, encodings and headers beside those that hold these themselves, which have been read before.
//!
//! No `assemble_` function is inlined: its room is not to stand on the stack while the values inside are read. Each goes on
//! from the reading of those members, before which the counter stood at `start`.
ghost use Rattle.std.specs.Prelude.{◌≡◌, ℕ, codes, Ok};
ghost use Rattle.serde_json.specs.View.{view};
ghost use Rattle.utoipa_base.specs.Docs.{Docs, list_doc};
ghost use Rattle.utoipa_base.specs.Fields.{field};
ghost use Rattle.utoipa_base.specs.Kinds.{ref_or, map_of, named, media_type_object, encoding_object, header_object, defaulted};
ghost use Rattle.utoipa_base.specs.Reading.{read};
ghost use Rattle.utoipa_base.specs.Reads.{Reads};
ghost use Rattle.utoipa_base.specs.Refs.{ref_or_doc};
ghost use Rattle.utoipa_base.specs.Rows.{part, rows_values};
ghost use Rattle.utoipa_base.specs.Tables.{row};
ghost use Rattle.utoipa_base.specs.Values.{values, values_at};
ghost use Rattle.utoipa_base.specs.Views.{map_of_docs};
ghost use Rattle.utoipa_media.specs.Builders.{Headers, Contents};
ghost use Rattle.utoipa_media.specs.Docs.{content_doc, encoding_doc, header_doc};
ghost use Rattle.utoipa_media.specs.Parts.{encodings_rows, encodings_docs};

use crate::parts::{EncodingMembers, content_of, encoding_of, header_of};
use crate::rows::{content_rows, encoding_rows, header_rows};
use crate::types::{Content, Encoding, Header};
use serde_json::Value;
use std::alloc::Global;
use std::collections::BTreeMap;
use utoipa_base::{ReadFault, Readings, RefOr, read_table_beside, row_names};

/// A content whose encodings have been read.
#[inline(never)]
pub(crate) fn assemble_content(
    alloc: Global,
    tree: &Value,
    encodings: EncodingMembers,
    readings: &mut Readings,
) -> Result<Content, ReadFault>
    ensures { (start : ℕ)
        → Reads {A = Docs} (part encodings_rows (view tree.now)) list_doc
        (Ok (encodings_docs encodings.0 encodings.1 encodings.2)) start readings.old
        (rows_values encodings_rows (view tree.now))
        → Reads (read (named media_type_object) (view tree.now)) content_doc result
        start readings.new (values (view tree.now)) }
{
    let names = content_rows!(row_names!());
    let (rows, extensions, encodings) = read_table_beside(
        alloc, tree, "Content", names, encodings, readings,
    )?;
    Ok(content_of(rows, extensions, encodings))
}

/// An encoding whose headers have been read, and after them its encodings.
#[inline(never)]
pub(crate) fn assemble_encoding(
    alloc: Global,
    tree: &Value,
    headers: BTreeMap<String, RefOr<Header>>,
    encodings: EncodingMembers,
    readings: &mut Readings,
) -> Result<Encoding, ReadFault>
    ensures { (start middle : ℕ)
        → Reads {A = Headers}
        (field (row (codes "headers") defaulted (map_of (ref_or (named header_object)))) (view tree.now))
        (map_of_docs (ref_or_doc (named header_object) header_doc)) (Ok headers)
        start middle (values_at (codes "headers") (view tree.now))
        → Reads {A = Docs} (part encodings_rows (view tree.now)) list_doc
        (Ok (encodings_docs encodings.0 encodings.1 encodings.2)) middle readings.old
        (rows_values encodings_rows (view tree.now))
        → Reads (read (named encoding_object) (view tree.now)) encoding_doc result
        start readings.new (values (view tree.now)) }
{
    let kept = (headers, encodings);
    let names = encoding_rows!(row_names!());
    let (rows, extensions, (headers, encodings)) = read_table_beside(
        alloc, tree, "Encoding", names, kept, readings,
    )?;
    Ok(encoding_of(rows, extensions, headers, encodings))
}

/// A header whose contents have been read.
#[inline(never)]
pub(crate) fn assemble_header(
    alloc: Global,
    tree: &Value,
    content: BTreeMap<String, RefOr<Content>>,
    readings: &mut Readings,
) -> Result<Header, ReadFault>
    ensures { (start : ℕ)
        → Reads {A = Contents}
        (field (row (codes "content") defaulted (map_of (ref_or (named media_type_object)))) (view tree.now))
        (map_of_docs (ref_or_doc (named media_type_object) content_doc)) (Ok content)
        start readings.old (values_at (codes "content") (view tree.now))
        → Reads (read (named header_object) (view tree.now)) header_doc result
        start readings.new (values (view tree.now)) }
{
    let names = header_rows!(row_names!());
    let (rows, extensions, content) = read_table_beside(
        alloc, tree, "Header", names, content, readings,
    )?;
    Ok(header_of(rows, extensions, content))
}
