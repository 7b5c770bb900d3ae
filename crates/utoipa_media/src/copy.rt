//! Copying contents, encodings and headers, which hold each other.
//!
//! The functions of the cycle copy what holds contents, encodings or headers; each of these is put together, with the members
//! that hold none, outside of it.
ghost use Rattle.std.specs.Prelude.{◌≡◌, IfOk};
ghost use Rattle.utoipa_base.specs.Kinds.{media_type_object, header_object, named};
ghost use Rattle.utoipa_base.specs.Refs.{ref_or_doc};
ghost use Rattle.utoipa_base.specs.Views.{boxed, option_of, list_of_docs, map_of_docs};
ghost use Rattle.utoipa_media.specs.Docs.{content_doc, encoding_doc, header_doc};
ghost use Rattle.utoipa_media.specs.Parts.{encodings_docs};
ghost use Rattle.utoipa_media.specs.declared.types.Content.{out-Content};
ghost use Rattle.utoipa_media.specs.declared.types.Encoding.{out-Encoding};
ghost use Rattle.utoipa_media.specs.declared.types.Header.{out-Header};

use crate::fill::{push_copied, put_copied};
use crate::parts::{EncodingMembers, content_of, encoding_of, header_of};
use crate::rows::{content_rows, encoding_rows, header_rows};
use crate::types::{Content, Encoding, Header};
use std::alloc::{AllocError, Global};
use std::collections::BTreeMap;
use utoipa_base::{RefOr, Tree, beside, clone_rows_beside, row_values};

/// Copies a content. Fails where memory runs out.
#[cycle(copy)]
pub(crate) fn clone_content(alloc: Global, content: &Content) -> Result<Content, AllocError>
    ensures { IfOk result (λ copy. content_doc copy ≡ content_doc content.now) }
{
    let encodings = clone_encodings(
        alloc,
        &content.encoding,
        &content.prefix_encoding,
        &content.item_encoding,
    )?;
    clone_content_with(alloc, content, encodings)
}

/// Copies an encoding. Fails where memory runs out.
#[cycle(copy)]
pub(crate) fn clone_encoding(alloc: Global, encoding: &Encoding) -> Result<Encoding, AllocError>
    ensures { IfOk result (λ copy. encoding_doc copy ≡ encoding_doc encoding.now) }
{
    let headers = clone_header_map(alloc, &encoding.headers)?;
    let encodings = clone_encodings(
        alloc,
        &encoding.encoding,
        &encoding.prefix_encoding,
        &encoding.item_encoding,
    );
    let (headers, encodings) = beside(headers, encodings)?;
    clone_encoding_with(alloc, encoding, headers, encodings)
}

/// Copies a header. Fails where memory runs out.
#[cycle(copy)]
pub(crate) fn clone_header(alloc: Global, header: &Header) -> Result<Header, AllocError>
    ensures { IfOk result (λ copy. header_doc copy ≡ header_doc header.now) }
{
    let content = clone_content_map(alloc, &header.content)?;
    clone_header_with(alloc, header, content)
}

/// Copies a reference, or a content in its place. Fails where memory runs out.
#[cycle(copy)]
fn clone_ref_or_content(alloc: Global, place: &RefOr<Content>) -> Result<RefOr<Content>, AllocError>
    ensures { IfOk result (λ copy. ref_or_doc (named media_type_object) content_doc copy
        ≡ ref_or_doc (named media_type_object) content_doc place.now) }
{
    match place {
        RefOr::Ref(reference) => Ok(RefOr::Ref(reference.try_clone(alloc)?)),
        RefOr::T(value) => Ok(RefOr::T(clone_content(alloc, value)?)),
    }
}

/// Copies a reference, or a header in its place. Fails where memory runs out.
#[cycle(copy)]
fn clone_ref_or_header(alloc: Global, place: &RefOr<Header>) -> Result<RefOr<Header>, AllocError>
    ensures { IfOk result (λ copy. ref_or_doc (named header_object) header_doc copy
        ≡ ref_or_doc (named header_object) header_doc place.now) }
{
    match place {
        RefOr::Ref(reference) => Ok(RefOr::Ref(reference.try_clone(alloc)?)),
        RefOr::T(value) => Ok(RefOr::T(clone_header(alloc, value)?)),
    }
}

/// Copies the three members that hold encodings, which contents and encodings share. Fails where memory runs out.
#[cycle(copy)]
fn clone_encodings(
    alloc: Global,
    by_name: &BTreeMap<String, Encoding>,
    first: &Vec<Encoding>,
    rest: &Option<Box<Encoding>>,
) -> Result<EncodingMembers, AllocError>
    ensures { IfOk result (λ copy. encodings_docs copy.0 copy.1 copy.2
        ≡ encodings_docs by_name.now first.now rest.now) }
{
    let by_name = clone_encoding_map(alloc, by_name)?;
    let (by_name, first) = beside(by_name, clone_encoding_list(alloc, first))?;
    let kept = (by_name, first);
    let ((by_name, first), rest) = beside(kept, clone_item_encoding(alloc, rest))?;
    Ok((by_name, first, rest))
}

/// Copies a list of encodings. Fails where memory runs out.
#[cycle(copy)]
fn clone_encoding_list(
    alloc: Global,
    encodings: &Vec<Encoding>,
) -> Result<Vec<Encoding>, AllocError>
    ensures { IfOk result (λ copy. list_of_docs encoding_doc copy ≡ list_of_docs encoding_doc encodings.now) }
{
    let mut list = Vec::new(alloc);
    for item in encodings {
        push_copied(&mut list, clone_encoding(alloc, item))?;
    }
    Ok(list)
}

/// Copies encodings with their names. Fails where memory runs out.
#[cycle(copy)]
fn clone_encoding_map(
    alloc: Global,
    encodings: &BTreeMap<String, Encoding>,
) -> Result<BTreeMap<String, Encoding>, AllocError>
    ensures { IfOk result (λ copy. map_of_docs encoding_doc copy ≡ map_of_docs encoding_doc encodings.now) }
{
    let mut map = BTreeMap::new(alloc);
    for (key, member) in encodings.iter() {
        put_copied(&mut map, key, clone_encoding(alloc, member))?;
    }
    Ok(map)
}

/// Copies references and headers with their names. Fails where memory runs out.
#[cycle(copy)]
fn clone_header_map(
    alloc: Global,
    headers: &BTreeMap<String, RefOr<Header>>,
) -> Result<BTreeMap<String, RefOr<Header>>, AllocError>
    ensures { IfOk result (λ copy. map_of_docs (ref_or_doc (named header_object) header_doc) copy
        ≡ map_of_docs (ref_or_doc (named header_object) header_doc) headers.now) }
{
    let mut map = BTreeMap::new(alloc);
    for (key, member) in headers.iter() {
        put_copied(&mut map, key, clone_ref_or_header(alloc, member))?;
    }
    Ok(map)
}

/// Copies references and contents with their media types. Fails where memory runs out.
#[cycle(copy)]
fn clone_content_map(
    alloc: Global,
    contents: &BTreeMap<String, RefOr<Content>>,
) -> Result<BTreeMap<String, RefOr<Content>>, AllocError>
    ensures { IfOk result (λ copy. map_of_docs (ref_or_doc (named media_type_object) content_doc) copy
        ≡ map_of_docs (ref_or_doc (named media_type_object) content_doc) contents.now) }
{
    let mut map = BTreeMap::new(alloc);
    for (key, member) in contents.iter() {
        put_copied(&mut map, key, clone_ref_or_content(alloc, member))?;
    }
    Ok(map)
}

/// Copies the encoding of the later items, if it is said. Fails where memory runs out.
#[cycle(copy)]
fn clone_item_encoding(
    alloc: Global,
    member: &Option<Box<Encoding>>,
) -> Result<Option<Box<Encoding>>, AllocError>
    ensures { IfOk result (λ copy. option_of (boxed encoding_doc) copy
        ≡ option_of (boxed encoding_doc) member.now) }
{
    match member {
        Some(value) => {
            let copied = clone_encoding(alloc, value)?;
            Ok(Some(Box::new(alloc, copied)?))
        }
        None => Ok(None),
    }
}

/// Copies a content, whose encodings have been copied. Fails where memory runs out.
fn clone_content_with(
    alloc: Global,
    content: &Content,
    encodings: EncodingMembers,
) -> Result<Content, AllocError>
    ensures { IfOk result (λ copy. encodings_docs encodings.0 encodings.1 encodings.2
        ≡ encodings_docs (out-Content content.now).encoding (out-Content content.now).prefix_encoding
        (out-Content content.now).item_encoding
        → content_doc copy ≡ content_doc content.now) }
{
    let rows = content_rows!(row_values!(content));
    let (rows, extensions, encodings) = clone_rows_beside(
        alloc,
        &rows,
        &content.extensions,
        encodings,
    )?;
    Ok(content_of(rows, extensions, encodings))
}

/// Copies an encoding, whose headers and encodings have been copied. Fails where memory runs out.
fn clone_encoding_with(
    alloc: Global,
    encoding: &Encoding,
    headers: BTreeMap<String, RefOr<Header>>,
    encodings: EncodingMembers,
) -> Result<Encoding, AllocError>
    ensures { IfOk result (λ copy. map_of_docs (ref_or_doc (named header_object) header_doc) headers
        ≡ map_of_docs (ref_or_doc (named header_object) header_doc) (out-Encoding encoding.now).headers
        → encodings_docs encodings.0 encodings.1 encodings.2
        ≡ encodings_docs (out-Encoding encoding.now).encoding (out-Encoding encoding.now).prefix_encoding
        (out-Encoding encoding.now).item_encoding
        → encoding_doc copy ≡ encoding_doc encoding.now) }
{
    let rows = encoding_rows!(row_values!(encoding));
    let kept = (headers, encodings);
    let (rows, extensions, (headers, encodings)) = clone_rows_beside(
        alloc,
        &rows,
        &encoding.extensions,
        kept,
    )?;
    Ok(encoding_of(rows, extensions, headers, encodings))
}

/// Copies a header, whose content has been copied. Fails where memory runs out.
fn clone_header_with(
    alloc: Global,
    header: &Header,
    content: BTreeMap<String, RefOr<Content>>,
) -> Result<Header, AllocError>
    ensures { IfOk result (λ copy. map_of_docs (ref_or_doc (named media_type_object) content_doc) content
        ≡ map_of_docs (ref_or_doc (named media_type_object) content_doc) (out-Header header.now).content
        → header_doc copy ≡ header_doc header.now) }
{
    let rows = header_rows!(row_values!(header));
    let (rows, extensions, content) = clone_rows_beside(alloc, &rows, &header.extensions, content)?;
    Ok(header_of(rows, extensions, content))
}
