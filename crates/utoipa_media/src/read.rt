//! Reading contents, encodings and headers, which hold each other.
//!
//! A place that may hold a reference is read by [`read_ref_or_content`] or [`read_ref_or_header`]; a reference in it counts
//! nothing, since it stands for no schema. The functions below call each other on the way from an object to its members
//! that hold contents, encodings or headers; the other members are read where the value is made (`assemble.rt`).
ghost use Rattle.std.specs.Prelude.{codes};
ghost use Rattle.serde_json.specs.View.{view};
ghost use Rattle.utoipa_base.specs.Docs.{list_doc};
ghost use Rattle.utoipa_base.specs.Fields.{field};
ghost use Rattle.utoipa_base.specs.Kinds.{ref_or, list_of, map_of, named, media_type_object, encoding_object, header_object, optional, defaulted};
ghost use Rattle.utoipa_base.specs.Reading.{read};
ghost use Rattle.utoipa_base.specs.Reads.{Reads};
ghost use Rattle.utoipa_base.specs.Refs.{ref_or_doc};
ghost use Rattle.utoipa_base.specs.Rows.{part, rows_values};
ghost use Rattle.utoipa_base.specs.Tables.{row};
ghost use Rattle.utoipa_base.specs.Values.{values, values_at};
ghost use Rattle.utoipa_base.specs.Views.{boxed, option_of, list_of_docs, map_of_docs};
ghost use Rattle.utoipa_media.specs.Docs.{content_doc, encoding_doc, header_doc};
ghost use Rattle.utoipa_media.specs.Parts.{encodings_rows, encodings_docs};

use crate::assemble::{assemble_content, assemble_encoding, assemble_header};
use crate::fill::{push_read, put_read};
use crate::parts::EncodingMembers;
use crate::types::{Content, Encoding, Header};
use serde_json::Value;
use std::alloc::Global;
use std::collections::BTreeMap;
use utoipa_base::{ReadFault, Readings, Ref, RefOr, Tree, beside, fitting};

/// A content, where no reference may stand. A tree that is no object is refused as `Kind("Content")`.
#[cycle(read)]
pub(crate) fn read_content(
    alloc: Global,
    tree: &Value,
    readings: &mut Readings,
) -> Result<Content, ReadFault>
    ensures { Reads (read (named media_type_object) (view tree.now)) content_doc result
        readings.old readings.new (values (view tree.now)) }
{
    let encodings = read_encodings(alloc, tree, readings)?;
    assemble_content(alloc, tree, encodings, readings)
}

/// An encoding. A tree that is no object is refused as `Kind("Encoding")`.
#[cycle(read)]
pub(crate) fn read_encoding(
    alloc: Global,
    tree: &Value,
    readings: &mut Readings,
) -> Result<Encoding, ReadFault>
    ensures { Reads (read (named encoding_object) (view tree.now)) encoding_doc result
        readings.old readings.new (values (view tree.now)) }
{
    let headers = read_headers(alloc, tree, readings)?;
    let (headers, encodings) = beside(headers, read_encodings(alloc, tree, readings))?;
    assemble_encoding(alloc, tree, headers, encodings, readings)
}

/// A header, where no reference may stand. A tree that is no object is refused as `Kind("Header")`.
#[cycle(read)]
pub(crate) fn read_header(
    alloc: Global,
    tree: &Value,
    readings: &mut Readings,
) -> Result<Header, ReadFault>
    ensures { Reads (read (named header_object) (view tree.now)) header_doc result
        readings.old readings.new (values (view tree.now)) }
{
    let content = read_contents(alloc, tree, readings)?;
    assemble_header(alloc, tree, content, readings)
}

/// A reference, or else a content, whose fault is answered where the tree is neither.
#[cycle(read)]
pub(crate) fn read_ref_or_content(
    alloc: Global,
    tree: &Value,
    readings: &mut Readings,
) -> Result<RefOr<Content>, ReadFault>
    ensures { Reads (read (ref_or (named media_type_object)) (view tree.now))
        (ref_or_doc (named media_type_object) content_doc) result
        readings.old readings.new (values (view tree.now)) }
{
    let mut uncounted = Readings::new();
    if let Some(reference) = fitting(Ref::read_plain(alloc, tree, &mut uncounted))? {
        return Ok(RefOr::Ref(reference));
    }
    Ok(RefOr::T(read_content(alloc, tree, readings)?))
}

/// A reference, or else a header, whose fault is answered where the tree is neither.
#[cycle(read)]
pub(crate) fn read_ref_or_header(
    alloc: Global,
    tree: &Value,
    readings: &mut Readings,
) -> Result<RefOr<Header>, ReadFault>
    ensures { Reads (read (ref_or (named header_object)) (view tree.now))
        (ref_or_doc (named header_object) header_doc) result
        readings.old readings.new (values (view tree.now)) }
{
    let mut uncounted = Readings::new();
    if let Some(reference) = fitting(Ref::read_plain(alloc, tree, &mut uncounted))? {
        return Ok(RefOr::Ref(reference));
    }
    Ok(RefOr::T(read_header(alloc, tree, readings)?))
}

/// The three members that hold encodings, which contents and encodings share.
#[cycle(read)]
fn read_encodings(
    alloc: Global,
    tree: &Value,
    readings: &mut Readings,
) -> Result<EncodingMembers, ReadFault>
    ensures { Reads (part encodings_rows (view tree.now)) (λ e. list_doc (encodings_docs e.0 e.1 e.2)) result
        readings.old readings.new (rows_values encodings_rows (view tree.now)) }
{
    let by_name = read_encodings_by_name(alloc, tree, readings)?;
    let (by_name, first) = beside(by_name, read_first_encodings(alloc, tree, readings))?;
    let kept = (by_name, first);
    let ((by_name, first), rest) = beside(kept, read_item_encoding(alloc, tree, readings))?;
    Ok((by_name, first, rest))
}

/// The encodings of the properties: the member `encoding`.
#[cycle(read)]
fn read_encodings_by_name(
    alloc: Global,
    tree: &Value,
    readings: &mut Readings,
) -> Result<BTreeMap<String, Encoding>, ReadFault>
    ensures { Reads (field (row (codes "encoding") defaulted (map_of (named encoding_object))) (view tree.now))
        (map_of_docs encoding_doc) result
        readings.old readings.new (values_at (codes "encoding") (view tree.now)) }
{
    match tree.get("encoding") {
        Some(member) => read_encoding_map(alloc, member, readings),
        None => Ok(BTreeMap::new(alloc)),
    }
}

/// The encodings of the first items: the member `prefixEncoding`.
#[cycle(read)]
fn read_first_encodings(
    alloc: Global,
    tree: &Value,
    readings: &mut Readings,
) -> Result<Vec<Encoding>, ReadFault>
    ensures { Reads (field (row (codes "prefixEncoding") defaulted (list_of (named encoding_object))) (view tree.now))
        (list_of_docs encoding_doc) result
        readings.old readings.new (values_at (codes "prefixEncoding") (view tree.now)) }
{
    match tree.get("prefixEncoding") {
        Some(member) => read_encoding_list(alloc, member, readings),
        None => Ok(Vec::new(alloc)),
    }
}

/// The encoding of the items after the first: the member `itemEncoding`.
#[cycle(read)]
fn read_item_encoding(
    alloc: Global,
    tree: &Value,
    readings: &mut Readings,
) -> Result<Option<Box<Encoding>>, ReadFault>
    ensures { Reads (field (row (codes "itemEncoding") optional (named encoding_object)) (view tree.now))
        (option_of (boxed encoding_doc)) result
        readings.old readings.new (values_at (codes "itemEncoding") (view tree.now)) }
{
    match tree.get("itemEncoding") {
        Some(member) => {
            if member.is_null() {
                return Ok(None);
            }
            let value = read_encoding(alloc, member, readings)?;
            Ok(Some(Box::new(alloc, value)?))
        }
        None => Ok(None),
    }
}

/// The headers of a part: the member `headers`.
#[cycle(read)]
fn read_headers(
    alloc: Global,
    tree: &Value,
    readings: &mut Readings,
) -> Result<BTreeMap<String, RefOr<Header>>, ReadFault>
    ensures { Reads (field (row (codes "headers") defaulted (map_of (ref_or (named header_object)))) (view tree.now))
        (map_of_docs (ref_or_doc (named header_object) header_doc)) result
        readings.old readings.new (values_at (codes "headers") (view tree.now)) }
{
    match tree.get("headers") {
        Some(member) => read_header_map(alloc, member, readings),
        None => Ok(BTreeMap::new(alloc)),
    }
}

/// The contents of a header, by their media types: the member `content`.
#[cycle(read)]
fn read_contents(
    alloc: Global,
    tree: &Value,
    readings: &mut Readings,
) -> Result<BTreeMap<String, RefOr<Content>>, ReadFault>
    ensures { Reads
        (field (row (codes "content") defaulted (map_of (ref_or (named media_type_object)))) (view tree.now))
        (map_of_docs (ref_or_doc (named media_type_object) content_doc)) result
        readings.old readings.new (values_at (codes "content") (view tree.now)) }
{
    match tree.get("content") {
        Some(member) => read_content_map(alloc, member, readings),
        None => Ok(BTreeMap::new(alloc)),
    }
}

/// A list of encodings.
#[cycle(read)]
pub(crate) fn read_encoding_list(
    alloc: Global,
    tree: &Value,
    readings: &mut Readings,
) -> Result<Vec<Encoding>, ReadFault>
    ensures { Reads (read (list_of (named encoding_object)) (view tree.now)) (list_of_docs encoding_doc) result
        readings.old readings.new (values (view tree.now)) }
{
    let Some(items) = tree.as_array() else {
        return Err(ReadFault::Kind("list"));
    };
    let mut list = Vec::new(alloc);
    for item in items {
        push_read(&mut list, read_encoding(alloc, item, readings))?;
    }
    Ok(list)
}

/// Encodings by their names.
// Not inlined: the room of the insertion is not to stand on the stack while a value beside the map is read.
#[cycle(read)]
#[inline(never)]
fn read_encoding_map(
    alloc: Global,
    tree: &Value,
    readings: &mut Readings,
) -> Result<BTreeMap<String, Encoding>, ReadFault>
    ensures { Reads (read (map_of (named encoding_object)) (view tree.now)) (map_of_docs encoding_doc) result
        readings.old readings.new (values (view tree.now)) }
{
    let Some(members) = tree.as_object() else {
        return Err(ReadFault::Kind("map"));
    };
    let mut map = BTreeMap::new(alloc);
    for (key, member) in members.iter() {
        put_read(&mut map, key, read_encoding(alloc, member, readings))?;
    }
    Ok(map)
}

/// References and headers by their names.
// Not inlined: the room of the insertion is not to stand on the stack while a value beside the map is read.
#[cycle(read)]
#[inline(never)]
fn read_header_map(
    alloc: Global,
    tree: &Value,
    readings: &mut Readings,
) -> Result<BTreeMap<String, RefOr<Header>>, ReadFault>
    ensures { Reads (read (map_of (ref_or (named header_object))) (view tree.now))
        (map_of_docs (ref_or_doc (named header_object) header_doc)) result
        readings.old readings.new (values (view tree.now)) }
{
    let Some(members) = tree.as_object() else {
        return Err(ReadFault::Kind("map"));
    };
    let mut map = BTreeMap::new(alloc);
    for (key, member) in members.iter() {
        put_read(&mut map, key, read_ref_or_header(alloc, member, readings))?;
    }
    Ok(map)
}

/// References and contents by their media types.
// Not inlined: the room of the insertion is not to stand on the stack while a value beside the map is read.
#[cycle(read)]
#[inline(never)]
pub(crate) fn read_content_map(
    alloc: Global,
    tree: &Value,
    readings: &mut Readings,
) -> Result<BTreeMap<String, RefOr<Content>>, ReadFault>
    ensures { Reads (read (map_of (ref_or (named media_type_object))) (view tree.now))
        (map_of_docs (ref_or_doc (named media_type_object) content_doc)) result
        readings.old readings.new (values (view tree.now)) }
{
    let Some(members) = tree.as_object() else {
        return Err(ReadFault::Kind("map"));
    };
    let mut map = BTreeMap::new(alloc);
    for (key, member) in members.iter() {
        put_read(&mut map, key, read_ref_or_content(alloc, member, readings))?;
    }
    Ok(map)
}
