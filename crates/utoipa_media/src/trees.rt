//! Contents, encodings and headers are read from trees and written as trees.
ghost use Rattle.std.specs.Prelude.{false};
ghost use Rattle.serde_json.specs.View.{view};
ghost use Rattle.utoipa_base.specs.Reading.{read as read_as};
ghost use Rattle.utoipa_base.specs.Reads.{Reads};
ghost use Rattle.utoipa_base.specs.Values.{values};
ghost use Rattle.utoipa_media.specs.OfKind.{content_of_kind, encoding_of_kind, header_of_kind};

use crate::types::{Content, Encoding, Header};
use crate::{copy, read};
use serde_json::Value;
use std::alloc::{AllocError, Global};
use std::collections::BTreeMap;
use utoipa_base::{Documented, Place, ReadFault, Readings, RefOr, Tree};

/// A content, by its member table.
impl Tree for Content {
    ghost is_of_kind = { content_of_kind };

    fn read_plain(
        alloc: Global,
        tree: &Value,
        readings: &mut Readings,
    ) -> Result<Content, ReadFault> {
        read::read_content(alloc, tree, readings)
    }

    fn try_clone(&self, alloc: Global) -> Result<Content, AllocError> {
        copy::clone_content(alloc, self)
    }
}

/// A content is no schema.
impl Place for Content {
    fn is_schema() -> bool {
        false
    }
}

/// An encoding, by its member table.
impl Tree for Encoding {
    ghost is_of_kind = { encoding_of_kind };

    fn read_plain(
        alloc: Global,
        tree: &Value,
        readings: &mut Readings,
    ) -> Result<Encoding, ReadFault> {
        read::read_encoding(alloc, tree, readings)
    }

    fn try_clone(&self, alloc: Global) -> Result<Encoding, AllocError> {
        copy::clone_encoding(alloc, self)
    }
}

/// An encoding is no schema.
impl Place for Encoding {
    fn is_schema() -> bool {
        false
    }
}

/// A header, by its member table.
impl Tree for Header {
    ghost is_of_kind = { header_of_kind };

    fn read_plain(
        alloc: Global,
        tree: &Value,
        readings: &mut Readings,
    ) -> Result<Header, ReadFault> {
        read::read_header(alloc, tree, readings)
    }

    fn try_clone(&self, alloc: Global) -> Result<Header, AllocError> {
        copy::clone_header(alloc, self)
    }
}

/// A header is no schema.
impl Place for Header {
    fn is_schema() -> bool {
        false
    }
}

/// Reads a reference, or else a header: what `RefOr<Header>` reads.
///
/// Fails where the tree is neither, with the fault of the header, and where memory runs out.
pub fn read_ref_or_header(
    alloc: Global,
    tree: &Value,
    readings: &mut Readings,
) -> Result<RefOr<Header>, ReadFault>
    ensures { Reads (read_as ⟦<RefOr<Header> as Documented>⟧.kind (view tree.now))
        ⟦<RefOr<Header> as Documented>⟧.doc result
        readings.old readings.new (values (view tree.now)) }
{
    read::read_ref_or_header(alloc, tree, readings)
}

/// Reads a list of encodings: what `Vec<Encoding>` reads.
///
/// Fails where the tree is no list, where an item is no encoding, and where memory runs out.
pub fn read_encoding_list(
    alloc: Global,
    tree: &Value,
    readings: &mut Readings,
) -> Result<Vec<Encoding>, ReadFault>
    ensures { Reads (read_as ⟦<Vec<Encoding> as Documented>⟧.kind (view tree.now))
        ⟦<Vec<Encoding> as Documented>⟧.doc result
        readings.old readings.new (values (view tree.now)) }
{
    read::read_encoding_list(alloc, tree, readings)
}

/// Reads references and contents by their media types: what `BTreeMap<String, RefOr<Content>>` reads.
///
/// Fails where the tree is no object, where a member is neither a reference nor a content, and where memory runs out.
pub fn read_content_map(
    alloc: Global,
    tree: &Value,
    readings: &mut Readings,
) -> Result<BTreeMap<String, RefOr<Content>>, ReadFault>
    ensures { Reads (read_as ⟦<BTreeMap<String, RefOr<Content>> as Documented>⟧.kind (view tree.now))
        ⟦<BTreeMap<String, RefOr<Content>> as Documented>⟧.doc result
        readings.old readings.new (values (view tree.now)) }
{
    read::read_content_map(alloc, tree, readings)
}
