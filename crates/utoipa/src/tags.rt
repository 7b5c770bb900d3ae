//! Operations and documents of types that say tags beside those of the operations.
ghost use Rattle.std.specs.Prelude.{◌≡◌, ◌++◌, Option, IfOk, OnOk, map, string_bytes};
ghost use Rattle.utoipa_base.specs.Docs.{Doc};
ghost use Rattle.utoipa_base.specs.Views.{option_of};
ghost use Rattle.utoipa_path.specs.Docs.{operation_doc, path_item_doc};
ghost use Rattle.utoipa_path.specs.Lists.{items_if_any};
ghost use Rattle.utoipa_path.specs.Methods.{operation_at, with_method};
ghost use Rattle.utoipa_path.specs.declared.types.Operation.{Operation};
ghost use Rattle.utoipa_path.specs.declared.types.PathItem.{out-PathItem};
ghost use Rattle.utoipa.specs.OpenApi.{openapi_doc};
ghost use Rattle.utoipa.specs.Tags.{texts_of, or_module, with_tags, nested_operation, nested_item, nested_method, nested_openapi, item_entries, change_entries};

use crate::document::OpenApi;
use crate::traits::{NestedApiConfig, PathConfig};
use std::alloc::{AllocError, Global};
use std::collections::BTreeMap;
use std::mem;
use utoipa_base::{put, set};
use utoipa_leaf::path::HttpMethod;
use utoipa_path::methods::replace_operation;
use utoipa_path::{Operation, PathItem};
use utoipa_paths::PathsMap;

/// The operation of a type, whose tags are its own, and behind them those that the type says beside it. It has a list of tags also
/// where there are none.
///
/// Fails where memory runs out.
pub fn operation_of<T: PathConfig>(alloc: Global) -> Result<Operation, AllocError>
    ensures { IfOk result (λ operation. (own : Doc) × T.IsDescribed own
        × (operation_doc operation ≡ with_tags T.tagged own)) }
{
    let (tags, operation) = T::tags_and_operation(alloc)?;
    let mut operation = operation;
    add_tags(&mut operation, alloc, &tags).and(Ok(operation))
}

/// The document of a type, where each operation under one of the eight methods of [`HttpMethod`](crate::openapi::HttpMethod) has its
/// tags, and behind them those that the type says. Where these are none, the path of the module is the one tag, unless it is empty. An
/// operation has a list of tags also where there are none. The operations of QUERY and those under further names, those of webhooks and
/// of components stay as they are.
///
/// Fails where memory runs out.
pub fn openapi_of<T: NestedApiConfig>(alloc: Global) -> Result<OpenApi, AllocError>
    ensures { IfOk result (λ document. (own : Doc) × T.IsDescribed own
        × (openapi_doc document ≡ nested_openapi T.tagged T.module_path own)) }
{
    let (document, tags, module_path) = T::config(alloc)?;
    let mut document = document;
    let items = mem::replace(&mut document.paths.paths, BTreeMap::new(alloc));
    let items = nested_items(alloc, items, &tags, module_path);
    set(&mut document.paths.paths, items).and(Ok(document))
}

/// The path items, whose operations have their tags and the further ones. Fails where memory runs out.
fn nested_items(
    alloc: Global,
    items: PathsMap<String, PathItem>,
    tags: &Vec<&'static str>,
    module_path: &str,
) -> Result<PathsMap<String, PathItem>, AllocError>
    ensures { IfOk result
        (λ nested. item_entries nested
        ≡ change_entries (nested_item (texts_of tags.now.items) module_path.now) (item_entries items)) }
{
    let mut nested = BTreeMap::new(alloc);
    for (path, item) in items {
        let item = tagged_item(alloc, item, tags, module_path)?;
        put(&mut nested, path, item)?;
    }
    Ok(nested)
}

/// The path item, whose operations have their tags and the further ones. Fails where memory runs out.
fn tagged_item(
    alloc: Global,
    item: PathItem,
    tags: &Vec<&'static str>,
    module_path: &str,
) -> Result<PathItem, AllocError>
    ensures { IfOk result
        (λ tagged. path_item_doc tagged ≡ nested_item (texts_of tags.now.items) module_path.now (path_item_doc item)) }
{
    let mut item = item;
    tag_item(&mut item, alloc, tags, module_path).and(Ok(item))
}

/// Adds further tags to the operations of a path item. Fails where memory runs out, and then some operations have them.
fn tag_item(
    item: &mut PathItem,
    alloc: Global,
    tags: &Vec<&'static str>,
    module_path: &str,
) -> Result<(), AllocError>
    ensures { OnOk result (path_item_doc item.new
        ≡ nested_item (texts_of tags.now.items) module_path.now (path_item_doc item.old)) }
{
    tag_main_methods(item, alloc, tags, module_path)?;
    tag_other_methods(item, alloc, tags, module_path)?;
    Ok(())
}

/// Adds further tags to the operations of GET, PUT, POST and DELETE. Fails where memory runs out, and then some operations have them.
fn tag_main_methods(
    item: &mut PathItem,
    alloc: Global,
    tags: &Vec<&'static str>,
    module_path: &str,
) -> Result<(), AllocError>
    ensures { OnOk result ((get put post delete : Option Operation)
        × (option_of operation_doc get
        ≡ nested_method (texts_of tags.now.items) module_path.now (out-PathItem item.old).get)
        × (option_of operation_doc put
        ≡ nested_method (texts_of tags.now.items) module_path.now (out-PathItem item.old).put)
        × (option_of operation_doc post
        ≡ nested_method (texts_of tags.now.items) module_path.now (out-PathItem item.old).post)
        × (option_of operation_doc delete
        ≡ nested_method (texts_of tags.now.items) module_path.now (out-PathItem item.old).delete)
        × (out-PathItem item.new
        ≡ record (out-PathItem item.old) { get = get; put = put; post = post; delete = delete })) }
{
    tag_method(item, alloc, HttpMethod::Get, tags, module_path)?;
    tag_method(item, alloc, HttpMethod::Put, tags, module_path)?;
    tag_method(item, alloc, HttpMethod::Post, tags, module_path)?;
    tag_method(item, alloc, HttpMethod::Delete, tags, module_path)?;
    Ok(())
}

/// The same of OPTIONS, HEAD, PATCH and TRACE.
fn tag_other_methods(
    item: &mut PathItem,
    alloc: Global,
    tags: &Vec<&'static str>,
    module_path: &str,
) -> Result<(), AllocError>
    ensures { OnOk result ((options head patch trace : Option Operation)
        × (option_of operation_doc options
        ≡ nested_method (texts_of tags.now.items) module_path.now (out-PathItem item.old).options)
        × (option_of operation_doc head
        ≡ nested_method (texts_of tags.now.items) module_path.now (out-PathItem item.old).head)
        × (option_of operation_doc patch
        ≡ nested_method (texts_of tags.now.items) module_path.now (out-PathItem item.old).patch)
        × (option_of operation_doc trace
        ≡ nested_method (texts_of tags.now.items) module_path.now (out-PathItem item.old).trace)
        × (out-PathItem item.new
        ≡ record (out-PathItem item.old) { options = options; head = head; patch = patch; trace = trace })) }
{
    tag_method(item, alloc, HttpMethod::Options, tags, module_path)?;
    tag_method(item, alloc, HttpMethod::Head, tags, module_path)?;
    tag_method(item, alloc, HttpMethod::Patch, tags, module_path)?;
    tag_method(item, alloc, HttpMethod::Trace, tags, module_path)?;
    Ok(())
}

/// Adds further tags to the operation of a method, if there is one. Fails where memory runs out, and then gives it up.
fn tag_method(
    item: &mut PathItem,
    alloc: Global,
    method: HttpMethod,
    tags: &Vec<&'static str>,
    module_path: &str,
) -> Result<(), AllocError>
    ensures { OnOk result ((operation : Option Operation)
        × (option_of operation_doc operation
        ≡ nested_method (texts_of tags.now.items) module_path.now (operation_at method (out-PathItem item.old)))
        × (out-PathItem item.new ≡ with_method method operation (out-PathItem item.old))) }
{
    if let Some(operation) = replace_operation(item, method, None) {
        let mut operation = operation;
        tag_operation(&mut operation, alloc, tags, module_path)?;
        drop(replace_operation(item, method, Some(operation)));
    }
    Ok(())
}

/// Adds further tags to an operation; where it has none then, the path of the module, unless it is empty. Fails where memory runs out,
/// and then the operation may have lost its tags.
fn tag_operation(
    operation: &mut Operation,
    alloc: Global,
    tags: &Vec<&'static str>,
    module_path: &str,
) -> Result<(), AllocError>
    ensures { OnOk result (operation_doc operation.new
        ≡ nested_operation (texts_of tags.now.items) module_path.now (operation_doc operation.old)) }
{
    let own = mem::replace(&mut operation.tags, None);
    let tags = tags_behind(alloc, own, tags)?;
    operation.tags = Some(tags_or_module(alloc, tags, module_path)?);
    Ok(())
}

/// Adds further tags to an operation, which has a list of tags then. Fails where memory runs out, and then the operation may have lost
/// its tags.
fn add_tags(
    operation: &mut Operation,
    alloc: Global,
    tags: &Vec<&'static str>,
) -> Result<(), AllocError>
    ensures { OnOk result (operation_doc operation.new
        ≡ with_tags (texts_of tags.now.items) (operation_doc operation.old)) }
{
    let own = mem::replace(&mut operation.tags, None);
    operation.tags = Some(tags_behind(alloc, own, tags)?);
    Ok(())
}

/// The tags of a list that may be absent, and further tags behind them. Fails where memory runs out.
fn tags_behind(
    alloc: Global,
    own: Option<Vec<String>>,
    further: &Vec<&'static str>,
) -> Result<Vec<String>, AllocError>
    ensures { IfOk result (λ tags. map string_bytes tags.items
        ≡ map string_bytes (items_if_any own) ++ texts_of further.now.items) }
{
    let mut tags = match own {
        Some(tags) => tags,
        None => Vec::new(alloc),
    };
    for tag in further {
        tags.push(String::from_str(alloc, tag)?)?;
    }
    Ok(tags)
}

/// The tags, or where there are none the path of the module, unless it is empty. Fails where memory runs out.
fn tags_or_module(
    alloc: Global,
    tags: Vec<String>,
    module_path: &str,
) -> Result<Vec<String>, AllocError>
    ensures { IfOk result (λ made. map string_bytes made.items
        ≡ or_module module_path.now (map string_bytes tags.items)) }
{
    let mut tags = tags;
    if tags.is_empty() && !module_path.is_empty() {
        tags.push(String::from_str(alloc, module_path)?)?;
    }
    Ok(tags)
}
