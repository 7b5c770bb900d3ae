//! The operations of a path item by their HTTP methods.
ghost use Rattle.std.specs.Prelude.{◌≡◌, option_map};
ghost use Rattle.std.specs.Option.{option_or};
ghost use Rattle.utoipa_leaf.specs.declared.path.HttpMethod.{HttpMethod};
ghost use Rattle.utoipa_path.specs.Methods.{operation_at, with_method, with_operation, without_methods, replaced, filled};
ghost use Rattle.utoipa_path.specs.declared.types.PathItem.{out-PathItem};

use crate::path_item::empty_path_item;
use crate::types::{Operation, PathItem};
use std::alloc::Global;
use std::mem;
use utoipa_leaf::path::HttpMethod;

impl PathItem {
    /// The operation of a method, where the item has one (OpenAPI 3.1, section 4.8.9).
    pub fn operation(&self, method: HttpMethod) -> Option<&Operation>
        ensures { option_map (λ o. o.now) result ≡ operation_at method (out-PathItem self.now) }
    {
        match method {
            HttpMethod::Get => self.get.as_ref(),
            HttpMethod::Post => self.post.as_ref(),
            HttpMethod::Put => self.put.as_ref(),
            HttpMethod::Delete => self.delete.as_ref(),
            HttpMethod::Options => self.options.as_ref(),
            HttpMethod::Head => self.head.as_ref(),
            HttpMethod::Patch => self.patch.as_ref(),
            HttpMethod::Trace => self.trace.as_ref(),
        }
    }
}

/// Sets the operation of a method, or that there is none, and answers the one that stood there. All else stays as it is.
// Not inlined: where items hold each other, its room on the stack is not needed while one inside is copied.
#[inline(never)]
pub fn replace_operation(
    item: &mut PathItem,
    method: HttpMethod,
    operation: Option<Operation>,
) -> Option<Operation>
    ensures before { result ≡ operation_at method (out-PathItem item.old) }
    ensures after { out-PathItem item.new ≡ with_method method operation (out-PathItem item.old) }
{
    match method {
        HttpMethod::Get => mem::replace(&mut item.get, operation),
        HttpMethod::Post => mem::replace(&mut item.post, operation),
        HttpMethod::Put => mem::replace(&mut item.put, operation),
        HttpMethod::Delete => mem::replace(&mut item.delete, operation),
        HttpMethod::Options => mem::replace(&mut item.options, operation),
        HttpMethod::Head => mem::replace(&mut item.head, operation),
        HttpMethod::Patch => mem::replace(&mut item.patch, operation),
        HttpMethod::Trace => mem::replace(&mut item.trace, operation),
    }
}

/// Sets the operation of a method, in place of an earlier one.
pub(crate) fn set_operation(item: &mut PathItem, method: HttpMethod, operation: Operation)
    ensures { out-PathItem item.new ≡ with_operation method operation (out-PathItem item.old) }
{
    drop(replace_operation(item, method, Some(operation)));
}

/// Takes the operations of another item that stand at methods of [`HttpMethod`], in place of earlier ones. All else stays as it is.
/// Takes no memory.
pub fn take_operations(item: &mut PathItem, alloc: Global, other: PathItem)
    ensures taken { (m : HttpMethod) → operation_at m (out-PathItem item.new)
        ≡ option_or (operation_at m (out-PathItem other)) (operation_at m (out-PathItem item.old)) }
    ensures rest { without_methods (out-PathItem item.new) ≡ without_methods (out-PathItem item.old) }
{
    let own = mem::replace(item, empty_path_item(alloc));
    drop(mem::replace(item, with_operations_of(own, other)));
}

/// The item, with the operations of another in place of its own.
fn with_operations_of(item: PathItem, other: PathItem) -> PathItem
    ensures { out-PathItem result ≡ replaced (out-PathItem item) (out-PathItem other) }
{
    PathItem {
        get: other.get.or(item.get),
        put: other.put.or(item.put),
        post: other.post.or(item.post),
        delete: other.delete.or(item.delete),
        options: other.options.or(item.options),
        head: other.head.or(item.head),
        patch: other.patch.or(item.patch),
        trace: other.trace.or(item.trace),
        ..item
    }
}

/// The item, with the operations of another where it has none; its additional operations stay.
pub(crate) fn with_missing_of(item: PathItem, other: PathItem) -> PathItem
    ensures { out-PathItem result ≡ filled (out-PathItem item) (out-PathItem other) }
{
    PathItem {
        get: item.get.or(other.get),
        put: item.put.or(other.put),
        post: item.post.or(other.post),
        delete: item.delete.or(other.delete),
        options: item.options.or(other.options),
        head: item.head.or(other.head),
        patch: item.patch.or(other.patch),
        trace: item.trace.or(other.trace),
        query: item.query.or(other.query),
        ..item
    }
}
