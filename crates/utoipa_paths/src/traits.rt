//! The trait by which a type says which operation of which path it is.
ghost use Rattle.std.specs.Prelude.{◌≡◌, ℕ, List, IfOk, string_bytes};
ghost use Rattle.utoipa_base.specs.Docs.{Doc};
ghost use Rattle.utoipa_leaf.specs.declared.path.HttpMethod.{HttpMethod};
ghost use Rattle.utoipa_path.specs.Docs.{operation_doc};
ghost use Rattle.utoipa_paths.specs.Items.{IsItemOf, IsItemInOrder};

use std::alloc::{AllocError, Global};
use utoipa_leaf::path::HttpMethod;
use utoipa_path::{Operation, PathItem};

/// An operation of a path, under one or more methods.
pub trait Path {
    // The methods.
    ghost listed: { List HttpMethod };

    // The path.
    ghost named: { List ℕ };

    // What the operation is like.
    ghost IsDescribed: { Doc → Type 0 };

    /// The methods of the operation. Fails where memory runs out.
    fn methods(alloc: Global) -> Result<Vec<HttpMethod>, AllocError>
        ensures { IfOk result (λ methods. methods.items ≡ listed) };

    /// The path of the operation. Fails where memory runs out.
    fn path(alloc: Global) -> Result<String, AllocError>
        ensures { IfOk result (λ path. string_bytes path ≡ named) };

    /// The operation. Fails where memory runs out.
    fn operation(alloc: Global) -> Result<Operation, AllocError>
        ensures { IfOk result (λ operation. IsDescribed (operation_doc operation)) };
}

/// A new item with the operation of a type under each of its methods. Fails where memory runs out.
pub(crate) fn item_from<P: Path>(alloc: Global) -> Result<PathItem, AllocError>
    ensures item { IfOk result (λ item. IsItemOf P.listed P.IsDescribed item) }
    ensures ordered { IfOk result IsItemInOrder }
{
    let methods = P::methods(alloc)?;
    let operation = P::operation(alloc)?;
    PathItem::from_http_methods(alloc, methods, operation)
}
