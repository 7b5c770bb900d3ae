//! The traits by which types say documents, operations and tags.
ghost use Rattle.std.specs.Prelude.{◌≡◌, ℕ, List, IfOk, string_bytes};
ghost use Rattle.utoipa_base.specs.Docs.{Doc};
ghost use Rattle.utoipa_leaf.specs.declared.path.HttpMethod.{HttpMethod};
ghost use Rattle.utoipa_path.specs.Docs.{operation_doc};
ghost use Rattle.utoipa.specs.OpenApi.{openapi_doc};
ghost use Rattle.utoipa.specs.Tags.{texts_of};

use crate::openapi;
use std::alloc::{AllocError, Global};
use utoipa_leaf::path::HttpMethod;
use utoipa_path::Operation;

/// A type that says the document of an API.
pub trait OpenApi {
    // What the document is like.
    ghost IsDescribed: { Doc → Type 0 };

    /// The document. Fails where memory runs out.
    fn openapi(alloc: Global) -> Result<openapi::OpenApi, AllocError>
        ensures { IfOk result (λ document. IsDescribed (openapi_doc document)) };
}

/// A value that changes documents, as one does that adds security schemes. What it changes, its own type says.
pub trait Modify {
    /// Changes a document. Fails where memory runs out, and then some of it may be changed.
    fn modify(&self, alloc: Global, openapi: &mut openapi::OpenApi) -> Result<(), AllocError>;
}

/// A type that says which tags operations bear.
pub trait Tags<'t> {
    // The tags, by their names.
    ghost tagged: { List (List ℕ) };

    /// The names of the tags. Fails where memory runs out.
    fn tags(alloc: Global) -> Result<Vec<&'t str>, AllocError>
        ensures { IfOk result (λ tags. texts_of tags.items ≡ tagged) };
}

/// An operation of a path, under one or more methods, with tags beside its own. [`operation_of`](crate::operation_of) puts them
/// together.
pub trait PathConfig {
    // The path.
    ghost named: { List ℕ };

    // The methods.
    ghost listed: { List HttpMethod };

    // The tags beside those of the operation, by their names.
    ghost tagged: { List (List ℕ) };

    // What the operation is like.
    ghost IsDescribed: { Doc → Type 0 };

    /// The path of the operation. Fails where memory runs out.
    fn path(alloc: Global) -> Result<String, AllocError>
        ensures { IfOk result (λ path. string_bytes path ≡ named) };

    /// The methods of the operation. Fails where memory runs out.
    fn methods(alloc: Global) -> Result<Vec<HttpMethod>, AllocError>
        ensures { IfOk result (λ methods. methods.items ≡ listed) };

    /// The names of the tags beside those of the operation, and the operation. Fails where memory runs out.
    fn tags_and_operation(alloc: Global) -> Result<(Vec<&'static str>, Operation), AllocError>
        ensures { IfOk result (λ made. (texts_of made.0.items ≡ tagged) × IsDescribed (operation_doc made.1)) };
}

/// A document that is nested into another, with the tags that its operations bear there. [`openapi_of`](crate::openapi_of) puts them
/// together.
pub trait NestedApiConfig {
    // What the document is like.
    ghost IsDescribed: { Doc → Type 0 };

    // The tags beside those of each operation, by their names.
    ghost tagged: { List (List ℕ) };

    // The path of the module, which is the tag of an operation that has no other, unless it is empty.
    ghost module_path: { List ℕ };

    /// The document, the names of the tags beside those of each operation, and the path of the module. Fails where memory runs out.
    fn config(
        alloc: Global,
    ) -> Result<(openapi::OpenApi, Vec<&'static str>, &'static str), AllocError>
        ensures { IfOk result (λ made. IsDescribed (openapi_doc made.0) × (texts_of made.1.items ≡ tagged)
            × (made.2.now ≡ module_path)) };
}
