//! The types of operations and path items, which hold each other through callbacks.

use std::collections::BTreeMap;
use utoipa_base::{Deprecated, Extensions, RefOr};
use utoipa_leaf::external_docs::ExternalDocs;
use utoipa_leaf::server::Server;
use utoipa_operation_parts::{Parameter, RequestBody, Responses};
use utoipa_security::security::SecurityRequirement;

/// An Operation Object (OpenAPI 3.1, section 4.8.10): what can be asked of a path by one method.
#[cycle(path)]
#[derive(Debug, Drop)]
pub struct Operation {
    /// The names of the tags that group the operation.
    pub tags: Option<Vec<String>>,
    /// What the operation does, in short.
    pub summary: Option<String>,
    /// What the operation does.
    pub description: Option<String>,
    /// A name that no other operation has: the member `operationId`.
    pub operation_id: Option<String>,
    /// Further documentation of the operation: the member `externalDocs`.
    pub external_docs: Option<ExternalDocs>,
    /// The parameters of the operation, beside those of its path item.
    pub parameters: Option<Vec<RefOr<Parameter>>>,
    /// What is sent to the operation: the member `requestBody`.
    pub request_body: Option<RefOr<RequestBody>>,
    /// What the operation answers.
    pub responses: Responses,
    /// What the operation asks of the caller's own service, by names.
    pub callbacks: BTreeMap<String, RefOr<BTreeMap<String, RefOr<PathItem>>>>,
    /// Whether the operation should no longer be used.
    pub deprecated: Option<Deprecated>,
    /// The security requirements of the operation, of which one has to be met, in place of those of the document.
    pub security: Option<Vec<SecurityRequirement>>,
    /// The servers of the operation, in place of those of its path item or of the document.
    pub servers: Option<Vec<Server>>,
    /// Specification extensions.
    pub extensions: Option<Extensions>,
}

/// A Path Item Object (OpenAPI 3.1, section 4.8.9; `query` and `additionalOperations` from 3.2): the operations of a path.
#[cycle(path)]
#[derive(Debug, Drop)]
pub struct PathItem {
    /// Where the definition of the item stands: the member `$ref`. The other fields may add to it.
    pub ref_path: Option<String>,
    /// What the path is for, in short.
    pub summary: Option<String>,
    /// What the path is for.
    pub description: Option<String>,
    /// The operation of the method GET.
    pub get: Option<Operation>,
    /// The operation of the method PUT.
    pub put: Option<Operation>,
    /// The operation of the method POST.
    pub post: Option<Operation>,
    /// The operation of the method DELETE.
    pub delete: Option<Operation>,
    /// The operation of the method OPTIONS.
    pub options: Option<Operation>,
    /// The operation of the method HEAD.
    pub head: Option<Operation>,
    /// The operation of the method PATCH.
    pub patch: Option<Operation>,
    /// The operation of the method TRACE.
    pub trace: Option<Operation>,
    /// The operation of the method QUERY.
    pub query: Option<Operation>,
    /// The operations of other methods, by the methods' names: the member `additionalOperations`.
    pub additional_operations: BTreeMap<String, Operation>,
    /// The servers of the operations that have none of their own.
    pub servers: Option<Vec<Server>>,
    /// The parameters that all operations of the path have.
    pub parameters: Option<Vec<RefOr<Parameter>>>,
    /// Specification extensions.
    pub extensions: Option<Extensions>,
}

/// A Callback Object (OpenAPI 3.1, section 4.8.18): what an operation asks of the caller's own service, by expressions that
/// give the URL. Every member is an entry, also one whose name begins `x-`.
pub type Callback = BTreeMap<String, RefOr<PathItem>>;
