//! OpenAPI documents under the paths of the original crate: [`openapi`] has the document and the modules of all that may stand in
//! one, and what merges documents. Here stands what reads and writes them.
#![tactic(auto)]

mod bracketing;
mod builder;
mod document;
mod json_text;
mod key_order;
pub mod laws;
mod merging;
mod nesting;
pub mod openapi;
mod operations;
mod own_schemas;
mod tags;
mod text;
mod traits;
mod unambiguous;

pub use json_text::{from_json, from_slice, to_json, to_pretty_json};
pub use tags::{openapi_of, operation_of};
pub use traits::{Modify, OpenApi};
pub use utoipa_base::{
    Counted, NeverText, NoReference, Number, Place, ReadFault, Readings, Tree, Unambiguous, Unread,
    Word, has_fraction, same_tree,
};
pub use utoipa_compose::{ComposeFault, PartialSchema, ToSchema, TupleUnit, schema_of};
pub use utoipa_operation_parts::{IntoParams, IntoResponses, ToResponse};
pub use utoipa_paths::Path;

/// Traits of which the implementations of others are made, and what makes the schemas that types say.
pub mod dev {
    pub use crate::own_schemas::{Fields, schema_ref, text_among};
    pub use crate::traits::{NestedApiConfig, PathConfig, Tags};
    pub use utoipa_compose::{ComposeSchema, SchemaReferences};
}
