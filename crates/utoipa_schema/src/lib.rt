//! Schemas: what the values of an API have to be.
#![tactic(auto)]

pub mod all_of;
mod alternatives;
pub mod any_of;
pub mod array;
mod assemble;
pub mod conversions;
mod copy;
mod emit;
mod fill;
mod inner_members;
mod left_out;
mod lists;
mod members;
pub mod object;
pub mod one_of;
mod outcomes;
mod places;
mod read;
pub mod trees;
pub mod types;
mod unambiguous;
mod without_schemas;

pub use all_of::AllOfBuilder;
pub use any_of::AnyOfBuilder;
pub use array::{ArrayBuilder, RefToArray, ToArray};
pub use conversions::{IsReference, schema_from_ref_or};
pub use object::{ObjectBuilder, empty};
pub use one_of::OneOfBuilder;
pub use trees::{read_ref_or_schema, read_schema_list, read_schema_map};
pub use types::{AdditionalProperties, AllOf, AnyOf, Array, ArrayItems, Object, OneOf, Schema};
pub use utoipa_schema_parts::{Discriminator, KnownFormat, SchemaFormat, SchemaType, TypeWord};
