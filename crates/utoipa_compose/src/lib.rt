//! What types are composed to: the schemas of their values, and the traits by which a type says its own.
#![tactic(auto)]

mod containers;
mod fault;
mod integers;
mod made;
mod maps;
mod parts;
mod scalars;
mod sets;
mod traits;
mod values;

pub use fault::ComposeFault;
pub use traits::{ComposeSchema, PartialSchema, SchemaReferences, ToSchema, TupleUnit, schema_of};
