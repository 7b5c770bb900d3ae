//! What stands in a place of a document: a value, or a reference that leads to a component.

use serde_json::Value;
use std::alloc::{AllocError, Global};
use utoipa::openapi::{Components, RefOr, Schema};
use utoipa_base::{ReadFault, Tree};
use utoipa_case_kit::{printed, refused, two_trees};

/// What the schema in the place of the second of two texts is written as, by the components of the first; `none` where there is none. A tab stands
/// between the texts.
pub fn schema_in(alloc: Global, texts: &str) -> Result<String, AllocError> {
    match two_trees(alloc, texts) {
        Ok((components, place)) => match read_place(alloc, &components, &place) {
            Ok((components, place)) => schema_at(alloc, &components, &place),
            Err(fault) => refused(alloc, &fault),
        },
        Err(lacking) => String::from_str(alloc, lacking),
    }
}

fn read_place(
    alloc: Global,
    components: &Value,
    place: &Value,
) -> Result<(Components, RefOr<Schema>), ReadFault> {
    let components = Components::from_value(alloc, components)?;
    let place = RefOr::<Schema>::from_value(alloc, place)?;
    Ok((components, place))
}

fn schema_at(
    alloc: Global,
    components: &Components,
    place: &RefOr<Schema>,
) -> Result<String, AllocError> {
    match components.schema(alloc, place)? {
        Some(schema) => printed(alloc, schema),
        None => String::from_str(alloc, "none"),
    }
}
