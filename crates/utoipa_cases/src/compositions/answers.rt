//! What is answered of any type.

use serde_json::Value;
use std::alloc::{AllocError, Global};
use utoipa_base::{Ref, RefOr, Tree};
use utoipa_case_kit::printed;
use utoipa_compose::{ComposeFault, ComposeSchema, PartialSchema, ToSchema};
use utoipa_schema::Schema;

/// What the type is composed to over the schemas of a text, or the refusal.
pub fn composed<T: ComposeSchema>(alloc: Global, text: &str) -> Result<String, AllocError> {
    match listed(alloc, text) {
        Some(schemas) => told(alloc, T::compose(alloc, schemas)),
        None => String::from_str(alloc, "no list of schemas"),
    }
}

fn listed(alloc: Global, text: &str) -> Option<Vec<RefOr<Schema>>> {
    let tree = Value::from_str(alloc, text).ok()?;
    Vec::from_value(alloc, &tree).ok()
}

/// The schema of the type, or the refusal.
pub fn described<T: PartialSchema>(alloc: Global) -> Result<String, AllocError> {
    told(alloc, T::schema(alloc))
}

/// The name of the type's schema.
pub fn named<T: ToSchema>(alloc: Global) -> Result<String, AllocError> {
    T::name().into_owned(alloc)
}

/// The names of the schemas that the type's schema refers to, behind one that was in the list.
pub fn referred<T: ToSchema>(alloc: Global) -> Result<String, AllocError> {
    let mut schemas = Vec::new(alloc);
    let given = String::from_str(alloc, "Given")?;
    let reference = Ref::from_schema_name(alloc, "Given")?;
    schemas.push((given, RefOr::Ref(reference)))?;
    let outcome = T::schemas(alloc, &mut schemas);
    let names = names_of(alloc, &schemas)?;
    match outcome {
        Ok(()) => Ok(names),
        Err(_) if names.as_str() == "Given " => {
            String::from_str(alloc, "refused: memory, and nothing has changed")
        }
        Err(_) => String::from_str(alloc, "refused: memory, and the list has changed"),
    }
}

fn names_of(alloc: Global, schemas: &[(String, RefOr<Schema>)]) -> Result<String, AllocError> {
    let mut names = String::new(alloc);
    for (name, _) in schemas {
        names.push_str(name.as_str())?;
        names.push(' ')?;
    }
    Ok(names)
}

fn told(alloc: Global, outcome: Result<RefOr<Schema>, ComposeFault>) -> Result<String, AllocError> {
    match outcome {
        Ok(schema) => printed(alloc, &schema),
        Err(fault) => format!(in alloc; "refused: {fault}"),
    }
}
