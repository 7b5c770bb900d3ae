//! A program's own types: what their schemas are made of, and the components in which these stand.
ghost use Rattle.std.specs.Prelude.{◌∷◌, [], Some, codes};
ghost use Rattle.utoipa.specs.Implementing.{text};
ghost use Rattle.utoipa.specs.OwnSchemas.{schema_ref as schema_ref_doc};

use crate::merged::{read_text, shown};
use std::alloc::{AllocError, Global};
use std::borrow::CowStr;
use utoipa::dev::{Fields, schema_ref, text_among};
use utoipa::openapi::{Components, ComponentsBuilder, RefOr, Schema};
use utoipa::{ComposeFault, PartialSchema, ToSchema};
use utoipa_case_kit::{printed, refused};

/// A kind, which is a text.
struct Kind;

impl PartialSchema for Kind {
    ghost described = { Some text };

    fn schema(alloc: Global) -> Result<RefOr<Schema>, ComposeFault> {
        String::schema(alloc)
    }
}

impl ToSchema for Kind {
    ghost named = { codes "Kind" };

    ghost referred = { [] };

    fn name() -> CowStr<'static, Global> {
        CowStr::Borrowed("Kind")
    }

    fn schemas(
        _alloc: Global,
        _schemas: &mut Vec<(String, RefOr<Schema>)>,
    ) -> Result<(), AllocError> {
        Ok(())
    }
}

/// What is of a kind: a reference to the schema of kinds stands for its own.
struct Pet;

impl PartialSchema for Pet {
    ghost described = { Some (schema_ref_doc (codes "Kind")) };

    fn schema(alloc: Global) -> Result<RefOr<Schema>, ComposeFault> {
        Ok(schema_ref(alloc, "Kind")?)
    }
}

impl ToSchema for Pet {
    ghost named = { codes "Pet" };

    ghost referred = { (codes "Kind", text) ∷ [] };

    fn name() -> CowStr<'static, Global> {
        CowStr::Borrowed("Pet")
    }

    fn schemas(
        alloc: Global,
        schemas: &mut Vec<(String, RefOr<Schema>)>,
    ) -> Result<(), AllocError> {
        let name = String::from_str(alloc, "Kind")?;
        let Ok(schema) = Kind::schema(alloc) else {
            return Err(AllocError);
        };
        Ok(schemas.push((name, schema))?)
    }
}

/// What components are written as, with the schema of the type of that name and with those that it refers to.
pub fn with_schemas_of(alloc: Global, name: &str, text: &str) -> Result<String, AllocError> {
    match read_text::<Components>(alloc, text) {
        Ok(components) => match name {
            "Kind" => with_schemas::<Kind>(alloc, components),
            "Pet" => with_schemas::<Pet>(alloc, components),
            _ => String::from_str(alloc, "no such type"),
        },
        Err(fault) => refused(alloc, &fault),
    }
}

fn with_schemas<T: ToSchema>(alloc: Global, components: Components) -> Result<String, AllocError> {
    match ComponentsBuilder::from(components).schemas_from::<T>(alloc) {
        Ok(builder) => shown(alloc, Ok(builder.build())),
        Err(fault) => format!(in alloc; "refused: {fault}"),
    }
}

/// What the schema is written as that is made in that way.
pub fn own_schema(alloc: Global, way: &str) -> Result<String, AllocError> {
    match way {
        "fields" => printed(alloc, &fields(alloc)?.schema(alloc)),
        "fields of one name" => printed(alloc, &fields_of_one_name(alloc)?.schema(alloc)),
        "no fields" => printed(alloc, &Fields::new(alloc).schema(alloc)),
        "reference" => printed(alloc, &schema_ref(alloc, "Kind")?),
        "texts" => printed(alloc, &text_among(alloc, &["dog", "cat"])?),
        _ => String::from_str(alloc, "no such way"),
    }
}

// Two fields that have to be there and one that may be absent, of which one takes the place of an earlier one.
fn fields(alloc: Global) -> Result<Fields, AllocError> {
    let fields = Fields::new(alloc).optional(alloc, "name", schema_ref(alloc, "Any")?)?;
    let fields = fields.required(alloc, "name", schema_ref(alloc, "Name")?)?;
    let fields = fields.optional(alloc, "kind", schema_ref(alloc, "Kind")?)?;
    fields.required(alloc, "age", schema_ref(alloc, "Age")?)
}

// One name twice among those that have to be there, and one that has to be there first and then may be absent.
fn fields_of_one_name(alloc: Global) -> Result<Fields, AllocError> {
    let fields = Fields::new(alloc).required(alloc, "id", schema_ref(alloc, "Any")?)?;
    let fields = fields.required(alloc, "kind", schema_ref(alloc, "Kind")?)?;
    let fields = fields.required(alloc, "id", schema_ref(alloc, "Id")?)?;
    fields.optional(alloc, "kind", schema_ref(alloc, "Other")?)
}
