//! A type of a user's own: its schema stands among the components of a document, and is referred to.
ghost use Rattle.std.specs.Prelude.{◌∷◌, [], Some, codes};
ghost use Rattle.utoipa_base.specs.Docs.{ref_doc};
ghost use Rattle.utoipa_compose.specs.Made.{boolean};

use std::alloc::{AllocError, Global};
use std::borrow::CowStr;
use utoipa_base::RefOr;
use utoipa_compose::{ComposeFault, ComposeSchema, PartialSchema, ToSchema};
use utoipa_schema::Schema;

/// Whether something is so.
#[derive(PartialEq, Eq, PartialOrd, Ord)]
pub struct Flag(pub bool);

impl ComposeSchema for Flag {
    ghost composed = { λ _. Some boolean };

    fn compose(alloc: Global, schemas: Vec<RefOr<Schema>>) -> Result<RefOr<Schema>, ComposeFault> {
        bool::compose(alloc, schemas)
    }
}

impl PartialSchema for Flag {
    ghost described = { Some boolean };

    fn schema(alloc: Global) -> Result<RefOr<Schema>, ComposeFault> {
        bool::schema(alloc)
    }
}

impl ToSchema for Flag {
    ghost named = { codes "Flag" };

    ghost referred = { (codes "Flag", boolean) ∷ [] };

    fn name() -> CowStr<'static, Global> {
        CowStr::Borrowed("Flag")
    }

    fn schemas(
        alloc: Global,
        schemas: &mut Vec<(String, RefOr<Schema>)>,
    ) -> Result<(), AllocError> {
        let name = String::from_str(alloc, "Flag")?;
        let Ok(schema) = bool::schema(alloc) else {
            return Err(AllocError);
        };
        Ok(schemas.push((name, schema))?)
    }
}
