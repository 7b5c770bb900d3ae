//! The schemas of types that no schema is composed of: of no value, and of any.
ghost use Rattle.std.specs.Prelude.{[], Some, codes};
ghost use Rattle.utoipa_compose.specs.Made.{anything as anything_doc, nothing as nothing_doc};

use crate::fault::ComposeFault;
use crate::made::{anything, nothing};
use crate::traits::{PartialSchema, ToSchema};
use serde_json::Value;
use std::alloc::{AllocError, Global};
use std::borrow::CowStr;
use utoipa_base::RefOr;
use utoipa_schema::Schema;

impl PartialSchema for () {
    ghost described = { Some nothing_doc };

    fn schema(alloc: Global) -> Result<RefOr<Schema>, ComposeFault> {
        Ok(nothing(alloc))
    }
}

impl ToSchema for () {
    ghost named = { codes "TupleUnit" };

    ghost referred = { [] };

    fn name() -> CowStr<'static, Global> {
        CowStr::Borrowed("TupleUnit")
    }

    fn schemas(
        _alloc: Global,
        _schemas: &mut Vec<(String, RefOr<Schema>)>,
    ) -> Result<(), AllocError> {
        Ok(())
    }
}

impl PartialSchema for Value {
    ghost described = { Some anything_doc };

    fn schema(alloc: Global) -> Result<RefOr<Schema>, ComposeFault> {
        Ok(anything(alloc))
    }
}

impl ToSchema for Value {
    ghost named = { codes "Value" };

    ghost referred = { [] };

    fn name() -> CowStr<'static, Global> {
        CowStr::Borrowed("Value")
    }

    fn schemas(
        _alloc: Global,
        _schemas: &mut Vec<(String, RefOr<Schema>)>,
    ) -> Result<(), AllocError> {
        Ok(())
    }
}
