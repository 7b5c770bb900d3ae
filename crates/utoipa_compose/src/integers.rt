//! The schemas of integers.
ghost use Rattle.std.specs.Prelude.{[], Some, codes};
ghost use Rattle.utoipa_compose.specs.Compositions.{always};
ghost use Rattle.utoipa_compose.specs.Made.{int32, int64, signed, unsigned, unsigned32, unsigned64};

use crate::fault::ComposeFault;
use crate::made::integer;
use crate::traits::{ComposeSchema, PartialSchema, ToSchema, schema_of};
use std::alloc::{AllocError, Global};
use std::borrow::CowStr;
use utoipa_base::{Number, RefOr};
use utoipa_schema::{KnownFormat, Schema};

impl ComposeSchema for i8 {
    ghost composed = { always int32 };

    fn compose(alloc: Global, _schemas: Vec<RefOr<Schema>>) -> Result<RefOr<Schema>, ComposeFault> {
        Ok(integer(alloc, Some(KnownFormat::Int32), None))
    }
}

impl PartialSchema for i8 {
    ghost described = { Some int32 };

    fn schema(alloc: Global) -> Result<RefOr<Schema>, ComposeFault> {
        schema_of::<i8>(alloc)
    }
}

impl ToSchema for i8 {
    ghost named = { codes "i8" };

    ghost referred = { [] };

    fn name() -> CowStr<'static, Global> {
        CowStr::Borrowed("i8")
    }

    fn schemas(
        _alloc: Global,
        _schemas: &mut Vec<(String, RefOr<Schema>)>,
    ) -> Result<(), AllocError> {
        Ok(())
    }
}

impl ComposeSchema for i16 {
    ghost composed = { always int32 };

    fn compose(alloc: Global, _schemas: Vec<RefOr<Schema>>) -> Result<RefOr<Schema>, ComposeFault> {
        Ok(integer(alloc, Some(KnownFormat::Int32), None))
    }
}

impl PartialSchema for i16 {
    ghost described = { Some int32 };

    fn schema(alloc: Global) -> Result<RefOr<Schema>, ComposeFault> {
        schema_of::<i16>(alloc)
    }
}

impl ToSchema for i16 {
    ghost named = { codes "i16" };

    ghost referred = { [] };

    fn name() -> CowStr<'static, Global> {
        CowStr::Borrowed("i16")
    }

    fn schemas(
        _alloc: Global,
        _schemas: &mut Vec<(String, RefOr<Schema>)>,
    ) -> Result<(), AllocError> {
        Ok(())
    }
}

impl ComposeSchema for i32 {
    ghost composed = { always int32 };

    fn compose(alloc: Global, _schemas: Vec<RefOr<Schema>>) -> Result<RefOr<Schema>, ComposeFault> {
        Ok(integer(alloc, Some(KnownFormat::Int32), None))
    }
}

impl PartialSchema for i32 {
    ghost described = { Some int32 };

    fn schema(alloc: Global) -> Result<RefOr<Schema>, ComposeFault> {
        schema_of::<i32>(alloc)
    }
}

impl ToSchema for i32 {
    ghost named = { codes "i32" };

    ghost referred = { [] };

    fn name() -> CowStr<'static, Global> {
        CowStr::Borrowed("i32")
    }

    fn schemas(
        _alloc: Global,
        _schemas: &mut Vec<(String, RefOr<Schema>)>,
    ) -> Result<(), AllocError> {
        Ok(())
    }
}

impl ComposeSchema for i64 {
    ghost composed = { always int64 };

    fn compose(alloc: Global, _schemas: Vec<RefOr<Schema>>) -> Result<RefOr<Schema>, ComposeFault> {
        Ok(integer(alloc, Some(KnownFormat::Int64), None))
    }
}

impl PartialSchema for i64 {
    ghost described = { Some int64 };

    fn schema(alloc: Global) -> Result<RefOr<Schema>, ComposeFault> {
        schema_of::<i64>(alloc)
    }
}

impl ToSchema for i64 {
    ghost named = { codes "i64" };

    ghost referred = { [] };

    fn name() -> CowStr<'static, Global> {
        CowStr::Borrowed("i64")
    }

    fn schemas(
        _alloc: Global,
        _schemas: &mut Vec<(String, RefOr<Schema>)>,
    ) -> Result<(), AllocError> {
        Ok(())
    }
}

impl ComposeSchema for i128 {
    ghost composed = { always signed };

    fn compose(alloc: Global, _schemas: Vec<RefOr<Schema>>) -> Result<RefOr<Schema>, ComposeFault> {
        Ok(integer(alloc, None, None))
    }
}

impl PartialSchema for i128 {
    ghost described = { Some signed };

    fn schema(alloc: Global) -> Result<RefOr<Schema>, ComposeFault> {
        schema_of::<i128>(alloc)
    }
}

impl ToSchema for i128 {
    ghost named = { codes "i128" };

    ghost referred = { [] };

    fn name() -> CowStr<'static, Global> {
        CowStr::Borrowed("i128")
    }

    fn schemas(
        _alloc: Global,
        _schemas: &mut Vec<(String, RefOr<Schema>)>,
    ) -> Result<(), AllocError> {
        Ok(())
    }
}

impl ComposeSchema for isize {
    ghost composed = { always signed };

    fn compose(alloc: Global, _schemas: Vec<RefOr<Schema>>) -> Result<RefOr<Schema>, ComposeFault> {
        Ok(integer(alloc, None, None))
    }
}

impl PartialSchema for isize {
    ghost described = { Some signed };

    fn schema(alloc: Global) -> Result<RefOr<Schema>, ComposeFault> {
        schema_of::<isize>(alloc)
    }
}

impl ToSchema for isize {
    ghost named = { codes "isize" };

    ghost referred = { [] };

    fn name() -> CowStr<'static, Global> {
        CowStr::Borrowed("isize")
    }

    fn schemas(
        _alloc: Global,
        _schemas: &mut Vec<(String, RefOr<Schema>)>,
    ) -> Result<(), AllocError> {
        Ok(())
    }
}

impl ComposeSchema for u8 {
    ghost composed = { always unsigned32 };

    fn compose(alloc: Global, _schemas: Vec<RefOr<Schema>>) -> Result<RefOr<Schema>, ComposeFault> {
        Ok(integer(alloc, Some(KnownFormat::Int32), Some(Number::Int(0))))
    }
}

impl PartialSchema for u8 {
    ghost described = { Some unsigned32 };

    fn schema(alloc: Global) -> Result<RefOr<Schema>, ComposeFault> {
        schema_of::<u8>(alloc)
    }
}

impl ToSchema for u8 {
    ghost named = { codes "u8" };

    ghost referred = { [] };

    fn name() -> CowStr<'static, Global> {
        CowStr::Borrowed("u8")
    }

    fn schemas(
        _alloc: Global,
        _schemas: &mut Vec<(String, RefOr<Schema>)>,
    ) -> Result<(), AllocError> {
        Ok(())
    }
}

impl ComposeSchema for u16 {
    ghost composed = { always unsigned32 };

    fn compose(alloc: Global, _schemas: Vec<RefOr<Schema>>) -> Result<RefOr<Schema>, ComposeFault> {
        Ok(integer(alloc, Some(KnownFormat::Int32), Some(Number::Int(0))))
    }
}

impl PartialSchema for u16 {
    ghost described = { Some unsigned32 };

    fn schema(alloc: Global) -> Result<RefOr<Schema>, ComposeFault> {
        schema_of::<u16>(alloc)
    }
}

impl ToSchema for u16 {
    ghost named = { codes "u16" };

    ghost referred = { [] };

    fn name() -> CowStr<'static, Global> {
        CowStr::Borrowed("u16")
    }

    fn schemas(
        _alloc: Global,
        _schemas: &mut Vec<(String, RefOr<Schema>)>,
    ) -> Result<(), AllocError> {
        Ok(())
    }
}

impl ComposeSchema for u32 {
    ghost composed = { always unsigned32 };

    fn compose(alloc: Global, _schemas: Vec<RefOr<Schema>>) -> Result<RefOr<Schema>, ComposeFault> {
        Ok(integer(alloc, Some(KnownFormat::Int32), Some(Number::Int(0))))
    }
}

impl PartialSchema for u32 {
    ghost described = { Some unsigned32 };

    fn schema(alloc: Global) -> Result<RefOr<Schema>, ComposeFault> {
        schema_of::<u32>(alloc)
    }
}

impl ToSchema for u32 {
    ghost named = { codes "u32" };

    ghost referred = { [] };

    fn name() -> CowStr<'static, Global> {
        CowStr::Borrowed("u32")
    }

    fn schemas(
        _alloc: Global,
        _schemas: &mut Vec<(String, RefOr<Schema>)>,
    ) -> Result<(), AllocError> {
        Ok(())
    }
}

impl ComposeSchema for u64 {
    ghost composed = { always unsigned64 };

    fn compose(alloc: Global, _schemas: Vec<RefOr<Schema>>) -> Result<RefOr<Schema>, ComposeFault> {
        Ok(integer(alloc, Some(KnownFormat::Int64), Some(Number::Int(0))))
    }
}

impl PartialSchema for u64 {
    ghost described = { Some unsigned64 };

    fn schema(alloc: Global) -> Result<RefOr<Schema>, ComposeFault> {
        schema_of::<u64>(alloc)
    }
}

impl ToSchema for u64 {
    ghost named = { codes "u64" };

    ghost referred = { [] };

    fn name() -> CowStr<'static, Global> {
        CowStr::Borrowed("u64")
    }

    fn schemas(
        _alloc: Global,
        _schemas: &mut Vec<(String, RefOr<Schema>)>,
    ) -> Result<(), AllocError> {
        Ok(())
    }
}

impl ComposeSchema for u128 {
    ghost composed = { always unsigned };

    fn compose(alloc: Global, _schemas: Vec<RefOr<Schema>>) -> Result<RefOr<Schema>, ComposeFault> {
        Ok(integer(alloc, None, Some(Number::Int(0))))
    }
}

impl PartialSchema for u128 {
    ghost described = { Some unsigned };

    fn schema(alloc: Global) -> Result<RefOr<Schema>, ComposeFault> {
        schema_of::<u128>(alloc)
    }
}

impl ToSchema for u128 {
    ghost named = { codes "u128" };

    ghost referred = { [] };

    fn name() -> CowStr<'static, Global> {
        CowStr::Borrowed("u128")
    }

    fn schemas(
        _alloc: Global,
        _schemas: &mut Vec<(String, RefOr<Schema>)>,
    ) -> Result<(), AllocError> {
        Ok(())
    }
}

impl ComposeSchema for usize {
    ghost composed = { always unsigned };

    fn compose(alloc: Global, _schemas: Vec<RefOr<Schema>>) -> Result<RefOr<Schema>, ComposeFault> {
        Ok(integer(alloc, None, Some(Number::Int(0))))
    }
}

impl PartialSchema for usize {
    ghost described = { Some unsigned };

    fn schema(alloc: Global) -> Result<RefOr<Schema>, ComposeFault> {
        schema_of::<usize>(alloc)
    }
}

impl ToSchema for usize {
    ghost named = { codes "usize" };

    ghost referred = { [] };

    fn name() -> CowStr<'static, Global> {
        CowStr::Borrowed("usize")
    }

    fn schemas(
        _alloc: Global,
        _schemas: &mut Vec<(String, RefOr<Schema>)>,
    ) -> Result<(), AllocError> {
        Ok(())
    }
}
