//! The schemas of truth values and texts.
ghost use Rattle.std.specs.Prelude.{◌≡◌, [], Some, None, IfErr, IfOk, OnErr, codes};
ghost use Rattle.std.specs.Cow.{cow_str_bytes};
ghost use Rattle.utoipa_compose.specs.Compositions.{AreAppended, always, place_doc, place_docs};
ghost use Rattle.utoipa_compose.specs.Made.{boolean, text};
ghost use Rattle.utoipa_compose.specs.declared.fault.ComposeFault.TheVariants.{KeyIsReference};

use crate::fault::ComposeFault;
use crate::made::typed;
use crate::traits::{ComposeSchema, PartialSchema, ToSchema, schema_of};
use std::alloc::{AllocError, Global};
use std::borrow::CowStr;
use utoipa_base::RefOr;
use utoipa_schema::{Schema, TypeWord};

impl ComposeSchema for bool {
    ghost composed = { always boolean };

    fn compose(alloc: Global, _schemas: Vec<RefOr<Schema>>) -> Result<RefOr<Schema>, ComposeFault> {
        Ok(typed(alloc, TypeWord::Boolean))
    }
}

impl PartialSchema for bool {
    ghost described = { Some boolean };

    fn schema(alloc: Global) -> Result<RefOr<Schema>, ComposeFault> {
        schema_of::<bool>(alloc)
    }
}

impl ToSchema for bool {
    ghost named = { codes "bool" };

    ghost referred = { [] };

    fn name() -> CowStr<'static, Global> {
        CowStr::Borrowed("bool")
    }

    fn schemas(
        _alloc: Global,
        _schemas: &mut Vec<(String, RefOr<Schema>)>,
    ) -> Result<(), AllocError> {
        Ok(())
    }
}

impl ComposeSchema for String {
    ghost composed = { always text };

    fn compose(alloc: Global, _schemas: Vec<RefOr<Schema>>) -> Result<RefOr<Schema>, ComposeFault> {
        Ok(typed(alloc, TypeWord::String))
    }
}

impl PartialSchema for String {
    ghost described = { Some text };

    fn schema(alloc: Global) -> Result<RefOr<Schema>, ComposeFault> {
        schema_of::<String>(alloc)
    }
}

impl ToSchema for String {
    ghost named = { codes "String" };

    ghost referred = { [] };

    fn name() -> CowStr<'static, Global> {
        CowStr::Borrowed("String")
    }

    fn schemas(
        _alloc: Global,
        _schemas: &mut Vec<(String, RefOr<Schema>)>,
    ) -> Result<(), AllocError> {
        Ok(())
    }
}

impl<'a> ComposeSchema for &'a str {
    ghost composed = { always text };

    fn compose(alloc: Global, schemas: Vec<RefOr<Schema>>) -> Result<RefOr<Schema>, ComposeFault>
        ensures ok { IfOk result (λ schema. always text (place_docs schemas) ≡ Some (place_doc schema)) }
        ensures key { IfErr result (λ fault. fault ≡ KeyIsReference → always text (place_docs schemas) ≡ None) }
    {
        drop(schemas);
        Ok(typed(alloc, TypeWord::String))
    }
}

impl<'a> PartialSchema for &'a str {
    ghost described = { Some text };

    fn schema(alloc: Global) -> Result<RefOr<Schema>, ComposeFault>
        ensures ok { IfOk result (λ schema. Some text ≡ Some (place_doc schema)) }
        ensures key { IfErr result (λ fault. fault ≡ KeyIsReference → Some text ≡ None) }
    {
        schema_of::<&'a str>(alloc)
    }
}

impl<'a> ToSchema for &'a str {
    ghost named = { codes "str" };

    ghost referred = { [] };

    fn name() -> CowStr<'static, Global>
        ensures { cow_str_bytes result ≡ codes "str" }
    {
        CowStr::Borrowed("str")
    }

    fn schemas(_alloc: Global, schemas: &mut Vec<(String, RefOr<Schema>)>) -> Result<(), AllocError>
        ensures ok { IfOk result (λ _. AreAppended [] schemas.old schemas.new) }
        ensures refused { OnErr result (schemas.new.items ≡ schemas.old.items) }
    {
        Ok(())
    }
}

impl ComposeSchema for char {
    ghost composed = { always text };

    fn compose(alloc: Global, _schemas: Vec<RefOr<Schema>>) -> Result<RefOr<Schema>, ComposeFault> {
        Ok(typed(alloc, TypeWord::String))
    }
}

impl PartialSchema for char {
    ghost described = { Some text };

    fn schema(alloc: Global) -> Result<RefOr<Schema>, ComposeFault> {
        schema_of::<char>(alloc)
    }
}

impl ToSchema for char {
    ghost named = { codes "char" };

    ghost referred = { [] };

    fn name() -> CowStr<'static, Global> {
        CowStr::Borrowed("char")
    }

    fn schemas(
        _alloc: Global,
        _schemas: &mut Vec<(String, RefOr<Schema>)>,
    ) -> Result<(), AllocError> {
        Ok(())
    }
}
