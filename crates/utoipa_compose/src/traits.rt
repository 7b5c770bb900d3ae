//! The traits by which a type says what schema its values have.
ghost use Rattle.std.specs.Prelude.{◌≡◌, ℕ, List, [], Option, Some, None, IfOk, IfErr, OnErr};
ghost use Rattle.std.specs.Cow.{cow_str_bytes};
ghost use Rattle.utoipa_base.specs.Docs.{Doc};
ghost use Rattle.utoipa_compose.specs.Compositions.{AreAppended, Composition, Named, place_doc, place_docs};
ghost use Rattle.utoipa_compose.specs.declared.fault.ComposeFault.TheVariants.{KeyIsReference};

use crate::fault::ComposeFault;
use std::alloc::{AllocError, Global};
use std::borrow::CowStr;
use utoipa_base::RefOr;
use utoipa_schema::Schema;

/// The type of no value, which has the schema that allows anything and is null where there is none.
pub type TupleUnit = ();

/// A type whose schema is composed of the schemas of its parameters: of a list's elements, of a map's keys and values.
pub trait ComposeSchema {
    // What the schema is, by the schemas that stand for those of the parameters.
    ghost composed: { Composition };

    /// The schema of the type's values. The schemas of the list, and references to such, stand for those of the type's parameters, in
    /// their order; where the list has none for a parameter, the parameter's own is composed over the same list.
    ///
    /// Fails with `KeyIsReference` exactly where a reference stands for the schema of a map's keys, and with `Memory` where memory
    /// runs out.
    fn compose(alloc: Global, schemas: Vec<RefOr<Schema>>) -> Result<RefOr<Schema>, ComposeFault>
        ensures ok { IfOk result (λ schema. composed (place_docs schemas) ≡ Some (place_doc schema)) }
        ensures key { IfErr result (λ fault. fault ≡ KeyIsReference → composed (place_docs schemas) ≡ None) };
}

/// The schema of a type that is composed, over no schemas. Fails as [`ComposeSchema::compose`] does.
pub fn schema_of<T: ComposeSchema>(alloc: Global) -> Result<RefOr<Schema>, ComposeFault>
    ensures ok { IfOk result (λ schema. T.composed [] ≡ Some (place_doc schema)) }
    ensures key { IfErr result (λ fault. fault ≡ KeyIsReference → T.composed [] ≡ None) }
{
    T::compose(alloc, Vec::new(alloc))
}

/// A type that has a schema.
pub trait PartialSchema {
    // The schema; none where a map's keys have a reference for theirs.
    ghost described: { Option Doc };

    /// The schema of the type's values, or a reference to it.
    ///
    /// Fails with `KeyIsReference` exactly where a reference stands for the schema of a map's keys, and with `Memory` where memory
    /// runs out.
    fn schema(alloc: Global) -> Result<RefOr<Schema>, ComposeFault>
        ensures ok { IfOk result (λ schema. described ≡ Some (place_doc schema)) }
        ensures key { IfErr result (λ fault. fault ≡ KeyIsReference → described ≡ None) };
}

/// A type whose schema has a name, under which it stands among the components of a document.
pub trait ToSchema: PartialSchema {
    // The name.
    ghost named: { List ℕ };

    // The schemas that the type's schema refers to, each with its name.
    ghost referred: { Named };

    /// The name of the type's schema. Takes no memory.
    fn name() -> CowStr<'static, Global>
        ensures { cow_str_bytes result ≡ named };

    /// Puts the schemas that the type's schema refers to at the end of the list, each with its name.
    ///
    /// Fails where memory runs out; the list is then as it was.
    fn schemas(alloc: Global, schemas: &mut Vec<(String, RefOr<Schema>)>) -> Result<(), AllocError>
        ensures ok { IfOk result (λ _. AreAppended referred schemas.old schemas.new) }
        ensures refused { OnErr result (schemas.new.items ≡ schemas.old.items) };
}

/// A type that refers to schemas, as the parameters of one whose schema is composed do.
pub trait SchemaReferences {
    // The schemas that the type refers to, each with its name.
    ghost referred: { Named };

    /// Puts the schemas that the type refers to at the end of the list, each with its name.
    ///
    /// Fails where memory runs out; the list is then as it was.
    fn schemas(alloc: Global, schemas: &mut Vec<(String, RefOr<Schema>)>) -> Result<(), AllocError>
        ensures ok { IfOk result (λ _. AreAppended referred schemas.old schemas.new) }
        ensures refused { OnErr result (schemas.new.items ≡ schemas.old.items) };
}
