//! What stands for the parameters of a type whose schema is composed.
ghost use Rattle.std.specs.Prelude.{◌≡◌, Some, None, IfOk, IfErr, OnErr, ◌++◌};
ghost use Rattle.utoipa_compose.specs.Compositions.{AreAppended, part, map_composed, place_doc, place_docs};
ghost use Rattle.utoipa_compose.specs.declared.fault.ComposeFault.TheVariants.{KeyIsReference};

use crate::fault::ComposeFault;
use crate::traits::{ComposeSchema, ToSchema};
use std::alloc::{AllocError, Global};
use utoipa_base::{RefOr, Tree};
use utoipa_schema::Schema;

/// The schema that stands for the first parameter, or what that is composed to where none does. Fails as composing does.
pub(crate) fn first<T: ComposeSchema>(
    alloc: Global,
    schemas: Vec<RefOr<Schema>>,
) -> Result<RefOr<Schema>, ComposeFault>
    ensures ok { IfOk result (λ schema. part 0 T.composed (place_docs schemas) ≡ Some (place_doc schema)) }
    ensures key { IfErr result (λ fault. fault ≡ KeyIsReference → part 0 T.composed (place_docs schemas) ≡ None) }
{
    match schemas.into_iter().next() {
        Some(schema) => Ok(schema),
        None => T::compose(alloc, Vec::new(alloc)),
    }
}

/// The schemas of the keys and of the values of a map. Fails as composing does.
pub(crate) fn first_two<K: ComposeSchema, V: ComposeSchema>(
    alloc: Global,
    schemas: Vec<RefOr<Schema>>,
) -> Result<(RefOr<Schema>, RefOr<Schema>), ComposeFault>
    ensures keys { IfOk result (λ both. part 0 K.composed (place_docs schemas) ≡ Some (place_doc both.0)) }
    ensures values { IfOk result (λ both. part 1 V.composed (place_docs schemas) ≡ Some (place_doc both.1)) }
    ensures key { IfErr result (λ fault. fault ≡ KeyIsReference
        → map_composed K.composed V.composed (place_docs schemas) ≡ None) }
{
    let mut schemas = schemas.into_iter();
    match (schemas.next(), schemas.next()) {
        (Some(keys), Some(values)) => Ok((keys, values)),
        (Some(keys), None) => {
            let mut given = Vec::new(alloc);
            given.push(keys.try_clone(alloc)?)?;
            Ok((keys, V::compose(alloc, given)?))
        }
        (None, _) => {
            let keys = K::compose(alloc, Vec::new(alloc))?;
            Ok((keys, V::compose(alloc, Vec::new(alloc))?))
        }
    }
}

/// Puts the schemas that the keys of a map refer to at the end of the list, and then those that the values refer to. Fails where memory
/// runs out; the list is then as it was.
pub(crate) fn referred_by_both<K: ToSchema, V: ToSchema>(
    alloc: Global,
    schemas: &mut Vec<(String, RefOr<Schema>)>,
) -> Result<(), AllocError>
    ensures ok { IfOk result (λ _. AreAppended (K.referred ++ V.referred) schemas.old schemas.new) }
    ensures refused { OnErr result (schemas.new.items ≡ schemas.old.items) }
{
    let length = schemas.len();
    K::schemas(alloc, schemas)?;
    let outcome = V::schemas(alloc, schemas);
    if outcome.is_err() {
        schemas.truncate(length);
    }
    outcome
}
