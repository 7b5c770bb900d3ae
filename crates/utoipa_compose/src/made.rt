//! The schemas that types are composed to.
ghost use Rattle.std.specs.Prelude.{◌≡◌, ◌∷◌, [], IfOk, IfErr, Some, None};
ghost use Rattle.utoipa_base.specs.Numbers.{number_doc};
ghost use Rattle.utoipa_base.specs.Views.{option_of};
ghost use Rattle.utoipa_base.specs.declared.refs.Ref.{Ref};
ghost use Rattle.utoipa_base.specs.declared.refs.RefOr.TheVariants as place;
ghost use Rattle.utoipa_compose.specs.Compositions.{place_doc, map_by, own_schema};
ghost use Rattle.utoipa_compose.specs.Made.{typed as typed_doc, integer as integer_doc, nullable as nullable_doc, array_of, anything as anything_doc, nothing as nothing_doc};
ghost use Rattle.utoipa_compose.specs.declared.fault.ComposeFault.TheVariants.{KeyIsReference};
ghost use Rattle.utoipa_schema_parts.specs.Format.{known_format_doc, schema_format_doc};

use crate::fault::ComposeFault;
use std::alloc::{AllocError, Global};
use utoipa_base::{Number, RefOr};
use utoipa_schema::{
    AdditionalProperties, Array, KnownFormat, Object, OneOf, Schema, SchemaFormat, SchemaType,
    TypeWord, empty,
};

/// A value of the type, of which nothing else is said. Takes no memory.
pub(crate) fn typed(alloc: Global, word: TypeWord) -> RefOr<Schema>
    ensures { place_doc result ≡ typed_doc word }
{
    RefOr::T(Schema::Object(Object::with_type(alloc, SchemaType::Single(word))))
}

/// An integer of the format, with the least value. Takes no memory.
pub(crate) fn integer(
    alloc: Global,
    format: Option<KnownFormat>,
    minimum: Option<Number>,
) -> RefOr<Schema>
    ensures { place_doc result ≡ integer_doc (option_of known_format_doc format) (option_of number_doc minimum) }
{
    let mut object = Object::with_type(alloc, SchemaType::Single(TypeWord::Integer));
    object.format = known(format);
    object.minimum = minimum;
    RefOr::T(Schema::Object(object))
}

fn known(format: Option<KnownFormat>) -> Option<SchemaFormat>
    ensures { option_of schema_format_doc result ≡ option_of known_format_doc format }
{
    match format {
        Some(format) => Some(SchemaFormat::KnownFormat(format)),
        None => None,
    }
}

/// Any value. Takes no memory.
pub(crate) fn anything(alloc: Global) -> RefOr<Schema>
    ensures { place_doc result ≡ anything_doc }
{
    RefOr::T(Schema::Object(Object::with_type(alloc, SchemaType::AnyValue)))
}

/// Any value, null where there is none. Takes no memory.
pub(crate) fn nothing(alloc: Global) -> RefOr<Schema>
    ensures { place_doc result ≡ nothing_doc }
{
    RefOr::T(empty(alloc))
}

/// Null, or a value of the schema. Fails where memory runs out.
pub(crate) fn nullable(alloc: Global, schema: RefOr<Schema>) -> Result<RefOr<Schema>, AllocError>
    ensures { IfOk result (λ made. place_doc made ≡ nullable_doc (place_doc schema)) }
{
    let items = two(alloc, typed(alloc, TypeWord::Null), schema)?;
    let mut one_of = OneOf::new(alloc);
    one_of.items = items;
    Ok(RefOr::T(Schema::OneOf(one_of)))
}

/// A list of two values. Fails where memory runs out, and then gives them up.
fn two<T: Drop>(alloc: Global, first: T, second: T) -> Result<Vec<T>, AllocError>
    ensures { IfOk result (λ both. both.items ≡ first ∷ second ∷ []) }
{
    let mut both = Vec::new(alloc);
    both.push(first)?;
    both.push(second)?;
    Ok(both)
}

/// An array of such items, which may have to be unique. Fails where memory runs out.
pub(crate) fn array(
    alloc: Global,
    items: RefOr<Schema>,
    unique: bool,
) -> Result<RefOr<Schema>, AllocError>
    ensures { IfOk result (λ made. place_doc made ≡ array_of (place_doc items) unique) }
{
    let mut array = Array::new(alloc, items)?;
    array.unique_items = unique;
    Ok(RefOr::T(Schema::Array(array)))
}

/// A map from such keys to such values. Fails where the schema of the keys is a reference, and where memory runs out.
pub(crate) fn map(
    alloc: Global,
    keys: RefOr<Schema>,
    values: RefOr<Schema>,
) -> Result<RefOr<Schema>, ComposeFault>
    ensures ok { IfOk result (λ made. map_by (own_schema (Some (place_doc keys))) (Some (place_doc values))
        ≡ Some (place_doc made)) }
    ensures key { IfErr result (λ fault. fault ≡ KeyIsReference
        → map_by (own_schema (Some (place_doc keys))) (Some (place_doc values)) ≡ None) }
{
    let (keys, values) = own_beside(alloc, keys, AdditionalProperties::RefOr(values))?;
    let mut object = Object::new(alloc);
    object.property_names = Some(keys);
    object.additional_properties = Some(values);
    Ok(RefOr::T(Schema::Object(object)))
}

/// What stands for the keys of a map and what stands for its values, both on the heap. Fails where a reference stands for the keys, and
/// where memory runs out; then gives both up.
fn own_beside<T: Drop, U: Drop>(
    alloc: Global,
    keys: RefOr<T>,
    values: U,
) -> Result<(Box<T>, Box<U>), ComposeFault>
    ensures keys { IfOk result (λ both. keys ≡ place.T both.0.value) }
    ensures values { IfOk result (λ both. both.1.value ≡ values) }
    ensures key { IfErr result (λ fault. fault ≡ KeyIsReference → (reference : Ref) × (keys ≡ place.Ref reference)) }
{
    let RefOr::T(keys) = keys else {
        return Err(ComposeFault::KeyIsReference);
    };
    let keys = Box::new(alloc, keys)?;
    let values = Box::new(alloc, values)?;
    Ok((keys, values))
}
