//! Conversions between schemas and what holds them.
ghost use Rattle.std.specs.Prelude.{◌≡◌, IfOk, OnErr};
ghost use Rattle.utoipa_base.specs.References.{built_reference};
ghost use Rattle.utoipa_base.specs.declared.refs.RefOr.TheVariants as places;
ghost use Rattle.utoipa_schema.specs.Builders.{built_object, built_array, built_one_of, built_all_of, built_any_of, object_place, array_place, one_of_place, all_of_place, any_of_place};
ghost use Rattle.utoipa_schema.specs.declared.types.AdditionalProperties.TheVariants as additions;
ghost use Rattle.utoipa_schema.specs.declared.types.Schema.TheVariants as schemas;

use crate::all_of::AllOfBuilder;
use crate::any_of::AnyOfBuilder;
use crate::array::ArrayBuilder;
use crate::object::ObjectBuilder;
use crate::one_of::OneOfBuilder;
use crate::types::{AdditionalProperties, AllOf, AnyOf, Array, Object, OneOf, Schema};
use thiserror::Error;
use utoipa_base::{Ref, RefBuilder, RefOr};

/// A reference stands where a schema was wanted.
#[derive(Debug, Drop, Error)]
#[error("the schema is a reference")]
pub struct IsReference;

/// The schema in a place where a reference could stand. Fails where one does, and then gives it up.
pub fn schema_from_ref_or(place: RefOr<Schema>) -> Result<Schema, IsReference>
    ensures schema { IfOk result (λ schema. place ≡ places.T schema) }
    ensures reference { OnErr result ((reference : Ref) × (place ≡ places.Ref reference)) }
{
    match place {
        RefOr::T(schema) => Ok(schema),
        RefOr::Ref(_) => Err(IsReference),
    }
}

impl From<Object> for Schema {
    ghost from_gives = { λ object schema. schema ≡ schemas.Object object };

    fn from(object: Object) -> Schema {
        Schema::Object(object)
    }
}

impl From<Array> for Schema {
    ghost from_gives = { λ array schema. schema ≡ schemas.Array array };

    fn from(array: Array) -> Schema {
        Schema::Array(array)
    }
}

impl From<OneOf> for Schema {
    ghost from_gives = { λ one_of schema. schema ≡ schemas.OneOf one_of };

    fn from(one_of: OneOf) -> Schema {
        Schema::OneOf(one_of)
    }
}

impl From<AllOf> for Schema {
    ghost from_gives = { λ all_of schema. schema ≡ schemas.AllOf all_of };

    fn from(all_of: AllOf) -> Schema {
        Schema::AllOf(all_of)
    }
}

impl From<AnyOf> for Schema {
    ghost from_gives = { λ any_of schema. schema ≡ schemas.AnyOf any_of };

    fn from(any_of: AnyOf) -> Schema {
        Schema::AnyOf(any_of)
    }
}

impl From<ObjectBuilder> for Schema {
    ghost from_gives = { λ builder schema. schema ≡ schemas.Object (built_object builder) };

    fn from(builder: ObjectBuilder) -> Schema {
        Schema::Object(builder.build())
    }
}

impl From<ArrayBuilder> for Schema {
    ghost from_gives = { λ builder schema. schema ≡ schemas.Array (built_array builder) };

    fn from(builder: ArrayBuilder) -> Schema {
        Schema::Array(builder.build())
    }
}

impl From<OneOfBuilder> for Schema {
    ghost from_gives = { λ builder schema. schema ≡ schemas.OneOf (built_one_of builder) };

    fn from(builder: OneOfBuilder) -> Schema {
        Schema::OneOf(builder.build())
    }
}

impl From<AllOfBuilder> for Schema {
    ghost from_gives = { λ builder schema. schema ≡ schemas.AllOf (built_all_of builder) };

    fn from(builder: AllOfBuilder) -> Schema {
        Schema::AllOf(builder.build())
    }
}

impl From<AnyOfBuilder> for Schema {
    ghost from_gives = { λ builder schema. schema ≡ schemas.AnyOf (built_any_of builder) };

    fn from(builder: AnyOfBuilder) -> Schema {
        Schema::AnyOf(builder.build())
    }
}

impl From<Schema> for RefOr<Schema> {
    ghost from_gives = { λ schema place. place ≡ places.T schema };

    fn from(schema: Schema) -> RefOr<Schema> {
        RefOr::T(schema)
    }
}

impl From<Object> for RefOr<Schema> {
    ghost from_gives = { λ object place. place ≡ object_place object };

    fn from(object: Object) -> RefOr<Schema> {
        RefOr::T(Schema::Object(object))
    }
}

impl From<Array> for RefOr<Schema> {
    ghost from_gives = { λ array place. place ≡ array_place array };

    fn from(array: Array) -> RefOr<Schema> {
        RefOr::T(Schema::Array(array))
    }
}

impl From<ObjectBuilder> for RefOr<Schema> {
    ghost from_gives = { λ builder place. place ≡ object_place (built_object builder) };

    fn from(builder: ObjectBuilder) -> RefOr<Schema> {
        RefOr::T(Schema::Object(builder.build()))
    }
}

impl From<ArrayBuilder> for RefOr<Schema> {
    ghost from_gives = { λ builder place. place ≡ array_place (built_array builder) };

    fn from(builder: ArrayBuilder) -> RefOr<Schema> {
        RefOr::T(Schema::Array(builder.build()))
    }
}

impl From<OneOfBuilder> for RefOr<Schema> {
    ghost from_gives = { λ builder place. place ≡ one_of_place (built_one_of builder) };

    fn from(builder: OneOfBuilder) -> RefOr<Schema> {
        RefOr::T(Schema::OneOf(builder.build()))
    }
}

impl From<AllOfBuilder> for RefOr<Schema> {
    ghost from_gives = { λ builder place. place ≡ all_of_place (built_all_of builder) };

    fn from(builder: AllOfBuilder) -> RefOr<Schema> {
        RefOr::T(Schema::AllOf(builder.build()))
    }
}

impl From<AnyOfBuilder> for RefOr<Schema> {
    ghost from_gives = { λ builder place. place ≡ any_of_place (built_any_of builder) };

    fn from(builder: AnyOfBuilder) -> RefOr<Schema> {
        RefOr::T(Schema::AnyOf(builder.build()))
    }
}

impl From<ObjectBuilder> for AdditionalProperties<Schema> {
    ghost from_gives = { λ builder additional. additional ≡ additions.RefOr (object_place (built_object builder)) };

    fn from(builder: ObjectBuilder) -> AdditionalProperties<Schema> {
        AdditionalProperties::RefOr(RefOr::T(Schema::Object(builder.build())))
    }
}

impl From<ArrayBuilder> for AdditionalProperties<Schema> {
    ghost from_gives = { λ builder additional. additional ≡ additions.RefOr (array_place (built_array builder)) };

    fn from(builder: ArrayBuilder) -> AdditionalProperties<Schema> {
        AdditionalProperties::RefOr(RefOr::T(Schema::Array(builder.build())))
    }
}

impl From<AllOfBuilder> for AdditionalProperties<Schema> {
    ghost from_gives = { λ builder additional. additional ≡ additions.RefOr (all_of_place (built_all_of builder)) };

    fn from(builder: AllOfBuilder) -> AdditionalProperties<Schema> {
        AdditionalProperties::RefOr(RefOr::T(Schema::AllOf(builder.build())))
    }
}

impl From<Ref> for AdditionalProperties<Schema> {
    ghost from_gives = { λ reference additional. additional ≡ additions.RefOr (places.Ref reference) };

    fn from(reference: Ref) -> AdditionalProperties<Schema> {
        AdditionalProperties::RefOr(RefOr::Ref(reference))
    }
}

impl From<RefBuilder> for AdditionalProperties<Schema> {
    ghost from_gives = { λ builder additional. additional ≡ additions.RefOr (places.Ref (built_reference builder)) };

    fn from(builder: RefBuilder) -> AdditionalProperties<Schema> {
        AdditionalProperties::RefOr(RefOr::Ref(builder.build()))
    }
}

impl From<Schema> for AdditionalProperties<Schema> {
    ghost from_gives = { λ schema additional. additional ≡ additions.RefOr (places.T schema) };

    fn from(schema: Schema) -> AdditionalProperties<Schema> {
        AdditionalProperties::RefOr(RefOr::T(schema))
    }
}

impl<T> From<RefOr<T>> for AdditionalProperties<T> {
    ghost from_gives = { λ place additional. additional ≡ additions.RefOr place };

    fn from(place: RefOr<T>) -> AdditionalProperties<T> {
        AdditionalProperties::RefOr(place)
    }
}
