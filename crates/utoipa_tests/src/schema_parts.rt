//! Schemas, and values in them, that the tests of schemas are made of.
use serde_json::Value;
use std::process::Abort;
use utoipa_base::RefOr;
use utoipa_schema::{Object, Schema};
use utoipa_schema_parts::{SchemaType, TypeWord};

/// The values 1 and 2.
pub fn two_values(rt: &(impl Abort + AllocGlobal)) -> std::vec::IntoIter<Value> {
    let values = Vec::from_array(rt.alloc(), [Value::from(1u64), Value::from(2u64)]);
    values.expect(rt, "memory for two values").into_iter()
}

/// The one type of a schema.
pub fn single(word: TypeWord) -> SchemaType {
    SchemaType::Single(word)
}

/// The object of the type.
pub fn schema_of(rt: &(impl Abort + AllocGlobal), word: TypeWord) -> Schema {
    Schema::Object(Object::with_type(rt.alloc(), single(word)))
}

/// The same, where a reference could stand.
pub fn place_of(rt: &(impl Abort + AllocGlobal), word: TypeWord) -> RefOr<Schema> {
    RefOr::T(schema_of(rt, word))
}
