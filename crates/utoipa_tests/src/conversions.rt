//! Conversions between schemas and what holds them.
use crate::schema_parts::{place_of, schema_of, single};
use crate::shared::{is_number, is_text, is_written, text, tree};
use std::process::Abort;
use utoipa_base::{Readings, Ref, RefOr};
use utoipa_schema::{
    AdditionalProperties, AllOf, AnyOf, Array, ArrayBuilder, Object, OneOf, Schema,
    read_ref_or_schema, read_schema_list, read_schema_map, schema_from_ref_or,
};
use utoipa_schema_parts::TypeWord;

// What a new object, a new array and an array of texts are written as.
const OBJECT: &str = r#"{"type":"object"}"#;

const ARRAY: &str = r#"{"items":{},"type":"array"}"#;

const ARRAY_OF_TEXTS: &str = r#"{"items":{"type":"string"},"type":"array"}"#;

// The array of texts.
fn array_of_texts(rt: &(impl Abort + AllocGlobal)) -> Array {
    Array::new(rt.alloc(), place_of(rt, TypeWord::String)).expect(rt, "an array")
}

// A builder of an array, to which nothing is set.
fn array_builder(rt: &(impl Abort + AllocGlobal)) -> ArrayBuilder {
    Array::builder(rt.alloc()).expect(rt, "a builder")
}

// And a reference is none.
#[test]
fn a_schema_is_taken_out_of_its_place(rt: HostRuntime) {
    let schema = schema_from_ref_or(place_of(&rt, TypeWord::String));
    is_written(&rt, schema.expect(&rt, "a schema"), r#"{"type":"string"}"#);
    let reference = Ref::new(rt.alloc(), text(&rt, "#/a"));
    let refusal = schema_from_ref_or(RefOr::Ref(reference)).expect_err(&rt, "no schema");
    let told = format!(in rt.alloc(); "{refusal}").expect(&rt, "what is told");
    is_text(&rt, told.as_str(), "the schema is a reference");
}

// An object and an array stand where a reference could, too.
#[test]
fn each_type_is_a_schema(rt: HostRuntime) {
    let alloc = rt.alloc();
    is_written(&rt, Schema::from(Object::new(alloc)), OBJECT);
    is_written(&rt, Schema::from(array_of_texts(&rt)), ARRAY_OF_TEXTS);
    is_written(&rt, Schema::from(OneOf::new(alloc)), r#"{"oneOf":[]}"#);
    is_written(&rt, Schema::from(AllOf::new(alloc)), r#"{"allOf":[]}"#);
    is_written(&rt, Schema::from(AnyOf::new(alloc)), r#"{"anyOf":[]}"#);
    let of_null = Object::with_type(alloc, single(TypeWord::Null));
    is_written(&rt, RefOr::from(of_null), r#"{"type":"null"}"#);
    is_written(&rt, RefOr::from(array_of_texts(&rt)), ARRAY_OF_TEXTS);
}

// And one that stands where a reference could.
#[test]
fn each_builder_makes_a_schema(rt: HostRuntime) {
    let alloc = rt.alloc();
    is_written(&rt, Schema::from(Object::builder(alloc)), OBJECT);
    is_written(&rt, Schema::from(array_builder(&rt)), ARRAY);
    is_written(&rt, Schema::from(OneOf::builder(alloc)), r#"{"oneOf":[]}"#);
    is_written(&rt, Schema::from(AllOf::builder(alloc)), r#"{"allOf":[]}"#);
    is_written(&rt, Schema::from(AnyOf::builder(alloc)), r#"{"anyOf":[]}"#);
    is_written(&rt, RefOr::from(Object::builder(alloc)), OBJECT);
    is_written(&rt, RefOr::from(array_builder(&rt)), ARRAY);
    is_written(&rt, RefOr::from(OneOf::builder(alloc)), r#"{"oneOf":[]}"#);
    is_written(&rt, RefOr::from(AllOf::builder(alloc)), r#"{"allOf":[]}"#);
    is_written(&rt, RefOr::from(AnyOf::builder(alloc)), r#"{"anyOf":[]}"#);
}

type Additional = AdditionalProperties<Schema>;

// They are of what is built, of a schema, of what stands where one may, and of a reference.
#[test]
fn additional_properties_are_made_of_schemas_and_references(rt: HostRuntime) {
    let alloc = rt.alloc();
    is_written(&rt, Additional::from(Object::builder(alloc)), OBJECT);
    is_written(&rt, Additional::from(array_builder(&rt)), ARRAY);
    let all_of = Additional::from(AllOf::builder(alloc));
    is_written(&rt, all_of, r#"{"allOf":[]}"#);
    let schema = schema_of(&rt, TypeWord::String);
    is_written(&rt, Additional::from(schema), r#"{"type":"string"}"#);
    let place = place_of(&rt, TypeWord::Integer);
    is_written(&rt, Additional::from(place), r#"{"type":"integer"}"#);
    let reference = Ref::new(alloc, text(&rt, "#/a"));
    is_written(&rt, Additional::from(reference), r##"{"$ref":"#/a"}"##);
    let builder = Ref::builder(alloc).ref_location(text(&rt, "#/b"));
    is_written(&rt, Additional::from(builder), r##"{"$ref":"#/b"}"##);
}

// With a reading for each of the four places.
#[test]
fn the_group_reads_as_the_generic_types_do(rt: HostRuntime) {
    let alloc = rt.alloc();
    let mut readings = Readings::new();
    let place = read_ref_or_schema(alloc, &tree(&rt, r##"{"$ref":"#/a"}"##), &mut readings);
    is_written(&rt, place.expect(&rt, "a reference"), r##"{"$ref":"#/a"}"##);
    let list = read_schema_list(alloc, &tree(&rt, "[{},{}]"), &mut readings);
    is_written(&rt, list.expect(&rt, "a list"), "[{},{}]");
    let map = read_schema_map(alloc, &tree(&rt, r#"{"p":{}}"#), &mut readings);
    is_written(&rt, map.expect(&rt, "a map"), r#"{"p":{}}"#);
    is_number(&rt, readings.number(), 4);
}
