//! Arrays as they are built, by what they are written as.
use crate::schema_parts::{place_of, schema_of, single, two_values};
use crate::shared::{extension, is_written, text};
use serde_json::Value;
use utoipa_base::{Deprecated, Ref};
use utoipa_schema::{
    AllOf, AnyOf, Array, ArrayBuilder, ArrayItems, Object, OneOf, RefToArray, ToArray,
};
use utoipa_schema_parts::{SchemaType, TypeWord, Xml};

// Each setter sets its member.
#[test]
fn an_array_is_built_of_its_members(rt: HostRuntime) {
    let alloc = rt.alloc();
    let array = Array::builder(alloc).expect(&rt, "a builder").build();
    let items = ArrayItems::boxed(alloc, place_of(&rt, TypeWord::Number)).expect(&rt, "items");
    let first = Some(schema_of(&rt, TypeWord::Integer)).into_iter();
    let builder = ArrayBuilder::from(array)
        .title(Some(text(&rt, "t")))
        .items(items)
        .description(Some(text(&rt, "d")))
        .deprecated(Some(Deprecated::False))
        .example(Some(Value::from(4u64)))
        .default(Some(Value::from(3u64)))
        .max_items(Some(3))
        .min_items(Some(2))
        .unique_items(true)
        .xml(Some(Xml::builder().wrapped(Some(true)).build()))
        .content_encoding(text(&rt, "base64"))
        .content_media_type(text(&rt, "image/png"))
        .extensions(extension(&rt))
        .prefix_items(alloc, first)
        .expect(&rt, "a first item")
        .content_schema(alloc, Some(place_of(&rt, TypeWord::Boolean)))
        .expect(&rt, "content")
        .examples(alloc, two_values(&rt))
        .expect(&rt, "examples");
    is_written(
        &rt,
        builder.build(),
        r#"{"contentEncoding":"base64","contentMediaType":"image/png","contentSchema":{"type":"boolean"},"default":3,"deprecated":false,"description":"d","example":4,"examples":[1,2],"items":{"type":"number"},"maxItems":3,"minItems":2,"prefixItems":[{"type":"integer"}],"title":"t","type":"array","uniqueItems":true,"x-a":1,"xml":{"wrapped":true}}"#,
    );
}

// Of any, or of none. The type of any value is written as null, for an array has to say its type.
#[test]
fn an_array_is_of_its_items(rt: HostRuntime) {
    let alloc = rt.alloc();
    let array = Array::new(alloc, place_of(&rt, TypeWord::String)).expect(&rt, "an array");
    is_written(&rt, array, r#"{"items":{"type":"string"},"type":"array"}"#);
    let nullable = Array::new_nullable(alloc, place_of(&rt, TypeWord::String));
    is_written(
        &rt,
        nullable.expect(&rt, "an array or null"),
        r#"{"items":{"type":"string"},"type":["array","null"]}"#,
    );
    let built = Array::builder(alloc).expect(&rt, "a builder").build();
    is_written(&rt, built, r#"{"items":{},"type":"array"}"#);
    let builder = ArrayBuilder::new(alloc).expect(&rt, "a builder");
    let builder = builder
        .schema_type(SchemaType::AnyValue)
        .items(ArrayItems::False);
    is_written(&rt, Array::from(builder), r#"{"items":false,"type":null}"#);
}

// Of an object, of what stands where a reference could, of an array, and of a reference.
#[test]
fn an_array_is_made_of_a_schema(rt: HostRuntime) {
    let alloc = rt.alloc();
    let object = Object::with_type(alloc, single(TypeWord::String));
    is_written(
        &rt,
        object.to_array(alloc).expect(&rt, "an array of texts"),
        r#"{"items":{"type":"string"},"type":"array"}"#,
    );
    let array = place_of(&rt, TypeWord::Integer).to_array(alloc);
    is_written(
        &rt,
        array
            .expect(&rt, "an array of numbers")
            .to_array(alloc)
            .expect(&rt, "an array of those"),
        r#"{"items":{"items":{"type":"integer"},"type":"array"},"type":"array"}"#,
    );
    let pet = Ref::new(alloc, text(&rt, "#/components/schemas/Pet")).to_array_builder(alloc);
    is_written(
        &rt,
        pet.expect(&rt, "an array of pets").build(),
        r##"{"items":{"$ref":"#/components/schemas/Pet"},"type":"array"}"##,
    );
}

// Of the builder of each schema.
#[test]
fn an_array_is_made_of_what_is_built(rt: HostRuntime) {
    let alloc = rt.alloc();
    let array = Object::builder(alloc)
        .to_array_builder(alloc)
        .expect(&rt, "of objects");
    is_written(
        &rt,
        array
            .to_array_builder(alloc)
            .expect(&rt, "of arrays")
            .build(),
        r#"{"items":{"items":{"type":"object"},"type":"array"},"type":"array"}"#,
    );
    let one_of = OneOf::builder(alloc)
        .to_array_builder(alloc)
        .expect(&rt, "of oneOf");
    is_written(
        &rt,
        one_of.build(),
        r#"{"items":{"oneOf":[]},"type":"array"}"#,
    );
    let all_of = AllOf::builder(alloc)
        .to_array_builder(alloc)
        .expect(&rt, "of allOf");
    is_written(
        &rt,
        all_of.build(),
        r#"{"items":{"allOf":[]},"type":"array"}"#,
    );
    let any_of = AnyOf::builder(alloc)
        .to_array_builder(alloc)
        .expect(&rt, "of anyOf");
    is_written(
        &rt,
        any_of.build(),
        r#"{"items":{"anyOf":[]},"type":"array"}"#,
    );
}
