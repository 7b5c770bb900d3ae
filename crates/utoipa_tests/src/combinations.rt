//! Combinations of schemas as they are built, by what they are written as.
use crate::schema_parts::{place_of, single, two_values};
use crate::shared::{extension, is_written, text};
use serde_json::Value;
use std::process::Abort;
use utoipa_schema::{AllOf, AllOfBuilder, AnyOf, AnyOfBuilder, OneOf, OneOfBuilder};
use utoipa_schema_parts::{Discriminator, TypeWord};

// The discriminator by a property `kind`.
fn by_kind(rt: &(impl Abort + AllocGlobal)) -> Option<Discriminator> {
    Some(Discriminator::new(rt.alloc(), text(rt, "kind")))
}

// Also where it has room for some.
#[test]
fn a_combination_begins_with_no_schema(rt: HostRuntime) {
    let alloc = rt.alloc();
    is_written(&rt, OneOf::new(alloc), r#"{"oneOf":[]}"#);
    is_written(&rt, AllOf::new(alloc), r#"{"allOf":[]}"#);
    is_written(&rt, AnyOf::new(alloc), r#"{"anyOf":[]}"#);
    is_written(&rt, OneOfBuilder::new(alloc).build(), r#"{"oneOf":[]}"#);
    is_written(&rt, AllOfBuilder::new(alloc).build(), r#"{"allOf":[]}"#);
    is_written(&rt, AnyOfBuilder::new(alloc).build(), r#"{"anyOf":[]}"#);
    let one_of = OneOf::with_capacity(alloc, 2).expect(&rt, "room for two");
    is_written(&rt, one_of, r#"{"oneOf":[]}"#);
    let all_of = AllOf::with_capacity(alloc, 2).expect(&rt, "room for two");
    is_written(&rt, all_of, r#"{"allOf":[]}"#);
    let any_of = AnyOf::with_capacity(alloc, 2).expect(&rt, "room for two");
    is_written(&rt, any_of, r#"{"anyOf":[]}"#);
}

// Each setter sets its member, and the schemas stand in their order.
#[test]
fn one_of_is_built_of_its_members(rt: HostRuntime) {
    let alloc = rt.alloc();
    let builder = OneOfBuilder::from(OneOf::builder(alloc).build())
        .schema_type(single(TypeWord::Object))
        .title(Some(text(&rt, "t")))
        .description(Some(text(&rt, "d")))
        .default(Some(Value::from(3u64)))
        .example(Some(Value::from(4u64)))
        .discriminator(by_kind(&rt))
        .read_only(true)
        .write_only(false)
        .extensions(extension(&rt))
        .item(place_of(&rt, TypeWord::String))
        .expect(&rt, "a first schema")
        .item(place_of(&rt, TypeWord::Integer))
        .expect(&rt, "a second schema")
        .examples(alloc, two_values(&rt))
        .expect(&rt, "examples");
    is_written(
        &rt,
        OneOf::from(builder),
        r#"{"default":3,"description":"d","discriminator":{"propertyName":"kind"},"example":4,"examples":[1,2],"oneOf":[{"type":"string"},{"type":"integer"}],"readOnly":true,"title":"t","type":"object","writeOnly":false,"x-a":1}"#,
    );
}

// Each setter sets its member, and the schemas stand in their order.
#[test]
fn all_of_is_built_of_its_members(rt: HostRuntime) {
    let alloc = rt.alloc();
    let builder = AllOfBuilder::from(AllOf::builder(alloc).build())
        .schema_type(single(TypeWord::Object))
        .title(Some(text(&rt, "t")))
        .description(Some(text(&rt, "d")))
        .default(Some(Value::from(3u64)))
        .example(Some(Value::from(4u64)))
        .discriminator(by_kind(&rt))
        .extensions(extension(&rt))
        .item(place_of(&rt, TypeWord::String))
        .expect(&rt, "a first schema")
        .item(place_of(&rt, TypeWord::Integer))
        .expect(&rt, "a second schema")
        .examples(alloc, two_values(&rt))
        .expect(&rt, "examples");
    is_written(
        &rt,
        AllOf::from(builder),
        r#"{"allOf":[{"type":"string"},{"type":"integer"}],"default":3,"description":"d","discriminator":{"propertyName":"kind"},"example":4,"examples":[1,2],"title":"t","type":"object","x-a":1}"#,
    );
}

// Each setter sets its member, and the schemas stand in their order.
#[test]
fn any_of_is_built_of_its_members(rt: HostRuntime) {
    let alloc = rt.alloc();
    let builder = AnyOfBuilder::from(AnyOf::builder(alloc).build())
        .schema_type(single(TypeWord::Object))
        .description(Some(text(&rt, "d")))
        .default(Some(Value::from(3u64)))
        .example(Some(Value::from(4u64)))
        .discriminator(by_kind(&rt))
        .extensions(extension(&rt))
        .item(place_of(&rt, TypeWord::String))
        .expect(&rt, "a first schema")
        .item(place_of(&rt, TypeWord::Integer))
        .expect(&rt, "a second schema")
        .examples(alloc, two_values(&rt))
        .expect(&rt, "examples");
    is_written(
        &rt,
        AnyOf::from(builder),
        r#"{"anyOf":[{"type":"string"},{"type":"integer"}],"default":3,"description":"d","discriminator":{"propertyName":"kind"},"example":4,"examples":[1,2],"type":"object","x-a":1}"#,
    );
}
