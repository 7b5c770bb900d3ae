//! Objects as they are built, by what they are written as.
use crate::schema_parts::{place_of, schema_of, single, two_values};
use crate::shared::{extension, is_text, is_written, is_written_first, text};
use serde_json::Value;
use std::process::Abort;
use utoipa_base::{Deprecated, Number};
use utoipa_schema::{AdditionalProperties, Object, ObjectBuilder, empty};
use utoipa_schema_parts::{KnownFormat, SchemaFormat, SchemaType, TypeWord, Xml};

// The empty schema is of any value, and its default is null.
#[test]
fn an_object_is_of_its_type(rt: HostRuntime) {
    let alloc = rt.alloc();
    is_written(&rt, Object::new(alloc), r#"{"type":"object"}"#);
    let of_text = Object::with_type(alloc, single(TypeWord::String));
    is_written(&rt, of_text, r#"{"type":"string"}"#);
    let of_any = ObjectBuilder::from(Object::with_type(alloc, SchemaType::AnyValue));
    let of_number = Object::from(of_any.schema_type(single(TypeWord::Number)));
    is_written(&rt, of_number, r#"{"type":"number"}"#);
    is_written(&rt, empty(alloc), r#"{"default":null}"#);
}

// Those that take no memory.
#[test]
fn each_plain_setter_of_an_object_sets_its_member(rt: HostRuntime) {
    let object = Object::builder(rt.alloc())
        .title(Some(text(&rt, "t")))
        .format(Some(SchemaFormat::KnownFormat(KnownFormat::Int32)))
        .description(Some(text(&rt, "d")))
        .default(Some(Value::from(3u64)))
        .deprecated(Some(Deprecated::True))
        .example(Some(Value::from(4u64)))
        .write_only(false)
        .read_only(true)
        .xml(Some(Xml::builder().wrapped(Some(true)).build()))
        .multiple_of(Some(Number::Int(2)))
        .maximum(Some(Number::Int(3)))
        .minimum(Some(Number::Int(-4)))
        .exclusive_maximum(Some(Number::UInt(5)))
        .exclusive_minimum(Some(Number::Int(-6)))
        .max_length(Some(4))
        .min_length(Some(3))
        .pattern(Some(text(&rt, "p")))
        .max_properties(Some(2))
        .min_properties(Some(1))
        .content_encoding(text(&rt, "base64"))
        .content_media_type(text(&rt, "image/png"))
        .extensions(extension(&rt))
        .build();
    is_written(
        &rt,
        object,
        r#"{"contentEncoding":"base64","contentMediaType":"image/png","default":3,"deprecated":true,"description":"d","example":4,"exclusiveMaximum":5,"exclusiveMinimum":-6,"format":"int32","maxLength":4,"maxProperties":2,"maximum":3,"minLength":3,"minProperties":1,"minimum":-4,"multipleOf":2,"pattern":"p","readOnly":true,"title":"t","type":"object","writeOnly":false,"x-a":1,"xml":{"wrapped":true}}"#,
    );
}

// Required names keep their order, and no values allow any.
#[test]
fn an_object_is_built_of_its_values_names_and_schemas(rt: HostRuntime) {
    let alloc = rt.alloc();
    let additional = AdditionalProperties::RefOr(place_of(&rt, TypeWord::Integer));
    let object = Object::builder(alloc)
        .examples(alloc, two_values(&rt))
        .expect(&rt, "examples")
        .enum_values(alloc, Some(two_values(&rt)))
        .expect(&rt, "values")
        .additional_properties(alloc, Some(additional))
        .expect(&rt, "additional properties")
        .property_names(alloc, Some(schema_of(&rt, TypeWord::String)))
        .expect(&rt, "names")
        .content_schema(alloc, Some(place_of(&rt, TypeWord::Boolean)))
        .expect(&rt, "content")
        .required(text(&rt, "name"))
        .expect(&rt, "a first name")
        .required(text(&rt, "id"))
        .expect(&rt, "a second name")
        .build();
    is_written_first(
        &rt,
        &object,
        r#"{"additionalProperties":{"type":"integer"},"contentSchema":{"type":"boolean"},"enum":[1,2],"examples":[1,2],"propertyNames":{"type":"string"},"required":["name","id"],"type":"object"}"#,
    );
    let builder = ObjectBuilder::from(object).enum_values(alloc, None::<std::vec::IntoIter<Value>>);
    is_written(
        &rt,
        builder.expect(&rt, "no values").build(),
        r#"{"additionalProperties":{"type":"integer"},"contentSchema":{"type":"boolean"},"examples":[1,2],"propertyNames":{"type":"string"},"required":["name","id"],"type":"object"}"#,
    );
}

// The builder with a property of the type more.
fn with_property(
    rt: &(impl Abort + AllocGlobal),
    builder: ObjectBuilder,
    name: &str,
    word: TypeWord,
) -> ObjectBuilder {
    let builder = builder.property(text(rt, name), place_of(rt, word));
    builder.expect(rt, "memory for a property")
}

// The names of the properties, with a blank after each.
fn names_of(rt: &(impl Abort + AllocGlobal), object: &Object) -> String {
    let mut names = String::new(rt.alloc());
    for name in object.properties.keys() {
        names
            .push_str(name.as_str())
            .expect(rt, "memory for a name");
        names.push(' ').expect(rt, "memory for a blank");
    }
    names
}

// Of one name the later stands.
#[test]
fn properties_stand_in_the_order_of_their_names(rt: HostRuntime) {
    let builder = with_property(&rt, Object::builder(rt.alloc()), "id", TypeWord::Integer);
    let object = with_property(&rt, builder, "id", TypeWord::String).build();
    is_written_first(
        &rt,
        &object,
        r#"{"properties":{"id":{"type":"string"}},"type":"object"}"#,
    );
    let builder = with_property(&rt, ObjectBuilder::from(object), "name", TypeWord::Null);
    let builder = with_property(&rt, builder, "status", TypeWord::Null);
    let builder = with_property(&rt, builder, "history", TypeWord::Null);
    let object = with_property(&rt, builder, "tags", TypeWord::Null).build();
    let names = names_of(&rt, &object);
    is_text(&rt, names.as_str(), "history id name status tags ");
}
