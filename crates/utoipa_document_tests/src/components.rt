//! Components, as their constructors and builders make them.
use crate::shared::{extension, is_written, is_written_first, read, text, two};
use std::process::Abort;
use utoipa::openapi::{Components, ComponentsBuilder};

// The builder with what an operation takes and answers, and what that is made of.
fn with_messages(rt: &(impl Abort + AllocGlobal), builder: ComponentsBuilder) -> ComponentsBuilder {
    let builder = builder.schema(text(rt, "s"), read(rt, r#"{"type":"string"}"#));
    let builder = builder.expect(rt, "memory for a schema");
    let builder = builder.response(text(rt, "r"), read(rt, r#"{"summary":"s"}"#));
    let builder = builder.expect(rt, "memory for a response");
    let parameter = r#"{"in":"path","name":"n","required":true}"#;
    let builder = builder.parameter(text(rt, "p"), read(rt, parameter));
    let builder = builder.expect(rt, "memory for a parameter");
    let builder = builder.example(text(rt, "e"), read(rt, r#"{"value":1}"#));
    let builder = builder.expect(rt, "memory for an example");
    let builder = builder.request_body(text(rt, "b"), read(rt, r#"{"content":{}}"#));
    let builder = builder.expect(rt, "memory for a request body");
    let builder = builder.header(text(rt, "h"), read(rt, r#"{"description":"d"}"#));
    let builder = builder.expect(rt, "memory for a header");
    let builder = builder.media_type(text(rt, "m"), read(rt, r#"{"description":"d"}"#));
    builder.expect(rt, "memory for a content")
}

// The builder with what leads to other operations, a security scheme and an extension.
fn with_operations(
    rt: &(impl Abort + AllocGlobal),
    builder: ComponentsBuilder,
) -> ComponentsBuilder {
    let builder = builder.link(text(rt, "l"), read(rt, r#"{"operationId":"o"}"#));
    let builder = builder.expect(rt, "memory for a link");
    let builder = builder.callback(text(rt, "c"), read(rt, r#"{"{$url}":{"summary":"s"}}"#));
    let builder = builder.expect(rt, "memory for a callback");
    let builder = builder.path_item(text(rt, "i"), read(rt, r#"{"get":{"responses":{}}}"#));
    let builder = builder.expect(rt, "memory for a path item");
    let builder = builder.security_scheme(text(rt, "k"), read(rt, r#"{"type":"mutualTLS"}"#));
    let builder = builder.expect(rt, "memory for a security scheme");
    builder.extensions(extension(rt))
}

// A new one has none.
#[test]
fn each_map_takes_its_components(rt: HostRuntime) {
    is_written(&rt, Components::new(rt.alloc()), "{}");
    is_written(&rt, ComponentsBuilder::new(rt.alloc()).build(), "{}");
    let components = Components::from(with_messages(&rt, Components::builder(rt.alloc())));
    let messages =
        r#"{"examples":{"e":{"value":1}},"headers":{"h":{"description":"d"}},"mediaTypes":{"m":{"description":"d"}},"parameters":{"p":{"in":"path","name":"n","required":true}},"requestBodies":{"b":{"content":{}}},"responses":{"r":{"summary":"s"}},"schemas":{"s":{"type":"string"}}}"#;
    is_written_first(&rt, &components, messages);
    let components = with_operations(&rt, ComponentsBuilder::from(components));
    let all =
        r#"{"callbacks":{"c":{"{$url}":{"summary":"s"}}},"examples":{"e":{"value":1}},"headers":{"h":{"description":"d"}},"links":{"l":{"operationId":"o"}},"mediaTypes":{"m":{"description":"d"}},"parameters":{"p":{"in":"path","name":"n","required":true}},"pathItems":{"i":{"get":{"responses":{}}}},"requestBodies":{"b":{"content":{}}},"responses":{"r":{"summary":"s"}},"schemas":{"s":{"type":"string"}},"securitySchemes":{"k":{"type":"mutualTLS"}},"x-a":1}"#;
    is_written(&rt, components.build(), all);
}

// In a map that is put one by one, and in one that is put from an iterator.
#[test]
fn a_name_takes_its_later_component(rt: HostRuntime) {
    let builder = Components::builder(rt.alloc());
    let builder = builder.schema(text(&rt, "s"), read(&rt, r#"{"type":"null"}"#));
    let builder = builder.expect(&rt, "memory for a schema");
    let schemas = two(
        &rt,
        (text(&rt, "s"), read(&rt, r#"{"type":"string"}"#)),
        (text(&rt, "a"), read(&rt, r##"{"$ref":"#/s"}"##)),
    );
    let builder = builder.schemas_from_iter(schemas);
    let builder = builder.expect(&rt, "memory for schemas");
    let responses = two(
        &rt,
        (text(&rt, "r"), read(&rt, r#"{"summary":"first"}"#)),
        (text(&rt, "r"), read(&rt, r#"{"summary":"later"}"#)),
    );
    let builder = builder.responses_from_iter(responses);
    let builder = builder.expect(&rt, "memory for responses");
    let contents = two(
        &rt,
        (text(&rt, "n"), read(&rt, r##"{"$ref":"#/m"}"##)),
        (text(&rt, "m"), read(&rt, r#"{"description":"d"}"#)),
    );
    let builder = builder.media_types_from_iter(contents);
    let expected =
        r##"{"mediaTypes":{"m":{"description":"d"},"n":{"$ref":"#/m"}},"responses":{"r":{"summary":"later"}},"schemas":{"a":{"$ref":"#/s"},"s":{"type":"string"}}}"##;
    is_written(
        &rt,
        builder.expect(&rt, "memory for contents").build(),
        expected,
    );
}
