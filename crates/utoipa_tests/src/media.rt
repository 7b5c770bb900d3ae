//! Contents, encodings, headers and links, as their constructors and builders make them.
use crate::schema_parts::place_of;
use crate::shared::{extension, is_number, is_written, text, tree, two};
use serde_json::Value;
use std::process::Abort;
use std::vec::IntoIter;
use utoipa_base::{Deprecated, Readings, Ref, RefOr};
use utoipa_leaf::example::Example;
use utoipa_leaf::path::ParameterStyle;
use utoipa_media::content::Content;
use utoipa_media::encoding::Encoding;
use utoipa_media::header::Header;
use utoipa_media::link::Link;
use utoipa_media::{read_content_map, read_encoding_list, read_ref_or_header};
use utoipa_schema_parts::TypeWord;

// The reference to a location.
fn reference(rt: &(impl Abort + AllocGlobal), location: &str) -> Ref {
    Ref::new(rt.alloc(), text(rt, location))
}

// The encoding of a content type.
fn encoding_of(rt: &(impl Abort + AllocGlobal), content_type: &str) -> Encoding {
    let content_type = text(rt, content_type);
    Encoding::builder(rt.alloc())
        .content_type(Some(content_type))
        .build()
}

// The example with a summary.
fn example_of(rt: &(impl Abort + AllocGlobal), summary: &str) -> RefOr<Example> {
    let summary = text(rt, summary);
    RefOr::T(Example::builder(rt.alloc()).summary(summary).build())
}

// Two examples of one name.
fn examples(rt: &(impl Abort + AllocGlobal)) -> IntoIter<(String, RefOr<Example>)> {
    two(
        rt,
        (text(rt, "a"), example_of(rt, "first")),
        (text(rt, "a"), example_of(rt, "later")),
    )
}

// A property takes its later encoding, and a name its later example; items take the encodings that were set, in their order.
#[test]
fn a_content_is_written_as_it_was_built(rt: HostRuntime) {
    let builder = Content::builder(rt.alloc()).schema(Some(place_of(&rt, TypeWord::String)));
    let builder = builder.item_schema(Some(place_of(&rt, TypeWord::Integer)));
    let builder = builder
        .description(Some(text(&rt, "d")))
        .example(Some(Value::from(1u64)));
    let builder = builder.extensions(extension(&rt));
    let builder = builder.item_encoding(rt.alloc(), Some(encoding_of(&rt, "a/a")));
    let builder = builder.expect(&rt, "memory for an encoding");
    let first = builder.encoding(text(&rt, "a"), encoding_of(&rt, "text/plain"));
    let first = first.expect(&rt, "memory for an encoding");
    let later = first.encoding(text(&rt, "a"), encoding_of(&rt, "image/png"));
    let builder = later.expect(&rt, "memory for an encoding");
    let given = two(&rt, encoding_of(&rt, "b/b"), encoding_of(&rt, "a/a"));
    let builder = builder.prefix_encoding(rt.alloc(), given);
    let builder = builder.expect(&rt, "memory for a list");
    let builder = builder.examples_from_iter(examples(&rt));
    let content = builder.expect(&rt, "memory for examples").build();
    let expected =
        r#"{"description":"d","encoding":{"a":{"contentType":"image/png"}},"example":1,"examples":{"a":{"summary":"later"}},"itemEncoding":{"contentType":"a/a"},"itemSchema":{"type":"integer"},"prefixEncoding":[{"contentType":"b/b"},{"contentType":"a/a"}],"schema":{"type":"string"},"x-a":1}"#;
    is_written(&rt, content, expected);
}

// A name holds a header or a reference, and items take the encodings that were set, in their order.
#[test]
fn an_encoding_is_written_as_it_was_built(rt: HostRuntime) {
    let builder = Encoding::builder(rt.alloc()).style(Some(ParameterStyle::Form));
    let builder = builder.explode(Some(false)).allow_reserved(Some(true));
    let builder = builder.extensions(extension(&rt));
    let builder = builder.encoding(text(&rt, "p"), encoding_of(&rt, "a/a"));
    let builder = builder.expect(&rt, "memory for an encoding");
    let given = two(&rt, encoding_of(&rt, "a/a"), encoding_of(&rt, "b/b"));
    let builder = builder.prefix_encoding(rt.alloc(), given);
    let builder = builder.expect(&rt, "memory for a list");
    let builder = builder.item_encoding(rt.alloc(), Some(encoding_of(&rt, "c/c")));
    let builder = builder.expect(&rt, "memory for an encoding");
    let header = Header::new(rt.alloc(), place_of(&rt, TypeWord::Integer));
    let builder = builder.header(text(&rt, "a"), header);
    let builder = builder.expect(&rt, "memory for a header");
    let builder = builder.header_ref(text(&rt, "b"), reference(&rt, "#/b"));
    let encoding = builder.expect(&rt, "memory for a header").build();
    let expected =
        r##"{"allowReserved":true,"encoding":{"p":{"contentType":"a/a"}},"explode":false,"headers":{"a":{"schema":{"type":"integer"}},"b":{"$ref":"#/b"}},"itemEncoding":{"contentType":"c/c"},"prefixEncoding":[{"contentType":"a/a"},{"contentType":"b/b"}],"style":"form","x-a":1}"##;
    is_written(&rt, encoding, expected);
}

// It holds contents and references by their types, and a name takes its later example. Its schema is that of any text, unless it is set.
#[test]
fn a_header_is_written_as_it_was_built(rt: HostRuntime) {
    let example = Value::try_from_str(rt.alloc(), "example-value");
    let builder = Header::builder(rt.alloc()).description(Some(text(&rt, "custom header")));
    let builder = builder.deprecated(Some(Deprecated::True));
    let builder = builder
        .style(Some(ParameterStyle::Simple))
        .explode(Some(true));
    let builder = builder.example(Some(example.expect(&rt, "memory for a text")));
    let content = Content::new(rt.alloc(), Some(place_of(&rt, TypeWord::String)));
    let builder = builder.content(text(&rt, "a/a"), RefOr::T(content));
    let builder = builder.expect(&rt, "memory for a content");
    let given = Vec::from_array(
        rt.alloc(),
        [(text(&rt, "b/b"), RefOr::Ref(reference(&rt, "#/b")))],
    );
    let given = given.expect(&rt, "memory for a list");
    let builder = builder.content_from_iter(given.into_iter());
    let builder = builder.expect(&rt, "memory for a content");
    let builder = builder.examples_from_iter(examples(&rt));
    let header = builder.expect(&rt, "memory for examples").build();
    let expected =
        r##"{"content":{"a/a":{"schema":{"type":"string"}},"b/b":{"$ref":"#/b"}},"deprecated":true,"description":"custom header","example":"example-value","examples":{"a":{"summary":"later"}},"explode":true,"schema":{"type":"string"},"style":"simple"}"##;
    is_written(&rt, header, expected);
}

// With a parameter under its name.
#[test]
fn a_link_is_written_with_what_was_set_alone(rt: HostRuntime) {
    let builder = Link::builder(rt.alloc()).operation_id(text(&rt, "getUserAddress"));
    let user = Value::try_from_str(rt.alloc(), "$request.path.id");
    let user = user.expect(&rt, "memory for a text");
    let built = builder.parameter(text(&rt, "userId"), user);
    let link = built.expect(&rt, "memory for a parameter").build();
    let expected = r#"{"operationId":"getUserAddress","parameters":{"userId":"$request.path.id"}}"#;
    is_written(&rt, link, expected);
}

// With a reading for each place of a schema.
#[test]
fn headers_encodings_and_contents_are_read_as_the_generic_types_read_them(rt: HostRuntime) {
    let mut readings = Readings::new();
    let refers = r##"{"$ref":"#/h"}"##;
    let place = read_ref_or_header(rt.alloc(), &tree(&rt, refers), &mut readings);
    is_written(&rt, place.expect(&rt, "a reference"), refers);
    is_number(&rt, readings.number(), 0);
    let encodings = r#"[{"headers":{"h":{"schema":{}}}},{}]"#;
    let list = read_encoding_list(rt.alloc(), &tree(&rt, encodings), &mut readings);
    is_written(&rt, list.expect(&rt, "encodings"), encodings);
    is_number(&rt, readings.number(), 1);
    let contents = r##"{"a":{"schema":{}},"b":{"$ref":"#/b"}}"##;
    let map = read_content_map(rt.alloc(), &tree(&rt, contents), &mut readings);
    is_written(&rt, map.expect(&rt, "contents"), contents);
    is_number(&rt, readings.number(), 2);
}
