//! Documents, as their constructors and builders make them, and as they are written as texts and read from texts.
use crate::shared::{came_to, is_text, is_written, is_written_first, read, text, two};
use std::process::Abort;
use utoipa::openapi::external_docs::ExternalDocs;
use utoipa::openapi::{Components, Info, OpenApi, OpenApiBuilder, OpenApiVersion, Paths, Tag};
use utoipa::{from_json, from_slice, to_json, to_pretty_json};

// The info of a title and a version alone.
fn info(rt: &(impl Abort + AllocGlobal)) -> Info {
    Info::new(text(rt, "t"), text(rt, "1"))
}

// But its info and its paths, where it is made of these.
#[test]
fn nothing_is_said_of_a_new_document(rt: HostRuntime) {
    let empty = r#"{"info":{"title":"","version":""},"openapi":"3.1.0","paths":{}}"#;
    is_written(&rt, OpenApi::builder(rt.alloc()).build(), empty);
    is_written(&rt, OpenApiBuilder::new(rt.alloc()).build(), empty);
    let paths = read::<Paths>(&rt, r#"{"/a":{}}"#);
    is_written(
        &rt,
        OpenApi::new(rt.alloc(), info(&rt), paths),
        r#"{"info":{"title":"t","version":"1"},"openapi":"3.1.0","paths":{"/a":{}}}"#,
    );
}

// Each setter sets its member, or that there is none.
#[test]
fn a_document_is_described(rt: HostRuntime) {
    let builder = OpenApi::builder(rt.alloc()).openapi(OpenApiVersion::Version32);
    let builder = builder.info(info(&rt)).schema(text(&rt, "s"));
    let builder = builder.json_schema_dialect(Some(text(&rt, "d")));
    let builder = builder.self_uri(Some(text(&rt, "u")));
    let docs = ExternalDocs::new(rt.alloc(), "e").expect(&rt, "memory for a text");
    let document = OpenApi::from(builder.external_docs(Some(docs)));
    is_written_first(
        &rt,
        &document,
        r#"{"$schema":"s","$self":"u","externalDocs":{"description":null,"url":"e"},"info":{"title":"t","version":"1"},"jsonSchemaDialect":"d","openapi":"3.2.0","paths":{}}"#,
    );
    let builder = OpenApiBuilder::from(document).external_docs(None);
    let builder = builder.json_schema_dialect(None).self_uri(None);
    let builder = builder
        .schema(text(&rt, ""))
        .paths(read(&rt, r#"{"/a":{}}"#));
    let builder = builder.webhooks(Some(read(&rt, r#"{"w":{}}"#)));
    let builder = builder.components(Some(Components::new(rt.alloc())));
    is_written(
        &rt,
        builder.build(),
        r#"{"components":{},"info":{"title":"t","version":"1"},"openapi":"3.2.0","paths":{"/a":{}},"webhooks":{"w":{}}}"#,
    );
}

// In the order in which the items are given, as an array or as an iterator.
#[test]
fn lists_of_a_document_are_set(rt: HostRuntime) {
    let servers = [read(&rt, r#"{"url":"b"}"#), read(&rt, r#"{"url":"a"}"#)];
    let builder = OpenApi::builder(rt.alloc()).servers(rt.alloc(), Some(servers));
    let builder = builder.expect(&rt, "memory for servers");
    let tags = two(
        &rt,
        read(&rt, r#"{"name":"g"}"#),
        read(&rt, r#"{"name":"f"}"#),
    );
    let builder = builder.tags(rt.alloc(), Some(tags));
    let builder = builder.expect(&rt, "memory for tags");
    let security = two(&rt, read(&rt, r#"{"k":["s"]}"#), read(&rt, "{}"));
    let builder = builder.security(rt.alloc(), Some(security));
    is_written(
        &rt,
        builder.expect(&rt, "memory for requirements").build(),
        r#"{"info":{"title":"","version":""},"openapi":"3.1.0","paths":{},"security":[{"k":["s"]},{}],"servers":[{"url":"b"},{"url":"a"}],"tags":[{"name":"g"},{"name":"f"}]}"#,
    );
}

// A document in compact form, and with a line for each item and member.
const COMPACT: &str =
    r#"{"info":{"title":"t","version":"1"},"openapi":"3.1.0","paths":{"/a":{}},"tags":[{"name":"a\"b"},{"name":"é"}]}"#;

const PRETTY: &str =
    "{\n  \"info\": {\n    \"title\": \"t\",\n    \"version\": \"1\"\n  },\n  \"openapi\": \"3.1.0\",\n  \"paths\": {\n    \"/a\": {}\n  },\n  \"tags\": [\n    {\n      \"name\": \"a\\\"b\"\n    },\n    {\n      \"name\": \"é\"\n    }\n  ]\n}";

// A text that is none, or that of no document, is refused by what the fault says.
#[test]
fn a_document_is_written_as_a_text_and_read_from_it(rt: HostRuntime) {
    let document = read::<OpenApi>(&rt, COMPACT);
    let compact = document
        .to_json(rt.alloc())
        .expect(&rt, "memory for a text");
    is_text(&rt, compact.as_str(), COMPACT);
    let pretty = document.to_pretty_json(rt.alloc());
    let pretty = pretty.expect(&rt, "memory for a text");
    is_text(&rt, pretty.as_str(), PRETTY);
    came_to(&rt, OpenApi::from_json(rt.alloc(), PRETTY), COMPACT);
    came_to(&rt, OpenApi::from_json(rt.alloc(), "["), "no JSON text");
    came_to(
        &rt,
        OpenApi::from_json(rt.alloc(), r#"{"openapi":"3.1.0","zzz":[1.5]}"#),
        "a number is neither an i64 nor a u64",
    );
    came_to(
        &rt,
        OpenApi::from_json(rt.alloc(), r#"{"openapi":"3.1.0","paths":{}}"#),
        "the member info is missing",
    );
}

// By the calls for any type.
#[test]
fn a_tag_is_written_as_a_text_and_read_from_it(rt: HostRuntime) {
    let tag = r#"{"name":"é"}"#;
    came_to(&rt, from_json::<Tag>(rt.alloc(), tag), tag);
    came_to(&rt, from_slice::<Tag>(rt.alloc(), tag.as_bytes()), tag);
    let no_text = from_slice::<Tag>(rt.alloc(), &[b'"', 0xff, b'"']);
    came_to(&rt, no_text, "no JSON text");
    let tag = read::<Tag>(&rt, tag);
    let compact = to_json(rt.alloc(), &tag).expect(&rt, "memory for a text");
    is_text(&rt, compact.as_str(), r#"{"name":"é"}"#);
    let pretty = to_pretty_json(rt.alloc(), &tag);
    let pretty = pretty.expect(&rt, "memory for a text");
    is_text(&rt, pretty.as_str(), "{\n  \"name\": \"é\"\n}");
}
