//! What stands in places of a document, found through its components.

use crate::shared::{is_text, is_written_first, read};
use std::alloc::AllocError;
use std::collections::BTreeMap;
use std::process::Abort;
use utoipa::Tree;
use utoipa::openapi::path::PathItem;
use utoipa::openapi::{Components, Ref, RefOr};

// Components of one map: the value, a reference to it and one to that, two that lead to each other, and one that leads to nothing.
fn of_map(rt: &(impl Abort + AllocGlobal), map: &str, value: &str) -> Components {
    let json = format!(in rt.alloc();
        "{{\"{map}\":{{\"back\":{{\"$ref\":\"#/components/{map}/there\"}},\"first\":{{\"$ref\":\"#/components/{map}/value\"}},\"lost\":{{\"$ref\":\"#/components/{map}/none\"}},\"second\":{{\"$ref\":\"#/components/{map}/first\"}},\"there\":{{\"$ref\":\"#/components/{map}/back\"}},\"value\":{value}}}}}"
    );
    read(rt, json.expect(rt, "memory for a text").as_str())
}

// The entry of that name.
fn entry<'a, T>(
    rt: &impl Abort,
    entries: &'a BTreeMap<String, RefOr<T>>,
    name: &str,
) -> &'a RefOr<T> {
    entries.get(name).expect(rt, "an entry")
}

// What was found is written as the text; `none` where nothing was.
fn is_found<T: Tree>(
    rt: &(impl Abort + AllocGlobal),
    found: Result<Option<&T>, AllocError>,
    expected: &str,
) {
    match found.expect(rt, "memory for a name") {
        Some(value) => is_written_first(rt, value, expected),
        None => is_text(rt, "none", expected),
    }
}

// In a map with that value, the call finds it where it stands and by both references, and nothing else.
macro_rules! is_resolved {
    ($rt:ident, $call:ident, $entries:ident, $map:literal, $value:literal) => {
        let components = of_map(&$rt, $map, $value);
        let entries = &components.$entries;
        is_found(&$rt, components.$call($rt.alloc(), entry(&$rt, entries, "value")), $value);
        is_found(&$rt, components.$call($rt.alloc(), entry(&$rt, entries, "first")), $value);
        is_found(&$rt, components.$call($rt.alloc(), entry(&$rt, entries, "second")), $value);
        is_found(&$rt, components.$call($rt.alloc(), entry(&$rt, entries, "there")), "none");
        is_found(&$rt, components.$call($rt.alloc(), entry(&$rt, entries, "lost")), "none");
    };
}

#[test]
fn a_schema_is_resolved(rt: HostRuntime) {
    is_resolved!(rt, schema, schemas, "schemas", r#"{"type":"string"}"#);
}

#[test]
fn a_response_is_resolved(rt: HostRuntime) {
    is_resolved!(rt, response, responses, "responses", r#"{"summary":"s"}"#);
}

#[test]
fn a_parameter_is_resolved(rt: HostRuntime) {
    is_resolved!(
        rt,
        parameter,
        parameters,
        "parameters",
        r#"{"in":"path","name":"n","required":true}"#
    );
}

#[test]
fn an_example_is_resolved(rt: HostRuntime) {
    is_resolved!(rt, example, examples, "examples", r#"{"value":1}"#);
}

#[test]
fn a_request_body_is_resolved(rt: HostRuntime) {
    is_resolved!(
        rt,
        request_body,
        request_bodies,
        "requestBodies",
        r#"{"content":{}}"#
    );
}

#[test]
fn a_header_is_resolved(rt: HostRuntime) {
    is_resolved!(rt, header, headers, "headers", r#"{"description":"d"}"#);
}

#[test]
fn a_link_is_resolved(rt: HostRuntime) {
    is_resolved!(rt, link, links, "links", r#"{"operationId":"o"}"#);
}

#[test]
fn a_callback_is_resolved(rt: HostRuntime) {
    is_resolved!(
        rt,
        callback,
        callbacks,
        "callbacks",
        r#"{"{$url}":{"summary":"s"}}"#
    );
}

#[test]
fn a_content_is_resolved(rt: HostRuntime) {
    is_resolved!(
        rt,
        media_type,
        media_types,
        "mediaTypes",
        r#"{"description":"d"}"#
    );
}

#[test]
fn a_security_scheme_is_resolved(rt: HostRuntime) {
    is_resolved!(
        rt,
        security_scheme,
        security_schemes,
        "securitySchemes",
        r#"{"type":"mutualTLS"}"#
    );
}

// A place has the item or a reference to it; the map has items alone.
#[test]
fn a_path_item_is_resolved(rt: HostRuntime) {
    let components: Components = read(&rt, r#"{"pathItems":{"i":{"summary":"s"}}}"#);
    let own: RefOr<PathItem> = read(&rt, r#"{"summary":"own"}"#);
    is_found(
        &rt,
        components.path_item(rt.alloc(), &own),
        r#"{"summary":"own"}"#,
    );
    let led = read(&rt, r##"{"$ref":"#/components/pathItems/i"}"##);
    is_found(
        &rt,
        components.path_item(rt.alloc(), &led),
        r#"{"summary":"s"}"#,
    );
    let lost = read(&rt, r##"{"$ref":"#/components/pathItems/none"}"##);
    is_found(&rt, components.path_item(rt.alloc(), &lost), "none");
    let elsewhere = read(&rt, r##"{"$ref":"#/components/callbacks/i"}"##);
    is_found(&rt, components.path_item(rt.alloc(), &elsewhere), "none");
}

// The schema that a reference of this text leads to.
fn leads_to(rt: &(impl Abort + AllocGlobal), components: &Components, text: &str, expected: &str) {
    let location = String::from_str(rt.alloc(), text).expect(rt, "memory for a text");
    let place = RefOr::Ref(Ref::new(rt.alloc(), location));
    is_found(rt, components.schema(rt.alloc(), &place), expected);
}

// A reference writes `/`, `~`, a space and a percent sign of a name in another way. The empty name is a name.
#[test]
fn a_name_is_found_that_is_written_otherwise(rt: HostRuntime) {
    let components: Components = read(
        &rt,
        r#"{"schemas":{"":{"title":"0","type":"string"},"a b":{"title":"1","type":"string"},"a%b":{"title":"2","type":"string"},"a/b":{"title":"3","type":"string"},"a~1b":{"title":"4","type":"string"},"é":{"title":"5","type":"string"}}}"#,
    );
    leads_to(
        &rt,
        &components,
        "#/components/schemas/",
        r#"{"title":"0","type":"string"}"#,
    );
    leads_to(
        &rt,
        &components,
        "#/components/schemas/a%20b",
        r#"{"title":"1","type":"string"}"#,
    );
    leads_to(
        &rt,
        &components,
        "#/components/schemas/a b",
        r#"{"title":"1","type":"string"}"#,
    );
    leads_to(
        &rt,
        &components,
        "#/components/schemas/a%25b",
        r#"{"title":"2","type":"string"}"#,
    );
    leads_to(
        &rt,
        &components,
        "#/components/schemas/a~1b",
        r#"{"title":"3","type":"string"}"#,
    );
    leads_to(
        &rt,
        &components,
        "#/components/schemas/a%7E1b",
        r#"{"title":"3","type":"string"}"#,
    );
    leads_to(
        &rt,
        &components,
        "#/components/schemas/a~01b",
        r#"{"title":"4","type":"string"}"#,
    );
    leads_to(
        &rt,
        &components,
        "#/components/schemas/%C3%A9",
        r#"{"title":"5","type":"string"}"#,
    );
    leads_to(&rt, &components, "#/components/schemas/a%2Fb", "none");
    leads_to(&rt, &components, "#/components/schemas/%FF", "none");
}

// A chain of references of which each is written otherwise than its name.
#[test]
fn a_chain_of_escaped_names_is_followed(rt: HostRuntime) {
    let components: Components = read(
        &rt,
        r##"{"schemas":{"/":{"$ref":"#/components/schemas/%7E0"},"a b":{"title":"t","type":"string"},"~":{"$ref":"#/components/schemas/a%20b"}}}"##,
    );
    leads_to(
        &rt,
        &components,
        "#/components/schemas/~1",
        r#"{"title":"t","type":"string"}"#,
    );
}
