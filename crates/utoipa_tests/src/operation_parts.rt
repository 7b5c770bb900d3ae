//! Request bodies, responses and parameters, as their constructors and builders make them.
use crate::schema_parts::place_of;
use crate::shared::{extension, is_number, is_text, is_written, is_written_first, text};
use serde_json::Value;
use std::collections::BTreeMap;
use std::process::Abort;
use utoipa_base::{Deprecated, Ref, RefOr, Required, Tree};
use utoipa_leaf::path::{ParameterIn, ParameterStyle};
use utoipa_media::content::Content;
use utoipa_media::header::Header;
use utoipa_media::link::Link;
use utoipa_operation_parts::{
    Parameter, RequestBody, RequestBodyExt, Response, ResponseExt, Responses,
};
use utoipa_schema_parts::TypeWord;

// The reference to a location.
fn reference(rt: &(impl Abort + AllocGlobal), location: &str) -> Ref {
    Ref::new(rt.alloc(), text(rt, location))
}

// The content whose schema is of the type.
fn content_of(rt: &(impl Abort + AllocGlobal), word: TypeWord) -> Content {
    Content::new(rt.alloc(), Some(place_of(rt, word)))
}

// ---- request bodies

// A new one has no content, and a media type takes its later content.
#[test]
fn a_body_holds_contents_and_references(rt: HostRuntime) {
    is_written(&rt, RequestBody::new(rt.alloc()), r#"{"content":{}}"#);
    let builder = RequestBody::builder(rt.alloc()).description(Some(text(&rt, "d")));
    let builder = builder
        .required(Some(Required::True))
        .extensions(extension(&rt));
    let builder = builder.content(text(&rt, "a/a"), content_of(&rt, TypeWord::Integer));
    let builder = builder.expect(&rt, "memory for a content");
    let builder = builder.content(text(&rt, "a/a"), content_of(&rt, TypeWord::String));
    let builder = builder.expect(&rt, "memory for a content");
    let builder = builder.content_ref(text(&rt, "b/b"), reference(&rt, "#/b"));
    let body = builder.expect(&rt, "memory for a reference").build();
    let expected =
        r##"{"content":{"a/a":{"schema":{"type":"string"}},"b/b":{"$ref":"#/b"}},"description":"d","required":true,"x-a":1}"##;
    is_written(&rt, body, expected);
}

// A body and a response, and the builder of each.
#[test]
fn what_is_in_json_is_of_a_schema_by_its_name(rt: HostRuntime) {
    let expected =
        r##"{"content":{"application/json":{"schema":{"$ref":"#/components/schemas/EmailPayload"}}},"description":"A sample requestBody","required":true}"##;
    let builder = RequestBody::builder(rt.alloc()).description(Some(text(
        &rt,
        "A sample requestBody",
    )));
    let builder = builder.required(Some(Required::True));
    let builder = builder.json_schema_ref(rt.alloc(), "EmailPayload");
    let body = builder.expect(&rt, "memory for a content").build();
    is_written_first(&rt, &body, expected);
    let again = body.json_schema_ref(rt.alloc(), "EmailPayload");
    is_written(&rt, again.expect(&rt, "memory for a content"), expected);
    let expected =
        r##"{"content":{"application/json":{"schema":{"$ref":"#/components/schemas/MySchemaPayload"}}},"description":"A sample response"}"##;
    let response = Response::new(rt.alloc(), text(&rt, "A sample response"));
    let response = response.json_schema_ref(rt.alloc(), "MySchemaPayload");
    is_written(&rt, response.expect(&rt, "memory for a content"), expected);
    let builder = Response::builder(rt.alloc()).description(text(&rt, "A sample response"));
    let builder = builder.json_schema_ref(rt.alloc(), "MySchemaPayload");
    is_written(
        &rt,
        builder.expect(&rt, "memory for a content").build(),
        expected,
    );
}

// ---- responses

// Contents put as b, a, b.
fn b_before_a(rt: &(impl Abort + AllocGlobal)) -> Response {
    let builder = Response::builder(rt.alloc());
    let builder = builder.content(text(rt, "b"), content_of(rt, TypeWord::Integer));
    let builder = builder.expect(rt, "memory for a content");
    let builder = builder.content_ref(text(rt, "a"), reference(rt, "#/a"));
    let builder = builder.expect(rt, "memory for a reference");
    let builder = builder.content(text(rt, "b"), content_of(rt, TypeWord::String));
    builder.expect(rt, "memory for a content").build()
}

// Two contents stand there, that of `b` first.
fn stand_b_before_a(rt: &impl Abort, response: &Response) {
    is_number(rt, response.content.len() as u64, 2);
    match response.content.get_index(0) {
        Some((name, _)) => is_text(rt, name.as_str(), "b"),
        None => is_text(rt, "none", "b"),
    }
    match response.content.get_index(1) {
        Some((name, _)) => is_text(rt, name.as_str(), "a"),
        None => is_text(rt, "none", "a"),
    }
}

// Also in a copy. They are written in the order of their media types.
#[test]
fn contents_stand_in_the_order_in_which_they_were_put(rt: HostRuntime) {
    let expected = r##"{"content":{"a":{"$ref":"#/a"},"b":{"schema":{"type":"string"}}}}"##;
    let response = b_before_a(&rt);
    stand_b_before_a(&rt, &response);
    let copy = response
        .try_clone(rt.alloc())
        .expect(&rt, "memory for a copy");
    stand_b_before_a(&rt, &copy);
    is_written(&rt, response, expected);
}

// Its builder stands where a reference could.
#[test]
fn a_response_holds_headers_links_and_references(rt: HostRuntime) {
    let builder = Response::builder(rt.alloc()).summary(Some(text(&rt, "s")));
    let builder = builder.extensions(extension(&rt));
    let header = Header::new(rt.alloc(), place_of(&rt, TypeWord::Integer));
    let builder = builder
        .header(text(&rt, "h"), header)
        .expect(&rt, "memory for a header");
    let builder = builder.header_ref(text(&rt, "i"), reference(&rt, "#/i"));
    let builder = builder.expect(&rt, "memory for a reference");
    let link = RefOr::T(
        Link::builder(rt.alloc())
            .operation_id(text(&rt, "o"))
            .build(),
    );
    let builder = builder
        .link(text(&rt, "l"), link)
        .expect(&rt, "memory for a link");
    let place = RefOr::<Response>::from(builder);
    let expected =
        r##"{"headers":{"h":{"schema":{"type":"integer"}},"i":{"$ref":"#/i"}},"links":{"l":{"operationId":"o"}},"summary":"s","x-a":1}"##;
    is_written(&rt, place, expected);
}

// The response with a description, where a reference could stand.
fn response_of(rt: &(impl Abort + AllocGlobal), description: &str) -> RefOr<Response> {
    RefOr::T(Response::new(rt.alloc(), text(rt, description)))
}

// A response for 200, one for 404, and a later one for 200.
fn pairs(rt: &(impl Abort + AllocGlobal)) -> Vec<(String, RefOr<Response>)> {
    let pairs = Vec::from_array(
        rt.alloc(),
        [
            (text(rt, "200"), response_of(rt, "first")),
            (text(rt, "404"), RefOr::Ref(reference(rt, "#/404"))),
            (text(rt, "200"), response_of(rt, "later")),
        ],
    );
    pairs.expect(rt, "memory for a list")
}

// No response is an empty object.
#[test]
fn a_code_takes_its_later_response(rt: HostRuntime) {
    is_written(&rt, Responses::new(rt.alloc()), "{}");
    let expected = r##"{"200":{"description":"later"},"404":{"$ref":"#/404"}}"##;
    let made = Responses::from_pairs(rt.alloc(), pairs(&rt));
    is_written(&rt, made.expect(&rt, "memory for responses"), expected);
    let made = pairs(&rt).into_iter().collect::<Responses>(rt.alloc());
    is_written(&rt, made.expect(&rt, "memory for responses"), expected);
    let builder = Responses::builder(rt.alloc()).responses_from_iter(pairs(&rt).into_iter());
    let builder = builder
        .expect(&rt, "memory for responses")
        .extensions(extension(&rt));
    let builder = builder.response(text(&rt, "404"), response_of(&rt, "none"));
    let responses = builder.expect(&rt, "memory for a response").build();
    let expected = r##"{"200":{"description":"later"},"404":{"description":"none"},"x-a":1}"##;
    is_written_first(&rt, &responses, expected);
    let map = BTreeMap::<String, RefOr<Response>>::from(responses);
    is_written(
        &rt,
        map,
        r##"{"200":{"description":"later"},"404":{"description":"none"}}"##,
    );
}

// ---- parameters

// Where it stands there when it is told whether it is.
#[test]
fn a_parameter_in_the_path_is_required(rt: HostRuntime) {
    let built = Parameter::builder(rt.alloc()).build();
    is_written(&rt, built, r#"{"in":"path","name":"","required":false}"#);
    let builder = Parameter::builder(rt.alloc()).required(Required::False);
    is_written(
        &rt,
        builder.build(),
        r#"{"in":"path","name":"","required":true}"#,
    );
    let builder = Parameter::builder(rt.alloc()).parameter_in(ParameterIn::Query);
    let builder = builder
        .required(Required::False)
        .parameter_in(ParameterIn::Path);
    is_written(
        &rt,
        builder.build(),
        r#"{"in":"path","name":"","required":false}"#,
    );
    let made = Parameter::new(rt.alloc(), text(&rt, "id"));
    is_written(&rt, made, r#"{"in":"path","name":"id","required":true}"#);
}

// It holds contents by their types, of which each takes its later content.
#[test]
fn a_parameter_is_written_as_it_was_built(rt: HostRuntime) {
    let example = Value::try_from_str(rt.alloc(), "e").expect(&rt, "memory for a text");
    let builder = Parameter::builder(rt.alloc()).name(text(&rt, "n"));
    let builder = builder
        .parameter_in(ParameterIn::Cookie)
        .required(Required::True);
    let builder = builder
        .description(Some(text(&rt, "d")))
        .deprecated(Some(Deprecated::True));
    let builder = builder
        .schema(Some(place_of(&rt, TypeWord::String)))
        .example(Some(example));
    let builder = builder
        .style(Some(ParameterStyle::Cookie))
        .explode(Some(true));
    let builder = builder
        .allow_reserved(Some(false))
        .extensions(extension(&rt));
    let builder = builder.content(text(&rt, "a"), RefOr::T(content_of(&rt, TypeWord::Integer)));
    let builder = builder.expect(&rt, "memory for a content");
    let given = Vec::from_array(
        rt.alloc(),
        [
            (text(&rt, "b"), RefOr::Ref(reference(&rt, "#/b"))),
            (text(&rt, "a"), RefOr::Ref(reference(&rt, "#/a"))),
        ],
    );
    let given = given.expect(&rt, "memory for a list");
    let builder = builder.contents_from_iter(given.into_iter());
    let parameter = builder.expect(&rt, "memory for contents").build();
    let told = parameter.example().and_then(|tree| tree.as_str());
    is_text(&rt, told.unwrap_or("no example"), "e");
    let expected =
        r##"{"allowReserved":false,"content":{"a":{"$ref":"#/a"},"b":{"$ref":"#/b"}},"deprecated":true,"description":"d","example":"e","explode":true,"in":"cookie","name":"n","required":true,"schema":{"type":"string"},"style":"cookie","x-a":1}"##;
    is_written(&rt, parameter, expected);
}
