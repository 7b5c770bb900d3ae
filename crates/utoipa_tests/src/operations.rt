//! Operations and callbacks, as their constructors and builders make them.
use crate::shared::{
    extension, is_flag, is_number, is_text, is_written, is_written_first, read, text, tree, two,
};
use std::collections::BTreeMap;
use std::process::Abort;
use std::vec::IntoIter;
use utoipa_base::{Deprecated, Readings, Ref, RefOr};
use utoipa_leaf::server::Server;
use utoipa_operation_parts::{Parameter, RequestBody, Response, Responses};
use utoipa_path::{
    Callback, Operation, OperationBuilder, PathItem, PathItemBuilder, read_callback,
    read_operation_map, read_ref_or_callback,
};
use utoipa_security::security::SecurityRequirement;

// The reference to a location.
fn reference(rt: &(impl Abort + AllocGlobal), location: &str) -> Ref {
    Ref::new(rt.alloc(), text(rt, location))
}

// Of a new one nothing is said.
#[test]
fn an_operation_is_described(rt: HostRuntime) {
    let empty = r#"{"responses":{}}"#;
    is_written(&rt, Operation::new(rt.alloc()), empty);
    is_written(&rt, OperationBuilder::new(rt.alloc()).build(), empty);
    is_written(&rt, Operation::builder(rt.alloc()).build(), empty);
    let builder = Operation::builder(rt.alloc()).summary(Some(text(&rt, "s")));
    let builder = builder.description(Some(text(&rt, "d")));
    let builder = builder.operation_id(Some(text(&rt, "o")));
    let builder = builder
        .deprecated(Some(Deprecated::True))
        .extensions(extension(&rt));
    let operation = Operation::from(builder);
    let all =
        r#"{"deprecated":true,"description":"d","operationId":"o","responses":{},"summary":"s","x-a":1}"#;
    is_written_first(&rt, &operation, all);
    let moved = OperationBuilder::from(operation).deprecated(None);
    let left = r#"{"description":"d","operationId":"o","responses":{},"summary":"s","x-a":1}"#;
    is_written(&rt, moved.build(), left);
}

// ---- tags, security and servers

// The requirement of the scope `s` of that scheme.
fn requirement(rt: &(impl Abort + AllocGlobal), name: &str) -> SecurityRequirement {
    let scopes = Some(text(rt, "s")).into_iter();
    let made = SecurityRequirement::new(rt.alloc(), text(rt, name), scopes);
    made.expect(rt, "memory for a requirement")
}

// The builder with a tag and a requirement of that name, and a server at that URL, behind those that stand.
fn with_one_more(
    rt: &(impl Abort + AllocGlobal),
    builder: OperationBuilder,
    name: &str,
    url: &str,
) -> OperationBuilder {
    let builder = builder.tag(rt.alloc(), text(rt, name));
    let builder = builder.expect(rt, "memory for a tag");
    let builder = builder.security(rt.alloc(), requirement(rt, name));
    let builder = builder.expect(rt, "memory for a requirement");
    let builder = builder.server(rt.alloc(), Server::new(text(rt, url)));
    builder.expect(rt, "memory for a server")
}

// They are added to those that stand, set, and cleared.
#[test]
fn tags_requirements_and_servers_stand_in_their_order(rt: HostRuntime) {
    let builder = with_one_more(&rt, Operation::builder(rt.alloc()), "b", "v");
    let operation = with_one_more(&rt, builder, "a", "u").build();
    let both =
        r#"{"responses":{},"security":[{"b":["s"]},{"a":["s"]}],"servers":[{"url":"v"},{"url":"u"}],"tags":["b","a"]}"#;
    is_written_first(&rt, &operation, both);
    let tags = two(&rt, text(&rt, "d"), text(&rt, "c"));
    let builder = OperationBuilder::from(operation).tags(rt.alloc(), Some(tags));
    let builder = builder.expect(&rt, "memory for tags");
    let security = Some(SecurityRequirement::empty(rt.alloc())).into_iter();
    let builder = builder.securities(rt.alloc(), Some(security));
    let builder = builder.expect(&rt, "memory for a requirement");
    let servers = Some(Server::new(text(&rt, "w"))).into_iter();
    let builder = builder.servers(rt.alloc(), Some(servers));
    let operation = builder.expect(&rt, "memory for a server").build();
    let set = r#"{"responses":{},"security":[{}],"servers":[{"url":"w"}],"tags":["d","c"]}"#;
    is_written_first(&rt, &operation, set);
    let builder = OperationBuilder::from(operation);
    let builder = builder.tags(rt.alloc(), None::<IntoIter<String>>);
    let builder = builder.expect(&rt, "a builder");
    let builder = builder.securities(rt.alloc(), None::<IntoIter<SecurityRequirement>>);
    let builder = builder.expect(&rt, "a builder");
    let builder = builder.servers(rt.alloc(), None::<IntoIter<Server>>);
    is_written(
        &rt,
        builder.expect(&rt, "a builder").build(),
        r#"{"responses":{}}"#,
    );
}

// ---- parameters and bodies

// The parameter of that name, in the path.
fn parameter(rt: &(impl Abort + AllocGlobal), name: &str) -> Parameter {
    Parameter::new(rt.alloc(), text(rt, name))
}

// Each by itself or by reference.
#[test]
fn parameters_are_added_to_those_that_stand_or_cleared(rt: HostRuntime) {
    let builder = Operation::builder(rt.alloc()).parameter_ref(rt.alloc(), reference(&rt, "#/q"));
    let builder = builder.expect(&rt, "memory for a reference");
    let builder = builder.parameter(rt.alloc(), parameter(&rt, "p"));
    let operation = builder.expect(&rt, "memory for a parameter").build();
    let expected =
        r##"{"parameters":[{"$ref":"#/q"},{"in":"path","name":"p","required":true}],"responses":{}}"##;
    is_written_first(&rt, &operation, expected);
    let builder = OperationBuilder::from(operation);
    let builder = builder.parameters(rt.alloc(), None::<IntoIter<Parameter>>);
    let operation = builder.expect(&rt, "a builder").build();
    is_flag(&rt, operation.parameters.is_none(), true);
    let given = Some(parameter(&rt, "p")).into_iter();
    let builder = OperationBuilder::from(operation).parameters(rt.alloc(), Some(given));
    let builder = builder.expect(&rt, "memory for a parameter");
    let given = Some(parameter(&rt, "q")).into_iter();
    let builder = builder.parameters(rt.alloc(), Some(given));
    let operation = builder.expect(&rt, "memory for a parameter").build();
    let expected =
        r#"{"parameters":[{"in":"path","name":"p","required":true},{"in":"path","name":"q","required":true}],"responses":{}}"#;
    is_written(&rt, operation, expected);
}

// Or that there is none.
#[test]
fn a_body_is_set_by_itself_or_by_reference(rt: HostRuntime) {
    let body = RequestBody::new(rt.alloc());
    let builder = Operation::builder(rt.alloc()).request_body(Some(body));
    let operation = builder.build();
    let expected = r#"{"requestBody":{"content":{}},"responses":{}}"#;
    is_written_first(&rt, &operation, expected);
    let builder = OperationBuilder::from(operation).request_body_ref(Some(reference(&rt, "#/b")));
    let operation = builder.build();
    let expected = r##"{"requestBody":{"$ref":"#/b"},"responses":{}}"##;
    is_written_first(&rt, &operation, expected);
    let builder = OperationBuilder::from(operation).request_body(None);
    is_written(&rt, builder.build(), r#"{"responses":{}}"#);
    let builder = Operation::builder(rt.alloc()).request_body_ref(None);
    is_written(&rt, builder.build(), r#"{"responses":{}}"#);
}

// ---- responses

// The response with a description, where a reference could stand.
fn response(rt: &(impl Abort + AllocGlobal), description: &str) -> RefOr<Response> {
    RefOr::T(Response::new(rt.alloc(), text(rt, description)))
}

// Also in place of one that was set with all responses.
#[test]
fn a_code_of_an_operation_takes_its_later_response(rt: HostRuntime) {
    let set = Responses::builder(rt.alloc()).response(text(&rt, "200"), response(&rt, "first"));
    let set = set.expect(&rt, "memory for a response").build();
    let builder = Operation::builder(rt.alloc()).responses(set);
    let operation = builder.build();
    let expected = r#"{"responses":{"200":{"description":"first"}}}"#;
    is_written_first(&rt, &operation, expected);
    let builder = OperationBuilder::from(operation);
    let builder = builder.response(text(&rt, "404"), RefOr::Ref(reference(&rt, "#/n")));
    let builder = builder.expect(&rt, "memory for a reference");
    let builder = builder.response(text(&rt, "200"), response(&rt, "later"));
    let operation = builder.expect(&rt, "memory for a response").build();
    let expected = r##"{"responses":{"200":{"description":"later"},"404":{"$ref":"#/n"}}}"##;
    is_written(&rt, operation, expected);
}

// ---- callbacks

// The callback of one path item at an expression. The item stands at a location too, and has a summary.
fn callback(rt: &(impl Abort + AllocGlobal), location: &str, summary: &str) -> Callback {
    let builder = PathItem::builder(rt.alloc()).ref_path(Some(text(rt, location)));
    let item = builder.summary(Some(text(rt, summary))).build();
    let mut callback = BTreeMap::new(rt.alloc());
    let put: Result<_, _> = callback.insert(text(rt, "e"), RefOr::T(item));
    drop(put.expect(rt, "memory for an entry"));
    callback
}

// Under the expression stands a reference to the location, with the summary. An item that has both is written alike.
fn is_reference(rt: &impl Abort, callback: &Callback, location: &str, summary: &str) {
    is_number(rt, callback.len() as u64, 1);
    match callback.get("e") {
        Some(RefOr::Ref(reference)) => {
            is_text(rt, reference.ref_location.as_str(), location);
            is_text(rt, reference.summary.as_str(), summary);
        }
        _ => is_text(rt, "none", "a reference"),
    }
}

// Of a callback and of what a group reads.
#[test]
fn an_item_with_a_reference_reads_back_as_a_reference(rt: HostRuntime) {
    let expected = r##"{"e":{"$ref":"#/p","summary":"s"}}"##;
    is_written(&rt, callback(&rt, "#/p", "s"), expected);
    is_reference(&rt, &read::<Callback>(&rt, expected), "#/p", "s");
    let mut readings = Readings::new();
    let again = read_callback(rt.alloc(), &tree(&rt, expected), &mut readings);
    is_reference(&rt, &again.expect(&rt, "a callback"), "#/p", "s");
}

// Put alone, or with others.
#[test]
fn a_name_takes_its_later_callback(rt: HostRuntime) {
    let first = RefOr::T(callback(&rt, "#/p", "s"));
    let builder = Operation::builder(rt.alloc()).callback(text(&rt, "b"), first);
    let operation = builder.expect(&rt, "memory for a callback").build();
    let expected = r##"{"callbacks":{"b":{"e":{"$ref":"#/p","summary":"s"}}},"responses":{}}"##;
    is_written_first(&rt, &operation, expected);
    let given = two(
        &rt,
        (text(&rt, "a"), RefOr::Ref(reference(&rt, "#/a"))),
        (text(&rt, "b"), RefOr::Ref(reference(&rt, "#/b"))),
    );
    let builder = OperationBuilder::from(operation).callbacks_from_iter(given);
    let operation = builder.expect(&rt, "memory for callbacks").build();
    let expected = r##"{"callbacks":{"a":{"$ref":"#/a"},"b":{"$ref":"#/b"}},"responses":{}}"##;
    is_written(&rt, operation, expected);
}

// With a reading for each place of a schema.
#[test]
fn callbacks_and_operations_are_read_as_the_generic_types_read_them(rt: HostRuntime) {
    let mut readings = Readings::new();
    let refers = r##"{"$ref":"#/a"}"##;
    let place = read_ref_or_callback(rt.alloc(), &tree(&rt, refers), &mut readings);
    is_written(&rt, place.expect(&rt, "a reference"), refers);
    // A reference has a text there, so this is a callback.
    let holds = r#"{"$ref":{}}"#;
    let place = read_ref_or_callback(rt.alloc(), &tree(&rt, holds), &mut readings);
    is_written(&rt, place.expect(&rt, "a callback"), holds);
    is_number(&rt, readings.number(), 0);
    let operations = r#"{"COPY":{"responses":{"200":{"headers":{"h":{"schema":{}}}}}}}"#;
    let map = read_operation_map(rt.alloc(), &tree(&rt, operations), &mut readings);
    is_written(&rt, map.expect(&rt, "operations"), operations);
    is_number(&rt, readings.number(), 1);
}
