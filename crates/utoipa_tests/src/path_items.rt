//! Path items, as their constructors and builders make them, and the operations that one takes of another.
use crate::shared::{extension, is_json, is_text, is_written, is_written_first, read, text, two};
use std::process::Abort;
use std::vec::IntoIter;
use utoipa_base::Ref;
use utoipa_leaf::path::HttpMethod;
use utoipa_leaf::server::Server;
use utoipa_operation_parts::Parameter;
use utoipa_path::methods::take_operations;
use utoipa_path::{Operation, PathItem, PathItemBuilder};

// The operation of that name.
fn operation(rt: &(impl Abort + AllocGlobal), name: &str) -> Operation {
    let builder = Operation::builder(rt.alloc());
    builder.operation_id(Some(text(rt, name))).build()
}

// Of a method it takes the later operation, and methods hold copies of one.
#[test]
fn an_item_holds_the_operations_of_its_methods(rt: HostRuntime) {
    is_written(&rt, PathItem::builder(rt.alloc()).build(), "{}");
    is_written(&rt, PathItemBuilder::new(rt.alloc()).build(), "{}");
    let item = PathItem::new(rt.alloc(), HttpMethod::Post, operation(&rt, "o"));
    is_written(&rt, item, r#"{"post":{"operationId":"o","responses":{}}}"#);
    let first = PathItem::new(rt.alloc(), HttpMethod::Head, operation(&rt, "first"));
    let builder = PathItemBuilder::from(first).query(Some(operation(&rt, "q")));
    let builder = builder.operation(HttpMethod::Head, operation(&rt, "later"));
    let later = builder.query(None).build();
    is_written(
        &rt,
        later,
        r#"{"head":{"operationId":"later","responses":{}}}"#,
    );
    let builder = Operation::builder(rt.alloc()).tag(rt.alloc(), text(&rt, "t"));
    let copied = builder.expect(&rt, "memory for a tag").build();
    let methods = two(&rt, HttpMethod::Trace, HttpMethod::Get);
    let item = PathItem::from_http_methods(rt.alloc(), methods, copied);
    let expected = r#"{"get":{"responses":{},"tags":["t"]},"trace":{"responses":{},"tags":["t"]}}"#;
    is_written(&rt, item.expect(&rt, "memory for copies"), expected);
    let none = None::<HttpMethod>.into_iter();
    let item = PathItem::from_http_methods(rt.alloc(), none, operation(&rt, "o"));
    is_written(&rt, item.expect(&rt, "an item"), "{}");
}

// The builder with an operation of that name at the method.
fn with_method(
    rt: &(impl Abort + AllocGlobal),
    builder: PathItemBuilder,
    method: HttpMethod,
    name: &str,
) -> PathItemBuilder {
    let operation = operation(rt, name);
    builder.operation(method, operation)
}

// The item with an operation at each method, named by its first letters.
fn every_method(rt: &(impl Abort + AllocGlobal)) -> PathItem {
    let queried = operation(rt, "q");
    let builder = PathItem::builder(rt.alloc()).query(Some(queried));
    let builder = with_method(rt, builder, HttpMethod::Get, "g");
    let builder = with_method(rt, builder, HttpMethod::Post, "po");
    let builder = with_method(rt, builder, HttpMethod::Put, "pu");
    let builder = with_method(rt, builder, HttpMethod::Delete, "d");
    let builder = with_method(rt, builder, HttpMethod::Options, "o");
    let builder = with_method(rt, builder, HttpMethod::Head, "h");
    let builder = with_method(rt, builder, HttpMethod::Patch, "pa");
    with_method(rt, builder, HttpMethod::Trace, "t").build()
}

// The operation of the method has that name.
fn stands_at(rt: &impl Abort, item: &PathItem, method: HttpMethod, name: &str) {
    match item.operation(method) {
        Some(operation) => match &operation.operation_id {
            Some(found) => is_text(rt, found.as_str(), name),
            None => is_text(rt, "no name", name),
        },
        None => is_text(rt, "none", name),
    }
}

// Each method has the operation that it was given.
fn each_stands(rt: &impl Abort, item: &PathItem) {
    stands_at(rt, item, HttpMethod::Get, "g");
    stands_at(rt, item, HttpMethod::Post, "po");
    stands_at(rt, item, HttpMethod::Put, "pu");
    stands_at(rt, item, HttpMethod::Delete, "d");
    stands_at(rt, item, HttpMethod::Options, "o");
    stands_at(rt, item, HttpMethod::Head, "h");
    stands_at(rt, item, HttpMethod::Patch, "pa");
    stands_at(rt, item, HttpMethod::Trace, "t");
}

// There its operation is found.
#[test]
fn each_method_has_its_member(rt: HostRuntime) {
    let item = every_method(&rt);
    each_stands(&rt, &item);
    let expected =
        r#"{"delete":{"operationId":"d","responses":{}},"get":{"operationId":"g","responses":{}},"head":{"operationId":"h","responses":{}},"options":{"operationId":"o","responses":{}},"patch":{"operationId":"pa","responses":{}},"post":{"operationId":"po","responses":{}},"put":{"operationId":"pu","responses":{}},"query":{"operationId":"q","responses":{}},"trace":{"operationId":"t","responses":{}}}"#;
    is_json(&rt, &item, expected);
    is_written(&rt, item, expected);
}

// At another member the operation of `query` is not found.
#[test]
fn a_query_is_not_found_at_get(rt: HostRuntime) {
    let queried = PathItem::builder(rt.alloc()).query(Some(operation(&rt, "q")));
    stands_at(&rt, &queried.build(), HttpMethod::Get, "none");
}

// Each setter sets its member, or that there is none.
#[test]
fn an_item_is_described(rt: HostRuntime) {
    let builder = PathItem::builder(rt.alloc()).ref_path(Some(text(&rt, "#/p")));
    let builder = builder.summary(Some(text(&rt, "s")));
    let builder = builder.description(Some(text(&rt, "d")));
    let set = two(
        &rt,
        Server::new(text(&rt, "v")),
        Server::new(text(&rt, "u")),
    );
    let builder = builder.servers(rt.alloc(), Some(set));
    let builder = builder.expect(&rt, "memory for servers");
    let item = PathItem::from(builder.extensions(extension(&rt)));
    let all =
        r##"{"$ref":"#/p","description":"d","servers":[{"url":"v"},{"url":"u"}],"summary":"s","x-a":1}"##;
    is_written_first(&rt, &item, all);
    let none = None::<IntoIter<Server>>;
    let moved = PathItemBuilder::from(item).servers(rt.alloc(), none);
    let moved = moved.expect(&rt, "a builder").ref_path(None);
    let left = r#"{"description":"d","summary":"s","x-a":1}"#;
    is_written(&rt, moved.build(), left);
}

// The builder of an item with this parameter, in place of all others.
fn with_parameter(
    rt: &(impl Abort + AllocGlobal),
    builder: PathItemBuilder,
    name: &str,
) -> PathItemBuilder {
    let given = Some(Parameter::new(rt.alloc(), text(rt, name))).into_iter();
    let set = builder.parameters(rt.alloc(), Some(given));
    set.expect(rt, "memory for a parameter")
}

// In place of those that stand.
#[test]
fn parameters_are_set_by_themselves_or_by_reference(rt: HostRuntime) {
    let builder = with_parameter(&rt, PathItem::builder(rt.alloc()), "p");
    let item = with_parameter(&rt, builder, "q").build();
    let expected = r#"{"parameters":[{"in":"path","name":"q","required":true}]}"#;
    is_written_first(&rt, &item, expected);
    let given = two(
        &rt,
        Ref::new(rt.alloc(), text(&rt, "#/b")),
        Ref::new(rt.alloc(), text(&rt, "#/a")),
    );
    let builder = PathItemBuilder::from(item).parameter_refs(rt.alloc(), Some(given));
    let item = builder.expect(&rt, "memory for references").build();
    let expected = r##"{"parameters":[{"$ref":"#/b"},{"$ref":"#/a"}]}"##;
    is_written_first(&rt, &item, expected);
    let none = None::<IntoIter<Parameter>>;
    let builder = PathItemBuilder::from(item).parameters(rt.alloc(), none);
    is_written(&rt, builder.expect(&rt, "a builder").build(), "{}");
    let builder = with_parameter(&rt, PathItem::builder(rt.alloc()), "p");
    let builder = builder.parameter_refs(rt.alloc(), None::<IntoIter<Ref>>);
    is_written(&rt, builder.expect(&rt, "a builder").build(), "{}");
}

// Of one name the later stands.
#[test]
fn additional_operations_stand_by_the_names_of_their_methods(rt: HostRuntime) {
    let builder = PathItem::builder(rt.alloc());
    let builder = builder.additional_operation(text(&rt, "COPY"), operation(&rt, "first"));
    let builder = builder.expect(&rt, "memory for an operation");
    let given = two(
        &rt,
        (text(&rt, "get"), operation(&rt, "g")),
        (text(&rt, "COPY"), operation(&rt, "later")),
    );
    let builder = builder.additional_operations(given);
    let item = builder.expect(&rt, "memory for operations").build();
    // A method that has a member of its own may be named here too.
    let expected =
        r#"{"additionalOperations":{"COPY":{"operationId":"later","responses":{}},"get":{"operationId":"g","responses":{}}}}"#;
    stands_at(&rt, &item, HttpMethod::Get, "none");
    is_json(&rt, &item, expected);
    is_written(&rt, item, expected);
}

// All else stays, and of the other item nothing else is taken.
#[test]
fn operations_are_taken_in_place_of_earlier_ones(rt: HostRuntime) {
    let mut item: PathItem = read(
        &rt,
        r#"{"get":{"responses":{},"summary":"1"},"post":{"responses":{}},"summary":"own"}"#,
    );
    let other: PathItem = read(
        &rt,
        r#"{"additionalOperations":{"COPY":{"responses":{}}},"get":{"responses":{},"summary":"2"},"put":{"responses":{}},"query":{"responses":{}},"summary":"other","x-a":1}"#,
    );
    take_operations(&mut item, rt.alloc(), other);
    is_written(
        &rt,
        item,
        r#"{"get":{"responses":{},"summary":"2"},"post":{"responses":{}},"put":{"responses":{}},"summary":"own"}"#,
    );
}
