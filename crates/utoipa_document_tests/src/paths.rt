//! Paths, as they are built, and what is found in them.
use crate::shared::{extension, is_text, is_written, is_written_first, text};
use std::process::Abort;
use utoipa::openapi::path::{HttpMethod, Operation, PathItem, Paths, PathsBuilder};

// The operation of that name.
fn operation(rt: &(impl Abort + AllocGlobal), name: &str) -> Operation {
    let builder = Operation::builder(rt.alloc());
    builder.operation_id(Some(text(rt, name))).build()
}

// The builder with an item of one operation more.
fn with_path(
    rt: &(impl Abort + AllocGlobal),
    builder: PathsBuilder,
    path: &str,
    method: HttpMethod,
    name: &str,
) -> PathsBuilder {
    let item = PathItem::new(rt.alloc(), method, operation(rt, name));
    let built = builder.path(rt.alloc(), text(rt, path), item);
    built.expect(rt, "memory for a path")
}

// An operation that stands stays, and a builder goes on from paths.
#[test]
fn operations_of_one_path_stand_in_one_item(rt: HostRuntime) {
    is_written(&rt, Paths::new(rt.alloc()), "{}");
    is_written(&rt, PathsBuilder::new(rt.alloc()).build(), "{}");
    let paths = Paths::builder(rt.alloc());
    let paths = with_path(&rt, paths, "/todo", HttpMethod::Get, "list");
    let paths = with_path(&rt, paths, "/todo", HttpMethod::Post, "add");
    let paths = with_path(&rt, paths, "/todo/{id}", HttpMethod::Delete, "remove");
    let paths = with_path(&rt, paths, "/todo/{id}", HttpMethod::Get, "find");
    let paths = with_path(&rt, paths, "/todo/{id}", HttpMethod::Put, "change");
    let paths = with_path(&rt, paths, "/todo/search", HttpMethod::Get, "search");
    let paths = with_path(&rt, paths, "/todo", HttpMethod::Get, "given up").build();
    is_written_first(
        &rt,
        &paths,
        r#"{"/todo":{"get":{"operationId":"list","responses":{}},"post":{"operationId":"add","responses":{}}},"/todo/search":{"get":{"operationId":"search","responses":{}}},"/todo/{id}":{"delete":{"operationId":"remove","responses":{}},"get":{"operationId":"find","responses":{}},"put":{"operationId":"change","responses":{}}}}"#,
    );
    let builder = PathsBuilder::from(paths).extensions(extension(&rt));
    is_written(
        &rt,
        Paths::from(builder),
        r#"{"/todo":{"get":{"operationId":"list","responses":{}},"post":{"operationId":"add","responses":{}}},"/todo/search":{"get":{"operationId":"search","responses":{}}},"/todo/{id}":{"delete":{"operationId":"remove","responses":{}},"get":{"operationId":"find","responses":{}},"put":{"operationId":"change","responses":{}}},"x-a":1}"#,
    );
}

// The operation at the path and method has that name; `none` where there is none.
fn stands_at(rt: &impl Abort, paths: &Paths, path: &str, method: HttpMethod, name: &str) {
    match paths.get_path_operation(path, method) {
        Some(operation) => match &operation.operation_id {
            Some(found) => is_text(rt, found.as_str(), name),
            None => is_text(rt, "no name", name),
        },
        None => is_text(rt, "none", name),
    }
}

// By the path, and by the path and the method.
#[test]
fn items_and_operations_are_found(rt: HostRuntime) {
    let paths = with_path(
        &rt,
        Paths::builder(rt.alloc()),
        "/a",
        HttpMethod::Patch,
        "p",
    );
    let paths = paths.build();
    stands_at(&rt, &paths, "/a", HttpMethod::Patch, "p");
    stands_at(&rt, &paths, "/a", HttpMethod::Get, "none");
    stands_at(&rt, &paths, "/b", HttpMethod::Patch, "none");
    match paths.get_path_item("/a") {
        Some(item) => is_written_first(
            &rt,
            item,
            r#"{"patch":{"operationId":"p","responses":{}}}"#,
        ),
        None => is_text(&rt, "none", "an item"),
    }
    assert!(&rt; paths.get_path_item("/b").is_none());
}
