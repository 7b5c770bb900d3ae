//! Documents merged and nested, where it takes code: documents with fractions, which no text reads as, calls that take documents and
//! answer one, composers of paths that hold something, and what faults say.
use crate::shared::{extension_of, is_text, is_written, read, text, two};
use serde_json::Value;
use std::alloc::{AllocError, AllocFailed};
use std::cell::Cell;
use std::process::Abort;
use std::vec::IntoIter;
use utoipa::Tree;
use utoipa::openapi::path::{PathItem, PathItemBuilder};
use utoipa::openapi::{
    Bracketing, Info, MergeFault, OpenApi, OpenApiBuilder, PathsBuilder, Server, Tag, merge_all,
    merge_tree,
};

const FIRST: &str =
    r#"{"info":{"title":"a","version":"1"},"openapi":"3.1.0","paths":{"/a":{"summary":"1"}}}"#;

const SECOND: &str =
    r#"{"info":{"title":"b","version":"1"},"openapi":"3.1.0","paths":{"/a":{"get":{"responses":{}}}}}"#;

const FRACTION: &str = "a number in a server or a tag is neither an i64 nor a u64";

// The fault has the text.
fn is_said(rt: &(impl Abort + AllocGlobal), fault: MergeFault, expected: &str) {
    let told = format!(in rt.alloc(); "{fault}");
    is_text(rt, told.expect(rt, "memory for a text").as_str(), expected);
}

// The call was refused, by a fault that has the text.
fn is_refused<T: Drop>(
    rt: &(impl Abort + AllocGlobal),
    outcome: Result<T, MergeFault>,
    expected: &str,
) {
    match outcome {
        Ok(_) => is_text(rt, "no fault", expected),
        Err(fault) => is_said(rt, fault, expected),
    }
}

// The document is written as the text, which may have a fraction: such a text is compared with another of the same document alone.
fn is_json(rt: &(impl Abort + AllocGlobal), document: &OpenApi, expected: &str) {
    let written = document.to_json(rt.alloc());
    is_text(
        rt,
        written.expect(rt, "memory for a text").as_str(),
        expected,
    );
}

// A copy of the document.
fn copied(rt: &(impl Abort + AllocGlobal), document: &OpenApi) -> OpenApi {
    let copy = document.try_clone(rt.alloc());
    copy.expect(rt, "memory for a copy")
}

// Copies of both.
fn both(rt: &(impl Abort + AllocGlobal), first: &OpenApi, second: &OpenApi) -> Vec<OpenApi> {
    let both = Vec::from_array(rt.alloc(), [copied(rt, first), copied(rt, second)]);
    both.expect(rt, "memory for documents")
}

// Copies of both, as two leaves in brackets.
fn joined(rt: &(impl Abort + AllocGlobal), first: &OpenApi, second: &OpenApi) -> Bracketing {
    let left = Box::new(rt.alloc(), Bracketing::Leaf(copied(rt, first)));
    let right = Box::new(rt.alloc(), Bracketing::Leaf(copied(rt, second)));
    Bracketing::Join(
        left.expect(rt, "memory for a leaf"),
        right.expect(rt, "memory for a leaf"),
    )
}

// A server, and behind it one that holds a fraction.
fn servers(rt: &(impl Abort + AllocGlobal)) -> IntoIter<Server> {
    let mut holding = Server::new(text(rt, "u"));
    holding.extensions = extension_of(rt, Value::from(0.5));
    two(rt, Server::new(text(rt, "u")), holding)
}

// The document of the text with these servers.
fn with_servers(rt: &(impl Abort + AllocGlobal), json: &str) -> OpenApi {
    let builder = OpenApiBuilder::from(read::<OpenApi>(rt, json));
    let builder = builder.servers(rt.alloc(), Some(servers(rt)));
    builder.expect(rt, "memory for servers").build()
}

// The document of the text with a tag, and behind it one that holds a fraction.
fn with_tags(rt: &(impl Abort + AllocGlobal), json: &str) -> OpenApi {
    let builder = Tag::builder(rt.alloc()).name(text(rt, "g"));
    let holding = builder
        .extensions(extension_of(rt, Value::from(1.5)))
        .build();
    let tags = two(rt, read(rt, r#"{"name":"g"}"#), holding);
    let builder = OpenApiBuilder::from(read::<OpenApi>(rt, json));
    let builder = builder.tags(rt.alloc(), Some(tags));
    builder.expect(rt, "memory for tags").build()
}

// Each call that merges the two is refused for a fraction, and a document that the other was to be merged into is what it was.
fn hold_a_fraction(rt: &(impl Abort + AllocGlobal), first: &OpenApi, second: &OpenApi) {
    let before = first.to_json(rt.alloc()).expect(rt, "memory for a text");
    let mut own = copied(rt, first);
    is_refused(rt, own.merge(rt.alloc(), copied(rt, second)), FRACTION);
    is_json(rt, &own, before.as_str());
    let merged = own.merge_from(rt.alloc(), copied(rt, second));
    is_refused(rt, merged, FRACTION);
    is_refused(rt, merge_all(rt.alloc(), both(rt, first, second)), FRACTION);
    is_refused(
        rt,
        merge_tree(rt.alloc(), joined(rt, first, second)),
        FRACTION,
    );
    let nested = copied(rt, first).nest(rt.alloc(), "/v1", copied(rt, second));
    is_refused(rt, nested, FRACTION);
}

// In either of two documents.
#[test]
fn a_fraction_in_a_server_or_a_tag_is_refused(rt: HostRuntime) {
    let first = read::<OpenApi>(&rt, FIRST);
    let second = read::<OpenApi>(&rt, SECOND);
    hold_a_fraction(&rt, &with_servers(&rt, FIRST), &second);
    hold_a_fraction(&rt, &with_tags(&rt, FIRST), &second);
    hold_a_fraction(&rt, &first, &with_servers(&rt, SECOND));
    hold_a_fraction(&rt, &first, &with_tags(&rt, SECOND));
}

// Nothing is compared there.
#[test]
fn a_document_alone_keeps_its_fraction(rt: HostRuntime) {
    let document = with_servers(&rt, FIRST);
    let written = document.to_json(rt.alloc());
    let written = written.expect(&rt, "memory for a text");
    let leaf = merge_tree(rt.alloc(), Bracketing::Leaf(copied(&rt, &document)));
    is_json(&rt, &leaf.expect(&rt, "a document"), written.as_str());
    let alone = Vec::from_array(rt.alloc(), [document]);
    let merged = merge_all(rt.alloc(), alone.expect(&rt, "memory for a document"));
    let merged = merged.expect(&rt, "no fault").expect(&rt, "a document");
    is_json(&rt, &merged, written.as_str());
}

// The second document with fractions where merging compares nothing: in its extensions, in those of its info, and in a server of a path
// that the first document has.
fn with_others(rt: &(impl Abort + AllocGlobal)) -> OpenApi {
    let item = PathItemBuilder::from(read::<PathItem>(rt, r#"{"get":{"responses":{}}}"#));
    let item = item.servers(rt.alloc(), Some(servers(rt)));
    let item = item.expect(rt, "memory for servers").build();
    let paths = PathsBuilder::new(rt.alloc()).path(rt.alloc(), text(rt, "/a"), item);
    let paths = paths.expect(rt, "memory for a path").build();
    let mut info = Info::new(text(rt, "b"), text(rt, "1"));
    info.extensions = extension_of(rt, Value::from(0.5));
    let mut document = OpenApi::new(rt.alloc(), info, paths);
    document.extensions = extension_of(rt, Value::from(1.5));
    document
}

// So the calls that merge two documents merge these.
#[test]
fn a_fraction_elsewhere_is_not_looked_for(rt: HostRuntime) {
    let first = read::<OpenApi>(&rt, FIRST);
    let second = with_others(&rt);
    let expected =
        r#"{"info":{"title":"a","version":"1"},"openapi":"3.1.0","paths":{"/a":{"get":{"responses":{}},"summary":"1"}}}"#;
    let mut own = copied(&rt, &first);
    let merged = own.merge(rt.alloc(), copied(&rt, &second));
    merged.expect(&rt, "no fault");
    is_written(&rt, own, expected);
    let merged = merge_all(rt.alloc(), both(&rt, &first, &second));
    let merged = merged.expect(&rt, "no fault").expect(&rt, "a document");
    is_written(&rt, merged, expected);
    let merged = merge_tree(rt.alloc(), joined(&rt, &first, &second));
    is_written(&rt, merged.expect(&rt, "no fault"), expected);
    // The item that is nested keeps its servers, and so the fraction.
    let nested = first.nest(rt.alloc(), "/v1", second);
    drop(nested.expect(&rt, "no fault"));
}

const NESTED: &str =
    r#"{"info":{"title":"b","version":"1"},"openapi":"3.1.0","paths":{"/b":{"summary":"2"},"/a":{"summary":"2"},"/C":{"summary":"2"}}}"#;

// It tells by a number at how many calls it is.
#[test]
fn a_composer_is_asked_in_the_order_of_the_paths(rt: HostRuntime) {
    let alloc = rt.alloc();
    let asked = Cell::new(0u64);
    let numbered = |base: &str, path: &str| {
        asked.set(asked.get().wrapping_add(1));
        let number = asked.get();
        format!(in alloc; "{base}/{number}{path}")
    };
    let document = read::<OpenApi>(&rt, FIRST);
    let nested = read::<OpenApi>(&rt, NESTED);
    let nested = document.nest_with_path_composer(alloc, "/v1", nested, numbered);
    is_written(
        &rt,
        nested.expect(&rt, "a document"),
        r#"{"info":{"title":"a","version":"1"},"openapi":"3.1.0","paths":{"/a":{"summary":"1"},"/v1/1/C":{"summary":"2"},"/v1/2/a":{"summary":"2"},"/v1/3/b":{"summary":"2"}}}"#,
    );
}

// The document with another nested into it, by a composer that refuses the path `/a` and counts in the cell how often it is asked.
fn nested_but_one(
    rt: &impl AllocGlobal,
    asked: &Cell<u64>,
    document: OpenApi,
    other: OpenApi,
) -> Result<OpenApi, MergeFault> {
    let alloc = rt.alloc();
    let refusing = |_base: &str, path: &str| {
        asked.set(asked.get().wrapping_add(1));
        if path == "/a" {
            Err(AllocError)
        } else {
            String::from_str(alloc, path)
        }
    };
    document.nest_with_path_composer(alloc, "/v1", other, refusing)
}

// No path behind that is asked for.
#[test]
fn a_composer_is_asked_until_it_refuses(rt: HostRuntime) {
    let asked = Cell::new(0u64);
    let first = read::<OpenApi>(&rt, FIRST);
    let other = read::<OpenApi>(&rt, NESTED);
    let nested = nested_but_one(&rt, &asked, copied(&rt, &first), copied(&rt, &other));
    is_refused(&rt, nested, "a path was refused");
    assert_eq!(&rt; asked.get(), 2);
    // It is asked for nothing where there is a fraction, in the one document or the other.
    let nested = nested_but_one(&rt, &asked, with_servers(&rt, FIRST), other);
    is_refused(&rt, nested, FRACTION);
    let nested = nested_but_one(&rt, &asked, first, with_tags(&rt, NESTED));
    is_refused(&rt, nested, FRACTION);
    assert_eq!(&rt; asked.get(), 2);
}

// A document with these paths, of which nothing else is said.
fn of_paths(rt: &(impl Abort + AllocGlobal), json: &str) -> OpenApi {
    let info = Info::new(text(rt, "t"), text(rt, "1"));
    OpenApi::new(rt.alloc(), info, read(rt, json))
}

// By either of two brackets.
#[test]
fn a_merged_document_is_merged_on(rt: HostRuntime) {
    let first = of_paths(&rt, r#"{"/a":{}}"#);
    let second = of_paths(&rt, r#"{"x-team":"b"}"#);
    let third = of_paths(&rt, r#"{"/c":{}}"#);
    let all =
        r#"{"info":{"title":"t","version":"1"},"openapi":"3.1.0","paths":{"/a":{},"/c":{},"x-team":"b"}}"#;
    let merged = copied(&rt, &first).merge_from(rt.alloc(), copied(&rt, &second));
    let merged = merged.expect(&rt, "a document");
    let merged = merged.merge_from(rt.alloc(), copied(&rt, &third));
    is_written(&rt, merged.expect(&rt, "a document"), all);
    let merged = second.merge_from(rt.alloc(), third);
    let merged = first.merge_from(rt.alloc(), merged.expect(&rt, "a document"));
    is_written(&rt, merged.expect(&rt, "a document"), all);
}

// Also one that is made of a refusal of memory.
#[test]
fn a_fault_of_merging_says_why(rt: HostRuntime) {
    is_said(&rt, MergeFault::from(AllocError), "out of memory");
    let failed = AllocFailed { value: 1u64 };
    is_said(&rt, MergeFault::from(failed), "out of memory");
    is_said(&rt, MergeFault::Fraction, FRACTION);
    is_said(&rt, MergeFault::Composer, "a path was refused");
}
