//! Extensions: under which names they stand, which of two values stays, and where there are none.
use crate::shared::{is_flag, is_number, is_tree, text, tree, two};
use serde_json::Value;
use std::process::Abort;
use utoipa_base::{Extensions, ExtensionsBuilder, is_extension_name, read_extensions};

// The builder with a number more under that name.
fn added(
    rt: &(impl Abort + AllocGlobal),
    builder: ExtensionsBuilder,
    name: &str,
    value: u64,
) -> ExtensionsBuilder {
    let name = text(rt, name);
    let added = builder.add(rt.alloc(), name, Value::from(value));
    added.expect(rt, "memory for an extension")
}

// The first is 1 and the second 2.
fn pairs(rt: &(impl Abort + AllocGlobal), first: &str, second: &str) -> Extensions {
    let first = (text(rt, first), Value::from(1u64));
    let second = (text(rt, second), Value::from(2u64));
    let made = Extensions::from_pairs(rt.alloc(), [first, second]);
    made.expect(rt, "memory for extensions")
}

// What stands under the name, where that is a number; and 0 where nothing does.
fn number(extensions: &Extensions, name: &str) -> u64 {
    extensions.get(name).and_then(Value::as_u64).unwrap_or(0)
}

// Whether both are the same, where neither holds a fraction.
fn are_same(left: &Extensions, right: &Extensions) -> bool {
    !left.has_fraction() && !right.has_fraction() && left.same(right)
}

// A copy is the same, and both are written so.
fn are_written(rt: &(impl Abort + AllocGlobal), extensions: Extensions, json: &str) {
    let copy = extensions.try_clone(rt.alloc());
    let copy = copy.expect(rt, "memory for a copy");
    is_flag(rt, are_same(&extensions, &copy), true);
    is_tree(rt, Value::Object(extensions.into_map()), json);
    is_tree(rt, Value::Object(copy.into_map()), json);
}

// It replaces an earlier value.
#[test]
fn the_builder_adds_the_prefix(rt: HostRuntime) {
    let builder = added(&rt, Extensions::builder(rt.alloc()), "x-some-extension", 1);
    let built = added(&rt, builder, "another-extension", 2).build();
    is_number(&rt, number(&built, "x-some-extension"), 1);
    is_number(&rt, number(&built, "x-another-extension"), 2);
    is_number(&rt, built.as_map().len() as u64, 2);
    are_written(
        &rt,
        built,
        "{\"x-another-extension\":2,\"x-some-extension\":1}",
    );
    let builder = added(&rt, ExtensionsBuilder::new(rt.alloc()), "x-a", 1);
    let builder = added(&rt, added(&rt, builder, "a", 2), "X-a", 3);
    let built = Extensions::from(builder);
    is_number(&rt, number(&built, "x-a"), 2);
    is_number(&rt, number(&built, "x-X-a"), 3);
    let again = ExtensionsBuilder::from(built).build();
    is_number(&rt, again.into_map().len() as u64, 2);
}

// What an insertion answers is the earlier value, where there was one.
fn is_inserted(
    rt: &(impl Abort + AllocGlobal),
    extensions: &mut Extensions,
    name: &str,
    earlier: Option<u64>,
) {
    let answer = extensions.insert(text(rt, name), Value::from(8u64));
    let answer = answer.expect(rt, "memory for a value");
    assert_eq!(rt; answer.and_then(|value| value.as_u64()), earlier);
}

// The later value of a name stays: of pairs, of an insertion and of a merge.
#[test]
fn pairs_keep_their_names(rt: HostRuntime) {
    assert!(rt; is_extension_name("x-") && !is_extension_name("X-a") && !is_extension_name("x"));
    let apart = pairs(&rt, "x-a", "plain");
    is_number(&rt, number(&apart, "x-a"), 1);
    is_number(&rt, number(&apart, "plain"), 2);
    is_flag(&rt, apart.get("x-plain").is_none(), true);
    are_written(&rt, pairs(&rt, "x-a", "x-a"), "{\"x-a\":2}");
    let mut extensions = pairs(&rt, "x-a", "x-b");
    is_inserted(&rt, &mut extensions, "x-b", Some(2));
    is_inserted(&rt, &mut extensions, "x-d", None);
    let merged = extensions.merge(rt.alloc(), pairs(&rt, "x-c", "x-d"));
    merged.expect(&rt, "memory for a merge");
    are_written(&rt, extensions, "{\"x-a\":1,\"x-b\":8,\"x-c\":1,\"x-d\":2}");
}

// Whether no extensions are read of the tree of the text. None and those of no entry are written alike.
fn has_none(rt: &(impl Abort + AllocGlobal), json: &str) -> bool {
    let read = read_extensions(rt.alloc(), &tree(rt, json));
    read.expect(rt, "memory for extensions").is_none()
}

// And what is no object has none.
#[test]
fn there_are_none_where_no_name_is_one(rt: HostRuntime) {
    is_flag(&rt, has_none(&rt, "{}"), true);
    is_flag(&rt, has_none(&rt, "{\"a\":1,\"url\":\"u\",\"y\":1}"), true);
    is_flag(&rt, has_none(&rt, "[]"), true);
    is_flag(&rt, has_none(&rt, "{\"a\":1,\"x-a\":1}"), false);
}

// As pairs are put, so that the later value of a name stays.
#[test]
fn extensions_are_collected(rt: HostRuntime) {
    let first = (text(&rt, "x-a"), Value::from(1u64));
    let later = (text(&rt, "x-a"), Value::from(2u64));
    let made = two(&rt, first, later).collect::<Extensions>(rt.alloc());
    let made = made.expect(&rt, "memory for extensions");
    are_written(&rt, made, "{\"x-a\":2}");
}
