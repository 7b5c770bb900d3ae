//! Which word stands for which value, what a flag is written as, and how the values are ordered.
use crate::shared::{is_flag, is_number, is_text, is_written};
use serde_json::Value;
use std::collections::HashSet;
use std::fmt::Display;
use std::process::Abort;
use utoipa_base::{Deprecated, Required, Tree, Word};
use utoipa_leaf::path::{HttpMethod, ParameterIn, ParameterStyle};
use utoipa_leaf::version::OpenApiVersion;

// The text is read as the value, and the value is written as the text and shown as it.
fn stands_for<T: Tree + PartialEq + Display>(
    rt: &(impl Abort + AllocGlobal),
    word: &str,
    value: T,
) {
    let shown = format!(in rt.alloc(); "{value}").expect(rt, "memory for a word");
    is_text(rt, shown.as_str(), word);
    let tree = Value::try_from_str(rt.alloc(), word).expect(rt, "memory for a text");
    let read = T::from_value(rt.alloc(), &tree).expect(rt, "a word");
    is_flag(rt, read == value, true);
    let copy = value.try_clone(rt.alloc()).expect(rt, "a copy");
    let written = copy.to_value(rt.alloc()).expect(rt, "memory for a tree");
    is_text(rt, written.as_str().unwrap_or("no text"), word);
}

// Those that have no default.
#[test]
fn each_method_and_each_style_stands_for_its_word(rt: HostRuntime) {
    for (word, method) in [
        ("get", HttpMethod::Get),
        ("post", HttpMethod::Post),
        ("put", HttpMethod::Put),
        ("delete", HttpMethod::Delete),
        ("options", HttpMethod::Options),
        ("head", HttpMethod::Head),
        ("patch", HttpMethod::Patch),
        ("trace", HttpMethod::Trace),
    ] {
        stands_for(&rt, word, method);
    }
    for (word, style) in [
        ("matrix", ParameterStyle::Matrix),
        ("label", ParameterStyle::Label),
        ("form", ParameterStyle::Form),
        ("simple", ParameterStyle::Simple),
        ("spaceDelimited", ParameterStyle::SpaceDelimited),
        ("pipeDelimited", ParameterStyle::PipeDelimited),
        ("deepObject", ParameterStyle::DeepObject),
        ("cookie", ParameterStyle::Cookie),
    ] {
        stands_for(&rt, word, style);
    }
}

// Those that have a default, which stands last.
#[test]
fn each_place_each_version_and_each_flag_is_written_as_it_is(rt: HostRuntime) {
    for (word, place) in [
        ("query", ParameterIn::Query),
        ("path", ParameterIn::Path),
        ("header", ParameterIn::Header),
        ("cookie", ParameterIn::Cookie),
        ("querystring", ParameterIn::QueryString),
        ("path", ParameterIn::default()),
    ] {
        stands_for(&rt, word, place);
    }
    stands_for(&rt, "3.1.0", OpenApiVersion::Version31);
    stands_for(&rt, "3.2.0", OpenApiVersion::Version32);
    stands_for(&rt, "3.1.0", OpenApiVersion::default());
    is_written(&rt, Deprecated::True, "true");
    is_written(&rt, Deprecated::False, "false");
    is_written(&rt, Deprecated::default(), "false");
    is_written(&rt, Required::True, "true");
    is_written(&rt, Required::False, "false");
    is_written(&rt, Required::default(), "false");
}

// Each once, in the order in which they are listed.
#[test]
fn all_methods_are_there(rt: HostRuntime) {
    let mut shown = String::new(rt.alloc());
    for method in HttpMethod::ALL {
        shown
            .push_str(method.as_text())
            .expect(&rt, "memory for a word");
        shown.push(' ').expect(&rt, "memory for a blank");
    }
    is_text(
        &rt,
        shown.as_str(),
        "get post put delete options head patch trace ",
    );
    is_text(&rt, OpenApiVersion::Version32.as_text(), "3.2.0");
}

// Whether the method was not in the set, in which it is then.
fn is_new(
    rt: &(impl Abort + AllocGlobal),
    methods: &mut HashSet<HttpMethod>,
    method: HttpMethod,
) -> bool {
    methods.insert(method).expect(rt, "memory for a method")
}

// The laws of the order are proved, so the neighbours show the rest. Equal methods have one place in a set.
#[test]
fn methods_are_ordered_as_they_are_listed_and_hashed_as_they_are_equal(rt: HostRuntime) {
    is_flag(&rt, HttpMethod::Get < HttpMethod::Post, true);
    is_flag(&rt, HttpMethod::Post < HttpMethod::Put, true);
    is_flag(&rt, HttpMethod::Put < HttpMethod::Delete, true);
    is_flag(&rt, HttpMethod::Delete < HttpMethod::Options, true);
    is_flag(&rt, HttpMethod::Options < HttpMethod::Head, true);
    is_flag(&rt, HttpMethod::Head < HttpMethod::Patch, true);
    is_flag(&rt, HttpMethod::Patch < HttpMethod::Trace, true);
    let mut methods = HashSet::new(rt.alloc());
    is_flag(&rt, is_new(&rt, &mut methods, HttpMethod::Get), true);
    is_flag(&rt, is_new(&rt, &mut methods, HttpMethod::Head), true);
    is_flag(&rt, is_new(&rt, &mut methods, HttpMethod::Get), false);
    is_number(&rt, methods.len() as u64, 2);
}
