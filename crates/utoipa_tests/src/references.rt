//! References: from names, by the builder, and in the place of a value.
use crate::shared::{is_flag, is_text, is_written, is_written_first, text};
use serde_json::Value;
use std::process::Abort;
use utoipa_base::{ReadFault, Ref, RefBuilder, RefOr};

// What stands where a value could.
fn place(reference: Ref) -> RefOr<Value> {
    RefOr::from(reference)
}

// From locations and from names; a reference and its builder stand in the place of a value.
#[test]
fn references_are_made_and_stand_in_the_place_of_a_value(rt: HostRuntime) {
    is_written(
        &rt,
        Ref::new(rt.alloc(), text(&rt, "#/a")),
        "{\"$ref\":\"#/a\"}",
    );
    let schema = Ref::from_schema_name(rt.alloc(), "A").expect(&rt, "memory for a reference");
    is_written(&rt, place(schema), "{\"$ref\":\"#/components/schemas/A\"}");
    let response = Ref::from_response_name(rt.alloc(), "A").expect(&rt, "memory for a reference");
    is_written(&rt, response, "{\"$ref\":\"#/components/responses/A\"}");
    is_written(&rt, RefBuilder::new(rt.alloc()).build(), "{\"$ref\":\"\"}");
    let builder = RefBuilder::new(rt.alloc()).ref_location(text(&rt, "#/a"));
    let place: RefOr<Value> = RefOr::from(builder);
    is_written(&rt, place, "{\"$ref\":\"#/a\"}");
}

// By its type and by what it says.
#[test]
fn what_the_parser_refuses_is_no_text(rt: HostRuntime) {
    let refusal = Value::from_str(rt.alloc(), "[1,").expect_err(&rt, "a refusal");
    let fault = ReadFault::from(refusal);
    is_flag(&rt, fault == ReadFault::Text, true);
    let copy = fault;
    is_flag(&rt, copy == ReadFault::Missing("openapi"), false);
    let told = format!(in rt.alloc(); "{fault}").expect(&rt, "what is told");
    is_text(&rt, told.as_str(), "no JSON text");
}

// A builder with a location.
fn begun(rt: &(impl Abort + AllocGlobal)) -> RefBuilder {
    let named = Ref::builder(rt.alloc()).ref_location_from_schema_name(rt.alloc(), "A");
    named.expect(rt, "memory for a location")
}

// And goes on from a reference.
#[test]
fn a_builder_sets_every_member(rt: HostRuntime) {
    let built = begun(&rt)
        .description(rt.alloc(), Some(text(&rt, "d")))
        .summary(text(&rt, "s"))
        .read_only(true)
        .write_only(false)
        .default(Some(Value::from(1u64)))
        .title(Some(text(&rt, "t")))
        .build();
    let all =
        "{\"$ref\":\"#/components/schemas/A\",\"default\":1,\"description\":\"d\",\"readOnly\":true,\"summary\":\"s\",\"title\":\"t\",\"writeOnly\":false}";
    is_written_first(&rt, &built, all);
    let moved = RefBuilder::from(built)
        .ref_location(text(&rt, "#/b"))
        .description(rt.alloc(), None)
        .default(None)
        .title(None);
    let left = "{\"$ref\":\"#/b\",\"readOnly\":true,\"summary\":\"s\",\"writeOnly\":false}";
    is_written(&rt, Ref::from(moved), left);
}
