//! Examples by their builder.
use crate::shared::{extension, is_written, is_written_first, text};
use serde_json::Value;
use utoipa_base::RefOr;
use utoipa_leaf::example::{Example, ExampleBuilder};

// It is written with what was set alone.
#[test]
fn each_setter_of_an_example_sets_its_field(rt: HostRuntime) {
    let summed = ExampleBuilder::new(rt.alloc())
        .summary(text(&rt, "Accepted"))
        .build();
    is_written(&rt, summed, "{\"summary\":\"Accepted\"}");
    let test = Value::try_from_str(rt.alloc(), "test").expect(&rt, "memory for a text");
    let valued = Example::builder(rt.alloc()).value(Some(test)).build();
    is_written(&rt, valued, "{\"value\":\"test\"}");
    let example = Example::builder(rt.alloc())
        .summary(text(&rt, "s"))
        .description(text(&rt, "d"))
        .value(Some(Value::from(2u64)))
        .external_value(text(&rt, "e"))
        .extensions(extension(&rt))
        .build();
    let all =
        "{\"description\":\"d\",\"externalValue\":\"e\",\"summary\":\"s\",\"value\":2,\"x-a\":1}";
    is_written_first(&rt, &example, all);
    let bare = ExampleBuilder::from(example).value(None).extensions(None);
    let left = "{\"description\":\"d\",\"externalValue\":\"e\",\"summary\":\"s\"}";
    is_written(&rt, RefOr::from(Example::from(bare)), left);
}
