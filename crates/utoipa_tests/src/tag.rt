//! Tags and external documentation by their constructors and builders.
use crate::shared::{extension, is_written, is_written_first, text};
use std::process::Abort;
use utoipa_leaf::external_docs::{ExternalDocs, ExternalDocsBuilder};
use utoipa_leaf::tag::{Tag, TagBuilder};

// The documentation at `u`.
fn docs(rt: &(impl Abort + AllocGlobal)) -> ExternalDocs {
    ExternalDocs::new(rt.alloc(), "u").expect(rt, "memory for a text")
}

// A tag of a name has its name alone.
#[test]
fn a_tag_and_its_documentation_are_built_field_by_field(rt: HostRuntime) {
    is_written(&rt, docs(&rt), "{\"description\":null,\"url\":\"u\"}");
    let built = ExternalDocs::builder(rt.alloc())
        .url(text(&rt, "https://example.com"))
        .description(Some(text(&rt, "Find more")))
        .extensions(extension(&rt))
        .build();
    let all = "{\"description\":\"Find more\",\"url\":\"https://example.com\",\"x-a\":1}";
    is_written_first(&rt, &built, all);
    let moved = ExternalDocsBuilder::from(built).extensions(None);
    let left = "{\"description\":\"Find more\",\"url\":\"https://example.com\"}";
    is_written(&rt, ExternalDocs::from(moved), left);
    let built = Tag::builder(rt.alloc())
        .name(text(&rt, "partner"))
        .summary(Some(text(&rt, "Partner")))
        .description(Some(text(&rt, "Operations available to partners")))
        .parent(Some(text(&rt, "external")))
        .kind(Some(text(&rt, "audience")))
        .external_docs(Some(docs(&rt)))
        .extensions(extension(&rt))
        .build();
    is_written(
        &rt,
        built,
        "{\"description\":\"Operations available to partners\",\"externalDocs\":{\"description\":null,\"url\":\"u\"},\"kind\":\"audience\",\"name\":\"partner\",\"parent\":\"external\",\"summary\":\"Partner\",\"x-a\":1}",
    );
    let pet = Tag::new(rt.alloc(), "pet").expect(&rt, "memory for a text");
    is_written_first(&rt, &pet, "{\"name\":\"pet\"}");
    let kept = TagBuilder::from(pet).kind(Some(text(&rt, "audience")));
    is_written(
        &rt,
        Tag::from(kept),
        "{\"kind\":\"audience\",\"name\":\"pet\"}",
    );
}
