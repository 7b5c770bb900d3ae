//! Forms in XML by their builder, and compared.
use crate::shared::{is_flag, is_written, is_written_first, text};
use std::process::Abort;
use utoipa_schema_parts::xml::{Xml, XmlBuilder, equal_as_documents};

// It is written with what was set alone.
#[test]
fn each_setter_of_an_xml_sets_its_field(rt: HostRuntime) {
    is_written(&rt, Xml::new(), "{}");
    is_written(&rt, Xml::default(), "{}");
    is_written(&rt, XmlBuilder::default().build(), "{}");
    let xml = XmlBuilder::new()
        .name(Some(text(&rt, "animal")))
        .node_type(Some(text(&rt, "element")))
        .build();
    is_written(&rt, xml, "{\"name\":\"animal\",\"nodeType\":\"element\"}");
    let xml = Xml::builder()
        .name(Some(text(&rt, "n")))
        .namespace(Some(text(&rt, "s")))
        .prefix(Some(text(&rt, "p")))
        .node_type(Some(text(&rt, "t")))
        .attribute(Some(true))
        .wrapped(Some(false))
        .build();
    let all =
        "{\"attribute\":true,\"name\":\"n\",\"namespace\":\"s\",\"nodeType\":\"t\",\"prefix\":\"p\",\"wrapped\":false}";
    is_written_first(&rt, &xml, all);
    let bare = Xml::from(XmlBuilder::from(xml).wrapped(None).attribute(None));
    let left = "{\"name\":\"n\",\"namespace\":\"s\",\"nodeType\":\"t\",\"prefix\":\"p\"}";
    is_written(&rt, bare, left);
}

// The form of an element of that name.
fn named(rt: &(impl Abort + AllocGlobal), name: &str) -> Xml {
    Xml::builder().name(Some(text(rt, name))).build()
}

// The form of an element with that prefix.
fn prefixed(rt: &(impl Abort + AllocGlobal), prefix: &str) -> Xml {
    Xml::builder().prefix(Some(text(rt, prefix))).build()
}

// Whether both are equal, which is that they are one document.
fn are_equal(left: Xml, right: Xml) -> bool {
    equal_as_documents(&left, &right);
    left == right
}

// One field is not taken for another.
#[test]
fn xmls_are_compared_field_by_field(rt: HostRuntime) {
    is_flag(&rt, are_equal(named(&rt, "n"), named(&rt, "n")), true);
    is_flag(&rt, are_equal(named(&rt, "n"), prefixed(&rt, "n")), false);
    is_flag(&rt, are_equal(prefixed(&rt, "n"), Xml::new()), false);
}
