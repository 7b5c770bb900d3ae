//! Infos, contacts and licenses by their constructors and builders.
use crate::shared::{extension, is_written, text};
use std::process::Abort;
use utoipa_leaf::info::{Contact, ContactBuilder, Info, InfoBuilder, License, LicenseBuilder};

// A contact with all its members.
fn whole_contact(rt: &(impl Abort + AllocGlobal)) -> Contact {
    Contact::builder()
        .name(Some(text(rt, "n")))
        .url(Some(text(rt, "u")))
        .email(Some(text(rt, "e")))
        .extensions(extension(rt))
        .build()
}

// A license with all its members.
fn whole_license(rt: &(impl Abort + AllocGlobal)) -> License {
    License::builder(rt.alloc())
        .name(text(rt, "n"))
        .url(Some(text(rt, "u")))
        .identifier(Some(text(rt, "i")))
        .extensions(extension(rt))
        .build()
}

// And those of its contact and its license set theirs.
#[test]
fn each_setter_of_an_info_sets_its_field(rt: HostRuntime) {
    let info = Info::builder(rt.alloc())
        .title(text(&rt, "t"))
        .description(Some(text(&rt, "d")))
        .terms_of_service(Some(text(&rt, "s")))
        .contact(Some(whole_contact(&rt)))
        .license(Some(whole_license(&rt)))
        .version(text(&rt, "v"))
        .extensions(extension(&rt))
        .build();
    is_written(
        &rt,
        info,
        "{\"contact\":{\"email\":\"e\",\"name\":\"n\",\"url\":\"u\",\"x-a\":1},\"description\":\"d\",\"license\":{\"identifier\":\"i\",\"name\":\"n\",\"url\":\"u\",\"x-a\":1},\"termsOfService\":\"s\",\"title\":\"t\",\"version\":\"v\",\"x-a\":1}",
    );
}

// From nothing, or from a value.
#[test]
fn builders_go_on_from_what_they_begin_with(rt: HostRuntime) {
    let mit = LicenseBuilder::new(rt.alloc())
        .name(text(&rt, "MIT"))
        .url(Some(text(&rt, "http://mit.licence")))
        .build();
    let info = InfoBuilder::new(rt.alloc())
        .title(text(&rt, "My api"))
        .version(text(&rt, "1.0.0"))
        .description(Some(text(&rt, "My api description")))
        .license(Some(mit))
        .build();
    is_written(
        &rt,
        info,
        "{\"description\":\"My api description\",\"license\":{\"name\":\"MIT\",\"url\":\"http://mit.licence\"},\"title\":\"My api\",\"version\":\"1.0.0\"}",
    );
    let info = Info::new(text(&rt, "My api"), text(&rt, "1.0.0"));
    let info = Info::from(InfoBuilder::from(info).version(text(&rt, "2")));
    is_written(&rt, info, "{\"title\":\"My api\",\"version\":\"2\"}");
    let license = LicenseBuilder::from(License::new(text(&rt, "MIT")));
    let license = License::from(license.identifier(Some(text(&rt, "0"))));
    is_written(&rt, license, "{\"identifier\":\"0\",\"name\":\"MIT\"}");
    is_written(&rt, Contact::new(), "{}");
    is_written(&rt, Contact::default(), "{}");
    is_written(&rt, ContactBuilder::default().build(), "{}");
    let contact = ContactBuilder::from(Contact::new()).email(Some(text(&rt, "e")));
    is_written(&rt, Contact::from(contact), "{\"email\":\"e\"}");
    is_written(&rt, ContactBuilder::new().build(), "{}");
}
