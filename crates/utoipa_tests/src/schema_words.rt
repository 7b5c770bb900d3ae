//! What the words of schemas are made by.
use crate::shared::{is_text, is_written, read, text};
use std::process::Abort;
use utoipa_base::{Tree, Word};
use utoipa_schema_parts::{Discriminator, KnownFormat, SchemaFormat, SchemaType, TypeWord};

// That the value has the word, and no other value does.
fn stands_for<W: Word + PartialEq>(rt: &impl Abort, value: W, word: &str) {
    is_text(rt, value.as_text(), word);
    assert!(rt; W::from_text(word) == Some(value), "{word}");
}

// Each type has its word.
#[test]
fn types_are_made_of_words(rt: HostRuntime) {
    for (value, word) in [
        (TypeWord::Object, "object"),
        (TypeWord::String, "string"),
        (TypeWord::Integer, "integer"),
        (TypeWord::Number, "number"),
        (TypeWord::Boolean, "boolean"),
        (TypeWord::Array, "array"),
        (TypeWord::Null, "null"),
    ] {
        stands_for(&rt, value, word);
    }
    let single = SchemaType::new(TypeWord::Integer);
    assert!(rt; !single.is_any_value());
    assert!(rt; single != SchemaType::any());
    assert!(rt; single != SchemaType::new(TypeWord::String));
    assert_eq!(rt; single, SchemaType::from(TypeWord::Integer));
    assert!(rt; SchemaType::any().is_any_value());
    assert_eq!(rt; SchemaType::default(), SchemaType::new(TypeWord::Object));
    assert_eq!(rt; TypeWord::default(), TypeWord::Object);
    let words = [TypeWord::String, TypeWord::Null];
    let types = SchemaType::from_types(rt.alloc(), words.iter().copied());
    let types = types.expect(&rt, "two types");
    assert_eq!(rt; types, read::<SchemaType>(&rt, r#"["string","null"]"#));
    is_written(&rt, types, r#"["string","null"]"#);
    let types = words.iter().copied().collect::<SchemaType>(rt.alloc());
    is_written(&rt, types.expect(&rt, "two types"), r#"["string","null"]"#);
    is_written(&rt, SchemaType::any(), "null");
}

// What the format is read as, once it has been written.
fn read_back(rt: &(impl Abort + AllocGlobal), format: SchemaFormat) -> SchemaFormat {
    let tree = format.to_value(rt.alloc()).expect(rt, "what is written");
    SchemaFormat::from_value(rt.alloc(), &tree).expect(rt, "a format")
}

// A custom format of such a word reads back as known.
#[test]
fn each_known_format_has_its_word(rt: HostRuntime) {
    for (value, word) in [
        (KnownFormat::Int32, "int32"),
        (KnownFormat::Int64, "int64"),
        (KnownFormat::Float, "float"),
        (KnownFormat::Double, "double"),
        (KnownFormat::Byte, "byte"),
        (KnownFormat::Binary, "binary"),
        (KnownFormat::Time, "time"),
        (KnownFormat::Date, "date"),
        (KnownFormat::DateTime, "date-time"),
        (KnownFormat::Duration, "duration"),
        (KnownFormat::Password, "password"),
        (KnownFormat::Email, "email"),
        (KnownFormat::IdnEmail, "idn-email"),
        (KnownFormat::Hostname, "hostname"),
        (KnownFormat::IdnHostname, "idn-hostname"),
        (KnownFormat::Ipv4, "ipv4"),
        (KnownFormat::Ipv6, "ipv6"),
        (KnownFormat::UriTemplate, "uri-template"),
        (KnownFormat::JsonPointer, "json-pointer"),
        (KnownFormat::RelativeJsonPointer, "relative-json-pointer"),
        (KnownFormat::Regex, "regex"),
    ] {
        stands_for(&rt, value, word);
    }
    let int32 = read_back(&rt, SchemaFormat::Custom(text(&rt, "int32")));
    assert_eq!(rt; int32, SchemaFormat::KnownFormat(KnownFormat::Int32));
    let uuid = read_back(&rt, SchemaFormat::Custom(text(&rt, "uuid")));
    assert_eq!(rt; uuid, SchemaFormat::Custom(text(&rt, "uuid")));
}

// Of one name the later mapping stands.
#[test]
fn a_discriminator_is_built(rt: HostRuntime) {
    let alloc = rt.alloc();
    let plain = Discriminator::new(alloc, text(&rt, "type"));
    is_written(&rt, plain, r#"{"propertyName":"type"}"#);
    let mut pairs = Vec::new(alloc);
    let earlier = (text(&rt, "int"), text(&rt, "Other"));
    pairs.push(earlier).expect(&rt, "a pair");
    let later = (text(&rt, "int"), text(&rt, "#/components/schemas/MyInt"));
    pairs.push(later).expect(&rt, "a later pair");
    let mapped = Discriminator::with_mapping(alloc, text(&rt, "type"), pairs.into_iter());
    is_written(
        &rt,
        mapped.expect(&rt, "a mapping"),
        r##"{"mapping":{"int":"#/components/schemas/MyInt"},"propertyName":"type"}"##,
    );
}
