//! The call that tells where a text is refused.

use std::alloc::{AllocError, Global};
use utoipa_base::Tree;
use utoipa_check::from_json_located;
use utoipa_leaf::external_docs::ExternalDocs;
use utoipa_leaf::info::{Contact, Info, License};
use utoipa_leaf::server::Server;
use utoipa_leaf::tag::Tag;
use utoipa_tables::{Kind, ObjectType};

/// `read` where a text is a document of a type, else the fault with its place.
pub(crate) fn located_of_text(alloc: Global, name: &str, text: &str) -> Result<String, AllocError> {
    match name {
        "Contact" => located_of::<Contact>(alloc, ObjectType::ContactObject, text),
        "ExternalDocs" => {
            located_of::<ExternalDocs>(alloc, ObjectType::ExternalDocsObject, text)
        }
        "Info" => located_of::<Info>(alloc, ObjectType::InfoObject, text),
        "License" => located_of::<License>(alloc, ObjectType::LicenseObject, text),
        "Server" => located_of::<Server>(alloc, ObjectType::ServerObject, text),
        "Tag" => located_of::<Tag>(alloc, ObjectType::TagObject, text),
        _ => String::from_str(alloc, "no such type"),
    }
}

fn located_of<T: Tree>(
    alloc: Global,
    object_type: ObjectType,
    text: &str,
) -> Result<String, AllocError> {
    match from_json_located::<T>(alloc, Kind::Named(object_type), text) {
        Ok(_) => String::from_str(alloc, "read"),
        Err(fault) => format!(in alloc; "{fault}"),
    }
}
