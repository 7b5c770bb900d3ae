//! Values with extensions of any names: what they print, and whether they come back from that.

use crate::extended::Extended;
use serde_json::Value;
use std::alloc::{AllocError, Global};
use utoipa_base::Extensions;
use utoipa_case_kit::{printed, refused, two_trees};
use utoipa_leaf::example::Example;
use utoipa_leaf::external_docs::ExternalDocs;
use utoipa_leaf::info::{Contact, Info, License};
use utoipa_leaf::server::{Server, ServerVariable};
use utoipa_leaf::tag::Tag;
use utoipa_media::content::Content;
use utoipa_media::encoding::Encoding;
use utoipa_media::header::Header;
use utoipa_media::link::Link;
use utoipa_operation_parts::{Parameter, RequestBody, Response, Responses};
use utoipa_path::Operation;
use utoipa_schema::{AllOf, AnyOf, Array, Object, OneOf, Schema};
use utoipa_schema_parts::Discriminator;
use utoipa_security::security::{
    ApiKey, ApiKeyValue, AuthorizationCode, ClientCredentials, DeviceAuthorization, Http, Implicit,
    OAuth2, OpenIdConnect, Password, SecurityScheme,
};

/// What is asked of a value with extensions.
#[derive(Clone, Copy)]
pub enum Asked {
    /// What it prints.
    Print,
    /// Whether it comes back from the tree that it is written as: `yes` or `no`.
    ComesBack,
}

/// The answer to what is asked of a value of the type of that name, of two texts with a tab between them: that of the value, and that of an
/// object whose members are its extensions.
pub fn answered_with_extensions(
    alloc: Global,
    asked: Asked,
    name: &str,
    texts: &str,
) -> Result<String, AllocError> {
    match two_trees(alloc, texts) {
        Ok((tree, extensions)) => with_members(alloc, name, &tree, extensions, asked),
        Err(lacking) => String::from_str(alloc, lacking),
    }
}

// The same of a tree, and of the object whose members are the extensions.
fn with_members(
    alloc: Global,
    name: &str,
    tree: &Value,
    extensions: Value,
    asked: Asked,
) -> Result<String, AllocError> {
    match extensions {
        Value::Object(members) => {
            let extensions = Extensions::from_pairs(alloc, members.into_iter())?;
            of_leaves(alloc, name, tree, extensions, asked)
        }
        _ => String::from_str(alloc, "no object"),
    }
}

fn of_leaves(
    alloc: Global,
    name: &str,
    tree: &Value,
    extensions: Extensions,
    asked: Asked,
) -> Result<String, AllocError> {
    match name {
        "Info" => with_extensions::<Info>(alloc, tree, extensions, asked),
        "Contact" => with_extensions::<Contact>(alloc, tree, extensions, asked),
        "License" => with_extensions::<License>(alloc, tree, extensions, asked),
        "ExternalDocs" => with_extensions::<ExternalDocs>(alloc, tree, extensions, asked),
        "Server" => with_extensions::<Server>(alloc, tree, extensions, asked),
        "ServerVariable" => with_extensions::<ServerVariable>(alloc, tree, extensions, asked),
        "Tag" => with_extensions::<Tag>(alloc, tree, extensions, asked),
        "Example" => with_extensions::<Example>(alloc, tree, extensions, asked),
        _ => of_media(alloc, name, tree, extensions, asked),
    }
}

fn of_media(
    alloc: Global,
    name: &str,
    tree: &Value,
    extensions: Extensions,
    asked: Asked,
) -> Result<String, AllocError> {
    match name {
        "Content" => with_extensions::<Content>(alloc, tree, extensions, asked),
        "Encoding" => with_extensions::<Encoding>(alloc, tree, extensions, asked),
        "Header" => with_extensions::<Header>(alloc, tree, extensions, asked),
        "Link" => with_extensions::<Link>(alloc, tree, extensions, asked),
        "RequestBody" => with_extensions::<RequestBody>(alloc, tree, extensions, asked),
        "Response" => with_extensions::<Response>(alloc, tree, extensions, asked),
        "Responses" => with_extensions::<Responses>(alloc, tree, extensions, asked),
        "Parameter" => with_extensions::<Parameter>(alloc, tree, extensions, asked),
        "Operation" => with_extensions::<Operation>(alloc, tree, extensions, asked),
        _ => of_schemas(alloc, name, tree, extensions, asked),
    }
}

fn of_schemas(
    alloc: Global,
    name: &str,
    tree: &Value,
    extensions: Extensions,
    asked: Asked,
) -> Result<String, AllocError> {
    match name {
        "Schema" => with_extensions::<Schema>(alloc, tree, extensions, asked),
        "Object" => with_extensions::<Object>(alloc, tree, extensions, asked),
        "Array" => with_extensions::<Array>(alloc, tree, extensions, asked),
        "OneOf" => with_extensions::<OneOf>(alloc, tree, extensions, asked),
        "AllOf" => with_extensions::<AllOf>(alloc, tree, extensions, asked),
        "AnyOf" => with_extensions::<AnyOf>(alloc, tree, extensions, asked),
        "Discriminator" => with_extensions::<Discriminator>(alloc, tree, extensions, asked),
        _ => of_schemes(alloc, name, tree, extensions, asked),
    }
}

fn of_schemes(
    alloc: Global,
    name: &str,
    tree: &Value,
    extensions: Extensions,
    asked: Asked,
) -> Result<String, AllocError> {
    match name {
        "SecurityScheme" => with_extensions::<SecurityScheme>(alloc, tree, extensions, asked),
        "ApiKey" => with_extensions::<ApiKey>(alloc, tree, extensions, asked),
        "ApiKeyValue" => with_extensions::<ApiKeyValue>(alloc, tree, extensions, asked),
        "Http" => with_extensions::<Http>(alloc, tree, extensions, asked),
        "OpenIdConnect" => with_extensions::<OpenIdConnect>(alloc, tree, extensions, asked),
        "OAuth2" => with_extensions::<OAuth2>(alloc, tree, extensions, asked),
        _ => of_flows(alloc, name, tree, extensions, asked),
    }
}

fn of_flows(
    alloc: Global,
    name: &str,
    tree: &Value,
    extensions: Extensions,
    asked: Asked,
) -> Result<String, AllocError> {
    match name {
        "Implicit" => with_extensions::<Implicit>(alloc, tree, extensions, asked),
        "Password" => with_extensions::<Password>(alloc, tree, extensions, asked),
        "ClientCredentials" => with_extensions::<ClientCredentials>(alloc, tree, extensions, asked),
        "AuthorizationCode" => with_extensions::<AuthorizationCode>(alloc, tree, extensions, asked),
        "DeviceAuthorization" => with_extensions::<DeviceAuthorization>(
            alloc, tree, extensions, asked,
        ),
        _ => String::from_str(alloc, "no such type"),
    }
}

fn with_extensions<T: Extended>(
    alloc: Global,
    tree: &Value,
    extensions: Extensions,
    asked: Asked,
) -> Result<String, AllocError> {
    match T::from_value(alloc, tree) {
        Ok(value) => {
            let mut value = value;
            value.set_extensions(extensions);
            told(alloc, &value, asked)
        }
        Err(fault) => refused(alloc, &fault),
    }
}

// What is asked of a value.
fn told<T: Extended>(alloc: Global, value: &T, asked: Asked) -> Result<String, AllocError> {
    match asked {
        Asked::Print => printed(alloc, value),
        Asked::ComesBack => {
            let answer = if value.is_unambiguous() { "yes" } else { "no" };
            String::from_str(alloc, answer)
        }
    }
}
