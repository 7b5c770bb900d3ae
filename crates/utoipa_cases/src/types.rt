//! The types by their names.

use serde_json::Value;
use std::alloc::{AllocError, Global};
use std::collections::BTreeMap;
use utoipa_base::{Deprecated, Number, Ref, RefOr, Required};
use utoipa_case_kit::{Question, answered};
use utoipa_leaf::example::Example;
use utoipa_leaf::external_docs::ExternalDocs;
use utoipa_leaf::info::{Contact, Info, License};
use utoipa_leaf::path::{HttpMethod, ParameterIn, ParameterStyle};
use utoipa_leaf::server::{Server, ServerVariable};
use utoipa_leaf::tag::Tag;
use utoipa_leaf::version::OpenApiVersion;
use utoipa_media::content::Content;
use utoipa_media::encoding::Encoding;
use utoipa_media::header::Header;
use utoipa_media::link::Link;
use utoipa_operation_parts::{Parameter, RequestBody, Response, Responses};
use utoipa_schema::{AdditionalProperties, AllOf, AnyOf, Array, ArrayItems, Object, OneOf, Schema};
use utoipa_schema_parts::{Discriminator, KnownFormat, SchemaFormat, SchemaType, TypeWord, Xml};
use utoipa_security::security::{
    ApiKey, ApiKeyValue, AuthorizationCode, ClientCredentials, DeviceAuthorization, Http,
    HttpAuthScheme, Implicit, OAuth2, OpenIdConnect, Password, Scopes, SecurityRequirement,
    SecurityScheme,
};

/// The answer to a question of a text as the type of that name.
pub fn answer_of_type(
    alloc: Global,
    question: Question,
    name: &str,
    text: &str,
) -> Result<String, AllocError> {
    match name {
        "String" => answered::<String>(alloc, question, text),
        "bool" => answered::<bool>(alloc, question, text),
        "usize" => answered::<usize>(alloc, question, text),
        "Value" => answered::<Value>(alloc, question, text),
        "Number" => answered::<Number>(alloc, question, text),
        "Deprecated" => answered::<Deprecated>(alloc, question, text),
        "Required" => answered::<Required>(alloc, question, text),
        "Ref" => answered::<Ref>(alloc, question, text),
        _ => of_containers(alloc, question, name, text),
    }
}

fn of_containers(
    alloc: Global,
    question: Question,
    name: &str,
    text: &str,
) -> Result<String, AllocError> {
    match name {
        "Vec<String>" => answered::<Vec<String>>(alloc, question, text),
        "Vec<bool>" => answered::<Vec<bool>>(alloc, question, text),
        "Vec<Value>" => answered::<Vec<Value>>(alloc, question, text),
        "BTreeMap<String, bool>" => answered::<BTreeMap<String, bool>>(alloc, question, text),
        "BTreeMap<String, Vec<usize>>" => {
            answered::<BTreeMap<String, Vec<usize>>>(alloc, question, text)
        }
        "RefOr<bool>" => answered::<RefOr<bool>>(alloc, question, text),
        "RefOr<String>" => answered::<RefOr<String>>(alloc, question, text),
        "RefOr<Value>" => answered::<RefOr<Value>>(alloc, question, text),
        "RefOr<Vec<String>>" => answered::<RefOr<Vec<String>>>(alloc, question, text),
        "RefOr<Example>" => answered::<RefOr<Example>>(alloc, question, text),
        "RefOr<Schema>" => answered::<RefOr<Schema>>(alloc, question, text),
        "Vec<RefOr<Schema>>" => answered::<Vec<RefOr<Schema>>>(alloc, question, text),
        "BTreeMap<String, RefOr<Schema>>" => {
            answered::<BTreeMap<String, RefOr<Schema>>>(alloc, question, text)
        }
        _ => of_leaves(alloc, question, name, text),
    }
}

fn of_leaves(
    alloc: Global,
    question: Question,
    name: &str,
    text: &str,
) -> Result<String, AllocError> {
    match name {
        "Info" => answered::<Info>(alloc, question, text),
        "Contact" => answered::<Contact>(alloc, question, text),
        "License" => answered::<License>(alloc, question, text),
        "ExternalDocs" => answered::<ExternalDocs>(alloc, question, text),
        "Server" => answered::<Server>(alloc, question, text),
        "ServerVariable" => answered::<ServerVariable>(alloc, question, text),
        "Tag" => answered::<Tag>(alloc, question, text),
        "Xml" => answered::<Xml>(alloc, question, text),
        "Example" => answered::<Example>(alloc, question, text),
        "OpenApiVersion" => answered::<OpenApiVersion>(alloc, question, text),
        "HttpMethod" => answered::<HttpMethod>(alloc, question, text),
        "ParameterIn" => answered::<ParameterIn>(alloc, question, text),
        "ParameterStyle" => answered::<ParameterStyle>(alloc, question, text),
        _ => of_media(alloc, question, name, text),
    }
}

fn of_media(
    alloc: Global,
    question: Question,
    name: &str,
    text: &str,
) -> Result<String, AllocError> {
    match name {
        "Content" => answered::<Content>(alloc, question, text),
        "Encoding" => answered::<Encoding>(alloc, question, text),
        "Header" => answered::<Header>(alloc, question, text),
        "Link" => answered::<Link>(alloc, question, text),
        "RequestBody" => answered::<RequestBody>(alloc, question, text),
        "Response" => answered::<Response>(alloc, question, text),
        "Responses" => answered::<Responses>(alloc, question, text),
        "Parameter" => answered::<Parameter>(alloc, question, text),
        "RefOr<Content>" => answered::<RefOr<Content>>(alloc, question, text),
        "RefOr<Header>" => answered::<RefOr<Header>>(alloc, question, text),
        "RefOr<Link>" => answered::<RefOr<Link>>(alloc, question, text),
        "RefOr<Response>" => answered::<RefOr<Response>>(alloc, question, text),
        _ => of_schemas(alloc, question, name, text),
    }
}

fn of_schemas(
    alloc: Global,
    question: Question,
    name: &str,
    text: &str,
) -> Result<String, AllocError> {
    match name {
        "Schema" => answered::<Schema>(alloc, question, text),
        "Object" => answered::<Object>(alloc, question, text),
        "Array" => answered::<Array>(alloc, question, text),
        "OneOf" => answered::<OneOf>(alloc, question, text),
        "AllOf" => answered::<AllOf>(alloc, question, text),
        "AnyOf" => answered::<AnyOf>(alloc, question, text),
        "ArrayItems" => answered::<ArrayItems>(alloc, question, text),
        "AdditionalProperties" => answered::<AdditionalProperties<Schema>>(alloc, question, text),
        "Discriminator" => answered::<Discriminator>(alloc, question, text),
        "SchemaType" => answered::<SchemaType>(alloc, question, text),
        "TypeWord" => answered::<TypeWord>(alloc, question, text),
        "SchemaFormat" => answered::<SchemaFormat>(alloc, question, text),
        "KnownFormat" => answered::<KnownFormat>(alloc, question, text),
        _ => of_security(alloc, question, name, text),
    }
}

fn of_security(
    alloc: Global,
    question: Question,
    name: &str,
    text: &str,
) -> Result<String, AllocError> {
    match name {
        "SecurityRequirement" => answered::<SecurityRequirement>(alloc, question, text),
        "SecurityScheme" => answered::<SecurityScheme>(alloc, question, text),
        "ApiKey" => answered::<ApiKey>(alloc, question, text),
        "ApiKeyValue" => answered::<ApiKeyValue>(alloc, question, text),
        "Http" => answered::<Http>(alloc, question, text),
        "HttpAuthScheme" => answered::<HttpAuthScheme>(alloc, question, text),
        "OpenIdConnect" => answered::<OpenIdConnect>(alloc, question, text),
        "OAuth2" => answered::<OAuth2>(alloc, question, text),
        "Scopes" => answered::<Scopes>(alloc, question, text),
        "Implicit" => answered::<Implicit>(alloc, question, text),
        "Password" => answered::<Password>(alloc, question, text),
        "ClientCredentials" => answered::<ClientCredentials>(alloc, question, text),
        "AuthorizationCode" => answered::<AuthorizationCode>(alloc, question, text),
        "DeviceAuthorization" => answered::<DeviceAuthorization>(alloc, question, text),
        _ => String::from_str(alloc, "no such type"),
    }
}
