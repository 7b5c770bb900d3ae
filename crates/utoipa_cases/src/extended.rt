//! The types that keep extensions.

use utoipa_base::{Extensions, Tree, Unambiguous};
use utoipa_leaf::example::Example;
use utoipa_leaf::external_docs::ExternalDocs;
use utoipa_leaf::info::{Contact, Info, License};
use utoipa_leaf::server::{Server, ServerVariable};
use utoipa_leaf::tag::Tag;
use utoipa_media::content::Content;
use utoipa_media::encoding::Encoding;
use utoipa_media::header::Header;
use utoipa_media::link::Link;
use utoipa_operation_parts::{Parameter, RequestBody, Response, Responses};
use utoipa_path::Operation;
use utoipa_schema::{AllOf, AnyOf, Array, Object, OneOf, Schema};
use utoipa_schema_parts::Discriminator;
use utoipa_security::security::{
    ApiKey, ApiKeyValue, AuthorizationCode, ClientCredentials, DeviceAuthorization, Http, Implicit,
    OAuth2, OpenIdConnect, Password, SecurityScheme,
};

/// A type whose values keep extensions.
pub trait Extended: Tree + Unambiguous {
    /// Sets the extensions, in place of those that the value has.
    fn set_extensions(&mut self, extensions: Extensions);
}

impl Extended for Info {
    fn set_extensions(&mut self, extensions: Extensions) {
        self.extensions = Some(extensions);
    }
}

impl Extended for Contact {
    fn set_extensions(&mut self, extensions: Extensions) {
        self.extensions = Some(extensions);
    }
}

impl Extended for License {
    fn set_extensions(&mut self, extensions: Extensions) {
        self.extensions = Some(extensions);
    }
}

impl Extended for ExternalDocs {
    fn set_extensions(&mut self, extensions: Extensions) {
        self.extensions = Some(extensions);
    }
}

impl Extended for Server {
    fn set_extensions(&mut self, extensions: Extensions) {
        self.extensions = Some(extensions);
    }
}

impl Extended for ServerVariable {
    fn set_extensions(&mut self, extensions: Extensions) {
        self.extensions = Some(extensions);
    }
}

impl Extended for Tag {
    fn set_extensions(&mut self, extensions: Extensions) {
        self.extensions = Some(extensions);
    }
}

impl Extended for Example {
    fn set_extensions(&mut self, extensions: Extensions) {
        self.extensions = Some(extensions);
    }
}

impl Extended for Link {
    fn set_extensions(&mut self, extensions: Extensions) {
        self.extensions = Some(extensions);
    }
}

impl Extended for Content {
    fn set_extensions(&mut self, extensions: Extensions) {
        self.extensions = Some(extensions);
    }
}

impl Extended for Encoding {
    fn set_extensions(&mut self, extensions: Extensions) {
        self.extensions = Some(extensions);
    }
}

impl Extended for Header {
    fn set_extensions(&mut self, extensions: Extensions) {
        self.extensions = Some(extensions);
    }
}

impl Extended for RequestBody {
    fn set_extensions(&mut self, extensions: Extensions) {
        self.extensions = Some(extensions);
    }
}

impl Extended for Response {
    fn set_extensions(&mut self, extensions: Extensions) {
        self.extensions = Some(extensions);
    }
}

impl Extended for Responses {
    fn set_extensions(&mut self, extensions: Extensions) {
        self.extensions = Some(extensions);
    }
}

impl Extended for Parameter {
    fn set_extensions(&mut self, extensions: Extensions) {
        self.extensions = Some(extensions);
    }
}

impl Extended for Discriminator {
    fn set_extensions(&mut self, extensions: Extensions) {
        self.extensions = Some(extensions);
    }
}

impl Extended for Object {
    fn set_extensions(&mut self, extensions: Extensions) {
        self.extensions = Some(extensions);
    }
}

impl Extended for Array {
    fn set_extensions(&mut self, extensions: Extensions) {
        self.extensions = Some(extensions);
    }
}

impl Extended for OneOf {
    fn set_extensions(&mut self, extensions: Extensions) {
        self.extensions = Some(extensions);
    }
}

impl Extended for AllOf {
    fn set_extensions(&mut self, extensions: Extensions) {
        self.extensions = Some(extensions);
    }
}

impl Extended for AnyOf {
    fn set_extensions(&mut self, extensions: Extensions) {
        self.extensions = Some(extensions);
    }
}

/// Of the combination, array or object that the schema is.
impl Extended for Operation {
    fn set_extensions(&mut self, extensions: Extensions) {
        self.extensions = Some(extensions);
    }
}

impl Extended for Schema {
    fn set_extensions(&mut self, extensions: Extensions) {
        match self {
            Schema::Array(schema) => schema.set_extensions(extensions),
            Schema::Object(schema) => schema.set_extensions(extensions),
            Schema::OneOf(schema) => schema.set_extensions(extensions),
            Schema::AllOf(schema) => schema.set_extensions(extensions),
            Schema::AnyOf(schema) => schema.set_extensions(extensions),
        }
    }
}

impl Extended for ApiKeyValue {
    fn set_extensions(&mut self, extensions: Extensions) {
        self.extensions = Some(extensions);
    }
}

impl Extended for Http {
    fn set_extensions(&mut self, extensions: Extensions) {
        self.extensions = Some(extensions);
    }
}

impl Extended for OpenIdConnect {
    fn set_extensions(&mut self, extensions: Extensions) {
        self.extensions = Some(extensions);
    }
}

impl Extended for OAuth2 {
    fn set_extensions(&mut self, extensions: Extensions) {
        self.extensions = Some(extensions);
    }
}

impl Extended for Implicit {
    fn set_extensions(&mut self, extensions: Extensions) {
        self.extensions = Some(extensions);
    }
}

impl Extended for Password {
    fn set_extensions(&mut self, extensions: Extensions) {
        self.extensions = Some(extensions);
    }
}

impl Extended for ClientCredentials {
    fn set_extensions(&mut self, extensions: Extensions) {
        self.extensions = Some(extensions);
    }
}

impl Extended for AuthorizationCode {
    fn set_extensions(&mut self, extensions: Extensions) {
        self.extensions = Some(extensions);
    }
}

impl Extended for DeviceAuthorization {
    fn set_extensions(&mut self, extensions: Extensions) {
        self.extensions = Some(extensions);
    }
}

/// Of the key that is sent.
impl Extended for ApiKey {
    fn set_extensions(&mut self, extensions: Extensions) {
        match self {
            ApiKey::Header(key) => key.set_extensions(extensions),
            ApiKey::Query(key) => key.set_extensions(extensions),
            ApiKey::Cookie(key) => key.set_extensions(extensions),
        }
    }
}

/// Of the scheme of its type.
impl Extended for SecurityScheme {
    fn set_extensions(&mut self, given: Extensions) {
        match self {
            SecurityScheme::OAuth2(scheme) => scheme.set_extensions(given),
            SecurityScheme::ApiKey(scheme) => scheme.set_extensions(given),
            SecurityScheme::Http(scheme) => scheme.set_extensions(given),
            SecurityScheme::OpenIdConnect(scheme) => scheme.set_extensions(given),
            SecurityScheme::MutualTls { extensions, .. } => *extensions = Some(given),
        }
    }
}
