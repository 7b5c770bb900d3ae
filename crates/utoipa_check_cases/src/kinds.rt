//! The types that cases name.
use utoipa_tables::{Kind, ObjectType};

static RESPONSE: Kind = Kind::Named(ObjectType::ResponseObject);

static PATH_ITEM: Kind = Kind::Named(ObjectType::PathItemObject);

static SCHEMA: Kind = Kind::Schema;

static REFERENCE_OR_PATH_ITEM: Kind = Kind::RefOr(&Kind::Named(ObjectType::PathItemObject));

/// The kind of a type, by the type's name.
pub(crate) fn kind_named(name: &str) -> Option<Kind> {
    match name {
        "RefOr<Schema>" => Some(Kind::RefOr(&SCHEMA)),
        "RefOr<Response>" => Some(Kind::RefOr(&RESPONSE)),
        "Schema" => Some(Kind::Schema),
        "SecurityScheme" => Some(Kind::SecurityScheme),
        "Callback" => Some(Kind::MapOf(&REFERENCE_OR_PATH_ITEM)),
        "Paths" => Some(Kind::EntriesOf(&PATH_ITEM)),
        _ => match object_named(name) {
            Some(object_type) => Some(Kind::Named(object_type)),
            None => None,
        },
    }
}

// The object type of a type, by the type's name.
fn object_named(name: &str) -> Option<ObjectType> {
    match name {
        "OpenApi" => Some(ObjectType::OpenApiObject),
        "Info" => Some(ObjectType::InfoObject),
        "Contact" => Some(ObjectType::ContactObject),
        "License" => Some(ObjectType::LicenseObject),
        "Server" => Some(ObjectType::ServerObject),
        "ServerVariable" => Some(ObjectType::ServerVariableObject),
        "Components" => Some(ObjectType::ComponentsObject),
        "PathItem" => Some(ObjectType::PathItemObject),
        "Operation" => Some(ObjectType::OperationObject),
        "ExternalDocs" => Some(ObjectType::ExternalDocsObject),
        "Parameter" => Some(ObjectType::ParameterObject),
        "RequestBody" => Some(ObjectType::RequestBodyObject),
        "Content" => Some(ObjectType::MediaTypeObject),
        "Encoding" => Some(ObjectType::EncodingObject),
        "Response" => Some(ObjectType::ResponseObject),
        "Example" => Some(ObjectType::ExampleObject),
        "Link" => Some(ObjectType::LinkObject),
        "Header" => Some(ObjectType::HeaderObject),
        "Tag" => Some(ObjectType::TagObject),
        "Ref" => Some(ObjectType::ReferenceObject),
        "Discriminator" => Some(ObjectType::DiscriminatorObject),
        "Xml" => Some(ObjectType::XmlObject),
        _ => schema_or_scheme_named(name),
    }
}

// The tables of schemas, and of what security schemes are.
fn schema_or_scheme_named(name: &str) -> Option<ObjectType> {
    match name {
        "OneOf" => Some(ObjectType::OneOfSchema),
        "AllOf" => Some(ObjectType::AllOfSchema),
        "AnyOf" => Some(ObjectType::AnyOfSchema),
        "Array" => Some(ObjectType::ArraySchema),
        "Object" => Some(ObjectType::ObjectSchema),
        "ApiKeyValue" => Some(ObjectType::ApiKeyScheme),
        "Http" => Some(ObjectType::HttpScheme),
        "OpenIdConnect" => Some(ObjectType::OpenIdConnectScheme),
        "MutualTls" => Some(ObjectType::MutualTlsScheme),
        "OAuth2" => Some(ObjectType::Oauth2Scheme),
        "Implicit" => Some(ObjectType::ImplicitFlow),
        "Password" => Some(ObjectType::PasswordFlow),
        "ClientCredentials" => Some(ObjectType::ClientCredentialsFlow),
        "AuthorizationCode" => Some(ObjectType::AuthorizationCodeFlow),
        "DeviceAuthorization" => Some(ObjectType::DeviceAuthorizationFlow),
        "Scopes" => Some(ObjectType::ScopesObject),
        _ => None,
    }
}
