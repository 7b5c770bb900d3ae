//! The paths at which users of the original crate find its items, each in a module here that has the name of theirs. Nothing runs:
//! that this is checked says that each path stands.

pub mod utoipa_root {
    pub use utoipa::{
        ComposeFault, Counted, IntoParams, IntoResponses, Modify, Number, OpenApi, PartialSchema,
        Path, Place, ReadFault, Readings, ToResponse, ToSchema, Tree, TupleUnit, has_fraction,
        openapi_of, operation_of, same_tree, schema_of,
    };
}

pub mod dev {
    pub use utoipa::dev::{ComposeSchema, NestedApiConfig, PathConfig, SchemaReferences, Tags};
}

pub mod openapi {
    pub use utoipa::openapi::{
        AllOf, AllOfBuilder, Array, ArrayBuilder, Bracketing, Components, ComponentsBuilder,
        Contact, ContactBuilder, Content, ContentBuilder, Deprecated, Discriminator, ExternalDocs,
        Header, HeaderBuilder, HttpMethod, Info, InfoBuilder, KnownFormat, License, LicenseBuilder,
        MergeFault, Object, ObjectBuilder, OneOf, OneOfBuilder, OpenApi, OpenApiBuilder,
        OpenApiVersion, PathItem, Paths, PathsBuilder, Ref, RefOr, Required, Response,
        ResponseBuilder, Responses, ResponsesBuilder, Schema, SchemaFormat, SecurityRequirement,
        Server, ServerBuilder, ServerVariable, ServerVariableBuilder, Tag, ToArray, TypeWord,
        merge_all, merge_tree,
    };
}

pub mod content {
    pub use utoipa::openapi::content::{Content, ContentBuilder};
}

pub mod encoding {
    pub use utoipa::openapi::encoding::{Encoding, EncodingBuilder};
}

pub mod example {
    pub use utoipa::openapi::example::{Example, ExampleBuilder};
}

pub mod extensions {
    pub use utoipa::openapi::extensions::{Extensions, ExtensionsBuilder};
}

pub mod external_docs {
    pub use utoipa::openapi::external_docs::{ExternalDocs, ExternalDocsBuilder};
}

pub mod header {
    pub use utoipa::openapi::header::{Header, HeaderBuilder};
}

pub mod info {
    pub use utoipa::openapi::info::{
        Contact, ContactBuilder, Info, InfoBuilder, License, LicenseBuilder,
    };
}

pub mod link {
    pub use utoipa::openapi::link::{Link, LinkBuilder};
}

pub mod path {
    pub use utoipa::openapi::path::{
        Callback, HttpMethod, Operation, OperationBuilder, Parameter, ParameterBuilder,
        ParameterIn, ParameterStyle, PathItem, PathItemBuilder, Paths, PathsBuilder, PathsMap,
        merge_paths,
    };
}

pub mod request_body {
    pub use utoipa::openapi::request_body::{RequestBody, RequestBodyBuilder, RequestBodyExt};
}

pub mod response {
    pub use utoipa::openapi::response::{
        NameHasher, OrderedMap, Response, ResponseBuilder, ResponseExt, Responses, ResponsesBuilder,
    };
}

pub mod schema {
    pub use utoipa::openapi::schema::{
        AdditionalProperties, AllOf, AllOfBuilder, AnyOf, AnyOfBuilder, Array, ArrayBuilder,
        ArrayItems, Components, ComponentsBuilder, Discriminator, IsReference, KnownFormat, Object,
        ObjectBuilder, OneOf, OneOfBuilder, Ref, RefBuilder, RefToArray, Schema, SchemaFormat,
        SchemaType, ToArray, TypeWord, empty, schema_from_ref_or,
    };
}

pub mod security {
    pub use utoipa::openapi::security::{
        ApiKey, ApiKeyValue, AuthorizationCode, ClientCredentials, DeviceAuthorization, Flow, Http,
        HttpAuthScheme, HttpBuilder, Implicit, OAuth2, OpenIdConnect, Password, Scopes,
        SecurityRequirement, SecurityScheme,
    };
}

pub mod server {
    pub use utoipa::openapi::server::{
        Server, ServerBuilder, ServerVariable, ServerVariableBuilder,
    };
}

pub mod tag {
    pub use utoipa::openapi::tag::{Tag, TagBuilder};
}

pub mod xml {
    pub use utoipa::openapi::xml::{Xml, XmlBuilder};
}
