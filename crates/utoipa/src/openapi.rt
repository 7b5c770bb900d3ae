//! An OpenAPI document and all that may stand in one, each in the module of its object. What is used most stands here too.

pub use crate::bracketing::{Bracketing, merge_all, merge_tree};
pub use crate::builder::OpenApiBuilder;
pub use crate::document::OpenApi;
pub use crate::merging::MergeFault;
pub use utoipa_base::{Deprecated, Ref, RefOr, Required};
pub use utoipa_components::{Components, ComponentsBuilder};
pub use utoipa_leaf::external_docs::ExternalDocs;
pub use utoipa_leaf::info::{Contact, ContactBuilder, Info, InfoBuilder, License, LicenseBuilder};
pub use utoipa_leaf::path::HttpMethod;
pub use utoipa_leaf::server::{Server, ServerBuilder, ServerVariable, ServerVariableBuilder};
pub use utoipa_leaf::tag::Tag;
pub use utoipa_leaf::version::OpenApiVersion;
pub use utoipa_media::content::{Content, ContentBuilder};
pub use utoipa_media::header::{Header, HeaderBuilder};
pub use utoipa_operation_parts::{Response, ResponseBuilder, Responses, ResponsesBuilder};
pub use utoipa_path::PathItem;
pub use utoipa_paths::{Paths, PathsBuilder};
pub use utoipa_schema::{
    AllOf, AllOfBuilder, Array, ArrayBuilder, Discriminator, KnownFormat, Object, ObjectBuilder,
    OneOf, OneOfBuilder, Schema, SchemaFormat, ToArray, TypeWord,
};
pub use utoipa_security::security::SecurityRequirement;

/// What is sent or answered under a media type: the Media Type Object (OpenAPI 3.1, section 4.8.14).
pub mod content {
    pub use utoipa_media::content::{Content, ContentBuilder};
}

/// How the parts of a content are written: the Encoding Object (OpenAPI 3.1, section 4.8.15).
pub mod encoding {
    pub use utoipa_media::encoding::{Encoding, EncodingBuilder};
}

/// An example of a value: the Example Object (OpenAPI 3.1, section 4.8.19).
pub mod example {
    pub use utoipa_leaf::example::{Example, ExampleBuilder};
}

/// Members of an object whose names begin `x-`: Specification Extensions (OpenAPI 3.1, section 4.9).
pub mod extensions {
    pub use utoipa_base::{Extensions, ExtensionsBuilder};
}

/// Where more is said: the External Documentation Object (OpenAPI 3.1, section 4.8.11).
pub mod external_docs {
    pub use utoipa_leaf::external_docs::{ExternalDocs, ExternalDocsBuilder};
}

/// A header of a message or of a part of one: the Header Object (OpenAPI 3.1, section 4.8.21).
pub mod header {
    pub use utoipa_media::header::{Header, HeaderBuilder};
}

/// What is said of an API as a whole: the Info Object, the Contact Object and the License Object (OpenAPI 3.1, sections 4.8.2
/// to 4.8.4).
pub mod info {
    pub use utoipa_leaf::info::{
        Contact, ContactBuilder, Info, InfoBuilder, License, LicenseBuilder,
    };
}

/// What a response leads to: the Link Object (OpenAPI 3.1, section 4.8.20).
pub mod link {
    pub use utoipa_media::link::{Link, LinkBuilder};
}

/// Paths, their operations, and the parameters of these: the Paths Object, the Path Item Object, the Operation Object, the
/// Parameter Object and the Callback Object (OpenAPI 3.1, sections 4.8.8 to 4.8.10, 4.8.12 and 4.8.18).
pub mod path {
    pub use crate::operations::PathOperation;
    pub use utoipa_leaf::path::{HttpMethod, ParameterIn, ParameterStyle};
    pub use utoipa_operation_parts::{Parameter, ParameterBuilder};
    pub use utoipa_path::{
        Callback, ItemOperation, Operation, OperationBuilder, OperationMethod, PathItem,
        PathItemBuilder,
    };
    pub use utoipa_paths::{Paths, PathsBuilder, PathsMap, merge_paths};
}

/// What is sent to an operation: the Request Body Object (OpenAPI 3.1, section 4.8.13).
pub mod request_body {
    pub use utoipa_operation_parts::{RequestBody, RequestBodyBuilder, RequestBodyExt};
}

/// What an operation answers: the Responses Object and the Response Object (OpenAPI 3.1, sections 4.8.16 and 4.8.17).
pub mod response {
    pub use utoipa_base::{NameHasher, OrderedMap};
    pub use utoipa_operation_parts::{
        Response, ResponseBuilder, ResponseExt, Responses, ResponsesBuilder,
    };
}

/// Schemas, what they are made of, references, and the components that references name: the Schema Object, the Discriminator
/// Object, the Reference Object and the Components Object (OpenAPI 3.1, sections 4.8.24, 4.8.25, 4.8.23 and 4.8.7).
pub mod schema {
    pub use utoipa_base::{Ref, RefBuilder};
    pub use utoipa_components::{Components, ComponentsBuilder};
    pub use utoipa_schema::{
        AdditionalProperties, AllOf, AllOfBuilder, AnyOf, AnyOfBuilder, Array, ArrayBuilder,
        ArrayItems, Discriminator, IsReference, KnownFormat, Object, ObjectBuilder, OneOf,
        OneOfBuilder, RefToArray, Schema, SchemaFormat, SchemaType, ToArray, TypeWord, empty,
        schema_from_ref_or,
    };
}

/// How callers of an API are told apart: the Security Scheme Object, the OAuth Flows Object, the OAuth Flow Object and the Security
/// Requirement Object (OpenAPI 3.1, sections 4.8.27 to 4.8.30).
pub mod security {
    pub use utoipa_security::security::{
        ApiKey, ApiKeyValue, AuthorizationCode, ClientCredentials, DeviceAuthorization, Flow, Http,
        HttpAuthScheme, HttpBuilder, Implicit, OAuth2, OpenIdConnect, Password, Scopes,
        SecurityRequirement, SecurityScheme,
    };
}

/// Where an API is found: the Server Object and the Server Variable Object (OpenAPI 3.1, sections 4.8.5 and 4.8.6).
pub mod server {
    pub use utoipa_leaf::server::{Server, ServerBuilder, ServerVariable, ServerVariableBuilder};
}

/// What is said of a tag that operations bear: the Tag Object (OpenAPI 3.1, section 4.8.22).
pub mod tag {
    pub use utoipa_leaf::tag::{Tag, TagBuilder};
}

/// How a value is written in XML: the XML Object (OpenAPI 3.1, section 4.8.26).
pub mod xml {
    pub use utoipa_schema_parts::{Xml, XmlBuilder};
}
