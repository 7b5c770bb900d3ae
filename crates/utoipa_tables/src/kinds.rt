//! What may stand at a member, and the object types, as data.

/// The object types that have a member table, by the names of the standard.
#[derive(Clone, Copy, Debug, Drop, PartialEq, Eq)]
pub enum ObjectType {
    /// OpenAPI Object: OpenAPI 3.1, section 4.8.1; `$self` from 3.2; `$schema` is this model's own.
    OpenApiObject,
    /// Info Object: section 4.8.2.
    InfoObject,
    /// Contact Object: section 4.8.3.
    ContactObject,
    /// License Object: section 4.8.4.
    LicenseObject,
    /// Server Object: section 4.8.5; `name` from 3.2.
    ServerObject,
    /// Server Variable Object: section 4.8.6.
    ServerVariableObject,
    /// Components Object: section 4.8.7; `mediaTypes` from 3.2.
    ComponentsObject,
    /// Path Item Object: section 4.8.9; `query` and `additionalOperations` from 3.2.
    PathItemObject,
    /// Operation Object: section 4.8.10.
    OperationObject,
    /// External Documentation Object: section 4.8.11.
    ExternalDocsObject,
    /// Parameter Object: section 4.8.12.
    ParameterObject,
    /// Request Body Object: section 4.8.13.
    RequestBodyObject,
    /// Media Type Object: section 4.8.14; `itemSchema`, `prefixEncoding` and `itemEncoding` from 3.2; `description` is this model's own.
    MediaTypeObject,
    /// Encoding Object: section 4.8.15; `encoding`, `prefixEncoding` and `itemEncoding` from 3.2.
    EncodingObject,
    /// Response Object: section 4.8.17; `summary` from 3.2, where `description` need not be there.
    ResponseObject,
    /// Example Object: section 4.8.19.
    ExampleObject,
    /// Link Object: section 4.8.20.
    LinkObject,
    /// Header Object: section 4.8.21.
    HeaderObject,
    /// Tag Object: section 4.8.22; `summary`, `parent` and `kind` from 3.2.
    TagObject,
    /// Reference Object: section 4.8.23; the annotations beside `summary` and `description` are those that JSON Schema allows beside `$ref`.
    ReferenceObject,
    /// Discriminator Object: section 4.8.25.
    DiscriminatorObject,
    /// XML Object: section 4.8.26; `nodeType` from 3.2.
    XmlObject,
    /// Schema Object with `oneOf` (JSON Schema 2020-12, Core, section 10.2.1.3).
    OneOfSchema,
    /// Schema Object with `allOf` (JSON Schema 2020-12, Core, section 10.2.1.1).
    AllOfSchema,
    /// Schema Object with `anyOf` (JSON Schema 2020-12, Core, section 10.2.1.2).
    AnyOfSchema,
    /// Schema Object of an array (JSON Schema 2020-12, Core, section 10.3.1, and Validation, sections 6.4, 8 and 9).
    ArraySchema,
    /// Schema Object of any other type (JSON Schema 2020-12, Core, section 10.3.2, and Validation, sections 6 to 9).
    ObjectSchema,
    /// Security Scheme Object, `apiKey`: section 4.8.27; `deprecated` from 3.2; its member `in` is the choice of an API key.
    ApiKeyScheme,
    /// Security Scheme Object, `http`; `deprecated` from 3.2.
    HttpScheme,
    /// Security Scheme Object, `openIdConnect`; `deprecated` from 3.2.
    OpenIdConnectScheme,
    /// Security Scheme Object, `mutualTLS`; `deprecated` from 3.2.
    MutualTlsScheme,
    /// Security Scheme Object, `oauth2`; `oauth2MetadataUrl` and `deprecated` from 3.2.
    Oauth2Scheme,
    /// OAuth Flow Object: sections 4.8.28 and 4.8.29, `implicit`.
    ImplicitFlow,
    /// OAuth Flow Object, `password`.
    PasswordFlow,
    /// OAuth Flow Object, `clientCredentials`.
    ClientCredentialsFlow,
    /// OAuth Flow Object, `authorizationCode`.
    AuthorizationCodeFlow,
    /// OAuth Flow Object, `deviceAuthorization`, from 3.2.
    DeviceAuthorizationFlow,
    /// The member `scopes` of an OAuth Flow Object, by itself.
    ScopesObject,
}

/// The types whose values are words.
#[derive(Clone, Copy, Debug, Drop, PartialEq, Eq)]
pub enum Vocabulary {
    /// JSON Schema 2020-12, Validation, section 6.1.1.
    TypeWord,
    /// OpenAPI 3.1, section 4.4, JSON Schema 2020-12, Validation, section 7.3, and `byte` and `binary` of OpenAPI 3.0.
    KnownFormat,
    /// OpenAPI 3.1, section 4.8.9.
    HttpMethod,
    /// OpenAPI 3.1, section 4.8.12; `querystring` from 3.2.
    ParameterIn,
    /// OpenAPI 3.1, section 4.8.12; `cookie` from 3.2.
    ParameterStyle,
    /// The HTTP Authentication Scheme Registry, of OpenAPI 3.1, section 4.8.27.
    HttpAuthScheme,
}

/// What a member holds.
#[derive(Clone, Copy, Drop)]
pub enum Kind {
    /// A text.
    Text,
    /// True or false.
    Flag,
    /// A whole number from 0 to 18446744073709551615.
    Whole,
    /// A whole number from -9223372036854775808 to 18446744073709551615.
    Numeral,
    /// Any tree.
    Any,
    /// A word of a vocabulary.
    WordOf(Vocabulary),
    /// The version of the standard.
    Version,
    /// A list.
    ListOf(&'static Kind),
    /// An object, as a map from the names of its members.
    MapOf(&'static Kind),
    /// An object, as a map that keeps the order in which its entries were put.
    OrderedMapOf(&'static Kind),
    /// An object with extensions, whose other members are a map.
    EntriesOf(&'static Kind),
    /// A reference, or else the kind.
    RefOr(&'static Kind),
    /// An object of a type.
    Named(ObjectType),
    /// A schema, by the first alternative that fits.
    Schema,
    /// The types of a schema: a word, a list of words, or null for any value.
    SchemaType,
    /// The format of a schema: a known word, or any other text.
    SchemaFormat,
    /// The items of an array: a schema, a reference, or false.
    ArrayItems,
    /// Additional properties: a schema, a reference, true or false.
    AdditionalProperties,
    /// A security scheme, by its member `type`.
    SecurityScheme,
    /// An API key, by its member `in`.
    ApiKey,
    /// OAuth flows, each by its key.
    Flows,
}

/// How a row of a member table is marked.
#[derive(Clone, Copy, Debug, Drop, PartialEq, Eq)]
pub enum Mark {
    /// Absent is refused; always written.
    Required,
    /// Absent or null is none; none is left out.
    Optional,
    /// Absent or null is none; none is written as null.
    OrNull,
    /// Absent is empty, and null is read as the kind says; empty is left out.
    Defaulted,
    /// The table does not keep the member, which the table of another alternative does.
    NotKept,
}

/// A row of a member table.
#[derive(Clone, Copy, Drop)]
pub struct Row {
    /// The member's name.
    pub name: &'static str,
    /// How the row is marked.
    pub mark: Mark,
    /// What the member holds.
    pub kind: Kind,
}
