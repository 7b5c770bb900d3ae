//! The document that describes an API.
ghost use Rattle.std.specs.Prelude.{◌≡◌, Some, IfOk, codes};
ghost use Rattle.serde_json.specs.Data.{object, no_members, put};
ghost use Rattle.serde_json.specs.View.{members_view};
ghost use Rattle.utoipa_base.specs.Docs.{no_docs, doc};
ghost use Rattle.utoipa_base.specs.Kinds.{named, open_api_object};
ghost use Rattle.utoipa_base.specs.Reading.{read};
ghost use Rattle.utoipa_base.specs.Values.{schema_count};
ghost use Rattle.utoipa_base.specs.Views.{option_of};
ghost use Rattle.utoipa_components.specs.Components.{components_doc};
ghost use Rattle.utoipa_large_objects.specs.Members.{with_fields};
ghost use Rattle.utoipa_paths.specs.Paths.{paths_doc};
ghost use Rattle.utoipa.specs.OpenApi.{openapi_doc, large_members};

use crate::builder::OpenApiBuilder;
use json::{Reader, Token};
use serde_json::{Map, Value};
use std::alloc::{AllocError, Global};
use std::mem;
use utoipa_base::table::{OptionalField, RequiredField};
use utoipa_base::{
    Documented, Emit, Extensions, JsonSink, Place, ReadFault, Readings, Tree, Unread, beside,
    clone_table, emit_table, from_fields, read_table, row_names, row_values,
};
use utoipa_components::Components;
use utoipa_large_objects::members_from_tokens;
use utoipa_leaf::external_docs::ExternalDocs;
use utoipa_leaf::info::Info;
use utoipa_leaf::server::Server;
use utoipa_leaf::tag::Tag;
use utoipa_leaf::version::OpenApiVersion;
use utoipa_paths::Paths;
use utoipa_security::security::SecurityRequirement;

// The rows of a document, in the order of the members' names: mark, member, field.
macro_rules! document_rows {
    ($lines:ident!($($arguments:tt)*)) => {
        $lines! {
            $($arguments)*;
            defaulted "$schema" schema,
            optional "$self" self_uri,
            optional "components" components,
            optional "externalDocs" external_docs,
            required "info" info,
            optional "jsonSchemaDialect" json_schema_dialect,
            required "openapi" openapi,
            required "paths" paths,
            optional "security" security,
            optional "servers" servers,
            optional "tags" tags,
            optional "webhooks" webhooks,
        }
    };
}

/// An OpenAPI Object (OpenAPI 3.1, section 4.8.1): the root of a document that describes an API.
#[derive(Debug, Drop)]
pub struct OpenApi {
    /// The version of the standard that the document follows.
    pub openapi: OpenApiVersion,
    /// Metadata about the API.
    pub info: Info,
    /// The servers at which the API is found.
    pub servers: Option<Vec<Server>>,
    /// The paths of the API, with their operations. The standard lets a document leave them out; here they are asked for.
    pub paths: Paths,
    /// What the API may call by itself, by names that are no paths.
    pub webhooks: Option<Paths>,
    /// What references in the document name.
    pub components: Option<Components>,
    /// The security requirements of all operations that have none of their own: one of them has to be met.
    pub security: Option<Vec<SecurityRequirement>>,
    /// What is to be said of tags that operations bear.
    pub tags: Option<Vec<Tag>>,
    /// Further documentation of the API: the member `externalDocs`.
    pub external_docs: Option<ExternalDocs>,
    /// A URI of the dialect of the document's schemas that name none: the member `jsonSchemaDialect`.
    pub json_schema_dialect: Option<String>,
    /// A URI of the schema that the document follows, which the standard does not have: the member `$schema`. It is left out where it
    /// is empty.
    pub schema: String,
    /// A URI of the document itself, from OpenAPI 3.2 on: the member `$self`.
    pub self_uri: Option<String>,
    /// Specification extensions.
    pub extensions: Option<Extensions>,
}

impl OpenApi {
    ghost use Rattle.utoipa.specs.OpenApi.{built_openapi, IsOpenApiOf, IsEmptyOpenApi};

    /// A document of OpenAPI 3.1 with its info and its paths, with nothing else. Takes no memory.
    pub fn new(alloc: Global, info: Info, paths: Paths) -> OpenApi
        ensures { IsOpenApiOf info paths result }
    {
        OpenApi {
            openapi: OpenApiVersion::Version31,
            info,
            servers: None,
            paths,
            webhooks: None,
            components: None,
            security: None,
            tags: None,
            external_docs: None,
            json_schema_dialect: None,
            schema: String::new(alloc),
            self_uri: None,
            extensions: None,
        }
    }

    /// A builder that begins with a document of OpenAPI 3.1 of the empty title and the empty version, with no paths. Takes no memory.
    pub fn builder(alloc: Global) -> OpenApiBuilder
        ensures { IsEmptyOpenApi (built_openapi result) }
    {
        OpenApiBuilder::new(alloc)
    }
}

// What is read one by one of a document: its components, its paths and its webhooks.
type LargeParts = (
    OptionalField<Components>,
    (RequiredField<Paths>, (OptionalField<Paths>, ())),
);

impl Documented for OpenApi {
    ghost kind = { named open_api_object };

    ghost doc = { openapi_doc };
}

/// A document, by its member table.
impl Emit for OpenApi {
    fn emit<S: JsonSink>(&self, out: &mut S) -> Result<(), AllocError> {
        let names = document_rows!(row_names!());
        let values = document_rows!(row_values!(self));
        emit_table(out, names, &values, &self.extensions)
    }
}

/// A document, by its member table.
impl Tree for OpenApi {
    ghost use Rattle.utoipa.specs.OpenApi.{openapi_of_kind};

    ghost is_of_kind = { openapi_of_kind };

    fn read_plain(
        alloc: Global,
        tree: &Value,
        readings: &mut Readings,
    ) -> Result<OpenApi, ReadFault> {
        let names = document_rows!(row_names!());
        let (fields, extensions) = read_table(alloc, tree, "OpenApi", names, readings)?;
        Ok(document_rows!(from_fields!(OpenApi, fields, extensions)))
    }

    // The parts that may be large are read one by one, and all else from a tree.
    fn from_tokens(
        alloc: Global,
        first: Token<'_>,
        reader: &mut Reader<'_>,
        depth: usize,
        readings: &mut Readings,
    ) -> Result<OpenApi, Unread> {
        let (large, others) = members_from_tokens::<(Option<_>, (Option<_>, (Option<_>, ()))), _>(
            alloc,
            first,
            reader,
            depth,
            &["components", "paths", "webhooks"],
            readings,
        )?;
        let (large, rest) = beside(large, of_others(alloc, others))?;
        Ok(with_large(rest, large))
    }

    fn try_clone(&self, alloc: Global) -> Result<OpenApi, AllocError> {
        document_rows!(clone_table!(OpenApi, self, alloc))
    }
}

// The document that an object of these members is, and of no paths. Fails as reading its tree does, and where a schema is read.
fn of_others(alloc: Global, others: Map<String, Value>) -> Result<OpenApi, Unread>
    ensures read { IfOk result
        (λ v. read (named open_api_object)
        (object (put (codes "paths") (object no_members) (members_view others.entries))) ≡ Some (openapi_doc v)) }
    ensures no_schema { IfOk result (λ v. schema_count (openapi_doc v) ≡ 0) }
{
    let mut members = others;
    let paths = String::from_str(alloc, "paths")?;
    drop(members.insert(paths, Value::Object(Map::new(alloc)))?);
    let tree = Value::Object(members);
    let mut readings = Readings::new();
    let rest = OpenApi::read_plain(alloc, &tree, &mut readings)?;
    if_uncounted(rest, &readings)
}

// The value, if nothing was counted.
fn if_uncounted<T: Drop>(value: T, readings: &Readings) -> Result<T, Unread>
    ensures { IfOk result (λ v. (v ≡ value) × (readings.now ≡ 0)) }
{
    if readings.number() > 0 {
        return Err(Unread::AsTree);
    }
    Ok(value)
}

// The document with these parts in place of its own.
fn with_large(rest: OpenApi, large: LargeParts) -> OpenApi
    ensures { openapi_doc result ≡ with_fields large_members
        (doc (option_of components_doc large.0.0)
        (doc (paths_doc large.1.0.0) (doc (option_of paths_doc large.1.1.0.0) no_docs)))
        (openapi_doc rest) }
{
    let mut document = rest;
    let (OptionalField(components), (RequiredField(paths), (OptionalField(webhooks), ()))) = large;
    drop(mem::replace(&mut document.components, components));
    drop(mem::replace(&mut document.paths, paths));
    drop(mem::replace(&mut document.webhooks, webhooks));
    document
}

impl Place for OpenApi {
    fn is_schema() -> bool {
        false
    }
}
