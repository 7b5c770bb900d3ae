//! The bodies of requests.
ghost use Rattle.std.specs.Prelude.{◌≡◌, IfOk, false, option_map, string_cmp};
ghost use Rattle.std.specs.BTreeMap.{insert_entry};
ghost use Rattle.utoipa_base.specs.Docs.{table_doc};
ghost use Rattle.utoipa_base.specs.Extensions.{extensions_view};
ghost use Rattle.utoipa_base.specs.Kinds.{named, request_body_object};
ghost use Rattle.utoipa_media.specs.Builders.{Contents, content_place, content_reference};
ghost use Rattle.utoipa_operation_parts.specs.JsonSchema.{PutsJsonSchema};
ghost use Rattle.utoipa_operation_parts.specs.RequestBody.{request_body_doc};

use crate::json_schema::{json_media_type, json_schema_content};
use serde_json::Value;
use std::alloc::{AllocError, Global};
use std::collections::BTreeMap;
use utoipa_base::table::{OptionalField, RequiredField, RowFields};
use utoipa_base::{
    Documented, Emit, Extensions, JsonSink, Place, ReadFault, Readings, Ref, RefOr, Required, Tree,
    clone_table, emit_table, from_fields, put, read_table, row_names, row_values,
};
use utoipa_media::content::Content;

// The rows of a request body, in the order of the members' names: mark, member, field.
macro_rules! request_body_rows {
    ($lines:ident!($($arguments:tt)*)) => {
        $lines! {
            $($arguments)*;
            required "content" content,
            optional "description" description,
            optional "required" required,
        }
    };
}

/// A Request Body Object (OpenAPI 3.1, section 4.8.13): what an operation is sent, by its media types.
#[derive(Debug, Drop)]
pub struct RequestBody {
    /// A description of the body.
    pub description: Option<String>,
    /// The contents that the body may have, by their media types or ranges of them.
    pub content: BTreeMap<String, RefOr<Content>>,
    /// Whether the body has to be sent.
    pub required: Option<Required>,
    /// Specification extensions.
    pub extensions: Option<Extensions>,
}

impl RequestBody {
    ghost use Rattle.utoipa_operation_parts.specs.RequestBody.{built_request_body, IsEmptyRequestBody};

    /// A body with no content, of which nothing else is said. Takes no memory.
    pub fn new(alloc: Global) -> RequestBody
        ensures { IsEmptyRequestBody result }
    {
        RequestBody {
            description: None,
            content: BTreeMap::new(alloc),
            required: None,
            extensions: None,
        }
    }

    /// A builder that begins with a body with no content. Takes no memory.
    pub fn builder(alloc: Global) -> RequestBodyBuilder
        ensures { IsEmptyRequestBody (built_request_body result) }
    {
        RequestBodyBuilder::new(alloc)
    }
}

/// The fields of a request body, as the rows of its table are read.
type RequestBodyRows = (
    RequiredField<BTreeMap<String, RefOr<Content>>>,
    (OptionalField<String>, (OptionalField<Required>, ())),
);

/// The request body of these fields.
fn request_body_of(fields: RequestBodyRows, extensions: Option<Extensions>) -> RequestBody
    ensures { request_body_doc result ≡ table_doc request_body_object (⟦<RequestBodyRows as RowFields>⟧.docs fields)
        (option_map extensions_view extensions) }
{
    request_body_rows!(from_fields!(RequestBody, fields, extensions))
}

impl Documented for RequestBody {
    ghost kind = { named request_body_object };

    ghost doc = { request_body_doc };
}

/// A body of a request, by its member table.
impl Emit for RequestBody {
    fn emit<S: JsonSink>(&self, out: &mut S) -> Result<(), AllocError> {
        let names = request_body_rows!(row_names!());
        let values = request_body_rows!(row_values!(self));
        emit_table(out, names, &values, &self.extensions)
    }
}

/// A body of a request, by its member table.
impl Tree for RequestBody {
    ghost use Rattle.utoipa_operation_parts.specs.RequestBody.{request_body_of_kind};

    ghost is_of_kind = { request_body_of_kind };

    fn read_plain(
        alloc: Global,
        tree: &Value,
        readings: &mut Readings,
    ) -> Result<RequestBody, ReadFault> {
        let names = request_body_rows!(row_names!());
        let (fields, extensions) = read_table(alloc, tree, "RequestBody", names, readings)?;
        Ok(request_body_of(fields, extensions))
    }

    fn try_clone(&self, alloc: Global) -> Result<RequestBody, AllocError> {
        request_body_rows!(clone_table!(RequestBody, self, alloc))
    }
}

/// A request body is no schema.
impl Place for RequestBody {
    fn is_schema() -> bool {
        false
    }
}

/// Builds a [`RequestBody`].
#[derive(Debug, Drop)]
pub struct RequestBodyBuilder {
    request_body: RequestBody,
}

impl RequestBodyBuilder {
    ghost use Rattle.utoipa_operation_parts.specs.RequestBody.{built_request_body, IsEmptyRequestBody};

    /// Begins with a body with no content, of which nothing else is said. Takes no memory.
    pub fn new(alloc: Global) -> RequestBodyBuilder
        ensures { IsEmptyRequestBody (built_request_body result) }
    {
        RequestBodyBuilder {
            request_body: RequestBody::new(alloc),
        }
    }

    /// Sets the description.
    pub fn description(mut self, description: Option<String>) -> RequestBodyBuilder
        ensures { built_request_body result ≡ record (built_request_body self) { description = description } }
    {
        self.request_body.description = description;
        self
    }

    /// Puts a content under its media type, in place of an earlier one, or a reference, of that type.
    ///
    /// Fails where memory runs out, and then gives up what was built.
    pub fn content(
        mut self,
        media_type: String,
        content: Content,
    ) -> Result<RequestBodyBuilder, AllocError>
        ensures { IfOk result (λ b. (contents : Contents)
            × (contents.entries
            ≡ insert_entry string_cmp (built_request_body self).content.entries media_type (content_place content))
            × (built_request_body b ≡ record (built_request_body self) { content = contents })) }
    {
        let content = RefOr::T(content);
        put(&mut self.request_body.content, media_type, content).and(Ok(self))
    }

    /// Puts a reference to a content under a media type, in place of an earlier one, or a content, of that type.
    ///
    /// Fails where memory runs out, and then gives up what was built.
    pub fn content_ref(
        mut self,
        media_type: String,
        reference: Ref,
    ) -> Result<RequestBodyBuilder, AllocError>
        ensures { IfOk result (λ b. (contents : Contents)
            × (contents.entries
            ≡ insert_entry string_cmp (built_request_body self).content.entries media_type
            (content_reference reference))
            × (built_request_body b ≡ record (built_request_body self) { content = contents })) }
    {
        let content = RefOr::Ref(reference);
        put(&mut self.request_body.content, media_type, content).and(Ok(self))
    }

    /// Sets whether the body has to be sent.
    pub fn required(mut self, required: Option<Required>) -> RequestBodyBuilder
        ensures { built_request_body result ≡ record (built_request_body self) { required = required } }
    {
        self.request_body.required = required;
        self
    }

    /// Sets the specification extensions.
    pub fn extensions(mut self, extensions: Option<Extensions>) -> RequestBodyBuilder
        ensures { built_request_body result ≡ record (built_request_body self) { extensions = extensions } }
    {
        self.request_body.extensions = extensions;
        self
    }

    /// The body that was built.
    pub fn build(self) -> RequestBody
        ensures { result ≡ built_request_body self }
    {
        self.request_body
    }
}

impl From<RequestBody> for RequestBodyBuilder {
    ghost use Rattle.utoipa_operation_parts.specs.RequestBody.{built_request_body};

    ghost from_gives = { λ request_body builder. built_request_body builder ≡ request_body };

    fn from(request_body: RequestBody) -> RequestBodyBuilder {
        RequestBodyBuilder { request_body }
    }
}

impl From<RequestBodyBuilder> for RequestBody {
    ghost use Rattle.utoipa_operation_parts.specs.RequestBody.{built_request_body};

    ghost from_gives = { λ builder request_body. request_body ≡ built_request_body builder };

    fn from(builder: RequestBodyBuilder) -> RequestBody {
        builder.build()
    }
}

/// Says that a request body is JSON of a schema of the components.
pub trait RequestBodyExt: Drop {
    ghost use Rattle.utoipa_operation_parts.specs.declared.request_body.RequestBody.{RequestBody};

    // The body, or the one that was built so far.
    ghost body: { Self → RequestBody };

    /// Puts a content of the schema of that name, by a reference, under `application/json`, in place of an earlier one.
    ///
    /// Fails where memory runs out, and then gives up the body.
    fn json_schema_ref(self, alloc: Global, schema_name: &str) -> Result<Self, AllocError>
        ensures { IfOk result (λ made. (contents : Contents)
            × PutsJsonSchema schema_name.now (body self).content.entries contents.entries
            × (body made ≡ record (body self) { content = contents })) };
}

impl RequestBodyExt for RequestBody {
    ghost body = { λ request_body. request_body };

    fn json_schema_ref(
        mut self,
        alloc: Global,
        schema_name: &str,
    ) -> Result<RequestBody, AllocError> {
        let media_type = json_media_type(alloc)?;
        let content = json_schema_content(alloc, schema_name)?;
        put(&mut self.content, media_type, RefOr::T(content)).and(Ok(self))
    }
}

impl RequestBodyExt for RequestBodyBuilder {
    ghost use Rattle.utoipa_operation_parts.specs.RequestBody.{built_request_body};

    ghost body = { built_request_body };

    fn json_schema_ref(
        self,
        alloc: Global,
        schema_name: &str,
    ) -> Result<RequestBodyBuilder, AllocError> {
        let request_body = self.request_body.json_schema_ref(alloc, schema_name)?;
        Ok(RequestBodyBuilder { request_body })
    }
}

/// The value itself.
impl From<RequestBody> for RefOr<RequestBody> {
    ghost use Rattle.utoipa_base.specs.declared.refs.RefOr.TheVariants as places;

    ghost from_gives = { λ value place. place ≡ places.T value };

    fn from(value: RequestBody) -> RefOr<RequestBody> {
        RefOr::T(value)
    }
}
