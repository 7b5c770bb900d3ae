//! Responses of operations.
ghost use Rattle.std.specs.Prelude.{◌≡◌, [], IfOk, OnOk, false, string_cmp, string_eq};
ghost use Rattle.std.specs.BTreeMap.{insert_entry};
ghost use Rattle.std.specs.Iterator.{IsFinite};
ghost use Rattle.indexmap.specs.IndexMap.{insert_entry as insert_in_order};
ghost use Rattle.utoipa_base.specs.Fill.{Pairs, put_each};
ghost use Rattle.utoipa_base.specs.Kinds.{named, response_object};
ghost use Rattle.utoipa_base.specs.Lists.{EachIterator, GivesAll};
ghost use Rattle.utoipa_base.specs.Tables.{responses as responses_kind};
ghost use Rattle.utoipa_base.specs.declared.refs.RefOr.{RefOr};
ghost use Rattle.utoipa_media.specs.Builders.{Headers, content_place, content_reference, header_place, header_reference};
ghost use Rattle.utoipa_operation_parts.specs.JsonSchema.{PutsJsonSchemaInOrder};
ghost use Rattle.utoipa_operation_parts.specs.Response.{OrderedContents, Links};
ghost use Rattle.utoipa_operation_parts.specs.Traits.{responses_by_code, with_later};
ghost use Rattle.utoipa_operation_parts.specs.declared.response.Response.{Response};

use crate::json_schema::{json_media_type, json_schema_content};
use crate::traits::{IntoResponses, put_responses};
use indexmap::IndexMap;
use serde_json::Value;
use std::alloc::{AllocError, Global};
use std::collections::BTreeMap;
use utoipa_base::{
    Documented, Emit, Extensions, JsonSink, NameHasher, OrderedMap, Place, ReadFault, Readings,
    Ref, RefOr, Tree, clone_extensions, clone_table, emit_entries, emit_table, from_fields, put,
    put_each, read_entries, read_table, row_names, row_values,
};
use utoipa_media::content::Content;
use utoipa_media::header::Header;
use utoipa_media::link::Link;

// The rows of a response, in the order of the members' names: mark, member, field.
macro_rules! response_rows {
    ($lines:ident!($($arguments:tt)*)) => {
        $lines! {
            $($arguments)*;
            defaulted "content" content,
            defaulted "description" description,
            defaulted "headers" headers,
            defaulted "links" links,
            optional "summary" summary,
        }
    };
}

/// A Response Object (OpenAPI 3.1, section 4.8.17; `summary` from 3.2): one response of an operation.
#[derive(Debug, Drop)]
pub struct Response {
    /// A short summary of the response.
    pub summary: Option<String>,
    /// A description of the response; empty where there is none.
    pub description: String,
    /// The headers of the response, by their names.
    pub headers: BTreeMap<String, RefOr<Header>>,
    /// The contents that the response may have, by their media types, in the order in which they were put. They are written and
    /// read in the order of the media types.
    pub content: OrderedMap<RefOr<Content>>,
    /// The links that can follow the response, by their names.
    pub links: BTreeMap<String, RefOr<Link>>,
    /// Specification extensions.
    pub extensions: Option<Extensions>,
}

impl Response {
    ghost use Rattle.utoipa_operation_parts.specs.Response.{built_response, IsResponseOf, IsEmptyResponse};

    /// A response of this description, of which nothing else is said. Takes no memory.
    pub fn new(alloc: Global, description: String) -> Response
        ensures { IsResponseOf description result }
    {
        Response {
            summary: None,
            description,
            headers: BTreeMap::new(alloc),
            content: IndexMap::with_hasher(alloc, NameHasher::new()),
            links: BTreeMap::new(alloc),
            extensions: None,
        }
    }

    /// A builder that begins with a response of which nothing is said. Takes no memory.
    pub fn builder(alloc: Global) -> ResponseBuilder
        ensures { IsEmptyResponse (built_response result) }
    {
        ResponseBuilder::new(alloc)
    }
}

impl Documented for Response {
    ghost use Rattle.utoipa_operation_parts.specs.Response.{response_doc};

    ghost kind = { named response_object };

    ghost doc = { response_doc };
}

/// A response, by its member table.
impl Emit for Response {
    fn emit<S: JsonSink>(&self, out: &mut S) -> Result<(), AllocError> {
        let names = response_rows!(row_names!());
        let values = response_rows!(row_values!(self));
        emit_table(out, names, &values, &self.extensions)
    }
}

/// A response, by its member table.
impl Tree for Response {
    ghost use Rattle.utoipa_operation_parts.specs.Response.{response_of_kind};

    ghost is_of_kind = { response_of_kind };

    fn read_plain(
        alloc: Global,
        tree: &Value,
        readings: &mut Readings,
    ) -> Result<Response, ReadFault> {
        let names = response_rows!(row_names!());
        let (fields, extensions) = read_table(alloc, tree, "Response", names, readings)?;
        Ok(response_rows!(from_fields!(Response, fields, extensions)))
    }

    fn try_clone(&self, alloc: Global) -> Result<Response, AllocError> {
        response_rows!(clone_table!(Response, self, alloc))
    }
}

/// A response is no schema.
impl Place for Response {
    fn is_schema() -> bool {
        false
    }
}

/// Builds a [`Response`].
#[derive(Debug, Drop)]
pub struct ResponseBuilder {
    response: Response,
}

impl ResponseBuilder {
    ghost use Rattle.utoipa_operation_parts.specs.Response.{built_response, IsEmptyResponse};

    /// Begins with a response of which nothing is said: its description is empty. Takes no memory.
    pub fn new(alloc: Global) -> ResponseBuilder
        ensures { IsEmptyResponse (built_response result) }
    {
        ResponseBuilder {
            response: Response::new(alloc, String::new(alloc)),
        }
    }

    /// Sets the summary.
    pub fn summary(mut self, summary: Option<String>) -> ResponseBuilder
        ensures { built_response result ≡ record (built_response self) { summary = summary } }
    {
        self.response.summary = summary;
        self
    }

    /// Sets the description; the empty text leaves it unsaid.
    pub fn description(mut self, description: String) -> ResponseBuilder
        ensures { built_response result ≡ record (built_response self) { description = description } }
    {
        self.response.description = description;
        self
    }

    /// Puts a content under its media type: in place of an earlier one, or a reference, of that type, and after all others where
    /// there is none.
    ///
    /// Fails where memory runs out, and then gives up what was built.
    pub fn content(
        mut self,
        media_type: String,
        content: Content,
    ) -> Result<ResponseBuilder, AllocError>
        ensures { IfOk result (λ b. (contents : OrderedContents)
            × (contents.entries
            ≡ insert_in_order string_eq (built_response self).content.entries media_type (content_place content))
            × (built_response b ≡ record (built_response self) { content = contents })) }
    {
        put_in_order(&mut self.response.content, media_type, RefOr::T(content)).and(Ok(self))
    }

    /// Puts a reference to a content under a media type: in place of an earlier one, or a content, of that type, and after all
    /// others where there is none.
    ///
    /// Fails where memory runs out, and then gives up what was built.
    pub fn content_ref(
        mut self,
        media_type: String,
        reference: Ref,
    ) -> Result<ResponseBuilder, AllocError>
        ensures { IfOk result (λ b. (contents : OrderedContents)
            × (contents.entries
            ≡ insert_in_order string_eq (built_response self).content.entries media_type (content_reference reference))
            × (built_response b ≡ record (built_response self) { content = contents })) }
    {
        let content = RefOr::Ref(reference);
        put_in_order(&mut self.response.content, media_type, content).and(Ok(self))
    }

    /// Puts a header under its name, in place of an earlier one, or a reference, of that name.
    ///
    /// Fails where memory runs out, and then gives up what was built.
    pub fn header(mut self, name: String, header: Header) -> Result<ResponseBuilder, AllocError>
        ensures { IfOk result (λ b. (headers : Headers)
            × (headers.entries
            ≡ insert_entry string_cmp (built_response self).headers.entries name (header_place header))
            × (built_response b ≡ record (built_response self) { headers = headers })) }
    {
        put(&mut self.response.headers, name, RefOr::T(header)).and(Ok(self))
    }

    /// Puts a reference to a header under the header's name, in place of an earlier one, or a header, of that name.
    ///
    /// Fails where memory runs out, and then gives up what was built.
    pub fn header_ref(mut self, name: String, reference: Ref) -> Result<ResponseBuilder, AllocError>
        ensures { IfOk result (λ b. (headers : Headers)
            × (headers.entries
            ≡ insert_entry string_cmp (built_response self).headers.entries name (header_reference reference))
            × (built_response b ≡ record (built_response self) { headers = headers })) }
    {
        put(&mut self.response.headers, name, RefOr::Ref(reference)).and(Ok(self))
    }

    /// Puts a link, or a reference to one, under its name, in place of an earlier one of that name.
    ///
    /// Fails where memory runs out, and then gives up what was built.
    pub fn link(mut self, name: String, link: RefOr<Link>) -> Result<ResponseBuilder, AllocError>
        ensures { IfOk result (λ b. (links : Links)
            × (links.entries ≡ insert_entry string_cmp (built_response self).links.entries name link)
            × (built_response b ≡ record (built_response self) { links = links })) }
    {
        put(&mut self.response.links, name, link).and(Ok(self))
    }

    /// Sets the specification extensions.
    pub fn extensions(mut self, extensions: Option<Extensions>) -> ResponseBuilder
        ensures { built_response result ≡ record (built_response self) { extensions = extensions } }
    {
        self.response.extensions = extensions;
        self
    }

    /// The response that was built.
    pub fn build(self) -> Response
        ensures { result ≡ built_response self }
    {
        self.response
    }
}

/// Puts a value into a map that keeps its order: in place of an earlier one of that name, and after all others where there is none.
/// Fails where memory runs out, and then gives it up.
fn put_in_order<T: Drop>(map: &mut OrderedMap<T>, name: String, value: T) -> Result<(), AllocError>
    ensures { OnOk result (map.new.entries ≡ insert_in_order string_eq map.old.entries name value) }
{
    drop(map.insert(name, value)?);
    Ok(())
}

impl From<Response> for ResponseBuilder {
    ghost use Rattle.utoipa_operation_parts.specs.Response.{built_response};

    ghost from_gives = { λ response builder. built_response builder ≡ response };

    fn from(response: Response) -> ResponseBuilder {
        ResponseBuilder { response }
    }
}

impl From<ResponseBuilder> for Response {
    ghost use Rattle.utoipa_operation_parts.specs.Response.{built_response};

    ghost from_gives = { λ builder response. response ≡ built_response builder };

    fn from(builder: ResponseBuilder) -> Response {
        builder.build()
    }
}

impl From<ResponseBuilder> for RefOr<Response> {
    ghost use Rattle.utoipa_operation_parts.specs.Response.{built_response, response_place};

    ghost from_gives = { λ builder place. place ≡ response_place (built_response builder) };

    fn from(builder: ResponseBuilder) -> RefOr<Response> {
        RefOr::T(builder.build())
    }
}

/// Says that a response is JSON of a schema of the components.
pub trait ResponseExt: Drop {
    // The response, or the one that was built so far.
    ghost response: { Self → Response };

    /// Puts a content of the schema of that name, by a reference, under `application/json`: in place of an earlier one, and after
    /// all others where there is none.
    ///
    /// Fails where memory runs out, and then gives up the response.
    fn json_schema_ref(self, alloc: Global, schema_name: &str) -> Result<Self, AllocError>
        ensures { IfOk result (λ made. (contents : OrderedContents)
            × PutsJsonSchemaInOrder schema_name.now (response self).content.entries contents.entries
            × (response made ≡ record (response self) { content = contents })) };
}

impl ResponseExt for Response {
    ghost response = { λ response. response };

    fn json_schema_ref(mut self, alloc: Global, schema_name: &str) -> Result<Response, AllocError> {
        let media_type = json_media_type(alloc)?;
        let content = json_schema_content(alloc, schema_name)?;
        drop(self.content.insert(media_type, RefOr::T(content))?);
        Ok(self)
    }
}

impl ResponseExt for ResponseBuilder {
    ghost use Rattle.utoipa_operation_parts.specs.Response.{built_response};

    ghost response = { built_response };

    fn json_schema_ref(
        self,
        alloc: Global,
        schema_name: &str,
    ) -> Result<ResponseBuilder, AllocError> {
        let response = self.response.json_schema_ref(alloc, schema_name)?;
        Ok(ResponseBuilder { response })
    }
}

/// A Responses Object (OpenAPI 3.1, section 4.8.16): the responses of an operation, by their status codes, or `default`.
#[derive(Debug, Drop)]
pub struct Responses {
    /// The responses. A name that begins `x-` is an extension's, and is not read as a response.
    pub responses: BTreeMap<String, RefOr<Response>>,
    /// Specification extensions.
    pub extensions: Option<Extensions>,
}

impl Responses {
    ghost use Rattle.utoipa_operation_parts.specs.Responses.{built_responses, IsEmptyResponses, AreResponses};

    /// No response. Takes no memory.
    pub fn new(alloc: Global) -> Responses
        ensures { IsEmptyResponses result }
    {
        Responses {
            responses: BTreeMap::new(alloc),
            extensions: None,
        }
    }

    /// The responses under their names; of two of a name the later one stays. The iterator has to end. Fails where memory runs
    /// out.
    pub fn from_pairs<I: IntoIterator<Item = (String, RefOr<Response>)>>(
        alloc: Global,
        pairs: I,
    ) -> Result<Responses, AllocError>
        requires can { EachIterator I.into_iter_gives I.IntoIter.can_next pairs }
        requires ends { EachIterator I.into_iter_gives (λ it. IsFinite (I.IntoIter.remaining it)) pairs }
        ensures { IfOk result (λ made. (given : Pairs (RefOr Response))
            × GivesAll I.into_iter_gives I.IntoIter.next_gives pairs given
            × AreResponses (put_each given []) made) }
    {
        let mut responses = BTreeMap::new(alloc);
        put_each(&mut responses, pairs)?;
        Ok(Responses {
            responses,
            extensions: None,
        })
    }

    /// A builder that begins with no response. Takes no memory.
    pub fn builder(alloc: Global) -> ResponsesBuilder
        ensures { IsEmptyResponses (built_responses result) }
    {
        ResponsesBuilder::new(alloc)
    }
}

/// Responses are collected of their names and themselves, as by [`Responses::from_pairs`].
impl FromIterator<(String, RefOr<Response>)> for Responses {
    ghost use Rattle.utoipa_operation_parts.specs.Responses.{AreResponses};

    type Alloc = Global;

    ghost from_iter_gives = { λ pairs made. AreResponses (put_each pairs []) made };

    fn from_iter<U: IntoIterator<Item = (String, RefOr<Response>)>>(
        alloc: Global,
        iter: U,
    ) -> Result<Responses, AllocError> {
        Responses::from_pairs(alloc, iter)
    }
}

impl Documented for Responses {
    ghost use Rattle.utoipa_operation_parts.specs.Responses.{responses_doc};

    ghost kind = { responses_kind };

    ghost doc = { responses_doc };
}

/// The responses of an operation: every member that is no extension.
impl Emit for Responses {
    fn emit<S: JsonSink>(&self, out: &mut S) -> Result<(), AllocError> {
        emit_entries(out, &self.responses, &self.extensions)
    }
}

/// The responses of an operation: every member that is no extension.
impl Tree for Responses {
    ghost use Rattle.utoipa_operation_parts.specs.Responses.{responses_of_kind};

    ghost is_of_kind = { responses_of_kind };

    fn read_plain(
        alloc: Global,
        tree: &Value,
        readings: &mut Readings,
    ) -> Result<Responses, ReadFault> {
        let (responses, extensions) = read_entries(alloc, tree, "Responses", readings)?;
        Ok(Responses {
            responses,
            extensions,
        })
    }

    fn try_clone(&self, alloc: Global) -> Result<Responses, AllocError> {
        Ok(Responses {
            responses: self.responses.try_clone(alloc)?,
            extensions: clone_extensions(alloc, &self.extensions)?,
        })
    }
}

impl Place for Responses {
    fn is_schema() -> bool {
        false
    }
}

/// Builds [`Responses`].
#[derive(Debug, Drop)]
pub struct ResponsesBuilder {
    responses: Responses,
}

impl ResponsesBuilder {
    ghost use Rattle.utoipa_operation_parts.specs.Responses.{built_responses, IsEmptyResponses, ByStatus};

    /// Begins with no response. Takes no memory.
    pub fn new(alloc: Global) -> ResponsesBuilder
        ensures { IsEmptyResponses (built_responses result) }
    {
        ResponsesBuilder {
            responses: Responses::new(alloc),
        }
    }

    /// Puts a response, or a reference to one, under its status code, in place of an earlier one of that code.
    ///
    /// Fails where memory runs out, and then gives up what was built.
    pub fn response(
        mut self,
        code: String,
        response: RefOr<Response>,
    ) -> Result<ResponsesBuilder, AllocError>
        ensures { IfOk result (λ b. (held : ByStatus)
            × (held.entries ≡ insert_entry string_cmp (built_responses self).responses.entries code response)
            × (built_responses b ≡ record (built_responses self) { responses = held })) }
    {
        put(&mut self.responses.responses, code, response).and(Ok(self))
    }

    /// Puts each of the responses under its status code, in place of an earlier one of that code. The iterator has to end.
    ///
    /// Fails where memory runs out, and then gives up what was built.
    pub fn responses_from_iter<I: IntoIterator<Item = (String, RefOr<Response>)>>(
        mut self,
        responses: I,
    ) -> Result<ResponsesBuilder, AllocError>
        requires can { EachIterator I.into_iter_gives I.IntoIter.can_next responses }
        requires ends { EachIterator I.into_iter_gives (λ it. IsFinite (I.IntoIter.remaining it)) responses }
        ensures { IfOk result (λ b. (given : Pairs (RefOr Response)) × (held : ByStatus)
            × GivesAll I.into_iter_gives I.IntoIter.next_gives responses given
            × (held.entries ≡ put_each given (built_responses self).responses.entries)
            × (built_responses b ≡ record (built_responses self) { responses = held })) }
    {
        put_each(&mut self.responses.responses, responses).and(Ok(self))
    }

    /// Puts each response that a type answers under its status code, in place of an earlier one of that code.
    ///
    /// Fails where memory runs out, and then gives up what was built.
    pub fn responses_from_into_responses<R: IntoResponses>(
        mut self,
        alloc: Global,
    ) -> Result<ResponsesBuilder, AllocError>
        ensures { IfOk result (λ b. (held : ByStatus)
            × (responses_by_code held ≡ with_later (responses_by_code (built_responses self).responses) R.answered)
            × (built_responses b ≡ record (built_responses self) { responses = held })) }
    {
        put_responses(&mut self.responses.responses, R::responses(alloc)?)?;
        Ok(self)
    }

    /// Sets the specification extensions.
    pub fn extensions(mut self, extensions: Option<Extensions>) -> ResponsesBuilder
        ensures { built_responses result ≡ record (built_responses self) { extensions = extensions } }
    {
        self.responses.extensions = extensions;
        self
    }

    /// The responses that were built.
    pub fn build(self) -> Responses
        ensures { result ≡ built_responses self }
    {
        self.responses
    }
}

impl From<Responses> for ResponsesBuilder {
    ghost use Rattle.utoipa_operation_parts.specs.Responses.{built_responses};

    ghost from_gives = { λ responses builder. built_responses builder ≡ responses };

    fn from(responses: Responses) -> ResponsesBuilder {
        ResponsesBuilder { responses }
    }
}

impl From<ResponsesBuilder> for Responses {
    ghost use Rattle.utoipa_operation_parts.specs.Responses.{built_responses};

    ghost from_gives = { λ builder responses. responses ≡ built_responses builder };

    fn from(builder: ResponsesBuilder) -> Responses {
        builder.build()
    }
}

impl From<Responses> for BTreeMap<String, RefOr<Response>> {
    ghost from_gives = { λ responses map. map ≡ responses.responses };

    fn from(responses: Responses) -> BTreeMap<String, RefOr<Response>> {
        responses.responses
    }
}

/// The value itself.
impl From<Response> for RefOr<Response> {
    ghost use Rattle.utoipa_base.specs.declared.refs.RefOr.TheVariants as places;

    ghost from_gives = { λ value place. place ≡ places.T value };

    fn from(value: Response) -> RefOr<Response> {
        RefOr::T(value)
    }
}
