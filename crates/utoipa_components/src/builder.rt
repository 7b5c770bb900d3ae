//! Building components.
ghost use Rattle.std.specs.Prelude.{◌≡◌, Some, None, IfOk, IfErr, String, string_bytes, string_cmp};
ghost use Rattle.std.specs.BTreeMap.{insert_entry};
ghost use Rattle.std.specs.Iterator.{IsFinite};
ghost use Rattle.utoipa_base.specs.Fill.{Pairs, put_each};
ghost use Rattle.utoipa_base.specs.Lists.{EachIterator, GivesAll};
ghost use Rattle.utoipa_base.specs.Views.{pairs_of};
ghost use Rattle.utoipa_base.specs.declared.refs.RefOr.{RefOr};
ghost use Rattle.utoipa_components.specs.Components.{built_components, AreEmptyComponents, PlacesByName, PathItemsByName};
ghost use Rattle.utoipa_compose.specs.Compositions.{place_doc};
ghost use Rattle.utoipa_compose.specs.declared.fault.ComposeFault.TheVariants.{KeyIsReference};
ghost use Rattle.utoipa_leaf.specs.declared.example.Example.{Example};
ghost use Rattle.utoipa_media.specs.declared.link.Link.{Link};
ghost use Rattle.utoipa_media.specs.declared.types.Content.{Content};
ghost use Rattle.utoipa_media.specs.declared.types.Header.{Header};
ghost use Rattle.utoipa_operation_parts.specs.Traits.{response_place_doc};
ghost use Rattle.utoipa_operation_parts.specs.declared.parameter.Parameter.{Parameter};
ghost use Rattle.utoipa_operation_parts.specs.declared.request_body.RequestBody.{RequestBody};
ghost use Rattle.utoipa_operation_parts.specs.declared.response.Response.{Response};
ghost use Rattle.utoipa_path.specs.Builders.{Callback};
ghost use Rattle.utoipa_schema.specs.declared.types.Schema.{Schema};
ghost use Rattle.utoipa_security.specs.declared.security.scheme.SecurityScheme.{SecurityScheme};

use crate::components::Components;
use std::alloc::{AllocError, Global};
use utoipa_base::{Extensions, RefOr, put, put_each};
use utoipa_compose::{ComposeFault, ToSchema};
use utoipa_leaf::example::Example;
use utoipa_media::content::Content;
use utoipa_media::header::Header;
use utoipa_media::link::Link;
use utoipa_operation_parts::{Parameter, RequestBody, Response, ToResponse};
use utoipa_path::{Callback, PathItem};
use utoipa_schema::Schema;
use utoipa_security::security::SecurityScheme;

/// Builds [`Components`].
#[derive(Debug, Drop)]
pub struct ComponentsBuilder {
    components: Components,
}

impl ComponentsBuilder {
    /// Begins with no components and no extensions. Takes no memory.
    pub fn new(alloc: Global) -> ComponentsBuilder
        ensures { AreEmptyComponents (built_components result) }
    {
        ComponentsBuilder {
            components: Components::new(alloc),
        }
    }

    /// Puts a schema, or a reference to one, under its name, in place of an earlier one of that name.
    ///
    /// Fails where memory runs out, and then gives up what was built.
    pub fn schema(
        mut self,
        name: String,
        schema: RefOr<Schema>,
    ) -> Result<ComponentsBuilder, AllocError>
        ensures { IfOk result (λ b. (held : PlacesByName Schema)
            × (held.entries ≡ insert_entry string_cmp (built_components self).schemas.entries name schema)
            × (built_components b ≡ record (built_components self) { schemas = held })) }
    {
        put(&mut self.components.schemas, name, schema).and(Ok(self))
    }

    /// Puts the schema of a type, or a reference to it, under the type's name, in place of an earlier one of that name. The schemas
    /// that it refers to are not put: [`ComponentsBuilder::schemas_from`] puts them too.
    ///
    /// Fails with `KeyIsReference` exactly where a reference stands for the schema of a map's keys, and with `Memory` where memory runs
    /// out, and then gives up what was built.
    pub fn schema_from<T: ToSchema>(self, alloc: Global) -> Result<ComponentsBuilder, ComposeFault>
        ensures ok { IfOk result (λ b. (name : String Global) × (schema : RefOr Schema) × (held : PlacesByName Schema)
            × (string_bytes name ≡ T.named) × (T.described ≡ Some (place_doc schema))
            × (held.entries ≡ insert_entry string_cmp (built_components self).schemas.entries name schema)
            × (built_components b ≡ record (built_components self) { schemas = held })) }
        ensures key { IfErr result (λ fault. fault ≡ KeyIsReference → T.described ≡ None) }
    {
        let name = T::name().into_owned(alloc)?;
        let schema = T::schema(alloc)?;
        Ok(self.schema(name, schema)?)
    }

    /// Puts the schema of a type, or a reference to it, under the type's name, and those that it refers to ([`ToSchema::schemas`]), each
    /// under its own, in place of earlier ones of these names. Where one that it refers to has the type's name, the type's own stays.
    ///
    /// Fails with `KeyIsReference` exactly where a reference stands for the schema of a map's keys, and with `Memory` where memory runs
    /// out, and then gives up what was built.
    pub fn schemas_from<T: ToSchema>(self, alloc: Global) -> Result<ComponentsBuilder, ComposeFault>
        ensures ok { IfOk result (λ b. (given : Pairs (RefOr Schema)) × (name : String Global)
            × (schema : RefOr Schema)
            × (held : PlacesByName Schema)
            × (pairs_of place_doc given ≡ T.referred) × (string_bytes name ≡ T.named)
            × (T.described ≡ Some (place_doc schema))
            × (held.entries
            ≡ insert_entry string_cmp (put_each given (built_components self).schemas.entries) name schema)
            × (built_components b ≡ record (built_components self) { schemas = held })) }
        ensures key { IfErr result (λ fault. fault ≡ KeyIsReference → T.described ≡ None) }
    {
        let referred = referred_schemas::<T>(alloc)?;
        self.schemas_from_iter(referred)?.schema_from::<T>(alloc)
    }

    /// Puts each of the schemas, or references to such, under its name, in place of an earlier one of that name. The iterator has
    /// to end.
    ///
    /// Fails where memory runs out, and then gives up what was built.
    pub fn schemas_from_iter<I: IntoIterator<Item = (String, RefOr<Schema>)>>(
        mut self,
        schemas: I,
    ) -> Result<ComponentsBuilder, AllocError>
        requires can { EachIterator I.into_iter_gives I.IntoIter.can_next schemas }
        requires ends { EachIterator I.into_iter_gives (λ it. IsFinite (I.IntoIter.remaining it)) schemas }
        ensures { IfOk result (λ b. (given : Pairs (RefOr Schema)) × (held : PlacesByName Schema)
            × GivesAll I.into_iter_gives I.IntoIter.next_gives schemas given
            × (held.entries ≡ put_each given (built_components self).schemas.entries)
            × (built_components b ≡ record (built_components self) { schemas = held })) }
    {
        put_each(&mut self.components.schemas, schemas).and(Ok(self))
    }

    /// Puts a response, or a reference to one, under its name, in place of an earlier one of that name.
    ///
    /// Fails where memory runs out, and then gives up what was built.
    pub fn response(
        mut self,
        name: String,
        response: RefOr<Response>,
    ) -> Result<ComponentsBuilder, AllocError>
        ensures { IfOk result (λ b. (held : PlacesByName Response)
            × (held.entries ≡ insert_entry string_cmp (built_components self).responses.entries name response)
            × (built_components b ≡ record (built_components self) { responses = held })) }
    {
        put(&mut self.components.responses, name, response).and(Ok(self))
    }

    /// Puts the response of a type, or a reference to it, under the name that the type gives it, in place of an earlier one of that name.
    ///
    /// Fails where memory runs out, and then gives up what was built.
    pub fn response_from<'r, T: ToResponse<'r>>(
        self,
        alloc: Global,
    ) -> Result<ComponentsBuilder, AllocError>
        ensures { IfOk result (λ b. (name : String Global) × (response : RefOr Response)
            × (held : PlacesByName Response)
            × (string_bytes name ≡ T.named) × (response_place_doc response ≡ T.described)
            × (held.entries ≡ insert_entry string_cmp (built_components self).responses.entries name response)
            × (built_components b ≡ record (built_components self) { responses = held })) }
    {
        let (name, response) = T::response(alloc)?;
        self.response(String::from_str(alloc, name)?, response)
    }

    /// Puts each of the responses, or references to such, under its name, in place of an earlier one of that name. The iterator has
    /// to end.
    ///
    /// Fails where memory runs out, and then gives up what was built.
    pub fn responses_from_iter<I: IntoIterator<Item = (String, RefOr<Response>)>>(
        mut self,
        responses: I,
    ) -> Result<ComponentsBuilder, AllocError>
        requires can { EachIterator I.into_iter_gives I.IntoIter.can_next responses }
        requires ends { EachIterator I.into_iter_gives (λ it. IsFinite (I.IntoIter.remaining it)) responses }
        ensures { IfOk result (λ b. (given : Pairs (RefOr Response)) × (held : PlacesByName Response)
            × GivesAll I.into_iter_gives I.IntoIter.next_gives responses given
            × (held.entries ≡ put_each given (built_components self).responses.entries)
            × (built_components b ≡ record (built_components self) { responses = held })) }
    {
        put_each(&mut self.components.responses, responses).and(Ok(self))
    }

    /// Puts a parameter, or a reference to one, under its name, in place of an earlier one of that name.
    ///
    /// Fails where memory runs out, and then gives up what was built.
    pub fn parameter(
        mut self,
        name: String,
        parameter: RefOr<Parameter>,
    ) -> Result<ComponentsBuilder, AllocError>
        ensures { IfOk result (λ b. (held : PlacesByName Parameter)
            × (held.entries ≡ insert_entry string_cmp (built_components self).parameters.entries name parameter)
            × (built_components b ≡ record (built_components self) { parameters = held })) }
    {
        put(&mut self.components.parameters, name, parameter).and(Ok(self))
    }

    /// Puts an example, or a reference to one, under its name, in place of an earlier one of that name.
    ///
    /// Fails where memory runs out, and then gives up what was built.
    pub fn example(
        mut self,
        name: String,
        example: RefOr<Example>,
    ) -> Result<ComponentsBuilder, AllocError>
        ensures { IfOk result (λ b. (held : PlacesByName Example)
            × (held.entries ≡ insert_entry string_cmp (built_components self).examples.entries name example)
            × (built_components b ≡ record (built_components self) { examples = held })) }
    {
        put(&mut self.components.examples, name, example).and(Ok(self))
    }

    /// Puts a request body, or a reference to one, under its name, in place of an earlier one of that name.
    ///
    /// Fails where memory runs out, and then gives up what was built.
    pub fn request_body(
        mut self,
        name: String,
        request_body: RefOr<RequestBody>,
    ) -> Result<ComponentsBuilder, AllocError>
        ensures { IfOk result (λ b. (held : PlacesByName RequestBody)
            × (held.entries ≡ insert_entry string_cmp (built_components self).request_bodies.entries name request_body)
            × (built_components b ≡ record (built_components self) { request_bodies = held })) }
    {
        put(&mut self.components.request_bodies, name, request_body).and(Ok(self))
    }

    /// Puts a header, or a reference to one, under its name, in place of an earlier one of that name.
    ///
    /// Fails where memory runs out, and then gives up what was built.
    pub fn header(
        mut self,
        name: String,
        header: RefOr<Header>,
    ) -> Result<ComponentsBuilder, AllocError>
        ensures { IfOk result (λ b. (held : PlacesByName Header)
            × (held.entries ≡ insert_entry string_cmp (built_components self).headers.entries name header)
            × (built_components b ≡ record (built_components self) { headers = held })) }
    {
        put(&mut self.components.headers, name, header).and(Ok(self))
    }

    /// Puts a link, or a reference to one, under its name, in place of an earlier one of that name.
    ///
    /// Fails where memory runs out, and then gives up what was built.
    pub fn link(mut self, name: String, link: RefOr<Link>) -> Result<ComponentsBuilder, AllocError>
        ensures { IfOk result (λ b. (held : PlacesByName Link)
            × (held.entries ≡ insert_entry string_cmp (built_components self).links.entries name link)
            × (built_components b ≡ record (built_components self) { links = held })) }
    {
        put(&mut self.components.links, name, link).and(Ok(self))
    }

    /// Puts a callback, or a reference to one, under its name, in place of an earlier one of that name.
    ///
    /// Fails where memory runs out, and then gives up what was built.
    pub fn callback(
        mut self,
        name: String,
        callback: RefOr<Callback>,
    ) -> Result<ComponentsBuilder, AllocError>
        ensures { IfOk result (λ b. (held : PlacesByName Callback)
            × (held.entries ≡ insert_entry string_cmp (built_components self).callbacks.entries name callback)
            × (built_components b ≡ record (built_components self) { callbacks = held })) }
    {
        put(&mut self.components.callbacks, name, callback).and(Ok(self))
    }

    /// Puts a path item under its name, in place of an earlier one of that name.
    ///
    /// Fails where memory runs out, and then gives up what was built.
    pub fn path_item(
        mut self,
        name: String,
        path_item: PathItem,
    ) -> Result<ComponentsBuilder, AllocError>
        ensures { IfOk result (λ b. (held : PathItemsByName)
            × (held.entries ≡ insert_entry string_cmp (built_components self).path_items.entries name path_item)
            × (built_components b ≡ record (built_components self) { path_items = held })) }
    {
        put(&mut self.components.path_items, name, path_item).and(Ok(self))
    }

    /// Puts a content, or a reference to one, under its name, in place of an earlier one of that name.
    ///
    /// Fails where memory runs out, and then gives up what was built.
    pub fn media_type(
        mut self,
        name: String,
        media_type: RefOr<Content>,
    ) -> Result<ComponentsBuilder, AllocError>
        ensures { IfOk result (λ b. (held : PlacesByName Content)
            × (held.entries ≡ insert_entry string_cmp (built_components self).media_types.entries name media_type)
            × (built_components b ≡ record (built_components self) { media_types = held })) }
    {
        put(&mut self.components.media_types, name, media_type).and(Ok(self))
    }

    /// Puts each of the contents, or references to such, under its name, in place of an earlier one of that name. The iterator has
    /// to end.
    ///
    /// Fails where memory runs out, and then gives up what was built.
    pub fn media_types_from_iter<I: IntoIterator<Item = (String, RefOr<Content>)>>(
        mut self,
        media_types: I,
    ) -> Result<ComponentsBuilder, AllocError>
        requires can { EachIterator I.into_iter_gives I.IntoIter.can_next media_types }
        requires ends { EachIterator I.into_iter_gives (λ it. IsFinite (I.IntoIter.remaining it)) media_types }
        ensures { IfOk result (λ b. (given : Pairs (RefOr Content)) × (held : PlacesByName Content)
            × GivesAll I.into_iter_gives I.IntoIter.next_gives media_types given
            × (held.entries ≡ put_each given (built_components self).media_types.entries)
            × (built_components b ≡ record (built_components self) { media_types = held })) }
    {
        put_each(&mut self.components.media_types, media_types).and(Ok(self))
    }

    /// Puts a security scheme, or a reference to one, under its name, in place of an earlier one of that name.
    ///
    /// Fails where memory runs out, and then gives up what was built.
    pub fn security_scheme(
        mut self,
        name: String,
        security_scheme: RefOr<SecurityScheme>,
    ) -> Result<ComponentsBuilder, AllocError>
        ensures { IfOk result (λ b. (held : PlacesByName SecurityScheme)
            × (held.entries
            ≡ insert_entry string_cmp (built_components self).security_schemes.entries name security_scheme)
            × (built_components b ≡ record (built_components self) { security_schemes = held })) }
    {
        drop(
            self.components
                .security_schemes
                .insert(name, security_scheme)?,
        );
        Ok(self)
    }

    /// Sets the specification extensions.
    pub fn extensions(mut self, extensions: Option<Extensions>) -> ComponentsBuilder
        ensures { built_components result ≡ record (built_components self) { extensions = extensions } }
    {
        self.components.extensions = extensions;
        self
    }

    /// The components that were built.
    pub fn build(self) -> Components
        ensures { result ≡ built_components self }
    {
        self.components
    }
}

// The schemas that the schema of a type refers to, each with its name. Fails where memory runs out.
fn referred_schemas<T: ToSchema>(alloc: Global) -> Result<Vec<(String, RefOr<Schema>)>, AllocError>
    ensures { IfOk result (λ schemas. pairs_of place_doc schemas.items ≡ T.referred) }
{
    let mut schemas = Vec::new(alloc);
    T::schemas(alloc, &mut schemas)?;
    Ok(schemas)
}

impl From<Components> for ComponentsBuilder {
    ghost from_gives = { λ components builder. built_components builder ≡ components };

    fn from(components: Components) -> ComponentsBuilder {
        ComponentsBuilder { components }
    }
}

impl From<ComponentsBuilder> for Components {
    ghost from_gives = { λ builder components. components ≡ built_components builder };

    fn from(builder: ComponentsBuilder) -> Components {
        builder.build()
    }
}
