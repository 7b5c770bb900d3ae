//! Components: the objects of a document that its other parts refer to.
ghost use Rattle.std.specs.Prelude.{◌≡◌, OnOk, OnErr, string_cmp};
ghost use Rattle.std.specs.BTreeMap.{insert_entry};
ghost use Rattle.std.specs.Iterator.{IsFinite};
ghost use Rattle.serde_json.specs.Data.{object};
ghost use Rattle.serde_json.specs.View.{members_view};
ghost use Rattle.utoipa_base.specs.Docs.{no_docs, doc};
ghost use Rattle.utoipa_base.specs.Fill.{Pairs, put_each};
ghost use Rattle.utoipa_base.specs.Kinds.{named, schema, components_object};
ghost use Rattle.utoipa_base.specs.Lists.{EachIterator, GivesAll};
ghost use Rattle.utoipa_base.specs.Reading.{read};
ghost use Rattle.utoipa_base.specs.Reads.{Reads};
ghost use Rattle.utoipa_base.specs.Values.{values};
ghost use Rattle.utoipa_base.specs.declared.refs.RefOr.{RefOr};
ghost use Rattle.utoipa_components.specs.Components.{components_doc, components_of_kind, places_doc, schemas_alone, built_components, AreEmptyComponents, HoldSchemes};
ghost use Rattle.utoipa_large_objects.specs.Members.{with_fields};
ghost use Rattle.utoipa_schema.specs.Docs.{schema_doc};
ghost use Rattle.utoipa_security.specs.declared.security.scheme.SecurityScheme.{SecurityScheme};

use crate::builder::ComponentsBuilder;
use json::{Reader, Token};
use serde_json::{Map, Value};
use std::alloc::{AllocError, Global};
use std::collections::BTreeMap;
use std::mem;
use utoipa_base::table::DefaultedField;
use utoipa_base::{
    Documented, Emit, Extensions, JsonSink, Place, ReadFault, Readings, RefOr, Tree, Unread,
    beside, clone_table, emit_table, from_fields, put_all, put_each, read_table, row_names,
    row_values,
};
use utoipa_large_objects::members_from_tokens;
use utoipa_leaf::example::Example;
use utoipa_media::content::Content;
use utoipa_media::header::Header;
use utoipa_media::link::Link;
use utoipa_operation_parts::{Parameter, RequestBody, Response};
use utoipa_path::{Callback, PathItem};
use utoipa_schema::Schema;
use utoipa_security::security::SecurityScheme;

// The rows of components, in the order of the members' names: mark, member, field.
macro_rules! components_rows {
    ($lines:ident!($($arguments:tt)*)) => {
        $lines! {
            $($arguments)*;
            defaulted "callbacks" callbacks,
            defaulted "examples" examples,
            defaulted "headers" headers,
            defaulted "links" links,
            defaulted "mediaTypes" media_types,
            defaulted "parameters" parameters,
            defaulted "pathItems" path_items,
            defaulted "requestBodies" request_bodies,
            defaulted "responses" responses,
            defaulted "schemas" schemas,
            defaulted "securitySchemes" security_schemes,
        }
    };
}

/// A Components Object (OpenAPI 3.1, section 4.8.7; `mediaTypes` from 3.2): objects of a document under their names, to which its
/// other parts refer.
#[derive(Debug, Drop)]
pub struct Components {
    /// The schemas.
    pub schemas: BTreeMap<String, RefOr<Schema>>,
    /// The responses.
    pub responses: BTreeMap<String, RefOr<Response>>,
    /// The parameters.
    pub parameters: BTreeMap<String, RefOr<Parameter>>,
    /// The examples.
    pub examples: BTreeMap<String, RefOr<Example>>,
    /// The request bodies: the member `requestBodies`.
    pub request_bodies: BTreeMap<String, RefOr<RequestBody>>,
    /// The headers.
    pub headers: BTreeMap<String, RefOr<Header>>,
    /// The links.
    pub links: BTreeMap<String, RefOr<Link>>,
    /// The callbacks.
    pub callbacks: BTreeMap<String, RefOr<Callback>>,
    /// The path items: the member `pathItems`. No reference stands in their place, since a path item has a `$ref` of its own.
    pub path_items: BTreeMap<String, PathItem>,
    /// The contents: the member `mediaTypes`.
    pub media_types: BTreeMap<String, RefOr<Content>>,
    /// The security schemes: the member `securitySchemes`. Security requirements name them.
    pub security_schemes: BTreeMap<String, RefOr<SecurityScheme>>,
    /// Specification extensions.
    pub extensions: Option<Extensions>,
}

impl Components {
    /// No components and no extensions. Takes no memory.
    pub fn new(alloc: Global) -> Components
        ensures { AreEmptyComponents result }
    {
        Components {
            schemas: BTreeMap::new(alloc),
            responses: BTreeMap::new(alloc),
            parameters: BTreeMap::new(alloc),
            examples: BTreeMap::new(alloc),
            request_bodies: BTreeMap::new(alloc),
            headers: BTreeMap::new(alloc),
            links: BTreeMap::new(alloc),
            callbacks: BTreeMap::new(alloc),
            path_items: BTreeMap::new(alloc),
            media_types: BTreeMap::new(alloc),
            security_schemes: BTreeMap::new(alloc),
            extensions: None,
        }
    }

    /// A builder that begins with no components. Takes no memory.
    pub fn builder(alloc: Global) -> ComponentsBuilder
        ensures { AreEmptyComponents (built_components result) }
    {
        ComponentsBuilder::new(alloc)
    }

    /// Puts a security scheme, or a reference to one, under its name, in place of an earlier one of that name.
    ///
    /// Fails where memory runs out, and then nothing has changed.
    pub fn add_security_scheme(
        &mut self,
        name: String,
        security_scheme: RefOr<SecurityScheme>,
    ) -> Result<(), AllocError>
        ensures ok { OnOk result (HoldSchemes
            (insert_entry string_cmp self.old.security_schemes.entries name security_scheme) self.old self.new) }
        ensures err { OnErr result (HoldSchemes self.old.security_schemes.entries self.old self.new) }
    {
        drop(self.security_schemes.insert(name, security_scheme)?);
        Ok(())
    }

    /// Puts each of the security schemes, or references to such, under its name, in place of an earlier one of that name. The
    /// iterator has to end.
    ///
    /// Fails where memory runs out, and then nothing has changed.
    pub fn add_security_schemes_from_iter<I: IntoIterator<Item = (String, RefOr<SecurityScheme>)>>(
        &mut self,
        alloc: Global,
        security_schemes: I,
    ) -> Result<(), AllocError>
        requires can { EachIterator I.into_iter_gives I.IntoIter.can_next security_schemes }
        requires ends { EachIterator I.into_iter_gives (λ it. IsFinite (I.IntoIter.remaining it)) security_schemes }
        ensures ok { OnOk result ((given : Pairs (RefOr SecurityScheme))
            × GivesAll I.into_iter_gives I.IntoIter.next_gives security_schemes given
            × HoldSchemes (put_each given self.old.security_schemes.entries) self.old self.new) }
        ensures err { OnErr result (HoldSchemes self.old.security_schemes.entries self.old self.new) }
    {
        let mut later = BTreeMap::new(alloc);
        put_each(&mut later, security_schemes)?;
        put_all(&mut self.security_schemes, alloc, later)
    }
}

impl Documented for Components {
    ghost kind = { named components_object };

    ghost doc = { components_doc };
}

/// Components, by their member table.
impl Emit for Components {
    fn emit<S: JsonSink>(&self, out: &mut S) -> Result<(), AllocError> {
        let names = components_rows!(row_names!());
        let values = components_rows!(row_values!(self));
        emit_table(out, names, &values, &self.extensions)
    }
}

/// Components, by their member table.
impl Tree for Components {
    ghost is_of_kind = { components_of_kind };

    fn read_plain(
        alloc: Global,
        tree: &Value,
        readings: &mut Readings,
    ) -> Result<Components, ReadFault> {
        let names = components_rows!(row_names!());
        let (fields, extensions) = read_table(alloc, tree, "Components", names, readings)?;
        Ok(components_rows!(from_fields!(Components, fields, extensions)))
    }

    // The schemas, by far the most of components, are read one by one, and all else from a tree.
    fn from_tokens(
        alloc: Global,
        first: Token<'_>,
        reader: &mut Reader<'_>,
        depth: usize,
        readings: &mut Readings,
    ) -> Result<Components, Unread> {
        let (large, others) = members_from_tokens::<(Option<_>, ()), _>(
            alloc,
            first,
            reader,
            depth,
            &["schemas"],
            readings,
        )?;
        let (large, rest) = beside(large, of_members(alloc, others, readings))?;
        Ok(with_schemas(rest, large))
    }

    fn try_clone(&self, alloc: Global) -> Result<Components, AllocError> {
        components_rows!(clone_table!(Components, self, alloc))
    }
}

// The components that an object of these members is. Fails as reading its tree does.
fn of_members(
    alloc: Global,
    members: Map<String, Value>,
    readings: &mut Readings,
) -> Result<Components, ReadFault>
    ensures { Reads (read (named components_object) (object (members_view members.entries))) components_doc result
        readings.old readings.new (values (object (members_view members.entries))) }
{
    let tree = Value::Object(members);
    Components::read_plain(alloc, &tree, readings)
}

// The components with these schemas in place of theirs.
fn with_schemas(
    rest: Components,
    large: (DefaultedField<BTreeMap<String, RefOr<Schema>>>, ()),
) -> Components
    ensures { components_doc result
        ≡ with_fields schemas_alone (doc (places_doc schema schema_doc large.0.0) no_docs) (components_doc rest) }
{
    let mut components = rest;
    let (DefaultedField(schemas), ()) = large;
    drop(mem::replace(&mut components.schemas, schemas));
    components
}

impl Place for Components {
    fn is_schema() -> bool {
        false
    }
}
