//! Parameters of operations.
ghost use Rattle.std.specs.Prelude.{◌≡◌, IfOk, false, option_map, string_cmp};
ghost use Rattle.std.specs.BTreeMap.{insert_entry};
ghost use Rattle.std.specs.Iterator.{IsFinite};
ghost use Rattle.serde_json.specs.View.{view};
ghost use Rattle.utoipa_base.specs.Fill.{Pairs, put_each};
ghost use Rattle.utoipa_base.specs.Kinds.{named, parameter_object};
ghost use Rattle.utoipa_base.specs.Lists.{EachIterator, GivesAll};
ghost use Rattle.utoipa_base.specs.declared.refs.RefOr.{RefOr};
ghost use Rattle.utoipa_media.specs.Builders.{Contents};
ghost use Rattle.utoipa_media.specs.declared.types.Content.{Content};

use serde_json::Value;
use std::alloc::{AllocError, Global};
use std::collections::BTreeMap;
use std::mem;
use utoipa_base::{
    Deprecated, Documented, Emit, Extensions, JsonSink, Place, ReadFault, Readings, RefOr,
    Required, Tree, clone_table, emit_table, from_fields, put, put_each, read_table, row_names,
    row_values,
};
use utoipa_leaf::path::{ParameterIn, ParameterStyle};
use utoipa_media::content::Content;
use utoipa_schema::Schema;

// The rows of a parameter, in the order of the members' names: mark, member, field.
macro_rules! parameter_rows {
    ($lines:ident!($($arguments:tt)*)) => {
        $lines! {
            $($arguments)*;
            optional "allowReserved" allow_reserved,
            defaulted "content" content,
            optional "deprecated" deprecated,
            optional "description" description,
            optional "example" example,
            optional "explode" explode,
            required "in" parameter_in,
            required "name" name,
            required "required" required,
            optional "schema" schema,
            optional "style" style,
        }
    };
}

/// A Parameter Object (OpenAPI 3.1, section 4.8.12): a parameter of an operation, by its schema or by its content.
#[derive(Debug, Drop)]
pub struct Parameter {
    /// The name of the parameter.
    pub name: String,
    /// Where the parameter stands: the member `in`.
    pub parameter_in: ParameterIn,
    /// A description of the parameter.
    pub description: Option<String>,
    /// Whether the parameter has to be sent. The standard wants it so of one that stands in the path; a tree that says otherwise
    /// is read as it is.
    pub required: Required,
    /// Whether the parameter should no longer be used.
    pub deprecated: Option<Deprecated>,
    /// The schema of the parameter's value.
    pub schema: Option<RefOr<Schema>>,
    /// The content of the parameter, by its one media type.
    pub content: BTreeMap<String, RefOr<Content>>,
    /// How the value is serialized.
    pub style: Option<ParameterStyle>,
    /// Whether the items of a list and the members of an object are parameters of their own.
    pub explode: Option<bool>,
    /// Whether reserved characters stay as they are: the member `allowReserved`.
    pub allow_reserved: Option<bool>,
    /// An example of the value.
    example: Option<Value>,
    /// Specification extensions.
    pub extensions: Option<Extensions>,
}

impl Parameter {
    ghost use Rattle.utoipa_operation_parts.specs.Parameter.{built_parameter, parameter_example, IsParameterOf, IsEmptyParameter, in_path, is_required};

    /// A parameter of that name that stands in the path and has to be sent, of which nothing else is said. Takes no memory.
    pub fn new(alloc: Global, name: String) -> Parameter
        ensures { IsParameterOf name in_path is_required result }
    {
        Parameter {
            name,
            parameter_in: ParameterIn::Path,
            description: None,
            required: Required::True,
            deprecated: None,
            schema: None,
            content: BTreeMap::new(alloc),
            style: None,
            explode: None,
            allow_reserved: None,
            example: None,
            extensions: None,
        }
    }

    /// The example of the value.
    pub fn example(&self) -> Option<&Value>
        ensures { option_map (λ v. view v.now) result ≡ parameter_example self.now }
    {
        self.example.as_ref()
    }

    /// A builder that begins with a parameter with no name that stands in the path and need not be sent. Takes no memory.
    pub fn builder(alloc: Global) -> ParameterBuilder
        ensures { IsEmptyParameter (built_parameter result) }
    {
        ParameterBuilder::new(alloc)
    }
}

impl Documented for Parameter {
    ghost use Rattle.utoipa_operation_parts.specs.Parameter.{parameter_doc};

    ghost kind = { named parameter_object };

    ghost doc = { parameter_doc };
}

/// A parameter, by its member table.
impl Emit for Parameter {
    fn emit<S: JsonSink>(&self, out: &mut S) -> Result<(), AllocError> {
        let names = parameter_rows!(row_names!());
        let values = parameter_rows!(row_values!(self));
        emit_table(out, names, &values, &self.extensions)
    }
}

/// A parameter, by its member table.
impl Tree for Parameter {
    ghost use Rattle.utoipa_operation_parts.specs.Parameter.{parameter_of_kind};

    ghost is_of_kind = { parameter_of_kind };

    fn read_plain(
        alloc: Global,
        tree: &Value,
        readings: &mut Readings,
    ) -> Result<Parameter, ReadFault> {
        let names = parameter_rows!(row_names!());
        let (fields, extensions) = read_table(alloc, tree, "Parameter", names, readings)?;
        Ok(parameter_rows!(from_fields!(Parameter, fields, extensions)))
    }

    fn try_clone(&self, alloc: Global) -> Result<Parameter, AllocError> {
        parameter_rows!(clone_table!(Parameter, self, alloc))
    }
}

/// A parameter is no schema.
impl Place for Parameter {
    fn is_schema() -> bool {
        false
    }
}

/// Builds a [`Parameter`].
#[derive(Debug, Drop)]
pub struct ParameterBuilder {
    parameter: Parameter,
}

impl ParameterBuilder {
    ghost use Rattle.utoipa_operation_parts.specs.Parameter.{built_parameter, IsEmptyParameter, required_in};

    /// Begins with a parameter with no name that stands in the path and need not be sent. Takes no memory.
    pub fn new(alloc: Global) -> ParameterBuilder
        ensures { IsEmptyParameter (built_parameter result) }
    {
        let mut parameter = Parameter::new(alloc, String::new(alloc));
        parameter.required = Required::False;
        ParameterBuilder { parameter }
    }

    /// Sets the name.
    pub fn name(mut self, name: String) -> ParameterBuilder
        ensures { built_parameter result ≡ record (built_parameter self) { name = name } }
    {
        self.parameter.name = name;
        self
    }

    /// Sets where the parameter stands. Whether it has to be sent stays as it was, also where it stands in the path now.
    pub fn parameter_in(mut self, parameter_in: ParameterIn) -> ParameterBuilder
        ensures { built_parameter result ≡ record (built_parameter self) { parameter_in = parameter_in } }
    {
        self.parameter.parameter_in = parameter_in;
        self
    }

    /// Sets whether the parameter has to be sent. One that stands in the path at that moment has to be, whatever is given.
    pub fn required(mut self, required: Required) -> ParameterBuilder
        ensures { built_parameter result
            ≡ record (built_parameter self) { required = required_in (built_parameter self).parameter_in required } }
    {
        self.parameter.required = match self.parameter.parameter_in {
            ParameterIn::Path => Required::True,
            _ => required,
        };
        self
    }

    /// Sets the description.
    pub fn description(mut self, description: Option<String>) -> ParameterBuilder
        ensures { built_parameter result ≡ record (built_parameter self) { description = description } }
    {
        self.parameter.description = description;
        self
    }

    /// Sets whether the parameter should no longer be used.
    pub fn deprecated(mut self, deprecated: Option<Deprecated>) -> ParameterBuilder
        ensures { built_parameter result ≡ record (built_parameter self) { deprecated = deprecated } }
    {
        self.parameter.deprecated = deprecated;
        self
    }

    /// Sets the schema of the parameter's value.
    pub fn schema(mut self, schema: Option<RefOr<Schema>>) -> ParameterBuilder
        ensures { built_parameter result ≡ record (built_parameter self) { schema = schema } }
    {
        drop(mem::replace(&mut self.parameter.schema, schema));
        self
    }

    /// Puts a content, or a reference to one, under its media type, in place of an earlier one of that type.
    ///
    /// Fails where memory runs out, and then gives up what was built.
    pub fn content(
        mut self,
        media_type: String,
        content: RefOr<Content>,
    ) -> Result<ParameterBuilder, AllocError>
        ensures { IfOk result (λ b. (contents : Contents)
            × (contents.entries ≡ insert_entry string_cmp (built_parameter self).content.entries media_type content)
            × (built_parameter b ≡ record (built_parameter self) { content = contents })) }
    {
        put(&mut self.parameter.content, media_type, content).and(Ok(self))
    }

    /// Puts each of the contents under its media type, in place of an earlier one of that type. The iterator has to end.
    ///
    /// Fails where memory runs out, and then gives up what was built.
    pub fn contents_from_iter<I: IntoIterator<Item = (String, RefOr<Content>)>>(
        mut self,
        contents: I,
    ) -> Result<ParameterBuilder, AllocError>
        requires can { EachIterator I.into_iter_gives I.IntoIter.can_next contents }
        requires ends { EachIterator I.into_iter_gives (λ it. IsFinite (I.IntoIter.remaining it)) contents }
        ensures { IfOk result (λ b. (given : Pairs (RefOr Content)) × (held : Contents)
            × GivesAll I.into_iter_gives I.IntoIter.next_gives contents given
            × (held.entries ≡ put_each given (built_parameter self).content.entries)
            × (built_parameter b ≡ record (built_parameter self) { content = held })) }
    {
        put_each(&mut self.parameter.content, contents).and(Ok(self))
    }

    /// Sets how the value is serialized.
    pub fn style(mut self, style: Option<ParameterStyle>) -> ParameterBuilder
        ensures { built_parameter result ≡ record (built_parameter self) { style = style } }
    {
        self.parameter.style = style;
        self
    }

    /// Sets whether the items of a list and the members of an object are parameters of their own.
    pub fn explode(mut self, explode: Option<bool>) -> ParameterBuilder
        ensures { built_parameter result ≡ record (built_parameter self) { explode = explode } }
    {
        self.parameter.explode = explode;
        self
    }

    /// Sets whether reserved characters stay as they are.
    pub fn allow_reserved(mut self, allow_reserved: Option<bool>) -> ParameterBuilder
        ensures { built_parameter result ≡ record (built_parameter self) { allow_reserved = allow_reserved } }
    {
        self.parameter.allow_reserved = allow_reserved;
        self
    }

    /// Sets the example of the value.
    pub fn example(mut self, example: Option<Value>) -> ParameterBuilder
        ensures { built_parameter result ≡ record (built_parameter self) { example = example } }
    {
        self.parameter.example = example;
        self
    }

    /// Sets the specification extensions.
    pub fn extensions(mut self, extensions: Option<Extensions>) -> ParameterBuilder
        ensures { built_parameter result ≡ record (built_parameter self) { extensions = extensions } }
    {
        self.parameter.extensions = extensions;
        self
    }

    /// The parameter that was built.
    pub fn build(self) -> Parameter
        ensures { result ≡ built_parameter self }
    {
        self.parameter
    }
}

impl From<Parameter> for ParameterBuilder {
    ghost use Rattle.utoipa_operation_parts.specs.Parameter.{built_parameter};

    ghost from_gives = { λ parameter builder. built_parameter builder ≡ parameter };

    fn from(parameter: Parameter) -> ParameterBuilder {
        ParameterBuilder { parameter }
    }
}

impl From<ParameterBuilder> for Parameter {
    ghost use Rattle.utoipa_operation_parts.specs.Parameter.{built_parameter};

    ghost from_gives = { λ builder parameter. parameter ≡ built_parameter builder };

    fn from(builder: ParameterBuilder) -> Parameter {
        builder.build()
    }
}

/// The value itself.
impl From<Parameter> for RefOr<Parameter> {
    ghost use Rattle.utoipa_base.specs.declared.refs.RefOr.TheVariants as places;

    ghost from_gives = { λ value place. place ≡ places.T value };

    fn from(value: Parameter) -> RefOr<Parameter> {
        RefOr::T(value)
    }
}
