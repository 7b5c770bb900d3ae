//! Examples.
ghost use Rattle.std.specs.Prelude.{◌≡◌, [], false, string_bytes};
ghost use Rattle.utoipa_base.specs.Kinds.{named, example_object};

use serde_json::Value;
use std::alloc::{AllocError, Global};
use utoipa_base::{
    Documented, Emit, Extensions, JsonSink, Place, ReadFault, Readings, RefOr, Tree, clone_table,
    emit_table, from_fields, read_table, row_names, row_values,
};

// The rows of an example, in the order of the members' names: mark, member, field.
macro_rules! example_rows {
    ($lines:ident!($($arguments:tt)*)) => {
        $lines! {
            $($arguments)*;
            defaulted "description" description,
            defaulted "externalValue" external_value,
            defaulted "summary" summary,
            optional "value" value,
        }
    };
}

/// An Example Object (OpenAPI 3.1, section 4.8.19): an example value, or where it is found.
#[derive(Debug, Drop)]
pub struct Example {
    /// A short description; empty where there is none.
    pub summary: String,
    /// A long description, in CommonMark; empty where there is none.
    pub description: String,
    /// The example itself. It excludes `external_value`.
    pub value: Option<Value>,
    /// A URI of the example, the member `externalValue`; empty where there is none. It excludes `value`.
    pub external_value: String,
    /// Specification extensions.
    pub extensions: Option<Extensions>,
}

impl Example {
    ghost use Rattle.utoipa_leaf.specs.Example.{empty_example, built_example};

    /// A builder that begins with an example of which nothing is said. Takes no memory.
    pub fn builder(alloc: Global) -> ExampleBuilder
        ensures { (summary : _) × (description : _) × (external_value : _) × (string_bytes summary ≡ [])
            × (string_bytes description ≡ []) × (string_bytes external_value ≡ [])
            × (built_example result ≡ empty_example summary description external_value) }
    {
        ExampleBuilder::new(alloc)
    }
}

impl Documented for Example {
    ghost use Rattle.utoipa_leaf.specs.Example.{example_doc};

    ghost kind = { named example_object };

    ghost doc = { example_doc };
}

impl Emit for Example {
    fn emit<S: JsonSink>(&self, out: &mut S) -> Result<(), AllocError> {
        let names = example_rows!(row_names!());
        let values = example_rows!(row_values!(self));
        emit_table(out, names, &values, &self.extensions)
    }
}

impl Tree for Example {
    ghost use Rattle.utoipa_leaf.specs.Example.{example_of_kind};

    ghost is_of_kind = { example_of_kind };

    fn read_plain(
        alloc: Global,
        tree: &Value,
        readings: &mut Readings,
    ) -> Result<Example, ReadFault> {
        let names = example_rows!(row_names!());
        let (fields, extensions) = read_table(alloc, tree, "Example", names, readings)?;
        Ok(example_rows!(from_fields!(Example, fields, extensions)))
    }

    fn try_clone(&self, alloc: Global) -> Result<Example, AllocError> {
        example_rows!(clone_table!(Example, self, alloc))
    }
}

/// An example is no schema.
impl Place for Example {
    fn is_schema() -> bool {
        false
    }
}

/// Builds an [`Example`].
#[derive(Debug, Drop)]
pub struct ExampleBuilder {
    example: Example,
}

impl ExampleBuilder {
    ghost use Rattle.utoipa_leaf.specs.Example.{empty_example, built_example};

    /// Begins with an example of which nothing is said: its texts are empty. Takes no memory.
    pub fn new(alloc: Global) -> ExampleBuilder
        ensures { (summary : _) × (description : _) × (external_value : _) × (string_bytes summary ≡ [])
            × (string_bytes description ≡ []) × (string_bytes external_value ≡ [])
            × (built_example result ≡ empty_example summary description external_value) }
    {
        ExampleBuilder {
            example: Example {
                summary: String::new(alloc),
                description: String::new(alloc),
                value: None,
                external_value: String::new(alloc),
                extensions: None,
            },
        }
    }

    /// Sets the short description.
    pub fn summary(mut self, summary: String) -> ExampleBuilder
        ensures { built_example result ≡ record (built_example self) { summary = summary } }
    {
        self.example.summary = summary;
        self
    }

    /// Sets the long description.
    pub fn description(mut self, description: String) -> ExampleBuilder
        ensures { built_example result ≡ record (built_example self) { description = description } }
    {
        self.example.description = description;
        self
    }

    /// Sets the example itself.
    pub fn value(mut self, value: Option<Value>) -> ExampleBuilder
        ensures { built_example result ≡ record (built_example self) { value = value } }
    {
        self.example.value = value;
        self
    }

    /// Sets the URI of the example.
    pub fn external_value(mut self, external_value: String) -> ExampleBuilder
        ensures { built_example result ≡ record (built_example self) { external_value = external_value } }
    {
        self.example.external_value = external_value;
        self
    }

    /// Sets the specification extensions.
    pub fn extensions(mut self, extensions: Option<Extensions>) -> ExampleBuilder
        ensures { built_example result ≡ record (built_example self) { extensions = extensions } }
    {
        self.example.extensions = extensions;
        self
    }

    /// The example that was built.
    pub fn build(self) -> Example
        ensures { result ≡ built_example self }
    {
        self.example
    }
}

impl From<Example> for ExampleBuilder {
    ghost use Rattle.utoipa_leaf.specs.Example.{built_example};

    ghost from_gives = { λ example builder. built_example builder ≡ example };

    fn from(example: Example) -> ExampleBuilder {
        ExampleBuilder { example }
    }
}

impl From<ExampleBuilder> for Example {
    ghost use Rattle.utoipa_leaf.specs.Example.{built_example};

    ghost from_gives = { λ builder example. example ≡ built_example builder };

    fn from(builder: ExampleBuilder) -> Example {
        builder.build()
    }
}

/// The value itself.
impl From<Example> for RefOr<Example> {
    ghost use Rattle.utoipa_base.specs.declared.refs.RefOr.TheVariants as places;

    ghost from_gives = { λ value place. place ≡ places.T value };

    fn from(value: Example) -> RefOr<Example> {
        RefOr::T(value)
    }
}
