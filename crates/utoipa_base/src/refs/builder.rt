//! What builds a reference.
ghost use Rattle.std.specs.Prelude.{◌≡◌, [], Some, IfOk, String, string_bytes};
ghost use Rattle.std.specs.declared.alloc.Global.{Global};
ghost use Rattle.utoipa_base.specs.References.{schema_location, StandsAlone, IsGivenOrEmpty, built_reference};

use crate::refs::{Ref, RefOr, SCHEMAS, joined};
use serde_json::Value;
use std::alloc::{AllocError, Global};

/// Builds a [`Ref`].
#[derive(Debug, Drop)]
pub struct RefBuilder {
    reference: Ref,
}

impl RefBuilder {
    /// Begins with a reference to the empty URI, with nothing beside it. Takes no memory.
    pub fn new(alloc: Global) -> RefBuilder
        ensures location { string_bytes (built_reference result).ref_location ≡ [] }
        ensures alone { StandsAlone (built_reference result) }
    {
        RefBuilder {
            reference: Ref::new(alloc, String::new(alloc)),
        }
    }

    /// Sets the URI of the referenced component.
    pub fn ref_location(mut self, ref_location: String) -> RefBuilder
        ensures { built_reference result ≡ record (built_reference self) { ref_location = ref_location } }
    {
        self.reference.ref_location = ref_location;
        self
    }

    /// Sets the URI to that of a schema of the components, by its name, which is taken as it stands.
    ///
    /// Fails where memory runs out, and then gives up what was built.
    pub fn ref_location_from_schema_name(
        mut self,
        alloc: Global,
        schema_name: &str,
    ) -> Result<RefBuilder, AllocError>
        ensures { IfOk result (λ b. (location : String Global)
            × (string_bytes location ≡ schema_location schema_name.now)
            × (built_reference b ≡ record (built_reference self) { ref_location = location })) }
    {
        self.reference.ref_location = joined(alloc, SCHEMAS, schema_name)?;
        Ok(self)
    }

    /// Sets the description that overrides that of the component. None makes it empty, which takes no memory.
    pub fn description(mut self, alloc: Global, description: Option<String>) -> RefBuilder
        ensures given { IsGivenOrEmpty description (built_reference result).description }
        ensures others { built_reference result
            ≡ record (built_reference self) { description = (built_reference result).description } }
    {
        self.reference.description = description.unwrap_or(String::new(alloc));
        self
    }

    /// Sets the summary that overrides that of the component.
    pub fn summary(mut self, summary: String) -> RefBuilder
        ensures { built_reference result ≡ record (built_reference self) { summary = summary } }
    {
        self.reference.summary = summary;
        self
    }

    /// Sets whether the value is only sent by the server.
    pub fn read_only(mut self, read_only: bool) -> RefBuilder
        ensures { built_reference result ≡ record (built_reference self) { read_only = Some read_only } }
    {
        self.reference.read_only = Some(read_only);
        self
    }

    /// Sets whether the value is only sent to the server.
    pub fn write_only(mut self, write_only: bool) -> RefBuilder
        ensures { built_reference result ≡ record (built_reference self) { write_only = Some write_only } }
    {
        self.reference.write_only = Some(write_only);
        self
    }

    /// Sets JSON Schema's `default` beside the reference.
    pub fn default(mut self, default: Option<Value>) -> RefBuilder
        ensures { built_reference result ≡ record (built_reference self) { default = default } }
    {
        self.reference.default = default;
        self
    }

    /// Sets JSON Schema's `title` beside the reference.
    pub fn title(mut self, title: Option<String>) -> RefBuilder
        ensures { built_reference result ≡ record (built_reference self) { title = title } }
    {
        self.reference.title = title;
        self
    }

    /// The reference that was built.
    pub fn build(self) -> Ref
        ensures { result ≡ built_reference self }
    {
        self.reference
    }
}

impl From<Ref> for RefBuilder {
    ghost from_gives = { λ reference builder. built_reference builder ≡ reference };

    fn from(reference: Ref) -> RefBuilder {
        RefBuilder { reference }
    }
}

impl From<RefBuilder> for Ref {
    ghost from_gives = { λ builder reference. reference ≡ built_reference builder };

    fn from(builder: RefBuilder) -> Ref {
        builder.build()
    }
}

impl<T> From<RefBuilder> for RefOr<T> {
    ghost use Rattle.utoipa_base.specs.declared.refs.RefOr.TheVariants as made;

    ghost from_gives = { λ builder place. place ≡ made.Ref (built_reference builder) };

    fn from(builder: RefBuilder) -> RefOr<T> {
        RefOr::Ref(builder.build())
    }
}
