//! References, and places in which a reference or a value stands.
ghost use Rattle.std.specs.Prelude.{◌≡◌, ◌++◌, [], IfOk, option_map, string_bytes};
ghost use Rattle.utoipa_base.specs.Kinds.{named, ref_or, reference_object};
ghost use Rattle.utoipa_base.specs.OfKind.{reference_of_kind, ref_or_of_kind};
ghost use Rattle.utoipa_base.specs.Refs.{reference_doc, ref_or_doc};

use crate::emit::{Documented, Emit};
use crate::emit_rows::emit_table;
use crate::fault::ReadFault;
use crate::readings::Readings;
use crate::sink::JsonSink;
use crate::table::read_table_alone;
use crate::tree::{Place, Tree};
use crate::{clone_table_alone, from_fields_alone, row_names, row_values};
use serde_json::Value;
use std::alloc::{AllocError, Global};

mod builder;
mod component;

pub use builder::RefBuilder;
use component::component_at_location;
pub use component::{ComponentKey, ComponentMap};

// The rows of a reference, in the order of the members' names: mark, member, field.
macro_rules! ref_rows {
    ($lines:ident!($($arguments:tt)*)) => {
        $lines! {
            $($arguments)*;
            required "$ref" ref_location,
            optional "default" default,
            defaulted "description" description,
            optional "readOnly" read_only,
            defaulted "summary" summary,
            optional "title" title,
            optional "writeOnly" write_only,
        }
    };
}

/// A Reference Object (OpenAPI 3.1, section 4.8.23): where another component stands.
#[derive(Debug, Drop)]
pub struct Ref {
    /// The member `$ref`: a URI of the referenced component.
    pub ref_location: String,
    /// A description that overrides that of the component; empty where there is none.
    pub description: String,
    /// A summary that overrides that of the component; empty where there is none.
    pub summary: String,
    /// Whether the value is only sent by the server, as JSON Schema's `readOnly`.
    pub read_only: Option<bool>,
    /// Whether the value is only sent to the server, as JSON Schema's `writeOnly`.
    pub write_only: Option<bool>,
    /// JSON Schema's `default` beside the reference.
    pub default: Option<Value>,
    /// JSON Schema's `title` beside the reference.
    pub title: Option<String>,
}

impl Ref {
    ghost use Rattle.utoipa_base.specs.References.{schema_location, response_location, StandsAlone, built_reference, component_of, key_of};

    /// A reference to a URI, with nothing beside it. Takes no memory.
    pub fn new(alloc: Global, ref_location: String) -> Ref
        ensures location { result.ref_location ≡ ref_location }
        ensures alone { StandsAlone result }
    {
        Ref {
            ref_location,
            description: String::new(alloc),
            summary: String::new(alloc),
            read_only: None,
            write_only: None,
            default: None,
            title: None,
        }
    }

    /// A reference to a schema of the components, by its name, which is taken as it stands. Fails where memory runs
    /// out.
    pub fn from_schema_name(alloc: Global, schema_name: &str) -> Result<Ref, AllocError>
        ensures { IfOk result (λ r. (string_bytes r.ref_location ≡ schema_location schema_name.now) × StandsAlone r) }
    {
        Ok(Ref::new(alloc, joined(alloc, SCHEMAS, schema_name)?))
    }

    /// A reference to a response of the components, by its name, which is taken as it stands. Fails where memory
    /// runs out.
    pub fn from_response_name(alloc: Global, response_name: &str) -> Result<Ref, AllocError>
        ensures { IfOk result (λ r. (string_bytes r.ref_location ≡ response_location response_name.now)
            × StandsAlone r) }
    {
        Ok(Ref::new(alloc, joined(alloc, RESPONSES, response_name)?))
    }

    /// The component of the same document that the reference leads to: where `$ref` is `#` and a JSON Pointer, percent-decoded (RFC 6901,
    /// section 6), whose tokens are `components`, the field of a map, and a name. A name with neither `%` nor `~` takes no memory. Fails
    /// where memory runs out.
    ///
    /// There is none where it leads elsewhere, or into a component, or where the fragment is not UTF-8.
    pub fn component(&self, alloc: Global) -> Result<Option<ComponentKey<'_>>, AllocError>
        ensures { IfOk result (λ found. option_map key_of found ≡ component_of (string_bytes self.now.ref_location)) }
    {
        component_at_location(alloc, &self.ref_location)
    }

    /// A builder that begins with a reference to the empty URI. Takes no memory.
    pub fn builder(alloc: Global) -> RefBuilder
        ensures location { string_bytes (built_reference result).ref_location ≡ [] }
        ensures alone { StandsAlone (built_reference result) }
    {
        RefBuilder::new(alloc)
    }
}

/// Where a schema of the components stands, whose name is put after this.
pub(crate) const SCHEMAS: &str = "#/components/schemas/";

/// Where a response of the components stands, whose name is put after this.
pub(crate) const RESPONSES: &str = "#/components/responses/";

/// The text of a place, with a name put after it.
pub(crate) fn joined(alloc: Global, place: &str, name: &str) -> Result<String, AllocError>
    ensures { IfOk result (λ s. string_bytes s ≡ place.now ++ name.now) }
{
    let mut location = String::from_str(alloc, place)?;
    location.push_str(name)?;
    Ok(location)
}

/// A reference, or a value in its place.
#[derive(Debug, Drop)]
pub enum RefOr<T> {
    /// A reference to a component.
    Ref(Ref),
    /// The value itself.
    T(T),
}

impl<T> From<Ref> for RefOr<T> {
    ghost use Rattle.utoipa_base.specs.declared.refs.RefOr.TheVariants as made;

    ghost from_gives = { λ reference place. place ≡ made.Ref reference };

    fn from(reference: Ref) -> RefOr<T> {
        RefOr::Ref(reference)
    }
}

/// A Reference Object (OpenAPI 3.1, section 4.8.23).
#[tactic(auto, using(crate::proofs::Places::places))]
impl Tree for Ref {
    ghost is_of_kind = { reference_of_kind };

    fn read_plain(alloc: Global, tree: &Value, readings: &mut Readings) -> Result<Ref, ReadFault> {
        let fields = read_table_alone(alloc, tree, "Ref", ref_rows!(row_names!()), readings)?;
        Ok(ref_rows!(from_fields_alone!(Ref, fields)))
    }

    fn try_clone(&self, alloc: Global) -> Result<Ref, AllocError> {
        ref_rows!(clone_table_alone!(Ref, self, alloc))
    }
}

impl Place for Ref {
    fn is_schema() -> bool {
        false
    }
}

/// A reference, or else a value in its place.
#[tactic(auto, using(crate::proofs::Places::by_places))]
impl<T: Place> Tree for RefOr<T> {
    ghost is_of_kind = { ref_or_of_kind T.doc T.kind T.is_of_kind };

    fn read_plain(
        alloc: Global,
        tree: &Value,
        readings: &mut Readings,
    ) -> Result<RefOr<T>, ReadFault> {
        T::read_ref_or(alloc, tree, readings)
    }

    fn try_clone(&self, alloc: Global) -> Result<RefOr<T>, AllocError> {
        match self {
            RefOr::Ref(reference) => Ok(RefOr::Ref(reference.try_clone(alloc)?)),
            RefOr::T(value) => Ok(RefOr::T(value.try_clone(alloc)?)),
        }
    }
}

impl Documented for Ref {
    ghost kind = { named reference_object };

    ghost doc = { reference_doc };
}

/// A Reference Object.
impl Emit for Ref {
    fn emit<S: JsonSink>(&self, out: &mut S) -> Result<(), AllocError> {
        let names = ref_rows!(row_names!());
        let fields = ref_rows!(row_values!(self));
        emit_table(out, names, &fields, &None)
    }
}

impl<T: Documented> Documented for RefOr<T> {
    ghost kind = { ref_or T.kind };

    ghost doc = { ref_or_doc T.kind T.doc };
}

/// A reference, or else a value in its place.
#[tactic(auto, using(crate::proofs::Sending::by_places))]
impl<T: Emit> Emit for RefOr<T> {
    fn emit<S: JsonSink>(&self, out: &mut S) -> Result<(), AllocError> {
        match self {
            RefOr::Ref(reference) => reference.emit(out),
            RefOr::T(value) => value.emit(out),
        }
    }
}
