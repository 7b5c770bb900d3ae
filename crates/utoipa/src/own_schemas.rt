//! The schemas that a program's own types have most: an object with a property for each field, one of several texts, and a reference to a
//! schema of the components. What each call makes is told as a document, as the ghost members of the traits tell it.
ghost use Rattle.std.specs.Prelude.{◌≡◌, [], IfOk, OnOk, map, string_bytes};
ghost use Rattle.utoipa_base.specs.Docs.{Doc};
ghost use Rattle.utoipa_base.specs.Values.{is_one_of};
ghost use Rattle.utoipa_base.specs.Views.{pairs_of, tree_of};
ghost use Rattle.utoipa_compose.specs.Compositions.{place_doc};
ghost use Rattle.utoipa_compose.specs.Made.{struct_of};
ghost use Rattle.utoipa.specs.OwnSchemas.{field_schemas, required_names, schema_ref as schema_ref_doc, text_among as text_among_doc, text_tree, with_field, with_name, without_name};
ghost use Rattle.utoipa.specs.Tags.{texts_of};

use serde_json::Value;
use std::alloc::{AllocError, Global};
use std::collections::BTreeMap;
use utoipa_base::{Ref, RefOr, put};
use utoipa_schema::{Object, Schema, SchemaType, TypeWord};

/// The fields of a struct, of which its schema is made: an object with a property for each (JSON Schema 2020-12, Core, section 10.3.2.1).
#[derive(Debug, Drop)]
pub struct Fields {
    required: Vec<String>,
    properties: BTreeMap<String, RefOr<Schema>>,
}

impl Fields {
    /// No fields. Takes no memory.
    pub fn new(alloc: Global) -> Fields
        ensures names { required_names result ≡ [] }
        ensures schemas { field_schemas result ≡ [] }
    {
        Fields {
            required: Vec::new(alloc),
            properties: BTreeMap::new(alloc),
        }
    }

    /// Adds a field that has to be there. It replaces an earlier field of that name, and `required` lists each name once (JSON Schema 2020-12,
    /// Validation, section 6.5.3).
    ///
    /// Fails where memory runs out, and then gives up the fields.
    pub fn required(
        mut self,
        alloc: Global,
        name: &str,
        schema: RefOr<Schema>,
    ) -> Result<Fields, AllocError>
        ensures names { IfOk result (λ fields. required_names fields ≡ with_name name.now (required_names self)) }
        ensures schemas { IfOk result (λ fields. field_schemas fields
            ≡ with_field name.now (place_doc schema) (field_schemas self)) }
    {
        let required = add_name(&mut self.required, alloc, name);
        let put = put_under(&mut self.properties, alloc, name, schema);
        required.and(put).and(Ok(self))
    }

    /// Adds a field that may be absent. It replaces an earlier field of that name, even one that had to be there.
    ///
    /// Fails where memory runs out, and then gives up the fields.
    pub fn optional(
        mut self,
        alloc: Global,
        name: &str,
        schema: RefOr<Schema>,
    ) -> Result<Fields, AllocError>
        ensures names { IfOk result (λ fields. required_names fields ≡ without_name name.now (required_names self)) }
        ensures schemas { IfOk result (λ fields. field_schemas fields
            ≡ with_field name.now (place_doc schema) (field_schemas self)) }
    {
        remove_name(&mut self.required, name);
        put_under(&mut self.properties, alloc, name, schema).and(Ok(self))
    }

    /// The schema: an object with these fields, of which nothing else is said. Takes no memory.
    pub fn schema(self, alloc: Global) -> RefOr<Schema>
        ensures { place_doc result ≡ struct_of (required_names self) (field_schemas self) }
    {
        let mut object = Object::new(alloc);
        object.required = self.required;
        object.properties = self.properties;
        RefOr::T(Schema::Object(object))
    }
}

/// The schema of a text that is one of these, as of an enum whose variants have no fields (JSON Schema 2020-12, Validation, sections 6.1.1 and
/// 6.1.2). Fails where memory runs out.
pub fn text_among(alloc: Global, texts: &[&str]) -> Result<RefOr<Schema>, AllocError>
    ensures { IfOk result (λ schema. place_doc schema ≡ text_among_doc (texts_of texts.now)) }
{
    let values = text_values(alloc, texts)?;
    let mut object = Object::with_type(alloc, SchemaType::Single(TypeWord::String));
    object.enum_values = Some(values);
    Ok(RefOr::T(Schema::Object(object)))
}

/// A reference to the schema of this name in the components, with nothing beside it (OpenAPI 3.1, section 4.8.23). Fails where memory runs
/// out.
pub fn schema_ref(alloc: Global, name: &str) -> Result<RefOr<Schema>, AllocError>
    ensures { IfOk result (λ schema. place_doc schema ≡ schema_ref_doc name.now) }
{
    Ok(RefOr::Ref(Ref::from_schema_name(alloc, name)?))
}

// The texts as trees. Fails where memory runs out.
fn text_values(alloc: Global, texts: &[&str]) -> Result<Vec<Value>, AllocError>
    ensures { IfOk result (λ values. map tree_of values.items ≡ map text_tree (texts_of texts.now)) }
{
    let mut values = Vec::new(alloc);
    for text in texts {
        values.push(Value::String(String::from_str(alloc, text)?))?;
    }
    Ok(values)
}

// Whether a name is among some.
fn is_among(name: &str, names: &[String]) -> bool
    ensures { result ≡ is_one_of name.now (map string_bytes names.now) }
{
    for other in names {
        if name == other.as_str() {
            return true;
        }
    }
    false
}

// Puts a name at the end of a list, unless it is there already. Fails where memory runs out.
fn add_name(names: &mut Vec<String>, alloc: Global, name: &str) -> Result<(), AllocError>
    ensures { OnOk result (map string_bytes names.new.items ≡ with_name name.now (map string_bytes names.old.items)) }
{
    if is_among(name, names) {
        return Ok(());
    }
    let name = String::from_str(alloc, name)?;
    Ok(names.push(name)?)
}

// Takes a name out of a list.
fn remove_name(names: &mut Vec<String>, name: &str)
    ensures { map string_bytes names.new.items ≡ without_name name.now (map string_bytes names.old.items) }
{
    names.retain(|other| name != other.as_str());
}

// Puts a value under a name, in place of an earlier one of that name. Fails where memory runs out, and then gives the value up.
fn put_under<T: Drop>(
    map: &mut BTreeMap<String, T>,
    alloc: Global,
    name: &str,
    value: T,
) -> Result<(), AllocError>
    ensures { OnOk result ((f : T → Doc) → pairs_of f map.new.entries
        ≡ with_field name.now (f value) (pairs_of f map.old.entries)) }
{
    let key = String::from_str(alloc, name)?;
    put(map, key, value)
}
