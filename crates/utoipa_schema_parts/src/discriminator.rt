//! Discriminators between schemas.
ghost use Rattle.std.specs.Prelude.{◌≡◌, [], None, IfOk};
ghost use Rattle.std.specs.Iterator.{IsFinite};
ghost use Rattle.utoipa_base.specs.Kinds.{named, discriminator_object};
ghost use Rattle.utoipa_base.specs.Lists.{EachIterator, GivesAll};

use serde_json::Value;
use std::alloc::{AllocError, Global};
use std::collections::BTreeMap;
use utoipa_base::{
    Documented, Emit, Extensions, JsonSink, Place, ReadFault, Readings, Tree, clone_table,
    emit_table, from_fields, read_table, row_names, row_values,
};

// The rows of a discriminator, in the order of the members' names: mark, member, field.
macro_rules! discriminator_rows {
    ($lines:ident!($($arguments:tt)*)) => {
        $lines! {
            $($arguments)*;
            defaulted "mapping" mapping,
            required "propertyName" property_name,
        }
    };
}

/// A Discriminator Object (OpenAPI 3.1, section 4.8.25): which of several schemas a value follows, by one of its
/// properties.
#[derive(Debug, Drop)]
pub struct Discriminator {
    /// The name of the property that decides: the member `propertyName`.
    pub property_name: String,
    /// Which schema each value of the property stands for, by the schema's name or a reference to it.
    pub mapping: BTreeMap<String, String>,
    /// Specification extensions.
    pub extensions: Option<Extensions>,
}

impl Discriminator {
    ghost use Rattle.utoipa_schema_parts.specs.Discriminator.{Mapping, put_mapping};

    /// A discriminator by a property, with no mapping and no extensions. Takes no memory.
    pub fn new(alloc: Global, property_name: String) -> Discriminator
        ensures property { result.property_name ≡ property_name }
        ensures mapping { result.mapping.entries ≡ [] }
        ensures extensions { result.extensions ≡ None }
    {
        Discriminator {
            property_name,
            mapping: BTreeMap::new(alloc),
            extensions: None,
        }
    }

    /// A discriminator by a property, with all that the iterator gives as its mapping: values of the property, each with
    /// its schema. The later of two equal values stays. The iterator has to end. Fails where memory runs out.
    pub fn with_mapping<I: IntoIterator<Item = (String, String)>>(
        alloc: Global,
        property_name: String,
        mapping: I,
    ) -> Result<Discriminator, AllocError>
        requires can { EachIterator I.into_iter_gives I.IntoIter.can_next mapping }
        requires ends { EachIterator I.into_iter_gives (λ it. IsFinite (I.IntoIter.remaining it)) mapping }
        ensures property { IfOk result (λ d. d.property_name ≡ property_name) }
        ensures mapping { IfOk result (λ d. (given : Mapping)
            × GivesAll I.into_iter_gives I.IntoIter.next_gives mapping given
            × (d.mapping.entries ≡ put_mapping given [])) }
        ensures extensions { IfOk result (λ d. d.extensions ≡ None) }
    {
        let mut discriminator = Discriminator::new(alloc, property_name);
        for (value, schema) in mapping {
            drop(discriminator.mapping.insert(value, schema)?);
        }
        Ok(discriminator)
    }
}

impl Documented for Discriminator {
    ghost use Rattle.utoipa_schema_parts.specs.Discriminator.{discriminator_doc};

    ghost kind = { named discriminator_object };

    ghost doc = { discriminator_doc };
}

impl Emit for Discriminator {
    fn emit<S: JsonSink>(&self, out: &mut S) -> Result<(), AllocError> {
        let names = discriminator_rows!(row_names!());
        let values = discriminator_rows!(row_values!(self));
        emit_table(out, names, &values, &self.extensions)
    }
}

impl Tree for Discriminator {
    ghost use Rattle.utoipa_schema_parts.specs.Discriminator.{discriminator_of_kind};

    ghost is_of_kind = { discriminator_of_kind };

    fn read_plain(
        alloc: Global,
        tree: &Value,
        readings: &mut Readings,
    ) -> Result<Discriminator, ReadFault> {
        let names = discriminator_rows!(row_names!());
        let (fields, extensions) = read_table(alloc, tree, "Discriminator", names, readings)?;
        Ok(discriminator_rows!(from_fields!(Discriminator, fields, extensions)))
    }

    fn try_clone(&self, alloc: Global) -> Result<Discriminator, AllocError> {
        discriminator_rows!(clone_table!(Discriminator, self, alloc))
    }
}

impl Place for Discriminator {
    fn is_schema() -> bool {
        false
    }
}
