//! The members that schemas with `oneOf`, `allOf` and `anyOf` share.
ghost use Rattle.std.specs.Prelude.{◌≡◌, Some, IfOk, IfErr};
ghost use Rattle.serde_json.specs.View.{view};
ghost use Rattle.utoipa_base.specs.Docs.{list_doc};
ghost use Rattle.utoipa_base.specs.Faults.{Refuses};
ghost use Rattle.utoipa_base.specs.Rows.{part};
ghost use Rattle.utoipa_schema.specs.Parts.{combination_of, combination_rows, combination_docs};

use crate::without_schemas::read_part;
use serde_json::Value;
use std::alloc::{AllocError, Global};
use utoipa_base::{ReadFault, Tree, clone_option, from_fields_alone, row_names};
use utoipa_schema_parts::Discriminator;

// The rows that combinations share: mark, member, field.
macro_rules! combination_rows {
    ($lines:ident!($($arguments:tt)*)) => {
        $lines! {
            $($arguments)*;
            optional "default" default,
            optional "description" description,
            optional "discriminator" discriminator,
            optional "example" example,
            defaulted "examples" examples,
        }
    };
}

pub(crate) use combination_rows;

/// The members that [`OneOf`](crate::OneOf), [`AllOf`](crate::AllOf) and [`AnyOf`](crate::AnyOf) share and that follow
/// one another in each.
#[derive(Drop)]
pub(crate) struct Combination {
    /// A description of the schema.
    pub(crate) description: Option<String>,
    /// The value that is taken where there is none.
    pub(crate) default: Option<Value>,
    /// An example of the value.
    pub(crate) example: Option<Value>,
    /// Examples of the value.
    pub(crate) examples: Vec<Value>,
    /// The property that tells which of the schemas a value is of.
    pub(crate) discriminator: Option<Discriminator>,
}

/// Reads a [`Combination`] from a tree. The tree is refused where one of the members is not of its kind.
pub(crate) fn read_combination(alloc: Global, tree: &Value) -> Result<Combination, ReadFault>
    ensures ok { IfOk result (λ c. part combination_rows (view tree.now) ≡ Some (list_doc (combination_docs c))) }
    ensures err { IfErr result (Refuses (part combination_rows (view tree.now))) }
{
    let fields = read_part(alloc, tree, combination_rows!(row_names!()))?;
    Ok(combination_rows!(from_fields_alone!(Combination, fields)))
}

/// Copies the members of a [`Combination`]. Fails where memory runs out.
pub(crate) fn clone_combination(
    alloc: Global,
    description: &Option<String>,
    default: &Option<Value>,
    example: &Option<Value>,
    examples: &Vec<Value>,
    discriminator: &Option<Discriminator>,
) -> Result<Combination, AllocError>
    ensures { IfOk result (λ copy. combination_docs copy
        ≡ combination_docs (combination_of description.now default.now example.now examples.now discriminator.now)) }
{
    Ok(Combination {
        description: clone_option(alloc, description)?,
        default: clone_option(alloc, default)?,
        example: clone_option(alloc, example)?,
        examples: examples.try_clone(alloc)?,
        discriminator: clone_option(alloc, discriminator)?,
    })
}
