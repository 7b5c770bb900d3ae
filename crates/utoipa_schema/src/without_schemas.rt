//! The members of schemas that hold no schema, in parts that are read and copied one by one.
//!
//! The rows of a part stand in a macro beside it, in the order of the members' names. They are sent by it too (`emit.rt`).
ghost use Rattle.std.specs.Prelude.{◌≡◌, length, Some, IfOk, IfErr};
ghost use Rattle.serde_json.specs.View.{view};
ghost use Rattle.utoipa_base.specs.Docs.{list_doc};
ghost use Rattle.utoipa_base.specs.Faults.{Refuses};
ghost use Rattle.utoipa_base.specs.Rows.{part, texts};

pub(crate) mod array;
pub(crate) mod combination;
pub(crate) mod content;
pub(crate) mod object;

use serde_json::Value;
use std::alloc::Global;
use utoipa_base::table::RowFields;
use utoipa_base::{ReadFault, Readings};

// A schema of a type, from some of its fields and from parts, each with the list of its rows: the first one last.
macro_rules! from_parts {
    ($type:ident {$($fields:tt)*} [] $part:ident; $($mark:ident $name:literal $field:ident,)*) => {
        $type { $($fields)* $($field: $part.$field,)* }
    };
    ($type:ident {$($fields:tt)*} [$next:ident $rows:ident, $($later:tt)*] $part:ident; $($mark:ident $name:literal $field:ident,)*) => {
        $rows!(from_parts!($type {$($fields)* $($field: $part.$field,)*} [$($later)*] $next))
    };
}

pub(crate) use from_parts;

/// The fields of a part's rows, by the rows' names. Fails at the first row that does not fit. A part holds no schema, so
/// none is counted.
fn read_part<R: RowFields>(
    alloc: Global,
    tree: &Value,
    names: &[&'static str],
) -> Result<R, ReadFault>
    requires { length names.now ≡ R.count }
    ensures ok { IfOk result (λ v. part (R.rows (texts names.now)) (view tree.now) ≡ Some (list_doc (R.docs v))) }
    ensures err { IfErr result (Refuses (part (R.rows (texts names.now)) (view tree.now))) }
{
    let mut uncounted = Readings::new();
    R::read(alloc, tree, names, &mut uncounted)
}
