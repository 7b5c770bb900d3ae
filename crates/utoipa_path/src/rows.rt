//! The rows of operations and path items that hold none of these themselves, in the order of the members' names: mark, member,
//! field.

macro_rules! operation_rows_after_callbacks {
    ($lines:ident!($($arguments:tt)*)) => {
        $lines! {
            $($arguments)*;
            optional "deprecated" deprecated,
            optional "description" description,
            optional "externalDocs" external_docs,
            optional "operationId" operation_id,
            optional "parameters" parameters,
            optional "requestBody" request_body,
            required "responses" responses,
        }
    };
}

macro_rules! operation_rows_last {
    ($lines:ident!($($arguments:tt)*)) => {
        $lines! {
            $($arguments)*;
            optional "security" security,
            optional "servers" servers,
            optional "summary" summary,
            optional "tags" tags,
        }
    };
}

macro_rules! base_rows {
    ($lines:ident!($($arguments:tt)*)) => {
        $lines! {
            $($arguments)*;
            optional "$ref" ref_path,
            optional "description" description,
            optional "parameters" parameters,
            optional "servers" servers,
            optional "summary" summary,
        }
    };
}

// A value of a type, from some of its fields and from those of rows that were read, each part with the list of its rows:
// the first one last.
macro_rules! from_rows {
    ($type:ident {$($fields:tt)*} [] $part:ident; $($mark:ident $name:literal $field:ident,)*) => {{
        let row_fields!($($mark $field,)*) = $part;
        $type { $($fields)* $($field,)* }
    }};
    ($type:ident {$($fields:tt)*} [$next:ident $rows:ident] $part:ident; $($mark:ident $name:literal $field:ident,)*) => {{
        let row_fields!($($mark $field,)*) = $part;
        $rows!(from_rows!($type {$($fields)* $($field,)*} [] $next))
    }};
}

// A value of a type: some of its fields and those of rows that were read, and the others of another value.
macro_rules! over_rows {
    ($type:ident {$($fields:tt)*} $other:ident $part:ident; $($mark:ident $name:literal $field:ident,)*) => {{
        let row_fields!($($mark $field,)*) = $part;
        $type { $($fields)* $($field,)* ..$other }
    }};
}

pub(crate) use base_rows;
pub(crate) use from_rows;
pub(crate) use operation_rows_after_callbacks;
pub(crate) use operation_rows_last;
pub(crate) use over_rows;
