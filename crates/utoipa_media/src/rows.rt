//! The rows of contents, encodings and headers that hold none of these themselves, in the order of the members' names: mark,
//! member, field; and what a value is made of, once they have been read or copied.

macro_rules! content_rows {
    ($lines:ident!($($arguments:tt)*)) => {
        $lines! {
            $($arguments)*;
            optional "description" description,
            optional "example" example,
            defaulted "examples" examples,
            optional "itemSchema" item_schema,
            optional "schema" schema,
        }
    };
}

macro_rules! encoding_rows {
    ($lines:ident!($($arguments:tt)*)) => {
        $lines! {
            $($arguments)*;
            optional "allowReserved" allow_reserved,
            optional "contentType" content_type,
            optional "explode" explode,
            optional "style" style,
        }
    };
}

macro_rules! header_rows {
    ($lines:ident!($($arguments:tt)*)) => {
        $lines! {
            $($arguments)*;
            optional "deprecated" deprecated,
            optional "description" description,
            optional "example" example,
            defaulted "examples" examples,
            optional "explode" explode,
            optional "schema" schema,
            optional "style" style,
        }
    };
}

// A value of a type, from some of its fields and from those of rows that were read or copied.
macro_rules! from_rows {
    ($type:ident {$($fields:tt)*} $part:ident; $($mark:ident $name:literal $field:ident,)*) => {{
        let utoipa_base::row_fields!($($mark $field,)*) = $part;
        $type { $($fields)* $($field,)* }
    }};
}

pub(crate) use content_rows;
pub(crate) use encoding_rows;
pub(crate) use from_rows;
pub(crate) use header_rows;
