//! Lists of rows with three marks beside those of utoipa_base: `scopes` and `flows`, of required members that are read and
//! written as types of this crate, and `tag`, of the member that says of which type a scheme is, with a text in place of
//! the field. A list that has none of them is taken by the macros of utoipa_base.

/// The pattern of the fields that rows are read as.
macro_rules! row_fields {
    () => { () };
    (scopes $field:ident, $($rest:tt)*) => {
        ($crate::security::scopes::ScopesField($field), $crate::security::row_lists::row_fields!($($rest)*))
    };
    (flows $field:ident, $($rest:tt)*) => {
        ($crate::security::flows::FlowsField($field), $crate::security::row_lists::row_fields!($($rest)*))
    };
    (required $field:ident, $($rest:tt)*) => {
        (utoipa_base::table::RequiredField($field), $crate::security::row_lists::row_fields!($($rest)*))
    };
    (optional $field:ident, $($rest:tt)*) => {
        (utoipa_base::table::OptionalField($field), $crate::security::row_lists::row_fields!($($rest)*))
    };
}

/// A value of the type, from the fields that were read and its extensions.
macro_rules! from_fields {
    ($type:ident, $fields:expr, $extensions:expr; $($mark:ident $name:literal $field:ident,)*) => {{
        let $crate::security::row_lists::row_fields!($($mark $field,)*) = $fields;
        $type { $($field,)* extensions: $extensions }
    }};
}

/// The fields of a value, to be written one after the other.
macro_rules! row_values {
    ($self:expr;) => { () };
    ($self:expr; scopes $name:literal $field:ident, $($rest:tt)*) => {
        ($crate::security::scopes::ScopesValue(&$self.$field), $crate::security::row_lists::row_values!($self; $($rest)*))
    };
    ($self:expr; flows $name:literal $field:ident, $($rest:tt)*) => {
        ($crate::security::flows::FlowsValue(&$self.$field), $crate::security::row_lists::row_values!($self; $($rest)*))
    };
    ($self:expr; tag $name:literal $text:ident, $($rest:tt)*) => {
        ($crate::security::scheme_type::TypeValue($text), $crate::security::row_lists::row_values!($self; $($rest)*))
    };
    ($self:expr; required $name:literal $field:ident, $($rest:tt)*) => {
        (utoipa_base::table::RequiredValue(&$self.$field), $crate::security::row_lists::row_values!($self; $($rest)*))
    };
    ($self:expr; optional $name:literal $field:ident, $($rest:tt)*) => {
        (utoipa_base::table::OptionalValue(&$self.$field), $crate::security::row_lists::row_values!($self; $($rest)*))
    };
}

/// A copy of a row's field.
macro_rules! row_copy {
    (scopes, $alloc:expr, $value:expr) => { $crate::security::scopes::clone_scopes($alloc, &$value)? };
    (flows, $alloc:expr, $value:expr) => { $crate::security::flows::clone_flows($alloc, &$value)? };
    ($mark:ident, $alloc:expr, $value:expr) => { utoipa_base::row_copy!($mark, $alloc, $value) };
}

/// The body of `try_clone` of a type with extensions.
macro_rules! clone_table {
    ($type:ident, $self:expr, $alloc:expr; $($mark:ident $name:literal $field:ident,)*) => {
        Ok($type {
            $($field: $crate::security::row_lists::row_copy!($mark, $alloc, $self.$field),)*
            extensions: utoipa_base::clone_extensions($alloc, &$self.extensions)?,
        })
    };
}

pub(crate) use clone_table;
pub(crate) use from_fields;
pub(crate) use row_copy;
pub(crate) use row_fields;
pub(crate) use row_values;
