//! What is written of each row of a type's list of rows: `required "name" name,` and so on, a line a row.

/// The names of the rows, as a slice.
#[macro_export]
macro_rules! row_names {
    (; $($mark:ident $name:literal $field:ident,)*) => { &[$($name),*] };
}

/// The pattern of the fields that rows are read as.
#[macro_export]
macro_rules! row_fields {
    () => { () };
    (required $field:ident, $($rest:tt)*) => { ($crate::table::RequiredField($field), $crate::row_fields!($($rest)*)) };
    (optional $field:ident, $($rest:tt)*) => { ($crate::table::OptionalField($field), $crate::row_fields!($($rest)*)) };
    (or_null $field:ident, $($rest:tt)*) => { ($crate::table::OrNullField($field), $crate::row_fields!($($rest)*)) };
    (defaulted $field:ident, $($rest:tt)*) => { ($crate::table::DefaultedField($field), $crate::row_fields!($($rest)*)) };
}

/// A value of the type, from the fields that were read and its extensions.
#[macro_export]
macro_rules! from_fields {
    ($type:ident, $fields:expr, $extensions:expr; $($mark:ident $name:literal $field:ident,)*) => {{
        let $crate::row_fields!($($mark $field,)*) = $fields;
        $type { $($field,)* extensions: $extensions }
    }};
}

/// A value of a type that keeps no extensions, from the fields that were read.
#[macro_export]
macro_rules! from_fields_alone {
    ($type:ident, $fields:expr; $($mark:ident $name:literal $field:ident,)*) => {{
        let $crate::row_fields!($($mark $field,)*) = $fields;
        $type { $($field,)* }
    }};
}

/// The fields of a value, to be sent or copied one after the other.
#[macro_export]
macro_rules! row_values {
    ($self:expr;) => { () };
    ($self:expr; required $name:literal $field:ident, $($rest:tt)*) => {
        ($crate::table::RequiredValue(&$self.$field), $crate::row_values!($self; $($rest)*))
    };
    ($self:expr; optional $name:literal $field:ident, $($rest:tt)*) => {
        ($crate::table::OptionalValue(&$self.$field), $crate::row_values!($self; $($rest)*))
    };
    ($self:expr; or_null $name:literal $field:ident, $($rest:tt)*) => {
        ($crate::table::OrNullValue(&$self.$field), $crate::row_values!($self; $($rest)*))
    };
    ($self:expr; defaulted $name:literal $field:ident, $($rest:tt)*) => {
        ($crate::table::DefaultedValue(&$self.$field), $crate::row_values!($self; $($rest)*))
    };
}

/// A copy of a row's field.
#[macro_export]
macro_rules! row_copy {
    (required, $alloc:expr, $value:expr) => { $value.try_clone($alloc)? };
    (defaulted, $alloc:expr, $value:expr) => { $value.try_clone($alloc)? };
    (optional, $alloc:expr, $value:expr) => { $crate::clone_option($alloc, &$value)? };
    (or_null, $alloc:expr, $value:expr) => { $crate::clone_option($alloc, &$value)? };
}

/// The body of `try_clone` of a type with extensions.
#[macro_export]
macro_rules! clone_table {
    ($type:ident, $self:expr, $alloc:expr; $($mark:ident $name:literal $field:ident,)*) => {
        Ok($type {
            $($field: $crate::row_copy!($mark, $alloc, $self.$field),)*
            extensions: $crate::clone_extensions($alloc, &$self.extensions)?,
        })
    };
}

/// The body of `try_clone` of a type that keeps no extensions.
#[macro_export]
macro_rules! clone_table_alone {
    ($type:ident, $self:expr, $alloc:expr; $($mark:ident $name:literal $field:ident,)*) => {
        Ok($type { $($field: $crate::row_copy!($mark, $alloc, $self.$field),)* })
    };
}

/// Whether a row's field holds a fraction.
#[macro_export]
macro_rules! row_has_fraction {
    (required, $value:expr) => { $value.has_fraction() };
    (defaulted, $value:expr) => { $value.has_fraction() };
    (optional, $value:expr) => { $crate::option_has_fraction(&$value) };
    (or_null, $value:expr) => { $crate::option_has_fraction(&$value) };
}

/// Whether two fields of a row are the same.
#[macro_export]
macro_rules! row_same {
    (required, $value:expr, $other:expr) => { $value.same(&$other) };
    (defaulted, $value:expr, $other:expr) => { $value.same(&$other) };
    (optional, $value:expr, $other:expr) => { $crate::same_option(&$value, &$other) };
    (or_null, $value:expr, $other:expr) => { $crate::same_option(&$value, &$other) };
}

/// The body of `has_fraction` of a type with extensions.
#[macro_export]
macro_rules! table_has_fraction {
    ($self:expr; $($mark:ident $name:literal $field:ident,)*) => {
        $($crate::row_has_fraction!($mark, $self.$field) ||)* $crate::extensions_have_fraction(&$self.extensions)
    };
}

/// The body of `same` of a type with extensions.
#[macro_export]
macro_rules! same_table {
    ($self:expr, $other:expr; $($mark:ident $name:literal $field:ident,)*) => {
        $($crate::row_same!($mark, $self.$field, $other.$field) &&)* $crate::same_extensions(&$self.extensions, &$other.extensions)
    };
}
