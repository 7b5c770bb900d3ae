//! What every type of the document model stands on: trees, the faults of reading them, and the trait [`Tree`] of the
//! types that are read from a tree and written as one.
#![tactic(auto)]

pub mod all_or_none;
pub mod builder;
pub mod compare;
pub mod deprecated;
pub mod emit;
pub mod emit_rows;
pub mod empty;
pub mod entries;
pub mod extensions;
pub mod fault;
pub mod fill;
pub mod fraction;
pub mod kept;
pub mod laws;
pub mod lists;
pub mod name_hasher;
pub mod number;
pub mod omit;
pub mod open_table;
pub mod ordered_map;
pub mod pending;
mod print;
pub mod readings;
pub mod refs;
pub mod required;
mod row_lists;
pub mod rows;
pub mod same_trees;
mod scalar;
pub mod sink;
pub mod table;
mod text;
pub mod token_tree;
pub mod tree;
pub mod unambiguous;
pub mod unread;
pub mod words;

pub use all_or_none::put_all;
pub use builder::{TreeBuilder, built_tree};
pub use compare::{
    Same, extensions_have_fraction, option_has_fraction, same_extensions, same_option,
};
pub use deprecated::Deprecated;
pub use emit::{Documented, Emit, append_text, written_text};
pub use emit_rows::{
    EmitRow, EmitRows, emit_defaulted, emit_optional, emit_or_null, emit_required, emit_table,
};
pub use empty::{Empty, row_or_empty};
pub use entries::{emit_entries, entries_from_tokens, read_entries};
pub use extensions::{
    Extensions, ExtensionsBuilder, clone_extensions, is_extension_name, read_extensions,
};
pub use fault::{ReadFault, fitting};
pub use fill::{boxed_if_any, put, put_each, set};
pub use fraction::{has_fraction, members_have_fraction};
pub use kept::{beside, clone_rows_beside, read_rows_beside, read_table_beside};
pub use lists::{list_from, list_if_any};
pub use name_hasher::NameHasher;
pub use number::Number;
pub use omit::Omit;
pub use ordered_map::OrderedMap;
pub use pending::PendingExtensions;
pub use readings::{Counted, Readings};
pub use refs::{ComponentKey, ComponentMap, Ref, RefBuilder, RefOr};
pub use required::Required;
pub use rows::{clone_option, row_default, row_option, row_or_null, row_required};
pub use same_trees::{same_members, same_tree};
pub use sink::JsonSink;
pub use table::{clone_rows, read_table, read_table_alone};
pub use token_tree::next_tree;
pub use tree::{Place, Tree};
pub use unambiguous::{
    NeverText, NoReference, Unambiguous, boxed_is_unambiguous, extensions_are_unambiguous,
    names_are_no_extensions, option_is_unambiguous,
};
pub use unread::Unread;
pub use words::{Word, emit_word, read_word};
