//! The member tables, the vocabularies and the choices of the standard as data of the program, equal to those of utoipa_base's
//! definitions. A program of this repository writes them: `tools/tables.py`.
#![tactic(auto)]

pub mod alternatives;
pub mod choices;
pub mod kinds;
pub mod tables;
pub mod vocabularies;

pub use alternatives::{FlowAlternative, SchemaAlternative, flow_rows, schema_rows};
pub use choices::{
    Choice, api_key_place_words, api_key_places, flow_keys, flow_kinds, flow_names,
    scheme_type_words, scheme_types,
};
pub use kinds::{Kind, Mark, ObjectType, Row, Vocabulary};
pub use tables::{rows, title};
pub use vocabularies::words;
