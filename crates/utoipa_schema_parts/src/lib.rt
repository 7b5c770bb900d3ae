//! The parts of schemas that hold no schema: their types, their formats, the discriminators between them, and how a
//! property is written in XML.
#![tactic(auto)]

pub mod discriminator;
pub mod format;
pub mod types;
mod unambiguous;
pub mod xml;

pub use discriminator::Discriminator;
pub use format::{KnownFormat, SchemaFormat};
pub use types::{SchemaType, TypeWord};
pub use xml::{Xml, XmlBuilder};
