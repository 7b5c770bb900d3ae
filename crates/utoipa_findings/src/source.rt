//! Files, as the commands are given them.

/// The form in which the tree of a file is looked at.
#[derive(Clone, Copy, Debug, Drop, PartialEq, Eq)]
pub enum Form {
    /// As it stands in the file: what the model does not read is told.
    AsIs,
    /// Adapted to what the model reads, with its meaning: what the standard lets people say in several ways is read in each of them
    /// (`utoipa_adapt`).
    Adapted,
    /// The same, and of OpenAPI 3.0 by the member `openapi` upgraded to 3.1 before that.
    Upgraded,
}

/// A file: its name and all that stands in it, and the form in which its tree is looked at.
#[derive(Clone, Copy, Drop)]
pub struct Source<'a> {
    /// The name by which it was given.
    pub name: &'a str,
    /// The bytes.
    pub bytes: &'a [u8],
    /// The form in which the tree is looked at.
    pub form: Form,
}
