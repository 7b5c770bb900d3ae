//! What differs of what an operation means.

/// Where an operation has something from.
#[derive(Clone, Copy, Debug, Drop)]
pub enum Source {
    /// It says so itself.
    Operation,
    /// Its path item says so.
    PathItem,
    /// Its document says so.
    Document,
    /// None of them says anything.
    Default,
}

/// What differs of an operation, where it stands in its own document and in the merged one.
#[derive(Clone, Copy, Debug, Drop)]
pub enum Difference {
    /// The security that is in effect, and where it comes from there and there.
    Security(Source, Source),
    /// The servers, and where they come from there and there.
    Servers(Source, Source),
    /// The parameters.
    Parameters,
}
