//! What a change is printed as.
ghost use Rattle.std.specs.Prelude.{◌≡◌, Some};
ghost use Rattle.utoipa_meaning.specs.Texts.{change_text, difference_text, merged_text, own_text};
ghost use Rattle.utoipa_meaning.specs.Views.{change_of, difference_of, source_of};

use crate::change::Change;
use crate::difference::{Difference, Source};
use std::fmt;
use utoipa_check::ShownPointer;

/// Whose it is in the operation's own document, with the words for what holds where nothing is said.
fn own_words(source: Source, nothing: &'static str) -> &'static str
    ensures { result.now ≡ own_text nothing.now (source_of source) }
{
    match source {
        Source::Operation => "the operation's",
        Source::PathItem => "the path item's",
        Source::Document => "the document's",
        Source::Default => nothing,
    }
}

/// Whose it is in the merged document.
fn merged_words(source: Source, nothing: &'static str) -> &'static str
    ensures { result.now ≡ merged_text nothing.now (source_of source) }
{
    match source {
        Source::Operation => "the merged operation's",
        Source::PathItem => "the merged path item's",
        Source::Document => "the merged document's",
        Source::Default => nothing,
    }
}

/// What differs, and whose it is in the operation's own document and in the merged one.
impl fmt::Display for Difference {
    ghost output = { λ d. Some (difference_text (difference_of d)) };

    fn fmt<W: fmt::Write>(&self, f: &mut fmt::Formatter<W>) -> fmt::Result {
        match self {
            Difference::Security(own, merged) => {
                let own = own_words(*own, "none");
                let merged = merged_words(*merged, "none");
                write!(f, "effective security changes from {own} to {merged}")
            }
            Difference::Servers(own, merged) => {
                let own = own_words(*own, "the default");
                let merged = merged_words(*merged, "the default");
                write!(f, "effective servers change from {own} to {merged}")
            }
            Difference::Parameters => write!(f, "effective parameters change"),
        }
    }
}

/// The JSON Pointer of the operation, as it is shown on a line, the number of its document, and what differs.
impl fmt::Display for Change<'_> {
    ghost output = { λ c. Some (change_text (change_of c)) };

    fn fmt<W: fmt::Write>(&self, f: &mut fmt::Formatter<W>) -> fmt::Result {
        let pointer = ShownPointer(&self.pointer);
        let document = self.document;
        let difference = self.difference;
        write!(f, "{pointer}: document {document}: {difference}")
    }
}
