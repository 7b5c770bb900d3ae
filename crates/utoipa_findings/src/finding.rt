//! A place of a file, and what is found there.
ghost use Rattle.std.specs.Prelude.{Some};
ghost use Rattle.utoipa_check.specs.DroppedViews.{loss_of};
ghost use Rattle.utoipa_findings.specs.Lines.{loss_text, what_text, finding_text};
ghost use Rattle.utoipa_findings.specs.Views.{what_of, finding_of};

use std::fmt;
use utoipa_check::{Cause, Loss, Pointer, Shown, ShownPointer};

/// What is found at a place.
#[derive(Clone, Copy, Drop)]
pub enum What<'a> {
    /// The tree there does not fit.
    Unfit(Cause),
    /// The tree there does not fit what was meant, and is read as something else.
    Doubtful(Cause),
    /// What has become of the tree there in its document, written again.
    Lost(Loss),
    /// The text there is a reference that leads to nothing.
    Dangles(&'a str),
    /// The name there stands again in its object, so the member that had it before is lost.
    Repeated,
}

/// A place, and what is found there.
#[derive(Drop)]
pub struct Finding<'a> {
    /// The place.
    pub pointer: Pointer<'a>,
    /// What is found there.
    pub what: What<'a>,
}

/// What has become of a tree, as a line says it.
#[derive(Clone, Copy, Drop)]
struct LossText(Loss);

impl fmt::Display for LossText {
    ghost output = { λ l. Some (loss_text (loss_of l.0)) };

    fn fmt<W: fmt::Write>(&self, f: &mut fmt::Formatter<W>) -> fmt::Result {
        match self.0 {
            Loss::Absent => write!(f, "this is dropped"),
            Loss::LeftOut => write!(f, "this is empty, and left out"),
            Loss::Changed => write!(f, "this is written as another value"),
        }
    }
}

impl fmt::Display for What<'_> {
    ghost output = { λ w. Some (what_text (what_of w)) };

    fn fmt<W: fmt::Write>(&self, f: &mut fmt::Formatter<W>) -> fmt::Result {
        match self {
            What::Unfit(cause) => write!(f, "{cause}"),
            What::Doubtful(cause) => {
                write!(f, "this is read otherwise than it was meant: {cause}")
            }
            What::Lost(loss) => {
                let loss = LossText(*loss);
                write!(f, "{loss}")
            }
            What::Dangles(text) => {
                let text = Shown(*text);
                write!(f, "the reference `{text}` leads to nothing")
            }
            What::Repeated => write!(
                f,
                "this name stands again, and what stood here before is dropped"
            ),
        }
    }
}

/// The JSON Pointer of the place, which the root needs not, and what is found there.
impl fmt::Display for Finding<'_> {
    ghost output = { λ x. Some (finding_text (finding_of x)) };

    fn fmt<W: fmt::Write>(&self, f: &mut fmt::Formatter<W>) -> fmt::Result {
        let pointer = ShownPointer(&self.pointer);
        let what = self.what;
        if self.pointer.steps.is_empty() {
            write!(f, "{what}")
        } else {
            write!(f, "{pointer}: {what}")
        }
    }
}
