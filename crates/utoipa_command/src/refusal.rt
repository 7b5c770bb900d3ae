//! Why a run is refused, and the line that says so.
ghost use Rattle.std.specs.Prelude.{◌≡◌};
ghost use Rattle.utoipa_command.specs.Messages.{refusal_line, refusal_of, refusal_of_merging};
ghost use Rattle.utoipa_command.specs.declared.refusal.Refusal.TheVariants.{Memory};

use std::alloc::{AllocError, AllocFailed};
use utoipa::ReadFault;
use utoipa::openapi::MergeFault;

/// Why a run is refused.
#[derive(Clone, Copy, Debug, PartialEq, Eq)]
pub enum Refusal {
    /// Memory ran out.
    Memory,
    /// Reading the input failed.
    Read,
    /// Writing the answer failed.
    Write,
    /// The input is no JSON text.
    Text,
    /// A number of the input is neither an `i64` nor a `u64`.
    Fraction,
    /// A member that is required is absent.
    Missing,
    /// A tree of another kind is required.
    Kind,
    /// Another word is required.
    Word,
    /// No alternative fits.
    Alternative,
    /// There is no document to merge.
    Empty,
    /// There are not two documents, of which the second is to be nested into the first.
    Count,
}

impl Refusal {
    /// The line that is written for it.
    pub fn line(self) -> &'static str
        ensures { result.now ≡ refusal_line self }
    {
        match self {
            Refusal::Memory => "refused: memory\n",
            Refusal::Read => "refused: read\n",
            Refusal::Write => "refused: write\n",
            Refusal::Text => "refused: text\n",
            Refusal::Fraction => "refused: fraction\n",
            Refusal::Missing => "refused: missing\n",
            Refusal::Kind => "refused: kind\n",
            Refusal::Word => "refused: word\n",
            Refusal::Alternative => "refused: alternative\n",
            Refusal::Empty => "refused: empty\n",
            Refusal::Count => "refused: count\n",
        }
    }
}

impl From<AllocError> for Refusal {
    ghost from_gives = { λ _ w. w ≡ Memory };

    fn from(_e: AllocError) -> Refusal {
        Refusal::Memory
    }
}

impl<T: Drop> From<AllocFailed<T>> for Refusal {
    ghost from_gives = { λ _ w. w ≡ Memory };

    fn from(_e: AllocFailed<T>) -> Refusal {
        Refusal::Memory
    }
}

impl From<ReadFault> for Refusal {
    ghost from_gives = { λ e w. w ≡ refusal_of e };

    fn from(fault: ReadFault) -> Refusal {
        match fault {
            ReadFault::Memory => Refusal::Memory,
            ReadFault::Fraction => Refusal::Fraction,
            ReadFault::Missing(_) => Refusal::Missing,
            ReadFault::Kind(_) => Refusal::Kind,
            ReadFault::Word(_) => Refusal::Word,
            ReadFault::Alternative => Refusal::Alternative,
            ReadFault::Text => Refusal::Text,
        }
    }
}

impl From<MergeFault> for Refusal {
    ghost from_gives = { λ e w. w ≡ refusal_of_merging e };

    fn from(fault: MergeFault) -> Refusal {
        match fault {
            MergeFault::Fraction => Refusal::Fraction,
            // A composer of paths refuses for want of memory alone.
            MergeFault::Memory | MergeFault::Composer => Refusal::Memory,
        }
    }
}
