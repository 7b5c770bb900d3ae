//! Why a tree or a text is refused as a document.
ghost use Rattle.std.specs.Prelude.{◌≡◌};
ghost use Rattle.utoipa_base.specs.Faults.{fitting as fitting_of, IsFaultOf};
ghost use Rattle.utoipa_base.specs.declared.fault.ReadFault.TheVariants.{Memory};

use std::alloc::{AllocError, AllocFailed};
use thiserror::Error;

/// Why a tree or a text was refused as a document.
#[derive(Clone, Copy, Debug, Drop, Error, PartialEq, Eq)]
pub enum ReadFault {
    /// A request for memory was refused.
    #[error("out of memory")]
    Memory,
    /// The tree holds a fraction: a number that is neither an `i64` nor a `u64`, as `0.5` and `1.0` are.
    #[error("a number is neither an i64 nor a u64")]
    Fraction,
    /// A required member, of this name, is absent.
    #[error("the member {0} is missing")]
    Missing(&'static str),
    /// A value of another kind or range stands where this was wanted.
    #[error("no {0} stands here")]
    Kind(&'static str),
    /// A text is none of the words of this type.
    #[error("no word of {0}")]
    Word(&'static str),
    /// No alternative of a choice fits.
    #[error("no alternative fits")]
    Alternative,
    /// The text is no JSON text, or no UTF-8.
    #[error("no JSON text")]
    Text,
}

impl From<AllocError> for ReadFault {
    ghost from_gives = { λ _ fault. fault ≡ Memory };

    fn from(_error: AllocError) -> ReadFault {
        ReadFault::Memory
    }
}

impl<T: Drop> From<AllocFailed<T>> for ReadFault {
    ghost from_gives = { λ _ fault. fault ≡ Memory };

    fn from(_error: AllocFailed<T>) -> ReadFault {
        ReadFault::Memory
    }
}

/// The fault of a text that the parser of JSON refused: `Memory` where memory ran out, else `Text`. Where in the text the parser stood is
/// told by the error alone, by its line and its column.
impl From<serde_json::Error> for ReadFault {
    ghost from_gives = { λ error fault. IsFaultOf error fault };

    fn from(error: serde_json::Error) -> ReadFault {
        if error.is_memory() {
            ReadFault::Memory
        } else {
            ReadFault::Text
        }
    }
}

/// What a reading says of an alternative: its value where it fits, none where it does not.
///
/// Fails with `Memory` exactly where the reading did: then it is not known whether the alternative fits.
pub fn fitting<T>(outcome: Result<T, ReadFault>) -> Result<Option<T>, ReadFault>
    ensures { result ≡ fitting_of outcome }
{
    match outcome {
        Ok(value) => Ok(Some(value)),
        Err(ReadFault::Memory) => Err(ReadFault::Memory),
        Err(_) => Ok(None),
    }
}
