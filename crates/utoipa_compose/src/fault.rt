//! Why a schema can't be composed.
ghost use Rattle.std.specs.Prelude.{◌≡◌};
ghost use Rattle.utoipa_compose.specs.declared.fault.ComposeFault.TheVariants.{Memory};

use std::alloc::{AllocError, AllocFailed};
use thiserror::Error;

/// Why a type has no schema.
#[derive(Clone, Copy, Debug, Drop, Error, PartialEq, Eq)]
pub enum ComposeFault {
    /// A request for memory was refused.
    #[error("out of memory")]
    Memory,
    /// A reference stands for the schema of a map's keys, which has to be there itself: the member `propertyNames`.
    #[error("the schema of a map's keys is a reference")]
    KeyIsReference,
}

impl From<AllocError> for ComposeFault {
    ghost from_gives = { λ _ fault. fault ≡ Memory };

    fn from(_error: AllocError) -> ComposeFault {
        ComposeFault::Memory
    }
}

impl<T: Drop> From<AllocFailed<T>> for ComposeFault {
    ghost from_gives = { λ _ fault. fault ≡ Memory };

    fn from(_error: AllocFailed<T>) -> ComposeFault {
        ComposeFault::Memory
    }
}
