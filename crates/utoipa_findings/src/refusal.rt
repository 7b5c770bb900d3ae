//! Why a command has no answer.
ghost use Rattle.std.specs.Prelude.{◌≡◌};
ghost use Rattle.utoipa_findings.specs.declared.refusal.Refusal.TheVariants.{Memory};

use std::alloc::{AllocError, AllocFailed};

/// Why a command has no answer.
#[derive(Drop)]
pub enum Refusal {
    /// A request for memory was refused.
    Memory,
    /// What was found, in lines, each of which names the file.
    Told(String),
}

impl From<AllocError> for Refusal {
    ghost from_gives = { λ _ refusal. refusal ≡ Memory };

    fn from(_error: AllocError) -> Refusal {
        Refusal::Memory
    }
}

impl<T: Drop> From<AllocFailed<T>> for Refusal {
    ghost from_gives = { λ _ refusal. refusal ≡ Memory };

    fn from(_error: AllocFailed<T>) -> Refusal {
        Refusal::Memory
    }
}
