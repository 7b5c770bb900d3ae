//! Why a tree is refused, as a program of cases tells it.

use std::alloc::{AllocError, Global};
use utoipa_base::ReadFault;

/// `refused: `, and the word that the command has for the fault.
pub fn refused(alloc: Global, fault: &ReadFault) -> Result<String, AllocError> {
    String::from_str(alloc, refusal_of(fault))
}

fn refusal_of(fault: &ReadFault) -> &'static str {
    match fault {
        ReadFault::Memory => "refused: memory",
        ReadFault::Text => "refused: text",
        ReadFault::Fraction => "refused: fraction",
        ReadFault::Missing(_) => "refused: missing",
        ReadFault::Kind(_) => "refused: kind",
        ReadFault::Word(_) => "refused: word",
        ReadFault::Alternative => "refused: alternative",
    }
}
