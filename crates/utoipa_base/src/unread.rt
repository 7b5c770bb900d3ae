//! Why no value was read from tokens.
use crate::fault::ReadFault;
use json::Invalid;
use std::alloc::{AllocError, AllocFailed};

/// Why no value was read from the tokens of a text. It says nothing of the text: what is wrong with that is found in its tree.
#[derive(Debug, Drop)]
pub enum Unread {
    /// A request for memory was refused.
    Memory,
    /// The value is to be read from a tree: it may be refused there too, or stand under a name that another member has.
    AsTree,
}

impl From<AllocError> for Unread {
    fn from(_error: AllocError) -> Unread {
        Unread::Memory
    }
}

impl<T: Drop> From<AllocFailed<T>> for Unread {
    fn from(_error: AllocFailed<T>) -> Unread {
        Unread::Memory
    }
}

impl From<Invalid> for Unread {
    fn from(_error: Invalid) -> Unread {
        Unread::AsTree
    }
}

impl From<ReadFault> for Unread {
    fn from(fault: ReadFault) -> Unread {
        match fault {
            ReadFault::Memory => Unread::Memory,
            _ => Unread::AsTree,
        }
    }
}
