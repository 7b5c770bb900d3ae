//! What a command for people answers, made of the names and the bytes of its files: functions that read and write nothing else.
//!
//! Each has as its clause what the answer is by the library's definitions (`specs/Files.antt`): what is found in a document ([`check()`]), its
//! normal form ([`format()`]), what documents are merged into ([`merge()`]), a document nested into another ([`nest()`]), its operations
//! ([`operations()`]) and how much it has of each thing ([`stats()`]). What is no document is refused in lines that tell why. Those that write a
//! document tell what is lost of the files, or refuse it.
mod base;
mod checking;
mod formatting;
mod layout;
mod listing;
mod merging;
mod nesting;
mod written;

pub use base::is_base;
pub use checking::check;
pub use formatting::format;
pub use layout::Layout;
pub use listing::{operations, stats};
pub use merging::merge;
pub use nesting::nest;
pub use utoipa_findings::{Form, Refusal, Source};
pub use written::Written;
