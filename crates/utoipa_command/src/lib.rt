//! What the commands answer. The command for programs, `utoipa_doc`, is here as a function: a run reads a text, answers it by a command, and
//! writes the answer or why there is none. Of the command for people, `openapi`, here is what it answers of the names and bytes of its files
//! ([`files`]), with the law on what it writes ([`laws`]); and [`dropped()`] tells, for callers from C, what merging drops.
#![tactic(auto)]

pub mod answer;
pub mod command;
mod conflict_lines;
pub mod files;
pub mod laws;
pub mod reading;
pub mod refusal;
pub mod sink;
pub mod source;
pub mod writing;

pub use command::{Command, Outcome, report, run};
pub use conflict_lines::dropped;
pub use refusal::Refusal;
pub use sink::Sink;
pub use source::Source;
