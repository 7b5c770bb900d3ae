//! What the programs of cases share: the line of a case, and what is asked of a tree as any type. It stands on the traits of
//! utoipa_base alone; each program says which types it knows, and by which names.
#![tactic(auto)]

pub mod call;
pub mod printing;
pub mod question;
pub mod refusal;
pub mod texts;
mod values;

pub use call::Call;
pub use printing::printed;
pub use question::{Question, answered};
pub use refusal::refused;
pub use texts::two_trees;
