//! Trees as people have them, adapted to what the model reads, and trees of OpenAPI 3.0, upgraded to 3.1.
//!
//! The standard lets some things be said in several ways, of which the model reads one. [`adapt`] gives a tree that form, and [`adaptations`]
//! lists which [`Rule`] changes what, and where. [`upgrade`] and [`upgrades`] do so from OpenAPI 3.0 to 3.1. The page `specs/Rules.antt` has each rule
//! with the section of the standard that it rests on, and `specs/Adapted.antt` how a set of rules goes through a tree. Reading is not changed: whoever
//! wants a tree adapted or upgraded does that first. A document of 3.0 is upgraded and then adapted.
//!
//! Four laws hold of both, of every tree ([`laws`]): a tree without changes stays as it is, a changed tree has no changes, changing twice is
//! changing once, and what is told of a tree itself are the rules that change it. So nobody needs to call [`adapt`] for a tree of which
//! [`adaptations`] lists nothing.
//!
//! Each call goes down a tree by calling itself, so the stack that it takes grows with the tree's depth. serde_json reads no text that nests deeper
//! than 127.
#![tactic(auto)]

mod adapting;
mod changing;
mod editing;
mod kinds;
pub mod laws;
mod looking;
mod message;
mod of_3_0;
pub mod rules;
pub mod telling;

pub use adapting::{adapt, upgrade};
pub use rules::Rule;
pub use telling::{AdaptedPlace, adaptations, upgrades};
