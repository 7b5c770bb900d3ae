//! Worked examples of the definitions of `utoipa_base`, each a theorem by computation: the crate has no code, its proofs
//! say what given trees read as, and what given documents are written as.
#![tactic(auto)]
