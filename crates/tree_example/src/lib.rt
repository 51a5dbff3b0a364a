//! A sum and three passes of `rv_tree`: the examples of `docs/TREE.md`.
#![tactic(auto)]

pub mod accumulate;
pub mod counted;
pub mod extent;
pub mod set_at;
