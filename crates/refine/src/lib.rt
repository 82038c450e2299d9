//! The comparer: rounds of refinement on any plain system, and judge, strict and census on any source.
#![tactic(auto)]

pub(crate) mod chains;
pub(crate) mod classes;
pub(crate) mod codes;
pub mod comparers;
pub(crate) mod marks;
pub(crate) mod pairs;
pub(crate) mod rankings;
pub(crate) mod rounds;
pub(crate) mod tables;
pub mod verdicts;
pub(crate) mod workspaces;
