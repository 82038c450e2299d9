//! Labelled transition systems with time-outs: what gives their steps, when two states are alike, and the theorems on that.
#![tactic(auto)]

pub mod environments;
pub mod labels;
pub mod leaving;
pub mod relations;
pub mod sources;
pub mod steps;
pub mod systems;
pub mod theorems;
