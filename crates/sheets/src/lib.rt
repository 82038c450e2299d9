//! Sequencer sheets: tables of transitions that are noted and struck one by one, and are sources of steps.
#![tactic(auto)]

pub mod joins;
pub mod refusals;
pub mod replays;
pub mod store;
pub mod transitions;
