//! Examples of what the comparer answers, worked by hand and run as tests.
#![tactic(auto)]

#[cfg(test)]
mod comparisons;
