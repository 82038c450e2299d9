//! Examples of what the library answers, worked by hand and run as tests.
#![tactic(auto)]

#[cfg(test)]
mod editing;
#[cfg(test)]
mod positions;
#[cfg(test)]
mod shared;
#[cfg(test)]
mod sources;
