// The sheet and what always holds of it.
ghost use Rattle.std.specs.Prelude.{◌≡◌, ◌≤◌, true, vec_len, vec_capacity};
ghost use Rattle.sheets.specs.Transitions.{all_fit, all_once};

use crate::transitions::Transition;

pub mod editing;
pub mod listing;

// The most states, signals and steps of a sheet.
pub(crate) const MOST_STATES: usize = 48;

pub(crate) const MOST_SIGNALS: usize = 5;

pub(crate) const MOST_STEPS: usize = 512;

// A sequencer sheet. Its memory is reserved when it is made, so that no later call wants any.
//
// No `impl Model`: a model's value has no facts, and `limits` owes some for every value of the type. `held` is the view.
#[derive(Drop)]
pub struct Sheet {
    states: usize,
    signals: usize,
    steps: Vec<Transition>,
    ghost some_state: { 1 ≤ states },
    ghost few_states: { states ≤ 48 },
    ghost few_signals: { signals ≤ 5 },
    ghost few_steps: { vec_len steps ≤ 512 },
    ghost room: { 512 ≤ vec_capacity steps },
    ghost fit: { all_fit states signals steps.items ≡ true },
    ghost once: { all_once steps.items ≡ true },
}
