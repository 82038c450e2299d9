// A source that is at every limit.
ghost use Rattle.std.specs.Prelude.{◌≡◌, ◌<◌};
ghost use Rattle.timing.specs.Fullest.{full_count, full_step, full_origin, fullest, fullest_origins};
ghost use Rattle.timing.specs.FullestLimits.{fullest_limits, fullest_originated};

use lts::sources::Source;
use lts::steps::{Origin, Side, Step};

const STATES: usize = 96;

const STEPS: usize = 4096;

// 96 states, 5 signals, and 4,096 steps from each state. A state p leads to the states up to p / 2, to each with every label; only
// state 0 has inner steps alone.
#[derive(Clone, Copy)]
pub struct Fullest;

impl Source for Fullest {
    ghost meaning = { λ _. fullest };

    ghost origins = { λ _. fullest_origins };

    ghost limits = { λ _. fullest_limits };

    ghost originated = { λ _. fullest_originated };

    fn states(&self) -> usize {
        STATES
    }

    fn signals(&self) -> usize {
        5
    }

    #[tactic(auto, using(crate::specs::FullestLimits::length_listed))]
    fn step_count(&self, state: usize) -> usize {
        count_at(state)
    }

    #[tactic(auto, using(crate::proofs::Places::nth_listed))]
    fn step(&self, state: usize, place: usize) -> Option<Step> {
        (place < count_at(state)).then(|| step_at(state, place))
    }

    #[tactic(auto, using(crate::proofs::Places::nth_listed))]
    fn origin(&self, state: usize, place: usize) -> Option<Origin> {
        (place < count_at(state)).then(|| origin_at(place))
    }
}

fn count_at(state: usize) -> usize
    ensures { result ≡ full_count state }
{
    if state < STATES { STEPS } else { 0 }
}

fn step_at(state: usize, place: usize) -> Step
    requires { state < 96 }
    ensures { result ≡ full_step state place }
{
    Step {
        label: if state == 0 { 0 } else { place % 7 },
        target: place / 7 % (state / 2 + 1),
    }
}

// The fullest source was written down nowhere: its places are made up.
fn origin_at(place: usize) -> Origin
    ensures { result ≡ full_origin place }
{
    Origin {
        side: Side::Left,
        place: place % 512,
    }
}
