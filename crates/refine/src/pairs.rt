// The two states that are compared.
ghost use Rattle.std.specs.Prelude.{◌≡◌, ◌<◌, ◌≤◌, ◌⊎◌, MatchResult};
ghost use Rattle.sheets.specs.declared.refusals.Refusal.TheVariants.{AbsentState};

use sheets::refusals::Refusal;

// Two states below a number of states.
#[derive(Clone, Copy)]
pub(crate) struct Pair {
    pub(crate) left: usize,
    pub(crate) right: usize,
    pub(crate) states: usize,
    ghost left_present: { left < states },
    ghost right_present: { right < states },
}

impl Pair {
    pub(crate) fn of(left: usize, right: usize, states: usize) -> Result<Pair, Refusal>
        ensures { MatchResult result
            (λ p. (p.left ≡ left) × (p.right ≡ right) × (p.states ≡ states))
            (λ r. (r ≡ AbsentState) × ((states ≤ left) ⊎ (states ≤ right))) }
    {
        if left >= states || right >= states {
            return Err(Refusal::AbsentState);
        }
        Ok(Pair {
            left,
            right,
            states,
        })
    }
}
