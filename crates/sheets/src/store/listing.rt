// A sheet as a source: the steps that leave a state, in noting order.
ghost use Rattle.std.specs.Prelude.{◌≡◌, ◌≤◌, ◌==◌, count_by};
ghost use Rattle.std.specs.List.{slice_get};
ghost use Rattle.lts.specs.Lists.{IsFilled};
ghost use Rattle.sheets.specs.Listings.{leaving, all_behind, process_of, origins_of, ListingsStand};
ghost use Rattle.sheets.specs.Held.{held};
ghost use Rattle.sheets.specs.SheetLimits.{sheet_limits, sheet_originated};

use super::Sheet;
use crate::transitions::Listed;
use lts::sources::Source;
use lts::steps::{Origin, Step, put_all};

impl Source for Sheet {
    ghost meaning = { λ s. process_of (held s) };

    ghost origins = { λ s. origins_of (held s) };

    ghost limits = { sheet_limits };

    ghost originated = { sheet_originated };

    fn states(&self) -> usize {
        self.states
    }

    fn signals(&self) -> usize {
        self.signals
    }

    fn step_count(&self, state: usize) -> usize {
        self.count_leaving(state)
    }

    fn step(&self, state: usize, place: usize) -> Option<Step> {
        self.listed(state, place)
            .map(|listed| listed.transition.step())
    }

    fn list(&self, state: usize, into: &mut Vec<Step>) {
        self.list_behind(0, state, into);
    }

    fn origin(&self, state: usize, place: usize) -> Option<Origin> {
        self.listed(state, place).map(|listed| listed.origin())
    }
}

impl Sheet {
    fn count_leaving(&self, state: usize) -> usize
        ensures { result ≡ count_by (λ x. x.from == state) (held self.now).steps }
    {
        // a sum: `filter` and `count` make two loops of it, and take twice as long
        self.steps
            .iter()
            .map(|x| if x.from == state { 1 } else { 0 })
            .sum()
    }

    // The step at a place of those that leave the state.
    fn listed(&self, state: usize, place: usize) -> Option<Listed>
        ensures { result ≡ slice_get (leaving (held self.now).steps state) place }
    {
        self.steps
            .iter()
            .enumerate()
            .map(|(i, x)| Listed {
                place: i,
                transition: *x,
            })
            .filter(|listed| listed.transition.from == state)
            .nth(place)
    }

    // As `step`, with the target numbered behind n other states.
    pub(crate) fn step_behind(&self, n: usize, state: usize, place: usize) -> Option<Step>
        requires { n ≤ 48 }
        ensures { result ≡ slice_get (all_behind n (held self.now) state) place }
    {
        self.step(state, place).map(|step| step.moved(n))
    }

    // As `list`, with the targets numbered behind n other states.
    pub(crate) fn list_behind(&self, n: usize, state: usize, into: &mut Vec<Step>)
        requires { n ≤ 48 }
        ensures { IsFilled into.old into.new (all_behind n (held self.now) state) }
    {
        let leaving = self.steps.iter().filter(|x| x.from == state);
        put_all(into, leaving.map(|x| x.step_behind(n)));
    }
}

// A theorem: a sheet lists for each state exactly the steps on it that leave that state, in noting order and with their places.
#[tactic(auto, using(crate::proofs::Listings::listings))]
pub fn listings_stand()
    ensures { ListingsStand }
{}
