// Two sheets side by side, as one source.
ghost use Rattle.std.specs.Prelude.{◌≡◌};
ghost use Rattle.sheets.specs.Listings.{process_of, origins_of};
ghost use Rattle.sheets.specs.Held.{held};
ghost use Rattle.sheets.specs.Joins.{joined_process, joined_origins, IsSided};
ghost use Rattle.sheets.specs.JoinLaw.{JoinLaw};
ghost use Rattle.sheets.specs.JoinLimits.{join_limits, join_originated};

use crate::store::Sheet;
use lts::sources::Source;
use lts::steps::{Origin, Side, Step};

// One source out of two sheets. The left sheet's states come first, so a state q of the right one is numbered behind all n of them, as
// n + q. There are as many signals as on the sheet that has more, and what comes from the right sheet has side 1.
#[derive(Clone, Copy)]
pub struct Join<'a> {
    left: &'a Sheet,
    right: &'a Sheet,
}

impl<'a> Join<'a> {
    // The join of these sheets: it has exactly the steps of both.
    pub fn of(left: &'a Sheet, right: &'a Sheet) -> Join<'a>
        ensures sides { (result.left.now ≡ left.now) × (result.right.now ≡ right.now) }
        ensures law { JoinLaw (held left.now) (held right.now) }
    {
        Join { left, right }
    }

    // The sheet's state that a state of the join is.
    fn sided(&self, state: usize) -> Sided
        ensures { IsSided (held self.now.left.now).states state result }
    {
        let n = self.left.states();
        if state < n {
            Sided::Left(state)
        } else {
            Sided::Right(state - n)
        }
    }
}

impl Source for Join<'_> {
    ghost meaning = { λ j. joined_process (process_of (held j.left.now)) (process_of (held j.right.now)) };

    ghost origins = { λ j. let l = held j.left.now in
        joined_origins l.states (origins_of l) (origins_of (held j.right.now)) };

    ghost limits = { λ j. join_limits j.left.now j.right.now };

    ghost originated = { λ j. join_originated j.left.now j.right.now };

    fn states(&self) -> usize {
        self.left.states() + self.right.states()
    }

    fn signals(&self) -> usize {
        self.left.signals().max(self.right.signals())
    }

    fn step_count(&self, state: usize) -> usize {
        match self.sided(state) {
            Sided::Left(state) => self.left.step_count(state),
            Sided::Right(state) => self.right.step_count(state),
        }
    }

    fn step(&self, state: usize, place: usize) -> Option<Step> {
        match self.sided(state) {
            Sided::Left(state) => self.left.step(state, place),
            Sided::Right(state) => self.right.step_behind(self.left.states(), state, place),
        }
    }

    fn list(&self, state: usize, into: &mut Vec<Step>) {
        match self.sided(state) {
            Sided::Left(state) => self.left.list(state, into),
            Sided::Right(state) => self.right.list_behind(self.left.states(), state, into),
        }
    }

    fn origin(&self, state: usize, place: usize) -> Option<Origin> {
        match self.sided(state) {
            Sided::Left(state) => self.left.origin(state, place),
            Sided::Right(state) => {
                let origin = self.right.origin(state, place)?;
                Some(Origin {
                    side: Side::Right,
                    ..origin
                })
            }
        }
    }
}

// A state of the left sheet or of the right one, as that sheet numbers it.
enum Sided {
    Left(usize),
    Right(usize),
}
