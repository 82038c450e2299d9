// Steps as a sheet holds them.
ghost use Rattle.std.specs.Prelude.{◌≡◌};
ghost use Rattle.lts.specs.Systems.{step, moved_within};
ghost use Rattle.sheets.specs.Listings.{origin_of};
ghost use Rattle.sheets.specs.Transitions.{transition};

use lts::steps::{Origin, Side, Step};

// A step with the state that it leaves. Its label is a number, as in a `Step`: a listing copies it as it is.
#[derive(Clone, Copy, PartialEq, Eq, Debug)]
pub struct Transition {
    pub from: usize,
    pub label: usize,
    pub to: usize,
}

// The state that the step leaves, its label, and the state that it leads to: as tables of steps are written.
impl From<(usize, usize, usize)> for Transition {
    ghost from_gives = { λ x t. t ≡ transition x.0 x.1 x.2 };

    fn from((from, label, to): (usize, usize, usize)) -> Transition {
        Transition { from, label, to }
    }
}

impl Transition {
    // The step, without the state that it leaves. A method and no `From`: a chain of calls shows what comes out.
    pub(crate) fn step(self) -> Step
        ensures { result ≡ step self.label self.to }
    {
        Step {
            label: self.label,
            target: self.to,
        }
    }

    // The same, with the target numbered behind n other states.
    pub(crate) fn step_behind(self, n: usize) -> Step
        ensures { result ≡ moved_within n (step self.label self.to) }
    {
        self.step().moved(n)
    }
}

// A transition with its place among all transitions of its sheet.
#[derive(Clone, Copy, PartialEq, Eq, Debug)]
pub(crate) struct Listed {
    pub place: usize,
    pub transition: Transition,
}

impl Listed {
    // A method and no `From`: a chain of calls shows what comes out.
    pub fn origin(self) -> Origin
        ensures { result ≡ origin_of self }
    {
        Origin {
            side: Side::Left,
            place: self.place,
        }
    }
}
