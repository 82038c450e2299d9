// Plain labelled transition systems, and a source as one.
ghost use Rattle.std.specs.Prelude.{◌≡◌, length};
ghost use Rattle.std.specs.List.{slice_get};
ghost use Rattle.lts.specs.Lists.{IsFilled};
ghost use Rattle.lts.specs.Systems.{System, SystemLimits};
ghost use Rattle.lts.specs.Environments.{bare};
ghost use Rattle.lts.specs.Limits.{bare_limits};

use crate::sources::Source;
use crate::steps::{Step, put_places};

// A labelled transition system, by the questions that can be asked of it: no time-outs and no origins, labels are only compared. It shares
// no trait of steps with `Source`: each promise would go through a law that ties such a trait's list to the meaning and to the system.
pub trait Lts {
    ghost system: { Self → System };

    // what an implementation owes
    ghost limits: { (x : Self) → SystemLimits (system x) };

    fn states(&self) -> usize
        ensures { result ≡ (system self.now).states };

    fn labels(&self) -> usize
        ensures { result ≡ (system self.now).labels };

    // How many steps leave the state.
    fn step_count(&self, state: usize) -> usize
        ensures { result ≡ length ((system self.now).from state) };

    // The step at a place of the state's list.
    fn step(&self, state: usize, place: usize) -> Option<Step>
        ensures { result ≡ slice_get ((system self.now).from state) place };

    // Puts the steps that leave the state behind those in the list, in order, as far as its reserved room goes; it never allocates.
    fn list(&self, state: usize, into: &mut Vec<Step>)
        ensures { IsFilled into.old into.new ((system self.now).from state) }
    {
        put_places(
            self.step_count(state),
            |place| self.step(state, place),
            into,
        );
    }
}

// A source with all its labels taken alike, time-outs too.
#[derive_where(Clone, Copy)]
pub struct Bare<'a, S> {
    pub source: &'a S,
}

impl<S: Source> Lts for Bare<'_, S> {
    ghost system = { λ b. bare (S.meaning b.source.now) };

    ghost limits = { λ b. bare_limits (S.meaning b.source.now) (S.limits b.source.now) };

    fn states(&self) -> usize {
        self.source.states()
    }

    fn labels(&self) -> usize {
        self.source.signals() + 2
    }

    fn step_count(&self, state: usize) -> usize {
        self.source.step_count(state)
    }

    fn step(&self, state: usize, place: usize) -> Option<Step> {
        self.source.step(state, place)
    }

    fn list(&self, state: usize, into: &mut Vec<Step>) {
        self.source.list(state, into);
    }
}
