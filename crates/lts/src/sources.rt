// A source of steps: what is compared.
ghost use Rattle.std.specs.Prelude.{◌≡◌, ℕ, List, length};
ghost use Rattle.std.specs.List.{slice_get};
ghost use Rattle.lts.specs.Lists.{IsFilled};
ghost use Rattle.lts.specs.declared.steps.Origin.{Origin};
ghost use Rattle.lts.specs.Processes.{Process, ProcessLimits};
ghost use Rattle.lts.specs.Origins.{OriginLimits};

use crate::steps::{Origin, Step, put_places};

// A process, by the questions that can be asked of it. What it stands for is its meaning, which fixes every answer: an absent state has no
// steps, and an absent place answers `None`. Asking alters nothing.
pub trait Source {
    ghost meaning: { Self → Process };

    // where each listed step comes from
    ghost origins: { Self → ℕ → List Origin };

    // what an implementation owes
    ghost limits: { (x : Self) → ProcessLimits (meaning x) };

    ghost originated: { (x : Self) → OriginLimits (meaning x) (origins x) };

    fn states(&self) -> usize
        ensures { result ≡ (meaning self.now).states };

    fn signals(&self) -> usize
        ensures { result ≡ (meaning self.now).signals };

    // How many steps leave the state.
    fn step_count(&self, state: usize) -> usize
        ensures { result ≡ length ((meaning self.now).from state) };

    // The step at a place of the state's list.
    fn step(&self, state: usize, place: usize) -> Option<Step>
        ensures { result ≡ slice_get ((meaning self.now).from state) place };

    // Puts the steps that leave the state behind those in the list, in order, as far as its reserved room goes; it never allocates. It asks
    // nothing new: a source that can walk its steps faster than place by place gives its own body.
    fn list(&self, state: usize, into: &mut Vec<Step>)
        ensures { IsFilled into.old into.new ((meaning self.now).from state) }
    {
        put_places(
            self.step_count(state),
            |place| self.step(state, place),
            into,
        );
    }

    // The origin of that step.
    fn origin(&self, state: usize, place: usize) -> Option<Origin>
        ensures { result ≡ slice_get (origins self.now state) place };
}
