// The steps that leave a state of a source, one after another.
use crate::sources::Source;
use crate::steps::Step;
use std::marker::Model;

// An iterator over the steps that leave a state. Contracts see it as the list of those that are left.
#[derive(Drop)]
pub struct Leaving<'a, S: Source> {
    source: &'a S,
    state: usize,
    place: usize,
}

impl<'a, S: Source> Model for Leaving<'a, S> {
    ghost use Rattle.std.specs.Prelude.{List, drop};
    ghost use Rattle.lts.specs.declared.steps.Step.{Step};

    ghost Value = { List Step };

    ghost view = { λ l. drop l.place ((S.meaning l.source.now).from l.state) };
}

impl<'a, S: Source> Leaving<'a, S> {
    ghost use Rattle.std.specs.Prelude.{◌≡◌};

    // All steps that leave the state, in order.
    pub fn of(source: &'a S, state: usize) -> Leaving<'a, S>
        ensures { result ≡ (S.meaning source.now).from state }
    {
        Leaving {
            source,
            state,
            place: 0,
        }
    }
}

impl<S: Source> Iterator for Leaving<'_, S> {
    ghost use Rattle.std.specs.Iterator.{YieldsFirst, item_count};

    type Item = Step;

    ghost next_gives = { YieldsFirst (λ left. left) };

    ghost remaining = { item_count (λ left. left) };

    #[tactic(auto, using(crate::proofs::Rest::rests))]
    fn next(&mut self) -> Option<Step> {
        let step = self.source.step(self.state, self.place)?;
        self.place += 1;
        Some(step)
    }
}
