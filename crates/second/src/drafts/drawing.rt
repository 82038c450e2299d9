// Small drafts drawn by chance, and others that differ from them in little.
ghost use Rattle.std.specs.Prelude.{◌<◌, IfSome, vec_len};

use super::{A, Draft, Drafts, T};
use crate::chance::Dice;
use lts::labels::Label;
use sheets::transitions::Transition;
use std::alloc::{AllocError, Global};

// Some draws take the heap beside the dice: in a struct of both it would reach those too that only draw.
impl Drafts {
    pub fn random(heap: Global, dice: &mut Dice) -> Result<Drafts, AllocError> {
        let left = Draft::random(heap, dice)?;
        let right = left.relative(heap, dice)?;
        Ok(Drafts { left, right })
    }
}

impl Draft {
    // One to four states, and at most two signals.
    fn random(heap: Global, dice: &mut Dice) -> Result<Draft, AllocError> {
        let mut draft = Draft {
            states: 1 + dice.below(4),
            signals: dice.below(3),
            steps: Vec::new(heap),
        };
        draft.add_some(dice)?;
        Ok(draft)
    }

    // At most six steps. Half of the drafts with signals surely get a state that waits for one: much of what a comparer can get wrong shows
    // only there.
    fn add_some(&mut self, dice: &mut Dice) -> Result<(), AllocError> {
        if dice.below(2) == 0 {
            self.add_waiting(dice)?;
        }
        for _ in 0..dice.below(5) {
            self.add(dice)?;
        }
        Ok(())
    }

    // Another draft, mostly with one change, so that many states of the two are alike. A third of the changes are signals that go unheard.
    fn relative(&self, heap: Global, dice: &mut Dice) -> Result<Draft, AllocError> {
        let mut draft = Draft {
            states: self.states,
            signals: self.signals,
            steps: self.steps.clone()?,
        };
        match dice.below(6) {
            0 => draft.add(dice)?,
            1 => draft.strike(dice),
            2 => draft.split(heap, dice)?,
            3 => draft = Draft::random(heap, dice)?,
            _ => draft.add_unheard(dice)?,
        }
        Ok(draft)
    }

    fn add(&mut self, dice: &mut Dice) -> Result<(), AllocError> {
        let from = dice.below(self.states);
        let label = dice.below(self.signals + 2);
        self.add_from(from, label, dice)
    }

    fn add_from(&mut self, from: usize, label: usize, dice: &mut Dice) -> Result<(), AllocError> {
        let to = dice.below(self.states);
        self.steps.push(Transition { from, label, to })?;
        Ok(())
    }

    // A signal and a time-out for the same state, if there are signals.
    fn add_waiting(&mut self, dice: &mut Dice) -> Result<(), AllocError> {
        if self.signals == 0 {
            return Ok(());
        }
        let from = dice.below(self.states);
        let signal = A + dice.below(self.signals);
        self.add_from(from, signal, dice)?;
        self.add_from(from, T, dice)
    }

    // Where a time-out leads, a signal that the waiting state hears too: when the time-out runs, no environment allows it, and it makes a
    // difference only once the environment has changed.
    fn add_unheard(&mut self, dice: &mut Dice) -> Result<(), AllocError> {
        for _ in 0..20 {
            if let (Some(wait), Some(heard)) = (self.any_step(dice), self.any_step(dice))
                && Label::from(wait.label) == Label::TimeOut
                && heard.from == wait.from
                && matches!(Label::from(heard.label), Label::Signal(_))
            {
                return self.add_from(wait.to, heard.label, dice);
            }
        }
        Ok(())
    }

    // The place of a step, if there are steps.
    fn any_place(&self, dice: &mut Dice) -> Option<usize>
        ensures { IfSome result (λ place. place < vec_len self.now.steps) }
    {
        let count = self.steps.len();
        (count > 0).then(|| dice.below(count))
    }

    fn any_step(&self, dice: &mut Dice) -> Option<Transition> {
        self.steps.get(self.any_place(dice)?).copied()
    }

    fn strike(&mut self, dice: &mut Dice) {
        if let Some(place) = self.any_place(dice) {
            self.steps.remove(place);
        }
    }

    // A state gets a twin with the same steps, and each step to the state may go to the twin instead. A large draft stays as it is.
    fn split(&mut self, heap: Global, dice: &mut Dice) -> Result<(), AllocError> {
        if self.states > 8 {
            return Ok(());
        }
        let state = dice.below(self.states);
        let twin = self.states;
        let mut steps = Vec::new(heap);
        for step in &self.steps {
            steps.push(turned(*step, state, twin, dice))?;
            if step.from == state {
                let copied = Transition {
                    from: twin,
                    ..*step
                };
                steps.push(turned(copied, state, twin, dice))?;
            }
        }
        self.states += 1;
        self.steps = steps;
        Ok(())
    }
}

// A step to the state, by chance turned to its twin.
fn turned(step: Transition, state: usize, twin: usize, dice: &mut Dice) -> Transition {
    if step.to == state && dice.below(2) == 0 {
        Transition { to: twin, ..step }
    } else {
        step
    }
}
