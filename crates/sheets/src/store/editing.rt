// Making a sheet, and noting and striking its steps.
ghost use Rattle.std.specs.Prelude.{◌≡◌, IfOk};
ghost use Rattle.sheets.specs.Transitions.{IsPlaceOf};
ghost use Rattle.sheets.specs.Contents.{blank_contents, new_sheet_answer, after_new_sheet};
ghost use Rattle.sheets.specs.Contents.{range_answer, note_answer, after_note, strike_answer, after_strike};
ghost use Rattle.sheets.specs.Held.{held};

use super::{MOST_SIGNALS, MOST_STATES, MOST_STEPS, Sheet};
use crate::refusals::Refusal;
use crate::transitions::Transition;
use std::alloc::{AllocError, Global};

impl Sheet {
    // The blank sheet: one state, no signals and no steps. Only this call can fail, for want of memory.
    pub fn blank(heap: Global) -> Result<Sheet, AllocError>
        ensures { IfOk result (λ s. held s ≡ blank_contents) }
    {
        let steps = Vec::with_capacity(heap, MOST_STEPS)?;
        Ok(Sheet {
            states: 1,
            signals: 0,
            steps,
        })
    }

    // Makes this the sheet of these sizes with no steps. The sizes are two numbers: a type of both would hold no fact before they are checked.
    pub fn new_sheet(&mut self, states: usize, signals: usize) -> Result<(), Refusal>
        ensures answer { result ≡ new_sheet_answer states signals }
        ensures after { held self.new ≡ after_new_sheet (held self.old) states signals }
    {
        if states < 1 || states > MOST_STATES || signals > MOST_SIGNALS {
            return Err(Refusal::SizeOutOfLimits);
        }
        self.steps.clear();
        self.states = states;
        self.signals = signals;
        Ok(())
    }

    // Adds the step at the end.
    #[tactic(auto, using(crate::proofs::Once::with_one_more))]
    pub fn note(&mut self, step: Transition) -> Result<(), Refusal>
        ensures answer { result ≡ note_answer (held self.old) step }
        ensures after { held self.new ≡ after_note (held self.old) step }
    {
        self.in_range(step)?;
        if self.place_of(step).is_some() {
            return Err(Refusal::StepPresent);
        }
        if self.steps.len() >= MOST_STEPS {
            return Err(Refusal::SheetFull);
        }
        self.steps.push_reserved(step);
        Ok(())
    }

    // Takes the step out; later ones move up.
    #[tactic(auto, using(crate::proofs::Once::with_one_fewer))]
    pub fn strike(&mut self, step: Transition) -> Result<(), Refusal>
        ensures answer { result ≡ strike_answer (held self.old) step }
        ensures after { held self.new ≡ after_strike (held self.old) step }
    {
        self.in_range(step)?;
        let place = self.place_of(step).ok_or(Refusal::StepAbsent)?;
        self.steps.remove(place);
        Ok(())
    }

    // Whether the sheet has the step's states and label.
    fn in_range(&self, step: Transition) -> Result<(), Refusal>
        ensures { result ≡ range_answer (held self.now) step }
    {
        if step.from >= self.states {
            return Err(Refusal::AbsentState);
        }
        if step.label >= self.signals + 2 {
            return Err(Refusal::AbsentLabel);
        }
        if step.to >= self.states {
            return Err(Refusal::AbsentState);
        }
        Ok(())
    }

    // Where the step stands.
    fn place_of(&self, step: Transition) -> Option<usize>
        ensures { IsPlaceOf (held self.now).steps step result }
    {
        self.steps.iter().position(|x| *x == step)
    }
}
