// What is to be written on the sheets.
ghost use Rattle.std.specs.Prelude.{◌<◌};

use lts::labels::Label;
use sheets::refusals::Refusal;
use sheets::store::Sheet;
use sheets::transitions::Transition;
use std::alloc::{AllocError, Global};
use std::fmt;

pub mod drawing;

// The labels: an inner step, a time-out, and the first signals. They are numbers here, as a sheet takes them. The tests of `comparisons` have
// the same five: in lts they would be a second way to say what a `Label` is.
pub const TAU: usize = 0;

pub const T: usize = 1;

pub const A: usize = 2;

pub const B: usize = 3;

pub const C: usize = 4;

// A sheet to be written. A step may stand here twice, and is noted once.
#[derive(Drop)]
pub struct Draft<S = Vec<Transition>> {
    pub states: usize,
    pub signals: usize,
    pub steps: S,
    ghost some_state: { 0 < states },
    ghost few_states: { states < 32 },
    ghost few_signals: { signals < 32 },
}

// A draft as a table has it. Each step has the state that it leaves, its label, and the state that it leads to.
pub type Sketch = Draft<&'static [(usize, usize, usize)]>;

// The two sheets of a join.
#[derive(Drop)]
pub struct Drafts {
    pub left: Draft,
    pub right: Draft,
}

impl Sketch {
    pub fn draft(&self, heap: Global) -> Result<Draft, AllocError> {
        Ok(Draft {
            states: self.states,
            signals: self.signals,
            steps: self
                .steps
                .iter()
                .map(|step| Transition::from(*step))
                .collect(heap)?,
        })
    }
}

impl Draft {
    pub fn write(&self, sheet: &mut Sheet) -> Result<(), Refusal> {
        sheet.new_sheet(self.states, self.signals)?;
        for step in &self.steps {
            note_once(sheet, *step)?;
        }
        Ok(())
    }
}

fn note_once(sheet: &mut Sheet, step: Transition) -> Result<(), Refusal> {
    match sheet.note(step) {
        Err(Refusal::StepPresent) => Ok(()),
        answer => answer,
    }
}

impl fmt::Display for Draft {
    fn fmt<W: fmt::Write>(&self, f: &mut fmt::Formatter<W>) -> fmt::Result {
        write!(f, "states {}, signals {}", self.states, self.signals)?;
        for step in &self.steps {
            let label = Label::from(step.label);
            write!(f, "; {} {label} {}", step.from, step.to)?;
        }
        Ok(())
    }
}

impl fmt::Display for Drafts {
    fn fmt<W: fmt::Write>(&self, f: &mut fmt::Formatter<W>) -> fmt::Result {
        writeln!(f, "  left sheet: {}", self.left)?;
        write!(f, "  right sheet: {}", self.right)
    }
}
