// Runs of calls on a sheet, held against a tally that never sees the sheet.
ghost use Rattle.std.specs.Prelude.{◌≡◌, OnOk};
ghost use Rattle.sheets.specs.Contents.{new_sheet_answer};
ghost use Rattle.sheets.specs.Held.{held};
ghost use Rattle.sheets.specs.Tallies.{after_call, call_answer, calls_of, after_replay, script_after, TallyLaw};

use crate::refusals::Refusal;
use crate::store::Sheet;
use crate::transitions::Transition;

// A call that edits a sheet.
#[derive(Clone, Copy, PartialEq, Eq, Debug)]
pub enum Call {
    Note(Transition),
    Strike(Transition),
}

impl Call {
    fn carry_out(self, sheet: &mut Sheet) -> Result<(), Refusal>
        ensures answer { result ≡ call_answer (held sheet.old) self }
        ensures after { held sheet.new ≡ after_call (held sheet.old) self }
    {
        match self {
            Call::Note(step) => sheet.note(step),
            Call::Strike(step) => sheet.strike(step),
        }
    }
}

// A call of a script, and its answer once it was replayed.
#[derive(Clone, Copy)]
pub struct Entry {
    pub call: Call,
    pub answer: Option<Result<(), Refusal>>,
}

// Makes a new sheet of these sizes, carries out each call of the script in turn, and enters its answer. Sizes out of limits are
// refused, and leave sheet and script as they were.
pub fn replay(
    sheet: &mut Sheet,
    states: usize,
    signals: usize,
    script: &mut [Entry],
) -> Result<(), Refusal>
    ensures answer { result ≡ new_sheet_answer states signals }
    ensures after { held sheet.new ≡ after_replay (held sheet.old) states signals script.old }
    ensures answered { script.new ≡ script_after states signals script.old }
    ensures law { OnOk result (TallyLaw states signals (calls_of script.old) (held sheet.new).steps) }
{
    sheet.new_sheet(states, signals)?;
    for entry in script.iter_mut() {
        entry.answer = Some(entry.call.carry_out(sheet));
    }
    Ok(())
}
