// What several tests use: sheets written from tuples, and steps as answers.
use lts::steps::Step;
use sheets::refusals::Refusal;
use sheets::store::Sheet;
use sheets::transitions::Transition;

// Writes a sheet, of sizes as `new_sheet` takes them. Each step has the state that it leaves, its label by number, as a sheet takes it, and the
// state that it leads to. The tests of `comparisons` write their drafts so too: one crate's tests see no helper of another's, and a library
// for one loop is no plainer.
pub fn write(
    sheet: &mut Sheet,
    states: usize,
    signals: usize,
    steps: &[(usize, usize, usize)],
) -> Result<(), Refusal> {
    sheet.new_sheet(states, signals)?;
    for step in steps {
        sheet.note(Transition::from(*step))?;
    }
    Ok(())
}

pub fn to(label: usize, target: usize) -> Option<Step> {
    Some(Step { label, target })
}
