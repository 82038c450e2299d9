// Making sheets, and noting and striking steps: which calls are refused, and with which number.
use crate::shared::to;
use lts::sources::Source;
use sheets::refusals::Refusal;
use sheets::store::Sheet;
use std::test::Fail;

// 0 for a call that is carried out, and otherwise the number of the refusal: the tests hold the numbers by which users know refusals, and
// an `Option` of the number would only make each line longer.
fn number(answer: Result<(), Refusal>) -> u8 {
    match answer {
        Ok(()) => 0,
        Err(refusal) => refusal.number(),
    }
}

#[test]
fn sizes(rt: HostRuntime) -> Result<(), Fail> {
    let mut sheet = Sheet::blank(rt.alloc())?;
    assert_eq!(rt; (sheet.states(), sheet.signals()), (1, 0));
    assert_eq!(rt; number(sheet.new_sheet(0, 0)), 1);
    assert_eq!(rt; number(sheet.new_sheet(49, 5)), 1);
    assert_eq!(rt; number(sheet.new_sheet(48, 6)), 1);
    assert_eq!(rt; (sheet.states(), sheet.signals()), (1, 0));
    assert_eq!(rt; number(sheet.new_sheet(48, 5)), 0);
    assert_eq!(rt; (sheet.states(), sheet.signals()), (48, 5));
    Ok(())
}

#[test]
fn notes_refused(rt: HostRuntime) -> Result<(), Fail> {
    let mut sheet = Sheet::blank(rt.alloc())?;
    assert_eq!(rt; number(sheet.new_sheet(2, 1)), 0);
    assert_eq!(rt; number(sheet.note((0, 2, 1).into())), 0);
    // of several numbers, the one checked first
    assert_eq!(rt; number(sheet.note((2, 3, 2).into())), 2);
    assert_eq!(rt; number(sheet.note((1, 3, 2).into())), 3);
    assert_eq!(rt; number(sheet.note((1, 2, 2).into())), 2);
    assert_eq!(rt; number(sheet.note((0, 2, 1).into())), 4);
    assert_eq!(rt; number(sheet.strike((2, 3, 2).into())), 2);
    assert_eq!(rt; number(sheet.strike((1, 3, 2).into())), 3);
    assert_eq!(rt; number(sheet.strike((1, 2, 2).into())), 2);
    assert_eq!(rt; number(sheet.strike((1, 2, 0).into())), 6);
    assert_eq!(rt; sheet.step_count(0), 1);
    assert_eq!(rt; sheet.step_count(1), 0);
    Ok(())
}

// Notes the steps with one label from each of the first 16 states to each of them.
fn fill(sheet: &mut Sheet, label: usize) -> Result<(), Refusal> {
    for from in 0..16 {
        for to in 0..16 {
            sheet.note((from, label, to).into())?;
        }
    }
    Ok(())
}

#[test]
fn full_sheet(rt: HostRuntime) -> Result<(), Fail> {
    let mut sheet = Sheet::blank(rt.alloc())?;
    assert_eq!(rt; number(sheet.new_sheet(16, 5)), 0);
    assert_eq!(rt; number(fill(&mut sheet, 0)), 0);
    assert_eq!(rt; number(fill(&mut sheet, 1)), 0);
    // a step that is there is 4 also on a full sheet; another is 5
    assert_eq!(rt; number(sheet.note((0, 1, 0).into())), 4);
    assert_eq!(rt; number(sheet.note((0, 2, 0).into())), 5);
    assert_eq!(rt; number(sheet.strike((0, 0, 0).into())), 0);
    assert_eq!(rt; number(sheet.note((0, 2, 0).into())), 0);
    assert_eq!(rt; number(sheet.note((0, 0, 0).into())), 5);
    Ok(())
}

#[test]
fn struck_and_noted_again(rt: HostRuntime) -> Result<(), Fail> {
    let mut sheet = Sheet::blank(rt.alloc())?;
    assert_eq!(rt; number(sheet.new_sheet(3, 0)), 0);
    assert_eq!(rt; number(sheet.note((0, 0, 1).into())), 0);
    assert_eq!(rt; number(sheet.note((0, 0, 2).into())), 0);
    assert_eq!(rt; number(sheet.strike((0, 0, 1).into())), 0);
    assert_eq!(rt; number(sheet.strike((0, 0, 1).into())), 6);
    assert_eq!(rt; number(sheet.note((0, 0, 1).into())), 0);
    // it stands at the end now
    assert_eq!(rt; sheet.step(0, 0), to(0, 2));
    assert_eq!(rt; sheet.step(0, 1), to(0, 1));
    assert_eq!(rt; sheet.step(0, 2), None);
    Ok(())
}

#[test]
fn refusals_print(rt: HostRuntime) -> Result<(), Fail> {
    let text = format!(in rt.alloc(); "{}", Refusal::StepPresent)?;
    assert_eq!(rt; text.as_str(), "refused 4");
    Ok(())
}
