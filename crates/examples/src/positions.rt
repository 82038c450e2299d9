// Plain systems of a source: the bare one, and positions of the surrounded one with their lists.
use crate::shared::{to, write};
use lts::environments::{Position, Surrounded};
use lts::sources::Source;
use lts::steps::{Step, signal_letter};
use lts::systems::{Bare, Lts};
use sheets::joins::Join;
use sheets::refusals::Refusal;
use sheets::store::Sheet;
use std::test::Fail;

#[test]
fn letters(rt: HostRuntime) {
    assert_eq!(rt;
        (signal_letter(0), signal_letter(4), signal_letter(5)),
        (Some('a'), Some('e'), None)
    );
}

// State 0 steps inside to 1, hears a, and times out to 1; state 1 times out to 0, and hears b.
fn write_small(sheet: &mut Sheet) -> Result<(), Refusal> {
    let steps = [(0, 1, 1), (0, 2, 0), (0, 0, 1), (1, 3, 1), (1, 1, 0)];
    write(sheet, 2, 2, &steps)
}

#[test]
fn bare_system(rt: HostRuntime) -> Result<(), Fail> {
    let mut sheet = Sheet::blank(rt.alloc())?;
    write_small(&mut sheet)?;
    let system = Bare { source: &sheet };
    assert_eq!(rt;
        (system.states(), system.labels(), system.step_count(0)),
        (2, 4, 3)
    );
    assert_eq!(rt;
        (system.step(0, 0), system.step(1, 0), system.step(1, 2)),
        (to(1, 1), to(3, 1), None)
    );
    Ok(())
}

#[test]
fn plain_position(rt: HostRuntime) -> Result<(), Fail> {
    let mut sheet = Sheet::blank(rt.alloc())?;
    write_small(&mut sheet)?;
    let system = Surrounded::of(&sheet);
    assert_eq!(rt; (system.states(), system.labels()), (10, 9));
    // four settlings, then the inner step
    assert_eq!(rt; system.step_count(0), 5);
    assert_eq!(rt;
        (system.step(0, 0), system.step(0, 1)),
        (to(5, 2), to(6, 4))
    );
    assert_eq!(rt;
        (system.step(0, 2), system.step(0, 3)),
        (to(7, 6), to(8, 8))
    );
    assert_eq!(rt; (system.step(0, 4), system.step(0, 5)), (to(0, 1), None));
    Ok(())
}

#[test]
fn positions_under(rt: HostRuntime) -> Result<(), Fail> {
    let mut sheet = Sheet::blank(rt.alloc())?;
    write_small(&mut sheet)?;
    let system = Surrounded::of(&sheet);
    // 0 under {a}: busy, so its time-out waits; the inner step first, then the signal
    assert_eq!(rt; system.step_count(4), 2);
    assert_eq!(rt;
        (system.step(4, 0), system.step(4, 1), system.step(4, 2)),
        (to(0, 5), to(2, 0), None)
    );
    // 0 under {}: busy by its inner step alone
    assert_eq!(rt; (system.step_count(2), system.step(2, 0)), (1, to(0, 3)));
    // 1 under {a}: idle, since b is not allowed; the change, then the time-out, which keeps the environment
    assert_eq!(rt; system.step_count(5), 2);
    assert_eq!(rt;
        (system.step(5, 0), system.step(5, 1)),
        (to(4, 1), to(1, 4))
    );
    // 1 under {b}: busy
    assert_eq!(rt; (system.step_count(7), system.step(7, 0)), (1, to(3, 1)));
    assert_eq!(rt; (system.step_count(10), system.step(10, 0)), (0, None));
    Ok(())
}

// Whether a list of all steps has just those that are asked for place by place.
fn listed_alike<L: Lts>(system: &L, state: usize, steps: &[Step]) -> bool {
    system.step_count(state) == steps.len()
        && steps
            .iter()
            .enumerate()
            .all(|(place, step)| system.step(state, place) == Some(*step))
}

#[test]
fn lists_all(rt: HostRuntime) -> Result<(), Fail> {
    let mut sheet = Sheet::blank(rt.alloc())?;
    write_small(&mut sheet)?;
    let bare = Bare { source: &sheet };
    let system = Surrounded::of(&sheet);
    let mut into = Vec::with_capacity(rt.alloc(), 8)?;
    for state in 0..3 {
        into.clear();
        bare.list(state, &mut into);
        assert!(rt; listed_alike(&bare, state, &into));
    }
    for state in 0..11 {
        into.clear();
        system.list(state, &mut into);
        assert!(rt; listed_alike(&system, state, &into));
    }
    Ok(())
}

// Short for a check of one line, where a position in full takes four. The tour has the same, but a program sees no test's helper.
fn under(allowed: usize, state: usize) -> Position {
    Position::Under { allowed, state }
}

#[test]
fn numbers_of_positions(rt: HostRuntime) -> Result<(), Fail> {
    let mut sheet = Sheet::blank(rt.alloc())?;
    sheet.new_sheet(48, 5)?;
    let join = Join::of(&sheet, &sheet);
    let system = Surrounded::of(&join);
    assert_eq!(rt; (system.states(), system.labels()), (3168, 40));
    assert_eq!(rt; system.number(under(31, 95)), Some(3167));
    assert_eq!(rt; system.position(3167), Some(under(31, 95)));
    assert_eq!(rt; system.position(3168), None);
    assert_eq!(rt; system.number(under(32, 0)), None);
    assert_eq!(rt; system.number(under(0, 96)), None);
    assert_eq!(rt; system.number(Position::Plain { state: 95 }), Some(95));
    assert_eq!(rt; system.number(Position::Plain { state: 96 }), None);
    // an idle state under any environment has the change alone
    assert_eq!(rt; system.step_count(3167), 1);
    assert_eq!(rt; system.step(3167, 0), to(7, 95));
    Ok(())
}
