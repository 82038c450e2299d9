// Comparisons: verdicts, refusals and classes.
use lts::environments::Surrounded;
use lts::systems::Bare;
use refine::comparers::Comparer;
use refine::verdicts::{CensusRefusal, Verdict};
use sheets::joins::Join;
use sheets::refusals::Refusal;
use sheets::store::Sheet;
use sheets::transitions::Transition;
use std::test::Fail;

// The labels: an inner step, a time-out, and three signals. They are numbers here, as a sheet takes them and the tables show them.
const TAU: usize = 0;

const T: usize = 1;

const A: usize = 2;

const B: usize = 3;

const C: usize = 4;

// A sheet to be written. Each step has the state that it leaves, its label, and the state that it leads to. The tests of `examples` write
// theirs so too: one crate's tests see no helper of another's, and a library for one loop is no plainer.
#[derive(Clone, Copy)]
struct Draft {
    states: usize,
    signals: usize,
    steps: &'static [(usize, usize, usize)],
}

impl Draft {
    fn write(&self, sheet: &mut Sheet) -> Result<(), Refusal> {
        sheet.new_sheet(self.states, self.signals)?;
        for step in self.steps {
            sheet.note(Transition::from(*step))?;
        }
        Ok(())
    }
}

// Two sheets, what the pair shows, and how their states 0 compare.
#[derive(Clone, Copy)]
struct Row {
    shows: &'static str,
    old: Draft,
    new: Draft,
    judged: Verdict,
    strictly: Verdict,
}

const ROWS: [Row; 8] = [
    Row {
        shows: "a time-out keeps the environment",
        old: Draft {
            states: 4,
            signals: 1,
            steps: &[(0, A, 1), (0, T, 2), (2, TAU, 3), (2, A, 3)],
        },
        new: Draft {
            states: 4,
            signals: 1,
            steps: &[(0, A, 1), (0, T, 2), (2, TAU, 3)],
        },
        judged: Verdict::Alike,
        strictly: Verdict::Apart { round: 2 },
    },
    Row {
        shows: "a signal that is not heard",
        old: Draft {
            states: 2,
            signals: 1,
            steps: &[(0, A, 1)],
        },
        new: Draft {
            states: 1,
            signals: 1,
            steps: &[],
        },
        judged: Verdict::Apart { round: 2 },
        strictly: Verdict::Apart { round: 1 },
    },
    Row {
        shows: "a signal heard twice, or once",
        old: Draft {
            states: 3,
            signals: 1,
            steps: &[(0, A, 1), (1, A, 2)],
        },
        new: Draft {
            states: 2,
            signals: 1,
            steps: &[(0, A, 1)],
        },
        judged: Verdict::Apart { round: 4 },
        strictly: Verdict::Apart { round: 2 },
    },
    Row {
        shows: "an environment changes at every idle state",
        old: Draft {
            states: 3,
            signals: 1,
            steps: &[(0, A, 2), (0, T, 1), (1, A, 2)],
        },
        new: Draft {
            states: 3,
            signals: 1,
            steps: &[(0, A, 2), (0, T, 1)],
        },
        judged: Verdict::Apart { round: 5 },
        strictly: Verdict::Apart { round: 2 },
    },
    Row {
        shows: "no time-out expires beside an inner step",
        old: Draft {
            states: 3,
            signals: 0,
            steps: &[(0, TAU, 1), (0, T, 2)],
        },
        new: Draft {
            states: 2,
            signals: 0,
            steps: &[(0, TAU, 1)],
        },
        judged: Verdict::Alike,
        strictly: Verdict::Apart { round: 1 },
    },
    Row {
        shows: "a time-out is seen",
        old: Draft {
            states: 2,
            signals: 0,
            steps: &[(0, T, 1)],
        },
        new: Draft {
            states: 1,
            signals: 0,
            steps: &[],
        },
        judged: Verdict::Apart { round: 2 },
        strictly: Verdict::Apart { round: 1 },
    },
    Row {
        shows: "it matters when a choice is made",
        old: Draft {
            states: 5,
            signals: 3,
            steps: &[(0, A, 1), (0, A, 2), (1, B, 3), (2, C, 4)],
        },
        new: Draft {
            states: 4,
            signals: 3,
            steps: &[(0, A, 1), (1, B, 2), (1, C, 3)],
        },
        judged: Verdict::Apart { round: 4 },
        strictly: Verdict::Apart { round: 2 },
    },
    Row {
        shows: "one loop, written in two ways",
        old: Draft {
            states: 3,
            signals: 2,
            steps: &[(0, A, 1), (0, A, 2), (1, B, 0), (2, B, 0)],
        },
        new: Draft {
            states: 3,
            signals: 2,
            steps: &[(0, A, 1), (1, B, 2), (2, A, 1)],
        },
        judged: Verdict::Alike,
        strictly: Verdict::Alike,
    },
];

#[test]
fn worked_pairs(rt: HostRuntime) -> Result<(), Fail> {
    let mut old = Sheet::blank(rt.alloc())?;
    let mut new = Sheet::blank(rt.alloc())?;
    let mut comparer = Comparer::new(rt.alloc())?;
    for row in &ROWS {
        row.old.write(&mut old)?;
        row.new.write(&mut new)?;
        let join = Join::of(&old, &new);
        let right = row.old.states;
        let verdicts = (
            comparer.judge(&join, 0, right)?,
            comparer.strict(&join, 0, right)?,
        );
        assert_eq!(rt; verdicts, (row.judged, row.strictly), "{}", row.shows);
    }
    Ok(())
}

// Each state but the last hears a, and goes on to the next.
fn write_chain(sheet: &mut Sheet, states: usize) -> Result<(), Refusal> {
    sheet.new_sheet(states, 1)?;
    for to in 1..states {
        sheet.note((to - 1, A, to).into())?;
    }
    Ok(())
}

// One comparer serves for many judgements, and none of them sees the one before.
#[test]
fn chains(rt: HostRuntime) -> Result<(), Fail> {
    let mut old = Sheet::blank(rt.alloc())?;
    let mut new = Sheet::blank(rt.alloc())?;
    write_chain(&mut old, 48)?;
    write_chain(&mut new, 47)?;
    let join = Join::of(&old, &new);
    let mut comparer = Comparer::new(rt.alloc())?;
    assert_eq!(rt; comparer.judge(&join, 0, 48)?, Verdict::Apart { round: 94 });
    assert_eq!(rt; comparer.judge(&new, 45, 46)?, Verdict::Apart { round: 2 });
    assert_eq!(rt; comparer.judge(&join, 0, 48)?, Verdict::Apart { round: 94 });
    assert_eq!(rt;
        comparer.strict(&join, 0, 48)?,
        Verdict::Apart { round: 47 }
    );
    assert_eq!(rt; comparer.judge(&join, 1, 48)?, Verdict::Alike);
    Ok(())
}

// States 0 and 3 differ in a time-out that never expires, states 1 and 4 do nothing, and state 2 hears a.
const LOOSE: Draft = Draft {
    states: 5,
    signals: 1,
    steps: &[(0, TAU, 1), (0, T, 2), (2, A, 4), (3, TAU, 4)],
};

#[test]
fn classes(rt: HostRuntime) -> Result<(), Fail> {
    let mut sheet = Sheet::blank(rt.alloc())?;
    LOOSE.write(&mut sheet)?;
    let mut comparer = Comparer::new(rt.alloc())?;
    let mut long = [9; 7];
    assert_eq!(rt; comparer.census(&sheet, &mut long)?, 3);
    // what is beyond the states stays
    assert_eq!(rt; long, [0, 1, 2, 0, 1, 9, 9]);
    let mut exact = [9; 5];
    assert_eq!(rt; comparer.census(&sheet, &mut exact)?, 3);
    assert_eq!(rt; exact, [0, 1, 2, 0, 1]);
    let mut short = [9; 4];
    let refused = comparer.census(&sheet, &mut short);
    assert_eq!(rt; refused, Err(CensusRefusal::BufferTooShort));
    assert_eq!(rt; CensusRefusal::BufferTooShort.number(), 7);
    assert_eq!(rt; short, [9; 4]);
    Ok(())
}

#[test]
fn census_refusal_prints(rt: HostRuntime) -> Result<(), Fail> {
    let text = format!(in rt.alloc(); "{}", CensusRefusal::BufferTooShort)?;
    assert_eq!(rt; text.as_str(), "refused 7");
    Ok(())
}

#[test]
fn absent_states(rt: HostRuntime) -> Result<(), Fail> {
    let mut sheet = Sheet::blank(rt.alloc())?;
    LOOSE.write(&mut sheet)?;
    let bare = Bare { source: &sheet };
    let mut comparer = Comparer::new(rt.alloc())?;
    assert_eq!(rt; Refusal::AbsentState.number(), 2);
    for (left, right) in [(5, 0), (0, 5), (usize::MAX, usize::MAX)] {
        let refused = Err(Refusal::AbsentState);
        assert_eq!(rt; comparer.judge(&sheet, left, right), refused);
        assert_eq!(rt; comparer.strict(&sheet, left, right), refused);
        assert_eq!(rt; comparer.compare(&bare, left, right), refused);
    }
    Ok(())
}

#[test]
fn plain_systems(rt: HostRuntime) -> Result<(), Fail> {
    let mut sheet = Sheet::blank(rt.alloc())?;
    LOOSE.write(&mut sheet)?;
    let bare = Bare { source: &sheet };
    let surrounded = Surrounded::of(&sheet);
    let mut comparer = Comparer::new(rt.alloc())?;
    assert_eq!(rt; comparer.compare(&bare, 0, 3)?, Verdict::Apart { round: 1 });
    assert_eq!(rt; comparer.compare(&surrounded, 0, 3)?, Verdict::Alike);
    for left in 0..5 {
        for right in 0..5 {
            let strictly = comparer.strict(&sheet, left, right);
            assert_eq!(rt; comparer.compare(&bare, left, right), strictly);
            let judged = comparer.judge(&sheet, left, right);
            assert_eq!(rt; comparer.compare(&surrounded, left, right), judged);
        }
    }
    Ok(())
}
