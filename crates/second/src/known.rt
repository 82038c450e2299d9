// Pairs of sheets whose first states are known to be alike or apart.
use crate::drafts::{A, B, C, Drafts, Sketch, T, TAU};
use crate::trials::Bench;
use std::alloc::{AllocError, Global};

// Two sheets, and what they differ in. The tests of `comparisons` have the same pairs, with verdicts; a program sees no test's table.
#[derive(Drop)]
struct Row {
    name: &'static str,
    left: Sketch,
    right: Sketch,
}

impl Row {
    fn drafts(&self, heap: Global) -> Result<Drafts, AllocError> {
        Ok(Drafts {
            left: self.left.draft(heap)?,
            right: self.right.draft(heap)?,
        })
    }
}

// The first three are alike. The others are apart, the last two not at first sight.
const ROWS: [Row; 8] = [
    Row {
        name: "a signal that is not allowed when time runs out",
        left: Sketch {
            states: 4,
            signals: 1,
            steps: &[(0, A, 1), (0, T, 2), (2, TAU, 3), (2, A, 3)],
        },
        right: Sketch {
            states: 4,
            signals: 1,
            steps: &[(0, A, 1), (0, T, 2), (2, TAU, 3)],
        },
    },
    Row {
        name: "a time-out beside an inner step",
        left: Sketch {
            states: 3,
            signals: 0,
            steps: &[(0, TAU, 1), (0, T, 2)],
        },
        right: Sketch {
            states: 2,
            signals: 0,
            steps: &[(0, TAU, 1)],
        },
    },
    Row {
        name: "one loop, written in two ways",
        left: Sketch {
            states: 3,
            signals: 2,
            steps: &[(0, A, 1), (0, A, 2), (1, B, 0), (2, B, 0)],
        },
        right: Sketch {
            states: 3,
            signals: 2,
            steps: &[(0, A, 1), (1, B, 2), (2, A, 1)],
        },
    },
    Row {
        name: "a signal, or nothing",
        left: Sketch {
            states: 2,
            signals: 1,
            steps: &[(0, A, 1)],
        },
        right: Sketch {
            states: 1,
            signals: 1,
            steps: &[],
        },
    },
    Row {
        name: "a signal twice, or once",
        left: Sketch {
            states: 3,
            signals: 1,
            steps: &[(0, A, 1), (1, A, 2)],
        },
        right: Sketch {
            states: 2,
            signals: 1,
            steps: &[(0, A, 1)],
        },
    },
    Row {
        name: "a time-out, or nothing",
        left: Sketch {
            states: 2,
            signals: 0,
            steps: &[(0, T, 1)],
        },
        right: Sketch {
            states: 1,
            signals: 0,
            steps: &[],
        },
    },
    Row {
        name: "a signal that is allowed later",
        left: Sketch {
            states: 3,
            signals: 1,
            steps: &[(0, A, 2), (0, T, 1), (1, A, 2)],
        },
        right: Sketch {
            states: 3,
            signals: 1,
            steps: &[(0, A, 2), (0, T, 1)],
        },
    },
    Row {
        name: "a choice before a signal, or after it",
        left: Sketch {
            states: 5,
            signals: 3,
            steps: &[(0, A, 1), (0, A, 2), (1, B, 3), (2, C, 4)],
        },
        right: Sketch {
            states: 4,
            signals: 3,
            steps: &[(0, A, 1), (1, B, 2), (1, C, 3)],
        },
    },
];

// Prints what both comparers say.
pub fn show_known(rt: &HostRuntime, bench: &mut Bench) -> anyhow::Result<()> {
    for row in &ROWS {
        let opinions = bench.ask(&row.drafts(rt.alloc())?)?;
        println!(rt; "  {}: {opinions}", row.name)?;
    }
    Ok(())
}
