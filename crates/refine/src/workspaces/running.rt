// Runs of rounds on any plain system.
ghost use Rattle.std.specs.Prelude.{◌≤◌};
ghost use Rattle.refine.specs.Runs.{Refined};

use super::{MOST_STATES, Workspace};
use crate::pairs::Pair;
use crate::rounds::Classifier;
use crate::tables::rows::Rows;
use crate::verdicts::Verdict;
use lts::systems::Lts;
use std::alloc::{AllocError, Global};

impl Workspace {
    // Reserves the memory. The steps take address space for 13 million of 16 bytes each, but no memory until they are written.
    pub(crate) fn new(heap: Global) -> Result<Workspace, AllocError> {
        let rows = Rows::new(heap)?;
        let begins = vec![in heap; 0u32; MOST_STATES]?;
        let next = vec![in heap; 0u32; MOST_STATES]?;
        let classifier = Classifier::new(heap)?;
        Ok(Workspace {
            rows,
            begins,
            next,
            classifier,
        })
    }

    // Refines the system until a round separates the pair, or splits no class.
    pub(crate) fn run<L: Lts>(&mut self, lts: &L, pair: Pair) -> Verdict
        requires { pair.states ≤ (L.system lts.now).states }
        ensures { Refined (L.system lts.now) pair.left pair.right result self.new.begins.items }
    {
        self.rows.list(lts);
        let table = self.rows.table(lts);
        let states = table.states;
        self.classifier.refine(
            &table,
            pair,
            &mut self.begins[0..states],
            &mut self.next[0..states],
        )
    }
}
