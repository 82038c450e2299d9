// A copy is made from any source, and is a source itself.
ghost use Rattle.std.specs.Prelude.{◌≡◌};
ghost use Rattle.lts.specs.Environments.{bare};
ghost use Rattle.refine.specs.Tables.{table_system};
ghost use Rattle.refine.specs.Copies.{copied_process, copied_origins, copied_limits, copied_originated};

use super::Copied;
use crate::tables::Table;
use lts::sources::Source;
use lts::steps::{Origin, Side, Step};

impl<'a> Copied<'a> {
    // The source whose steps were listed into this table.
    pub(crate) fn of<S: Source>(source: &S, table: Table<'a>) -> Copied<'a>
        requires { table_system table ≡ bare (S.meaning source.now) }
        ensures { copied_process result ≡ S.meaning source.now }
    {
        Copied {
            signals: source.signals(),
            table,
        }
    }
}

impl Source for Copied<'_> {
    ghost meaning = { copied_process };

    ghost origins = { copied_origins };

    ghost limits = { copied_limits };

    ghost originated = { copied_originated };

    fn states(&self) -> usize {
        self.table.states
    }

    fn signals(&self) -> usize {
        self.signals
    }

    fn step_count(&self, state: usize) -> usize {
        self.table.steps(state).len()
    }

    #[tactic(auto, using(crate::proofs::Places::got))]
    fn step(&self, state: usize, place: usize) -> Option<Step> {
        self.table.steps(state).get(place).copied()
    }

    fn origin(&self, state: usize, place: usize) -> Option<Origin> {
        self.step(state, place)?;
        Some(Origin {
            side: Side::Left,
            place: 0,
        })
    }
}
