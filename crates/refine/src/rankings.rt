// The classes of a round, as the next round asks for them.
ghost use Rattle.std.specs.Prelude.{◌≡◌, ℕ, length};
ghost use Rattle.refine.specs.Codes.{Placed};
ghost use Rattle.refine.specs.Tables.{table_system};

use crate::codes::Signature;
use crate::tables::Table;

// A system in memory, and for each of its states where the codes of its class begin.
#[derive(Clone, Copy)]
pub(crate) struct Ranking<'a> {
    pub(crate) table: Table<'a>,
    pub(crate) begins: &'a [u32],
    ghost long: { length begins.now ≡ table.states },
    ghost placed: { ((p : ℕ) → Placed begins.now 126720 ((table_system table).from p)) },
}

impl Ranking<'_> {
    // The steps of a state, none if it is absent, with where the codes of each class begin.
    pub(crate) fn signature(&self, state: usize) -> Signature<'_>
        ensures steps { result.steps.now ≡ (table_system self.now.table).from state }
        ensures begins { result.begins.now ≡ self.now.begins.now }
    {
        Signature {
            steps: self.table.steps(state),
            begins: self.begins,
        }
    }
}
