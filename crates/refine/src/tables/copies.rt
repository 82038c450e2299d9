// A copy of a source, which answers in one read what the source may have to walk for.
ghost use Rattle.std.specs.Prelude.{◌≡◌, ◌+◌};
ghost use Rattle.std.proofs.Props.{props};
ghost use Rattle.lts.specs.Processes.{ProcessLimits};
ghost use Rattle.refine.specs.Tables.{table_process};

use super::Table;

pub(crate) mod asking;

// The steps of a source in a table, within a source's limits.
#[derive(Clone, Copy)]
pub(crate) struct Copied<'a> {
    signals: usize,
    table: Table<'a>,
    ghost labels: { table.labels ≡ signals + 2 },
    ghost limits: { ProcessLimits (table_process table signals) } by { Prim.hlevel props },
}
