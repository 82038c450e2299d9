// The comparer.

use crate::tables::rows::Rows;
use crate::workspaces::Workspace;

pub mod judging;

// The most states of a source, and the most steps that leave one of its states.
pub(crate) const MOST_STATES: usize = 96;

pub(crate) const MOST_LEAVING: usize = 4096;

// Compares states of sources and of plain systems. All its memory is reserved when it is made, so that no later call wants any.
#[derive(Drop)]
pub struct Comparer {
    rows: Rows<MOST_STATES, MOST_LEAVING>,
    workspace: Workspace,
}
