// The memory of the rounds, reserved once for the largest plain system.
ghost use Rattle.std.specs.Prelude.{◌≡◌, vec_len};

use crate::rounds::Classifier;
use crate::tables::rows::Rows;

pub(crate) mod running;

// The most states of a plain system, and the most steps that leave one of its states. Clauses write these numbers out, as the limits in lts do.
pub(crate) const MOST_STATES: usize = 3168;

pub(crate) const MOST_LEAVING: usize = 4128;

// Room for a plain system of any size, and for its rounds. What it holds between two runs is of no account. The two lists of class numbers
// stay at full length and are lent cut to the system at hand: emptied and pushed to, they would promise their room in each contract below.
#[derive(Drop)]
pub(crate) struct Workspace {
    rows: Rows<MOST_STATES, MOST_LEAVING>,
    pub(crate) begins: Vec<u32>,
    next: Vec<u32>,
    classifier: Classifier,
    ghost long: { vec_len begins ≡ 3168 },
    ghost wide: { vec_len next ≡ 3168 },
}
