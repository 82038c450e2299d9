// The classes that a round has made so far, found by their hash.
ghost use Rattle.std.specs.Prelude.{◌≡◌, ◌≤◌, vec_len, vec_capacity};
ghost use Rattle.refine.specs.Chains.{Chained};

use crate::classes::Class;

pub(crate) mod finding;

// How many chains there are.
pub(crate) const BUCKETS: usize = 4096;

// The classes in the order in which they were made, and the link to the last class of each chain. A map of the standard library would take
// memory as it is filled, and nothing that judges may.
#[derive(Drop)]
pub(crate) struct Chains {
    heads: Vec<u16>,
    made: Vec<Class>,
    ghost buckets: { vec_len heads ≡ 4096 },
    ghost room: { 3168 ≤ vec_capacity made },
    ghost chained: { Chained heads.items made.items },
}
