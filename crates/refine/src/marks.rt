// Marks on codes, by which the steps of two states are compared without sorting them.
ghost use Rattle.std.specs.Prelude.{◌≡◌, ℕ, ◌≤◌, vec_len, slice_index};

pub(crate) mod marking;

// A code is marked if it has the last stamp. Each state is marked with a stamp of its own, so marks need no clearing from state to state.
#[derive(Drop)]
pub(crate) struct Marks {
    stamps: Vec<u32>,
    last: u32,
    ghost long: { vec_len stamps ≡ 126720 },
    ghost bound: { ((c : ℕ) → slice_index stamps.items c ≤ last) },
}
