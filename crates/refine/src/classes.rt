// A class that a round has made.

// The weight of its first state's signature, that state, and the link to the class before it in its chain. A link is 0 at the end of a
// chain, and otherwise one more than the number of a class: as an `Option` it made every judgement by a twelfth slower, and a changed sheet
// takes more than 1.1 times what the comparer by hand takes then.
#[derive(Clone, Copy)]
pub(crate) struct Class {
    pub(crate) hash: u64,
    pub(crate) first: u16,
    pub(crate) next: u16,
}
