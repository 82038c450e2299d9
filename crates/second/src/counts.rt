// What two comparers say of a pair of states, and how often.
use crate::pairs::Pair;
use std::fmt;
use std::num::Saturating;

pub fn word(alike: bool) -> &'static str {
    if alike { "alike" } else { "apart" }
}

// Whether the pair is alike to the second comparer, to the main one, and to the main one when asked strictly.
#[derive(Clone, Copy)]
pub struct Opinions {
    pub second: bool,
    pub main: bool,
    pub strict: bool,
}

impl Opinions {
    pub fn agree(self) -> bool {
        self.second == self.main
    }
}

// What the second comparer says, and then what the main one does.
impl fmt::Display for Opinions {
    fn fmt<W: fmt::Write>(&self, f: &mut fmt::Formatter<W>) -> fmt::Result {
        write!(f, "{}, {}", word(self.second), word(self.main))
    }
}

// What was counted of many joins. A count stops at the largest number.
#[derive(Drop, Default)]
pub struct Tally {
    pub joins: Saturating<usize>,
    pub pairs: Saturating<usize>,
    pub agreed: Saturating<usize>,
    pub alike: Saturating<usize>,
    pub alike_of_two: Saturating<usize>,
    pub alike_not_strictly: Saturating<usize>,
}

impl Tally {
    pub fn count_join(&mut self) {
        self.joins += 1;
    }

    pub fn count_pair(&mut self, pair: Pair, opinions: Opinions) {
        let alike = opinions.second;
        self.pairs += 1;
        self.agreed += usize::from(opinions.agree());
        self.alike += usize::from(alike);
        self.alike_of_two += usize::from(alike && pair.left != pair.right);
        self.alike_not_strictly += usize::from(alike && !opinions.strict);
    }
}

impl fmt::Display for Tally {
    fn fmt<W: fmt::Write>(&self, f: &mut fmt::Formatter<W>) -> fmt::Result {
        writeln!(f, "Joins drawn by chance: {}", self.joins)?;
        writeln!(f, "  pairs of states: {}", self.pairs)?;
        writeln!(f, "  the comparers agree: {}", self.agreed)?;
        writeln!(f, "  alike: {}", self.alike)?;
        writeln!(f, "  alike, of two states: {}", self.alike_of_two)?;
        write!(f, "  alike, but not strictly: {}", self.alike_not_strictly)
    }
}
